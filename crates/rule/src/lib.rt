// Rule texts: what a rule is, how it is spelled, and the reader that turns bytes into a rule or a refusal.
#![tactic(auto)]

mod build;
mod head;
pub mod leaf;
mod read;
mod reader;
mod sign;
pub mod tree;

pub use leaf::{Channel, Kind, Test};
pub use read::read_rule;
pub use tree::{Rule, Segment};
