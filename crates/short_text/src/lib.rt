// Short texts: what is kept of a text in a place of fixed size (text), and the calls on it (bytes).
#![tactic(auto)]

mod bytes;
mod text;

pub use text::ShortText;
