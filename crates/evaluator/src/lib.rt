// The position rules: verdict, floor and ceiling of a rule on a log.
#![tactic(auto)]

mod fill;
mod fold;
mod grid;
mod log;
mod mark;
mod next;
pub mod report;
mod segment;
mod table;
mod worth;
