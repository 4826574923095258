// The text lines of `judge`: what is kept of a line of input (line), the log so far (log), the bytes of an answer (answer),
// and what is answered to a line (judging).
#![tactic(auto)]

pub mod answer;
pub mod judging;
pub mod line;
pub mod log;
