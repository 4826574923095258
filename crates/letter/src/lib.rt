// Letters: the state of the recorder's sixteen channels in one minute. What every kind of letter answers (kind),
// bit letters (bits) and the reader of their lines (line), measured letters (measured).
#![tactic(auto)]

pub mod bits;
pub mod kind;
pub mod line;
pub mod measured;
