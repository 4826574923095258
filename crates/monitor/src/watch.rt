// A watch.
use crate::held::Held;
use crate::kept::FirstRow;

// A watch reads a log's letters in order and reports after each. It keeps the head of its rule, how many letters it has read,
// and row 0 of the log's table in the caller's buffer.
pub type Watch<'b, S> = Held<'b, S, FirstRow>;
