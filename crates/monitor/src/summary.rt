// A summary.
use crate::held::Held;
use crate::kept::EachRow;

// A summary does what a watch does for a volume, a stretch of log whose beginning it does not know. It keeps the head of its
// rule, how many letters it has read, and all rows of the volume's table, one for each cell, in the caller's buffer.
pub type Summary<'b, S> = Held<'b, S, EachRow>;
