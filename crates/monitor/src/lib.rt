// The monitor: watches and summaries over the caller's buffers. A watch (watch, its calls in watching) reads letters, takes in
// summaries and reports; a summary (summary, its calls in summing) does so for a volume; two summaries are joined into a third
// (join) or compared (equal). Both are one type (held) that differs in which rows it keeps (kept), and what they do alike stands
// once (holding). Beneath: heads (head, heading), counts (count), and the work on rows (rows, opening, telling): a letter
// (minute, reading) or a volume (volume, adding) comes after them (after).
#![tactic(auto)]

mod adding;
mod after;
pub mod count;
pub mod equal;
pub mod head;
mod heading;
pub mod held;
mod holding;
pub mod join;
pub mod kept;
mod minute;
mod opening;
mod reading;
mod rows;
pub mod summary;
mod summing;
mod telling;
mod volume;
pub mod watch;
mod watching;
