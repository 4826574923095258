// Which rows of a log's table are kept: what tells a watch from a summary.
ghost use Rattle.std.specs.Prelude.{◌≡◌, ◌≤◌};
ghost use Rattle.monitor.specs.Outside.{own};
ghost use Rattle.runs.specs.States.{Form, watch as a_watch, summary as a_summary, rows_kept};

use crate::head::Head;

pub trait Kept {
    // whether they are a watch's or a summary's
    ghost form: { Form };

    // How many rows of the head's rule are kept.
    fn rows(head: &Head) -> usize
        ensures kept { result ≡ rows_kept form (own head.now) }
        ensures few { result ≤ 8 };
}

// Row 0 alone, which a watch keeps.
pub struct FirstRow;

// A row for each cell, as a summary keeps them.
pub struct EachRow;

impl Kept for FirstRow {
    ghost form = { a_watch };

    fn rows(_head: &Head) -> usize {
        1 // row 0
    }
}

impl Kept for EachRow {
    ghost form = { a_summary };

    fn rows(head: &Head) -> usize {
        head.cells
    }
}
