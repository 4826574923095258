// The table of a segment.
ghost use Rattle.std.specs.Prelude.{◌≡◌, vec_len};

use crate::grid::Grid;

// Where a segment matches, and where it is still open at the log's end. The positions are those of the log
// and its end.
#[derive(Drop)]
pub struct Table<S> {
    pub matches: Grid<S>,
    pub opened: Vec<S>,
    ghost same: { vec_len opened ≡ matches.size },
}
