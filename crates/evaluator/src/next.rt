// A next: its kind, the table of its segment, and its mark.
ghost use Rattle.std.specs.Prelude.{◌≡◌, suc, length};

use crate::table::Table;
use rule::leaf::Kind;

// What comes after a match of a segment; the mark is what it is worth past the log's end.
#[derive(Drop)]
pub struct Next<S> {
    pub kind: Kind,
    pub table: Table<S>,
    pub mark: S,
}

// A next, and the values at the log's letters of what comes after.
#[derive(Drop)]
pub struct Ahead<'a, S> {
    pub next: &'a Next<S>,
    pub after: &'a [S],
    ghost same: { next.now.table.matches.size ≡ suc (length after.now) },
}
