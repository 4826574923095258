// A log that is judged.
ghost use Rattle.std.specs.Prelude.{◌<◌, ◌≤◌, length};

use std::alloc::Global;

// The letters of a log, some but few enough for its tables, and the memory that these are made in.
#[derive(Drop)]
pub struct Log<'a, L> {
    pub heap: Global,
    pub letters: &'a [L],
    ghost some: { 0 < length letters.now },
    ghost few: { length letters.now ≤ 64 },
}
