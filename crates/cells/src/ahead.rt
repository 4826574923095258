// What lies ahead of the cells before a letter.
ghost use Rattle.std.specs.Prelude.{◌≡◌, ◌≤◌};
ghost use Rattle.cells.specs.Reading.{cells_of};

use scale::order::Scale;

// A letter and the cells after it.
#[derive(Drop)]
pub struct Ahead<'a, S, L> {
    pub letter: &'a L,
    pub after: &'a [S],
}

impl<'a, S: Scale, L> Ahead<'a, S, L> {
    // A cell after the letter; worst past the end.
    pub fn cell_after(&self, cell: usize) -> S
        ensures { result ≡ cells_of S.Scale.algebra self.now.after.now cell }
    {
        self.after.get(cell).copied().unwrap_or(S::worst())
    }
}
