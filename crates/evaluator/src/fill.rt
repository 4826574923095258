// Rows and grids of values, made position by position.
ghost use Rattle.std.specs.Prelude.{◌≡◌, ℕ, ◌<◌, ◌≤◌, length, vec_len, IfOk};
ghost use Rattle.evaluator.specs.Tables.{entry, cell, Gives, GivesPairs, Merges, Rowed, Gridded};

use crate::grid::Grid;
use scale::order::Scale;
use std::alloc::{AllocError, Global};

// A row: the values at the positions below the size.
pub fn row_from_fn<S: Scale, F: Fn(usize) -> S>(
    heap: Global,
    size: usize,
    value: F,
) -> Result<Vec<S>, AllocError>
    requires { (k : ℕ) → k < size → F.pre value k }
    ensures size { IfOk result (λ row. vec_len row ≡ size) }
    ensures values { (f : ℕ → S) → Gives (F.post value) 0 size f → IfOk result (λ row. Rowed S.Scale.algebra size f row.items) }
{
    (0..size).map(value).collect(heap)
}

// The row that is merged of two, position by position.
pub fn merged_row<S: Scale, F: Fn(S, S) -> S>(
    heap: Global,
    first: &[S],
    second: &[S],
    merge: F,
) -> Result<Vec<S>, AllocError>
    requires callable { F.IsAlwaysCallable merge }
    requires same { length second.now ≡ length first.now }
    ensures size { IfOk result (λ row. vec_len row ≡ length first.now) }
    ensures values { (m : S → S → S) → Merges (F.post merge) m → IfOk result (λ row. Rowed S.Scale.algebra (length first.now) (λ k. m (entry S.Scale.algebra first.now k) (entry S.Scale.algebra second.now k)) row.items) }
{
    first
        .iter()
        .zip(second)
        .map(|(x, y)| merge(*x, *y))
        .collect(heap)
}

impl<S: Scale> Grid<S> {
    // The values at the pairs of positions below the size.
    pub fn from_fn<F: Fn(usize, usize) -> S>(
        heap: Global,
        size: usize,
        value: F,
    ) -> Result<Grid<S>, AllocError>
        requires { (i j : ℕ) → i < size → j < size → F.pre value i j }
        ensures size { IfOk result (λ grid. grid.size ≡ size) }
        ensures values { (f : ℕ → ℕ → S) → GivesPairs (F.post value) size f → IfOk result (Gridded S.Scale.algebra size f) }
    {
        // Two loops, since a chain over size * size places would need that the product fits, which no caller is asked.
        let mut cells = Vec::new(heap);
        for from in 0..size {
            for to in 0..size {
                cells.push(value(from, to))?;
            }
        }
        Ok(Grid { size, cells })
    }

    // Another value from one position to another.
    pub fn set(&mut self, from: usize, to: usize, value: S)
        requires from_in { from < self.old.size }
        requires to_in { to < self.old.size }
        ensures size { self.new.size ≡ self.old.size }
        ensures here { cell S.Scale.algebra self.new from to ≡ value }
        ensures others { (i j : ℕ) → i < self.old.size → j < self.old.size → (i ≡ from → j ≡ to → ⊥) → cell S.Scale.algebra self.new i j ≡ cell S.Scale.algebra self.old i j }
    {
        self.cells[from * self.size + to] = value;
    }
}
