// Reading grids, and joins and meets along them.
ghost use Rattle.std.specs.Prelude.{◌≡◌, ℕ, ◌-◌, ◌<◌, ◌≤◌, length};
ghost use Rattle.semantics.specs.Folds.{join_over, meet_over};
ghost use Rattle.evaluator.specs.Tables.{entry, cell, Gives, Merges, merged};

use crate::grid::Grid;
use scale::order::Scale;

// A start, merged with the values at the positions from low to below high. Two numbers and no Range, here and below,
// since each clause names them: a Range would be taken apart in all of them.
fn fold_over<S: Copy, F: Fn(usize) -> S, M: Fn(S, S) -> S>(
    low: usize,
    high: usize,
    start: S,
    merge: M,
    value: F,
) -> S
    requires callable { M.IsAlwaysCallable merge }
    requires inside { (k : ℕ) → low ≤ k → k < high → F.pre value k }
    ensures { (m : S → S → S) (f : ℕ → S) → Merges (M.post merge) m → Gives (F.post value) low high f → result ≡ merged m start low (high - low) f }
{
    (low..high).map(value).fold(start, merge)
}

impl<S: Scale> Grid<S> {
    // The value from one position to another. Clauses tie positions to this grid, here and below: a type for them would have to
    // name the grid.
    pub fn at(&self, from: usize, to: usize) -> S
        requires from_in { from < self.now.size }
        requires to_in { to < self.now.size }
        ensures { result ≡ cell S.Scale.algebra self.now from to }
    {
        self.cells[from * self.size + to]
    }

    // By way of some position from low to below high: here to it, and in the other grid from it on.
    pub fn through(&self, other: &Grid<S>, from: usize, to: usize, low: usize, high: usize) -> S
        requires from_in { from < self.now.size }
        requires to_in { to < other.now.size }
        requires first { high ≤ self.now.size }
        requires second { high ≤ other.now.size }
        ensures { result ≡ join_over S.Scale.algebra low high (λ k. S.Scale.algebra.meet (cell S.Scale.algebra self.now from k) (cell S.Scale.algebra other.now k to)) }
    {
        fold_over(
            low,
            high,
            S::worst(),
            S::join,
            |k|
                requires { (from < self.now.size) × (k < self.now.size) × (k < other.now.size) × (to < other.now.size) }
            { self.at(from, k).meet(other.at(k, to)) },
        )
    }

    // To some position from low to below high, and there the row's value.
    pub fn some_along(&self, row: &[S], from: usize, low: usize, high: usize) -> S
        requires from_in { from < self.now.size }
        requires first { high ≤ self.now.size }
        requires second { high ≤ length row.now }
        ensures { result ≡ join_over S.Scale.algebra low high (λ k. S.Scale.algebra.meet (cell S.Scale.algebra self.now from k) (entry S.Scale.algebra row.now k)) }
    {
        fold_over(
            low,
            high,
            S::worst(),
            S::join,
            |k| self.at(from, k).meet(row[k]),
        )
    }

    // To every position from low to below high: not to it, or there the row's value. Beside some_along, since start,
    // merge and value differ: one function of both would be given all three, and that is fold_over.
    pub fn every_along(&self, row: &[S], from: usize, low: usize, high: usize) -> S
        requires from_in { from < self.now.size }
        requires first { high ≤ self.now.size }
        requires second { high ≤ length row.now }
        ensures { result ≡ meet_over S.Scale.algebra low high (λ k. S.Scale.algebra.join (S.Scale.algebra.opposite (cell S.Scale.algebra self.now from k)) (entry S.Scale.algebra row.now k)) }
    {
        fold_over(
            low,
            high,
            S::best(),
            S::meet,
            |k| self.at(from, k).opposite().join(row[k]),
        )
    }
}
