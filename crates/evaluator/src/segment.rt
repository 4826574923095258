// What a segment is worth: its table on a log, from the tables of its parts.
ghost use Rattle.std.specs.Prelude.{◌≡◌, ℕ, suc, ◌<◌, ◌≤◌, map, length, vec_len, IfOk};
ghost use Rattle.rule.specs.Stands.{segment_of};
ghost use Rattle.evaluator.specs.Parts.{single_match, either_match, chain_match, star_match, ending, either_open, chain_open, star_open};
ghost use Rattle.semantics.specs.Folds.{join_over};
ghost use Rattle.semantics.specs.Positions.{repeats};
ghost use Rattle.semantics.specs.Reports.{value_on};
ghost use Rattle.evaluator.specs.Segments.{matched, opened, Tabled, Segmented};
ghost use Rattle.evaluator.specs.Tables.{entry, cell, Gives, GivesPairs, Rowed, Gridded};

use crate::fill::{merged_row, row_from_fn};
use crate::grid::Grid;
use crate::log::Log;
use crate::table::Table;
use letter::kind::Letter;
use rule::leaf::Test;
use rule::tree::Segment;
use scale::order::Scale;
use semantics::test::tested;
use std::alloc::{AllocError, Global};

// What a test is worth on each letter.
pub fn letter_row<S: Scale, L: Letter<Scale = S>>(
    log: &Log<L>,
    test: &Test,
) -> Result<Vec<S>, AllocError>
    ensures { IfOk result (λ row. Rowed S.Scale.algebra (length log.now.letters.now) (value_on S.Scale.algebra (map L.Letter.heard log.now.letters.now) test.now) row.items) }
{
    log.letters
        .iter()
        .map(|letter| tested(test, letter))
        .collect(log.heap)
}

impl<S: Scale> Grid<S> {
    // The grid of any number of steps: from the diagonal, row by row, the last one first. Loops over positions, since
    // each cell reads cells that earlier turns wrote.
    fn repeats(&self, heap: Global) -> Result<Grid<S>, AllocError>
        ensures { IfOk result (Gridded S.Scale.algebra self.now.size (repeats S.Scale.algebra (cell S.Scale.algebra self.now))) }
    {
        let mut steps = Grid::from_fn(
            heap,
            self.size,
            |from, to| if from == to { S::best() } else { S::worst() },
        )?;
        for from in (0..self.size).rev() {
            for to in from + 1..self.size {
                let value = self.through(&steps, from, to, from + 1, to + 1);
                steps.set(from, to, value);
            }
        }
        Ok(steps)
    }
}

impl<S: Scale> Table<S> {
    // Whether the segment, or after a match of it the other one, is open from a position on.
    fn open_with(&self, other: &Table<S>, from: usize) -> S
        requires same { other.now.matches.size ≡ self.now.matches.size }
        requires from_in { from < self.now.matches.size }
        ensures { result ≡ S.Scale.algebra.join (opened S.Scale.algebra self.now from) (join_over S.Scale.algebra (suc from) self.now.matches.size (λ j. S.Scale.algebra.meet (matched S.Scale.algebra self.now from j) (opened S.Scale.algebra other.now j))) }
    {
        let size = self.matches.size;
        let onward = self.matches.some_along(&other.opened, from, from + 1, size);
        self.opened[from].join(onward)
    }
}

// The table of a segment that matches and is open so; at the log's end every segment is open.
fn table_from_fn<S: Scale, L, M: Fn(usize, usize) -> S, O: Fn(usize) -> S>(
    log: &Log<L>,
    matches: M,
    opened: O,
) -> Result<Table<S>, AllocError>
    requires matching { (i j : ℕ) → i < suc (length log.now.letters.now) → j < suc (length log.now.letters.now) → M.pre matches i j }
    requires opening { (i : ℕ) → i < length log.now.letters.now → O.pre opened i }
    ensures { (m : ℕ → ℕ → S) (o : ℕ → S) → GivesPairs (M.post matches) (suc (length log.now.letters.now)) m → Gives (O.post opened) 0 (length log.now.letters.now) o → IfOk result (Tabled S.Scale.algebra (length log.now.letters.now) m (ending S.Scale.algebra (length log.now.letters.now) o)) }
{
    let matches = Grid::from_fn(log.heap, log.letters.len() + 1, matches)?;
    let mut opened = row_from_fn(log.heap, log.letters.len(), opened)?;
    opened.push(S::best())?;
    Ok(Table { matches, opened })
}

// From one position to another by a test: only from a letter to the next position.
fn single<S: Scale>(row: &[S], from: usize, to: usize) -> S
    requires few { length row.now ≤ 64 }
    requires from_in { from ≤ length row.now }
    requires to_in { to ≤ length row.now }
    ensures { result ≡ single_match S.Scale.algebra (entry S.Scale.algebra row.now) from to }
{
    if to == from + 1 {
        row[from]
    } else {
        S::worst()
    }
}

// The table of a test that has the row's values; it is open at the log's end alone.
fn single_table<S: Scale, L>(log: &Log<L>, row: &[S]) -> Result<Table<S>, AllocError>
    requires { length row.now ≡ length log.now.letters.now }
    ensures { IfOk result (Tabled S.Scale.algebra (length log.now.letters.now) (single_match S.Scale.algebra (entry S.Scale.algebra row.now)) (ending S.Scale.algebra (length log.now.letters.now) (λ i. S.Scale.algebra.worst))) }
{
    table_from_fn(log, |from, to| single(row, from, to), |_from| S::worst())
}

// The tables of two segments on a log.
#[derive(Drop)]
struct Pair<'a, S, L> {
    log: &'a Log<'a, L>,
    first: Table<S>,
    second: Table<S>,
    ghost first_sized: { first.matches.size ≡ suc (length log.now.letters.now) },
    ghost second_sized: { second.matches.size ≡ suc (length log.now.letters.now) },
}

impl<'a, S: Scale, L> Pair<'a, S, L> {
    // The table of either segment.
    fn either(&self) -> Result<Table<S>, AllocError>
        ensures { IfOk result (Tabled S.Scale.algebra (length self.now.log.now.letters.now) (either_match S.Scale.algebra (matched S.Scale.algebra self.now.first) (matched S.Scale.algebra self.now.second)) (ending S.Scale.algebra (length self.now.log.now.letters.now) (either_open S.Scale.algebra (opened S.Scale.algebra self.now.first) (opened S.Scale.algebra self.now.second)))) }
    {
        let (first, second) = (&self.first, &self.second);
        table_from_fn(
            self.log,
            |from, to|
                requires first_in { (from < first.now.matches.size) × (to < first.now.matches.size) }
                requires second_in { (from < second.now.matches.size) × (to < second.now.matches.size) }
            { first.matches.at(from, to).join(second.matches.at(from, to)) },
            |from|
                requires first_in { from < vec_len first.now.opened }
                requires second_in { from < vec_len second.now.opened }
            { first.opened[from].join(second.opened[from]) },
        )
    }

    // The table of the first segment and then the second.
    fn chain(&self) -> Result<Table<S>, AllocError>
        ensures { IfOk result (Tabled S.Scale.algebra (length self.now.log.now.letters.now) (chain_match S.Scale.algebra (matched S.Scale.algebra self.now.first) (matched S.Scale.algebra self.now.second)) (ending S.Scale.algebra (length self.now.log.now.letters.now) (chain_open S.Scale.algebra (length self.now.log.now.letters.now) (matched S.Scale.algebra self.now.first) (opened S.Scale.algebra self.now.first) (opened S.Scale.algebra self.now.second)))) }
    {
        let (first, second) = (&self.first, &self.second);
        table_from_fn(
            self.log,
            |from, to| first
                .matches
                .through(&second.matches, from, to, from + 1, to),
            |from| first.open_with(second, from),
        )
    }

    // The table of the first segment any number of times and then the second.
    fn star(&self) -> Result<Table<S>, AllocError>
        ensures { IfOk result (Tabled S.Scale.algebra (length self.now.log.now.letters.now) (star_match S.Scale.algebra (repeats S.Scale.algebra (matched S.Scale.algebra self.now.first)) (matched S.Scale.algebra self.now.second)) (ending S.Scale.algebra (length self.now.log.now.letters.now) (star_open S.Scale.algebra (length self.now.log.now.letters.now) (repeats S.Scale.algebra (matched S.Scale.algebra self.now.first)) (opened S.Scale.algebra self.now.first) (opened S.Scale.algebra self.now.second)))) }
    {
        let (first, second) = (&self.first, &self.second);
        let steps = first.matches.repeats(self.log.heap)?;
        let either = merged_row(self.log.heap, &first.opened, &second.opened, S::join)?;
        let size = self.log.letters.len() + 1;
        table_from_fn(
            self.log,
            |from, to| steps.through(&second.matches, from, to, from, to),
            |from|
                requires { (from < steps.size) × (size ≤ steps.size) × (size ≤ vec_len either) }
            { steps.some_along(&either, from, from, size) },
        )
    }
}

// The table of a segment on a log. Either, Chain and Star have an arm each: one arm of the three would match on the
// segment again for the last call.
pub fn segment_table<S: Scale, L: Letter<Scale = S>>(
    log: &Log<L>,
    segment: &Segment,
) -> Result<Table<S>, AllocError>
    ensures { IfOk result (Segmented S.Scale.algebra (map L.Letter.heard log.now.letters.now) (segment_of segment.now)) }
{
    match segment {
        Segment::Single(test) => single_table(log, &letter_row(log, test)?),
        Segment::Either(first, second) => {
            let first = segment_table(log, first)?;
            let second = segment_table(log, second)?;
            Pair { log, first, second }.either()
        }
        Segment::Chain(first, second) => {
            let first = segment_table(log, first)?;
            let second = segment_table(log, second)?;
            Pair { log, first, second }.chain()
        }
        Segment::Star(first, second) => {
            let first = segment_table(log, first)?;
            let second = segment_table(log, second)?;
            Pair { log, first, second }.star()
        }
    }
}
