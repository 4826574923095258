// A letter that comes after rows: each row is taken at the values of the letter's own table.
ghost use Rattle.std.specs.Prelude.{◌≡◌, ℕ, ◌≤◌, ◌++◌, length, take, drop};
ghost use Rattle.cells.specs.Tables.{corner_cells};
ghost use Rattle.monitor.specs.Work.{letter_table};
ghost use Rattle.rule.specs.Stands.{rule_of};
ghost use Rattle.runs.specs.States.{listing};
ghost use Rattle.std.proofs.Common.{rules};

use crate::after::After;
use crate::minute::Minute;
use crate::opening::empty_entry;
use cells::laid::Laid;
use cells::row::row_by;
use cells::step::step;
use letter::kind::Letter;
use scale::order::Scale;
use std::array;

// The cells of a corner, and those that the rule does not have: best where the corner has the bit, else worst.
fn corner_values<S: Scale>(corner: usize) -> [S; 8]
    ensures { (cells : ℕ) → cells ≤ 8 → take cells result ≡ corner_cells S.Scale.algebra cells corner }
{
    array::from_fn(|cell| empty_entry(cell, corner))
}

impl<'a, S: Scale, L: Letter<Scale = S>> Minute<'a, L> {
    // Writes the values of the letter's rows at a corner over the front of a slice.
    fn write_column(&self, corner: usize, values: &mut [S])
        requires { 8 ≤ length values.old }
        ensures { values.new ≡ listing self.now.laid.now.count (λ j. letter_table S.Scale.algebra (rule_of self.now.laid.now.rule) (L.Letter.heard self.now.letter.now) j corner) ++ drop self.now.laid.now.count values.old }
    {
        let after: [S; 8] = corner_values(corner);
        let all: &[S] = &after;
        let _ = step(self.laid, self.letter, &all[..self.laid.count], values);
    }
}

impl<'a, S: Scale, L: Letter<Scale = S>> After<S> for Minute<'a, L> {
    ghost cells = { λ m. m.laid.now.count };

    ghost table = { λ m. letter_table S.Scale.algebra (rule_of m.laid.now.rule) (L.Letter.heard m.letter.now) };

    ghost needed = { 8 };

    ghost few = { Prim.search rules };

    fn laid(&self) -> &Laid {
        self.laid
    }

    // The letter's column is written over the values.
    fn entry(&self, row: &[S], corner: usize, values: &mut [S]) -> S {
        self.write_column(corner, values);
        let column: &[S] = values;
        row_by(row, self.laid.count, |cell| column[cell]).unwrap_or(S::worst())
    }
}
