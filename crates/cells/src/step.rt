// One letter's step: all cells before the letter from the cells after it.
ghost use Rattle.std.specs.Prelude.{◌≡◌, ◌≤◌, false, ◌++◌, length, drop, slice_index_or};
ghost use Rattle.cells.specs.Answers.{Done};
ghost use Rattle.cells.specs.Meaning.{StepLaws, Stepping};
ghost use Rattle.cells.specs.Reading.{cells_before};
ghost use Rattle.cells.specs.Tables.{TableLaws};
ghost use Rattle.cells.specs.Walk.{Walked};
ghost use Rattle.rule.specs.Stands.{rule_of};

use crate::ahead::Ahead;
use crate::laid::Laid;
use letter::kind::Letter;
use scale::order::Scale;

// Why a step is not taken: an error of its own, so that callers can match it.
#[derive(Clone, Copy, PartialEq, Eq, Debug)]
pub enum StepFault {
    // There are fewer values than cells.
    Short,
}

// A cell before the letter; cell 0 is the whole rule.
fn cell_before<S: Scale, L: Letter<Scale = S>>(laid: &Laid, cell: usize, ahead: &Ahead<S, L>) -> S
    ensures { result ≡ slice_index_or (cells_before S.Scale.algebra (L.Letter.heard ahead.now.letter.now) ahead.now.after.now (rule_of laid.now.rule)) cell S.Scale.algebra.worst }
{
    if cell == 0 {
        ahead.rule_before(&laid.rule, false, 1)
    } else {
        ahead.inner_before(&laid.rule, false, 1, cell)
    }
}

// Writes all cells before the letter.
fn write_cells<S: Scale, L: Letter<Scale = S>>(laid: &Laid, ahead: &Ahead<S, L>, before: &mut [S])
    requires { length before.old ≡ laid.now.count }
    ensures { before.new ≡ cells_before S.Scale.algebra (L.Letter.heard ahead.now.letter.now) ahead.now.after.now (rule_of laid.now.rule) }
{
    for (cell, value) in before.iter_mut().enumerate() {
        *value = cell_before(laid, cell, ahead);
    }
}

// The answer of step.
fn stepped<S: Scale, L: Letter<Scale = S>>(
    laid: &Laid,
    letter: &L,
    after: &[S],
    before: &mut [S],
) -> Result<(), StepFault>
    ensures { Done S.Scale.algebra (L.Letter.heard letter.now) (rule_of laid.now.rule) after.now before.old before.new result }
{
    if after.len() < laid.count || before.len() < laid.count {
        return Err(StepFault::Short);
    }
    write_cells(laid, &Ahead { letter, after }, &mut before[..laid.count]);
    Ok(())
}

// All cells before the letter from the cells after it; what before holds past the cells stays (answer). Beside it stand,
// for every scale: the step takes the cells' meanings after a letter to those before it (laws); the steps over a log give
// its verdict, floor and ceiling (stepping); the walk over a segment gives the joins and meets over its tests (walked); and the
// cells before a log are its rows at the cells after it, which rise and compose (tables).
pub fn step<S: Scale, L: Letter<Scale = S>>(
    laid: &Laid,
    letter: &L,
    after: &[S],
    before: &mut [S],
) -> Result<(), StepFault>
    ensures answer { Done S.Scale.algebra (L.Letter.heard letter.now) (rule_of laid.now.rule) after.now before.old before.new result }
    ensures laws { StepLaws S.Scale.algebra }
    ensures stepping { Stepping S.Scale.algebra }
    ensures walked { Walked S.Scale.algebra }
    ensures tables { TableLaws S.Scale.algebra }
{
    stepped(laid, letter, after, before)
}
