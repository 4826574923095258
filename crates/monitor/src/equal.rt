// Whether two summaries are equal: equal rule text, count and rows.
ghost use Rattle.std.specs.Prelude.{◌≡◌, Decides};
ghost use Rattle.monitor.specs.Outside.{summary_state};
ghost use Rattle.runs.specs.Calls.{EqualAnswer};

use crate::holding::refused;
use crate::summary::Summary;
use fault::{WorkCause, WorkFault};
use scale::order::Scale;

// Have two slices the same values, by the scale's own test: a scale need not have `==`.
fn same_values<S: Scale>(first: &[S], second: &[S]) -> bool
    ensures { Decides result (first.now ≡ second.now) }
{
    first.len() == second.len()
        && first
            .iter()
            .zip(second)
            .all(|(one, other)| one.same(*other))
}

// Are two summaries equal; refused where a buffer is too short. It is no derived `==`, which would have no refusal, and would
// compare what a buffer holds behind the rows.
pub fn equal<'a, 'b, S: Scale>(
    first: &Summary<'a, S>,
    second: &Summary<'b, S>,
) -> Result<bool, WorkFault>
    ensures { EqualAnswer S.Scale.algebra (summary_state first.now) (summary_state second.now) result }
{
    if first.is_short() || second.is_short() {
        return Err(refused(WorkCause::BufferShort));
    }
    Ok(
        first.head.text == second.head.text
            && first.count == second.count
            && same_values(first.rows(), second.rows()),
    )
}
