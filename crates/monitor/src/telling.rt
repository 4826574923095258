// The report: what row 0 tells, which is verdict, floor and ceiling.
ghost use Rattle.std.specs.Prelude.{◌≡◌, ◌^◌, ◌<◌, ◌≤◌, false, length, slice_index_or};
ghost use Rattle.cells.specs.Step.{end_marks};
ghost use Rattle.monitor.specs.Checks.{report_check};
ghost use Rattle.monitor.specs.Outside.{state_of};
ghost use Rattle.rule.specs.Stands.{rule_of};
ghost use Rattle.runs.specs.Calls.{told, report_answer};
ghost use Rattle.semantics.specs.Inward.{inward};
ghost use Rattle.semantics.specs.Marks.{mark_of};

use crate::held::Held;
use crate::holding::refused;
use crate::kept::Kept;
use crate::rows::corners;
use cells::laid::Laid;
use cells::laid_rule::LaidRule;
use cells::row::row_by;
use fault::{WorkCause, WorkFault};
use scale::order::Scale;

// The mark of one of a rule's cells.
fn mark_of_cell<S: Scale>(laid: &Laid, cell: usize) -> S
    requires { cell < laid.now.count }
    ensures { result ≡ slice_index_or (end_marks S.Scale.algebra.pending (mark_of S.Scale.algebra) (inward false (rule_of laid.now.rule))) cell S.Scale.algebra.worst }
{
    laid.mark(cell).unwrap_or(S::worst())
}

// Row 0 at the marks, its first entry and its last: a triple, by a rule of the project.
fn tell<S: Scale>(laid: &Laid, table: &[S]) -> (S, S, S)
    requires { 2 ^ laid.now.count ≤ length table.now }
    ensures { result ≡ told S.Scale.algebra (record { rule = rule_of laid.now.rule; count = 0; buffer = table.now }) }
{
    let size = corners(laid.count);
    let verdict = row_by(&table[..size], laid.count, |cell| mark_of_cell(laid, cell));
    (verdict.unwrap_or(S::worst()), table[0], table[size - 1])
}

impl<'b, S: Scale, K: Kept> Held<'b, S, K> {
    // The checks of a report, spelled out as those of each call are.
    fn check_report(&self, rule: &LaidRule) -> Result<(), WorkFault>
        ensures { result ≡ report_check K.form (rule_of rule.now.laid.rule) (state_of self.now) }
    {
        if self.is_short() {
            return Err(refused(WorkCause::BufferShort));
        }
        if self.differs(rule) {
            return Err(refused(WorkCause::Differs));
        }
        if self.count.number == 0 {
            return Err(refused(WorkCause::NoLetter));
        }
        Ok(())
    }

    // Reports: the answer of report.
    pub(crate) fn told(&self, rule: &LaidRule) -> Result<(S, S, S), WorkFault>
        ensures { result ≡ report_answer S.Scale.algebra K.form (rule_of rule.now.laid.rule) (state_of self.now) }
    {
        self.check_report(rule)?;
        Ok(tell(&rule.laid, self.table))
    }
}
