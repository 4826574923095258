// Joining two summaries into a third.
ghost use Rattle.std.specs.Prelude.{◌≡◌, List, ◌++◌, Ok};
ghost use Rattle.letter.specs.Heard.{Heard};
ghost use Rattle.monitor.specs.Outside.{summary_state};
ghost use Rattle.rule.specs.Stands.{rule_of};
ghost use Rattle.runs.specs.Calls.{after, join_answer, join_state};
ghost use Rattle.runs.specs.Promises.{SummaryLaw};
ghost use Rattle.runs.specs.Runs.{Built};

use crate::holding::refused;
use crate::summary::Summary;
use crate::volume::Volume;
use cells::laid_rule::LaidRule;
use fault::{WorkCause, WorkFault};
use scale::order::Scale;

// The checks of a join, in order.
fn check_join<'a, 'b, 'c, S: Scale>(
    rule: &LaidRule,
    first: &Summary<'a, S>,
    second: &Summary<'b, S>,
    third: &Summary<'c, S>,
) -> Result<(), WorkFault>
    ensures { result ≡ join_answer S.Scale.algebra (rule_of rule.now.laid.rule) (summary_state first.now) (summary_state second.now) (summary_state third.now) }
{
    if first.is_short() || second.is_short() || third.is_short() {
        return Err(refused(WorkCause::BufferShort));
    }
    if first.differs(rule) || second.differs(rule) || third.differs(rule) {
        return Err(refused(WorkCause::Differs));
    }
    if first.count.overflows(second.count.number) {
        return Err(refused(WorkCause::CountAbove));
    }
    Ok(())
}

// The answer of join.
fn joined<'a, 'b, 'c, S: Scale>(
    rule: &LaidRule,
    first: &Summary<'a, S>,
    second: &Summary<'b, S>,
    third: &mut Summary<'c, S>,
) -> Result<(), WorkFault>
    ensures answer { result ≡ join_answer S.Scale.algebra (rule_of rule.now.laid.rule) (summary_state first.now) (summary_state second.now) (summary_state third.old) }
    ensures state { summary_state third.new ≡ join_state S.Scale.algebra (rule_of rule.now.laid.rule) (summary_state first.now) (summary_state second.now) (summary_state third.old) }
    ensures buffer { third.new.table.ghost_name ≡ third.old.table.ghost_name }
{
    check_join(rule, first, second, third)?;
    let volume = Volume {
        laid: &rule.laid,
        table: second.table,
    };
    volume.write_rows(first.table, third.table);
    third.count = first.count.plus(second.count.number);
    Ok(())
}

// Joins two summaries of neighbouring volumes into a third, which then is the summary of both, one after the other.
pub fn join<'a, 'b, 'c, S: Scale>(
    rule: &LaidRule,
    first: &Summary<'a, S>,
    second: &Summary<'b, S>,
    third: &mut Summary<'c, S>,
) -> Result<(), WorkFault>
    ensures answer { result ≡ join_answer S.Scale.algebra (rule_of rule.now.laid.rule) (summary_state first.now) (summary_state second.now) (summary_state third.old) }
    ensures state { summary_state third.new ≡ join_state S.Scale.algebra (rule_of rule.now.laid.rule) (summary_state first.now) (summary_state second.now) (summary_state third.old) }
    ensures buffer { third.new.table.ghost_name ≡ third.old.table.ghost_name }
    ensures built { (left right volume : List (Heard S)) → Built S.Scale.algebra (summary_state third.old) volume → (result ≡ Ok tt → Built S.Scale.algebra (summary_state first.now) left) → (result ≡ Ok tt → Built S.Scale.algebra (summary_state second.now) right) → Built S.Scale.algebra (summary_state third.new) (after result (left ++ right) volume) }
    ensures law { SummaryLaw S.Scale.algebra (summary_state third.new) }
{
    joined(rule, first, second, third)
}
