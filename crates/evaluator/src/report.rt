// The report on a log: verdict, floor and ceiling of a rule.
ghost use Rattle.std.specs.Prelude.{◌≡◌, ◌<◌, ◌≤◌, false, map, length, IfOk};
ghost use Rattle.rule.specs.Stands.{rule_of};
ghost use Rattle.evaluator.specs.declared.report.Unjudged.TheVariants.{NoMemory};
ghost use Rattle.evaluator.specs.Judged.{Judged};
ghost use Rattle.evaluator.specs.Markings.{marks_of};
ghost use Rattle.semantics.specs.Continuations.{BitsSettle, Settles};
ghost use Rattle.semantics.specs.Equations.{Ground};
ghost use Rattle.semantics.specs.Examples.{Examples};
ghost use Rattle.semantics.specs.Later.{Later, Ordered};
ghost use Rattle.semantics.specs.Reports.{worth_on, report};
ghost use Rattle.semantics.specs.Sanity.{BitsTwoWay, Sane};

use crate::log::Log;
use crate::mark::{Marking, Value};
use crate::worth::rule_row;
use letter::kind::Letter;
use rule::tree::Rule;
use scale::order::Scale;
use std::alloc::{AllocError, Global};

// The longest log that is judged.
pub const LONGEST: usize = 64;

// Why a log is not judged.
#[derive(Clone, Copy, PartialEq, Eq, Debug)]
pub enum Unjudged {
    // The log is longer than that.
    TooLong,
    // There was no memory for the tables.
    NoMemory,
}

// By hand, since its clause names the error that `?` makes.
impl From<AllocError> for Unjudged {
    ghost from_gives = { λ _ r. r ≡ NoMemory };

    fn from(_error: AllocError) -> Unjudged {
        Unjudged::NoMemory
    }
}

// What a rule is worth at the first letter, under the marks of a value.
fn worth_at_first<S: Scale, L: Letter<Scale = S>>(
    log: &Log<L>,
    value: Value,
    rule: &Rule,
) -> Result<S, AllocError>
    ensures { IfOk result (λ v. v ≡ worth_on S.Scale.algebra (marks_of S.Scale.algebra value) (rule_of rule.now) (map L.Letter.heard log.now.letters.now) 0) }
{
    let row = rule_row(log, Marking { value, odd: false }, rule)?;
    Ok(row[0])
}

// Verdict, floor and ceiling: a triple here and in all calls, by a rule of the project.
fn three_values<S: Scale, L: Letter<Scale = S>>(
    log: &Log<L>,
    rule: &Rule,
) -> Result<(S, S, S), AllocError>
    ensures { IfOk result (λ t. t ≡ report S.Scale.algebra (rule_of rule.now) (map L.Letter.heard log.now.letters.now)) }
{
    let verdict = worth_at_first(log, Value::Verdict, rule)?;
    let floor = worth_at_first(log, Value::Floor, rule)?;
    let ceiling = worth_at_first(log, Value::Ceiling, rule)?;
    Ok((verdict, floor, ceiling))
}

// Verdict, floor and ceiling of a rule on a log; none for the empty log. The answer is that of the position rules
// (answer). What these promise stands beside it, for every scale: they hold with no bound on a recursion, and so do the
// equations of a segment with a continuation (ground); a report is in order (ordered); a later report lies between the
// earlier floor and ceiling (later); on a scale that settles, best holds on every endless continuation and worst on none
// (settles, sane); for bit letters on the verdict scale outright (bits, bits_two_way); and the worked examples come out (examples).
pub fn judge_log<S: Scale, L: Letter<Scale = S>>(
    heap: Global,
    rule: &Rule,
    letters: &[L],
) -> Result<Option<(S, S, S)>, Unjudged>
    ensures answer { Judged S.Scale.algebra (rule_of rule.now) (map L.Letter.heard letters.now) result }
    ensures ground { Ground S.Scale.algebra }
    ensures ordered { Ordered S.Scale.algebra }
    ensures later { Later S.Scale.algebra }
    ensures settles { Settles S.Scale.algebra }
    ensures sane { Sane S.Scale.algebra }
    ensures bits { BitsSettle }
    ensures bits_two_way { BitsTwoWay }
    ensures examples { Examples }
{
    judged(heap, rule, letters)
}

// The answer of judge_log.
fn judged<S: Scale, L: Letter<Scale = S>>(
    heap: Global,
    rule: &Rule,
    letters: &[L],
) -> Result<Option<(S, S, S)>, Unjudged>
    ensures { Judged S.Scale.algebra (rule_of rule.now) (map L.Letter.heard letters.now) result }
{
    if letters.len() > LONGEST {
        return Err(Unjudged::TooLong);
    }
    if letters.is_empty() {
        return Ok(None);
    }
    let log = Log { heap, letters };
    Ok(Some(three_values(&log, rule)?))
}
