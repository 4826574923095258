// What `logwatch` answers to a line.
ghost use Rattle.std.specs.Prelude.{◌≡◌, List};
ghost use Rattle.letter.specs.Heard.{Heard};
ghost use Rattle.watch_lines.specs.Watching.{RuleAnswered, LineAnswered, LineForGood};
ghost use Rattle.monitor.specs.Outside.{watch_state};
ghost use Rattle.rule.specs.Stands.{rule_of};
ghost use Rattle.runs.specs.Runs.{Report, Run};
ghost use Rattle.scale.specs.Verdicts.{verdicts};

use cells::laid_rule::LaidRule;
use cells::lay_rule::lay_rule;
use letter::line::read_bits;
use lines::answer;
use monitor::watch::Watch;
use scale::verdict::Verdict;
use std::alloc::{AllocError, Global};

// The rule's line: the rule with its cells laid, or the line that says which refusal it is, which is no error of the program.
pub fn rule_line(heap: Global, line: &[u8]) -> Result<Result<LaidRule, String>, AllocError>
    ensures { RuleAnswered line.now result }
{
    match lay_rule(heap, line) {
        Ok(rule) => Ok(Ok(rule)),
        Err(fault) => {
            let number = fault.number().ok_or(AllocError)?;
            Ok(Err(answer::refusal_number(heap, number)?))
        }
    }
}

// The line that answers a letter's line: the answer of watch_line. A refusal is answered by a line too, and so is no error here.
// The report of a watch that has just read a letter is never refused.
fn answered<'b>(
    heap: Global,
    rule: &LaidRule,
    watch: &mut Watch<'b, Verdict>,
    spare: &mut [Verdict],
    line: &[u8],
) -> Result<String, AllocError>
    ensures answer { LineAnswered (rule_of rule.now.laid.rule) (watch_state watch.old) spare.old line.now (watch_state watch.new) spare.new result }
    ensures buffer { watch.new.table.ghost_name ≡ watch.old.table.ghost_name }
{
    let letter = match read_bits(line) {
        Ok(letter) => letter,
        Err(fault) => return answer::refusal(heap, fault),
    };
    if let Err(fault) = watch.letter(rule, &letter, spare) {
        return answer::refusal_number(heap, fault.number());
    }
    let (Ok(values), Ok(count)) = (watch.report(rule), watch.count()) else {
        return Err(AllocError);
    };
    answer::report(heap, count as usize, values)
}

// The line that answers a letter's line: how many letters the watch has now read and its report, or a refusal (answer). What
// it says of the log so far stands beside it (lasting), and the next line can rely on it again (run).
pub fn watch_line<'b>(
    heap: Global,
    rule: &LaidRule,
    watch: &mut Watch<'b, Verdict>,
    spare: &mut [Verdict],
    line: &[u8],
) -> Result<String, AllocError>
    ensures answer { LineAnswered (rule_of rule.now.laid.rule) (watch_state watch.old) spare.old line.now (watch_state watch.new) spare.new result }
    ensures lasting { LineForGood (rule_of rule.now.laid.rule) (watch_state watch.old) spare.old line.now result }
    ensures buffer { watch.new.table.ghost_name ≡ watch.old.table.ghost_name }
    ensures run { (log : List (Heard Verdict)) (reports : List (Report Verdict)) → Run verdicts (watch_state watch.old) log reports → (log' : List (Heard Verdict)) × (reports' : List (Report Verdict)) × Run verdicts (watch_state watch.new) log' reports' }
{
    answered(heap, rule, watch, spare, line)
}
