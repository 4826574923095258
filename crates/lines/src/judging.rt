// What `judge` answers to a line.
ghost use Rattle.std.specs.Prelude.{◌≡◌, ◌<◌, ◌≤◌, [], map, length, IfOk, string_bytes};
ghost use Rattle.letter.specs.Bits.{bits_heard};
ghost use Rattle.lines.specs.Answers.{report_text};
ghost use Rattle.lines.specs.Judging.{log_of, Answered};
ghost use Rattle.rule.specs.Stands.{rule_of};
ghost use Rattle.scale.specs.Verdicts.{verdicts};
ghost use Rattle.semantics.specs.Reports.{report};

use crate::answer;
use crate::log::Log;
use evaluator::report::judge_log;
use letter::bits::Bits;
use letter::line::read_bits;
use rule::Rule;
use std::alloc::{AllocError, Global};

impl Log {
    // A log of no letters.
    pub fn empty() -> Log
        ensures { log_of result ≡ [] }
    {
        Log {
            letters: [Bits::default(); 64],
            count: 0,
        }
    }
}

// The line for the report on a log of 1 to 64 bit letters.
fn judged(heap: Global, rule: &Rule, letters: &[Bits]) -> Result<String, AllocError>
    requires some { 0 < length letters.now }
    requires few { length letters.now ≤ 64 }
    ensures { IfOk result (λ text. string_bytes text ≡ report_text (length letters.now) (report verdicts (rule_of rule.now) (map bits_heard letters.now))) }
{
    // such a log has values unless memory is wanting
    let Ok(Some(values)) = judge_log(heap, rule, letters) else {
        return Err(AllocError);
    };
    answer::report(heap, letters.len(), values)
}

// The line that answers a letter's line: the report on the log with that letter, or a refusal. None where the log is full.
pub fn answer_line(
    heap: Global,
    rule: &Rule,
    log: &mut Log,
    line: &[u8],
) -> Result<Option<String>, AllocError>
    ensures { Answered (rule_of rule.now) (log_of log.old) line.now (log_of log.new) result }
{
    // a refusal is answered by a line, and so is no error here
    let letter = match read_bits(line) {
        Ok(letter) => letter,
        Err(fault) => return Ok(Some(answer::refusal(heap, fault)?)),
    };
    let count = log.count;
    if count >= 64 {
        return Ok(None);
    }
    log.letters[count] = letter;
    let text = judged(heap, rule, &log.letters[..count + 1])?;
    log.count = count + 1;
    Ok(Some(text))
}
