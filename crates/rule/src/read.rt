// Reading a whole text.
ghost use Rattle.rule.specs.Reads.{Reads};

use crate::reader::Reader;
use crate::tree::Rule;
use fault::{TextCause, TextFault};
use std::alloc::Global;

const MOST_BYTES: usize = 96;

// Reads the whole text as a rule. A refusal says the first thing that is wrong, and where.
pub fn read_rule(heap: Global, text: &[u8]) -> Result<Rule, TextFault>
    ensures { Reads text.now result }
{
    if text.is_empty() || text.len() > MOST_BYTES {
        return Err(TextFault::Refused(TextCause::Length, 0));
    }
    let mut reader = Reader::new(heap, text);
    let rule = reader.rule()?;
    if !reader.rest.is_empty() {
        return Err(TextFault::Refused(TextCause::LeftOver, reader.at));
    }
    Ok(rule)
}
