// Comparing summaries: they are equal when text, count and rows are.
use crate::shared::{BLANK, Refusal, volume};
use cells::laid_rule::LaidRule;
use cells::lay_rule::lay_rule;
use monitor::equal::equal;
use scale::verdict::Verdict;
use scale::verdict::Verdict::Kept;
use std::process::Abort;
use std::test::Fail;

// Are the summaries of two volumes, in these buffers, equal.
fn alike(
    first: &LaidRule,
    words: &[u16],
    one: &mut [Verdict],
    second: &LaidRule,
    others: &[u16],
    two: &mut [Verdict],
) -> Result<bool, Refusal> {
    let left = volume(first, words, one);
    let right = volume(second, others, two);
    Ok(equal(&left, &right)?)
}

fn check_buffers(rt: &impl Abort, laid: &LaidRule) {
    let mut short = [BLANK; 7];
    let mut table = [BLANK; 8];
    assert_eq!(rt;
        alike(laid, &[], &mut short, laid, &[], &mut table),
        Err(Refusal(8, 0))
    );
    assert_eq!(rt;
        alike(laid, &[], &mut table, laid, &[], &mut short),
        Err(Refusal(8, 0))
    );
}

// Row 0 of these rules is best after any letter; row 1 is the value of channel 1. Text, count and row 1 are each once all
// that differs.
fn check_answers(rt: &impl Abort, laid: &LaidRule, other: &LaidRule) {
    let mut one = [BLANK; 8];
    let mut two = [Kept; 10];
    assert_eq!(rt; alike(laid, &[2], &mut one, laid, &[3], &mut two), Ok(true));
    assert_eq!(rt;
        alike(laid, &[2], &mut one, other, &[2], &mut two),
        Ok(false)
    );
    assert_eq!(rt;
        alike(laid, &[2], &mut one, laid, &[2, 2], &mut two),
        Ok(false)
    );
    assert_eq!(rt;
        alike(laid, &[2], &mut one, laid, &[0], &mut two),
        Ok(false)
    );
}

#[test]
fn equal_and_unequal_summaries(rt: HostRuntime) -> Result<(), Fail> {
    let laid = lay_rule(rt.alloc(), b"+yEyh01")?;
    let other = lay_rule(rt.alloc(), b"+yAyh01")?;
    check_buffers(&rt, &laid);
    check_answers(&rt, &laid, &other);
    Ok(())
}
