// Taking in a summary: what is refused and in which order, and what is written.
use crate::shared::{BLANK, MOST, OWN, Refusal, Rules, SCRATCH, all_are, repeated, volume};
use cells::laid_rule::LaidRule;
use cells::lay_rule::lay_rule;
use fault::WorkFault;
use letter::bits::Bits;
use monitor::summary::Summary;
use monitor::watch::Watch;
use scale::verdict::Verdict;
use scale::verdict::Verdict::{Broken, Kept};
use std::process::Abort;
use std::test::Fail;

// What was seen of a call: the answer, the watch's count afterwards, its row with the place after it, and the summary's table.
type Seen = (
    Result<(), Refusal>,
    Result<u32, WorkFault>,
    ([Verdict; 5], [Verdict; 8]),
);

// A watch for one rule has read so many letters 0000 and takes in the summary of a letter 000e for another.
fn applied(
    own: &LaidRule,
    times: u32,
    summed: &LaidRule,
    rule: &LaidRule,
    spare: &mut [Verdict],
) -> Seen {
    let mut row = [BLANK; 5];
    let mut table = [BLANK; 8];
    let mut before = [BLANK; 8];
    let mut used = [BLANK; 312];
    let many = repeated(
        own,
        &Bits { word: 0 },
        times,
        &mut [BLANK; SCRATCH],
        &mut before,
    );
    let one = volume(summed, &[14], &mut table);
    let mut watch = Watch::open(own, &mut row);
    let _ = watch.apply(own, &many, &mut used);
    let answer = watch.apply(rule, &one, spare).map_err(Refusal::from);
    let count = watch.count();
    (answer, count, (row, table))
}

// A watch takes in an empty summary in these buffers.
fn applied_in(
    own: &LaidRule,
    row: &mut [Verdict],
    table: &mut [Verdict],
    rule: &LaidRule,
    spare: &mut [Verdict],
) -> Result<(), Refusal> {
    let summary = Summary::open(own, table);
    let mut watch = Watch::open(own, row);
    Ok(watch.apply(rule, &summary, spare)?)
}

// Each of the two buffers too short, with another text and too short a spare besides.
fn check_buffers(rt: &impl Abort, rules: &Rules) {
    let Rules { own, other } = rules;
    let mut scant = [BLANK; 311];
    let mut row = [BLANK; 4];
    let mut narrow = [BLANK; 3];
    let mut table = [BLANK; 8];
    let mut small = [BLANK; 7];
    assert_eq!(rt;
        applied_in(own, &mut narrow, &mut table, other, &mut scant),
        Err(Refusal(8, 0))
    );
    assert_eq!(rt;
        applied_in(own, &mut row, &mut small, other, &mut scant),
        Err(Refusal(8, 0))
    );
    assert_eq!(rt; narrow, [BLANK; 3]);
    assert_eq!(rt;
        table,
        [Broken, Kept, Broken, Kept, Broken, Broken, Kept, Kept]
    );
    assert_eq!(rt; row, [Broken, Kept, Broken, Kept]);
    assert_eq!(rt; small, [BLANK; 7]);
    assert!(rt; all_are(&scant, BLANK));
}

// In each call all faults that are checked later are there as well. Each of the three texts is once another one. Letters
// 0000 have rows 0 0 3 3, and 000e after them would make them 3 3 3 3.
fn check_others(rt: &impl Abort, rules: &Rules) {
    let Rules { own, other } = rules;
    let mut spare = [BLANK; 312];
    let mut scant = [BLANK; 311];
    let seen = ([Broken, Broken, Kept, Kept, BLANK], [Kept; 8]);
    assert_eq!(rt;
        applied(own, MOST, own, other, &mut scant),
        (Err(Refusal(7, 0)), Ok(MOST), seen)
    );
    assert_eq!(rt;
        applied(own, MOST, other, own, &mut scant),
        (Err(Refusal(7, 0)), Ok(MOST), seen)
    );
    assert_eq!(rt;
        applied(other, MOST, own, own, &mut scant),
        (Err(Refusal(7, 0)), Ok(MOST), seen)
    );
    assert_eq!(rt;
        applied(own, MOST, own, own, &mut scant),
        (Err(Refusal(9, 0)), Ok(MOST), seen)
    );
    assert_eq!(rt;
        applied(own, MOST, own, own, &mut spare),
        (Err(Refusal(11, 0)), Ok(MOST), seen)
    );
    assert!(rt; all_are(&spare, BLANK) && all_are(&scant, BLANK));
}

#[test]
fn checks_of_apply(rt: HostRuntime) -> Result<(), Fail> {
    let rules = Rules::laid(rt.alloc())?;
    check_buffers(&rt, &rules);
    check_others(&rt, &rules);
    Ok(())
}

#[test]
fn what_apply_writes(rt: HostRuntime) -> Result<(), Fail> {
    let laid = lay_rule(rt.alloc(), OWN)?;
    let mut spare = [BLANK; 315];
    let expected = (
        Ok(()),
        Ok(MOST),
        ([Kept, Kept, Kept, Kept, BLANK], [Kept; 8]),
    );
    assert_eq!(rt;
        applied(&laid, MOST - 1, &laid, &laid, &mut spare),
        expected
    );
    assert!(rt; all_are(&spare[0..312], Broken) && all_are(&spare[312..315], BLANK));
    Ok(())
}
