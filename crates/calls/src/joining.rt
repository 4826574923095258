// Joining two summaries into a third: what is refused and in which order, and what is written.
use crate::shared::{BLANK, MOST, Refusal, Rules, SCRATCH, repeated, volume};
use cells::laid_rule::LaidRule;
use fault::WorkFault;
use letter::bits::Bits;
use monitor::join::join;
use monitor::summary::Summary;
use scale::verdict::Verdict;
use scale::verdict::Verdict::{Broken, Kept};
use std::process::Abort;
use std::test::Fail;

// What was seen of a call: the answer, the third's count afterwards, and the three tables.
type Seen = (
    Result<(), Refusal>,
    Result<u32, WorkFault>,
    ([Verdict; 8], [Verdict; 8], [Verdict; 9]),
);

// So many letters 0000 and a letter 000e, joined into the summary of a letter 0002.
fn joined(
    first: &LaidRule,
    times: u32,
    second: &LaidRule,
    third: &LaidRule,
    rule: &LaidRule,
) -> Seen {
    let mut one = [BLANK; 8];
    let mut two = [BLANK; 8];
    let mut three = [BLANK; 9];
    let left = repeated(
        first,
        &Bits { word: 0 },
        times,
        &mut [BLANK; SCRATCH],
        &mut one,
    );
    let right = volume(second, &[14], &mut two);
    let mut both = volume(third, &[2], &mut three);
    let answer = join(rule, &left, &right, &mut both).map_err(Refusal::from);
    let count = both.count();
    (answer, count, (one, two, three))
}

// Empty summaries joined in these buffers.
fn joined_in(
    own: &LaidRule,
    one: &mut [Verdict],
    two: &mut [Verdict],
    three: &mut [Verdict],
    rule: &LaidRule,
) -> Result<(), Refusal> {
    let left = Summary::open(own, one);
    let right = Summary::open(own, two);
    let mut both = Summary::open(own, three);
    Ok(join(rule, &left, &right, &mut both)?)
}

// Each of the three buffers too short, with another text besides.
fn check_buffers(rt: &impl Abort, rules: &Rules) {
    let Rules { own, other } = rules;
    let empty = [Broken, Kept, Broken, Kept, Broken, Broken, Kept, Kept];
    let mut one = [BLANK; 8];
    let mut two = [BLANK; 8];
    let mut short = [BLANK; 7];
    assert_eq!(rt;
        joined_in(own, &mut short, &mut one, &mut two, other),
        Err(Refusal(8, 0))
    );
    assert_eq!(rt; (short, one, two), ([BLANK; 7], empty, empty));
    assert_eq!(rt;
        joined_in(own, &mut one, &mut short, &mut two, other),
        Err(Refusal(8, 0))
    );
    assert_eq!(rt; (short, one, two), ([BLANK; 7], empty, empty));
    assert_eq!(rt;
        joined_in(own, &mut one, &mut two, &mut short, other),
        Err(Refusal(8, 0))
    );
    assert_eq!(rt; (short, one, two), ([BLANK; 7], empty, empty));
}

// Each of the four texts is once another one, with too many letters besides; then these alone. Then as many as may be:
// letters 0000 have rows 0 0 3 3, and 000e after them makes them 3 3 3 3.
fn check_others(rt: &impl Abort, rules: &Rules) {
    let Rules { own, other } = rules;
    let one = [Broken, Broken, Kept, Kept, Broken, Broken, Kept, Kept];
    let three = [
        Broken, Broken, Broken, Broken, Broken, Broken, Broken, Broken, BLANK,
    ];
    let tables = (one, [Kept; 8], three);
    assert_eq!(rt;
        joined(own, MOST, own, own, other),
        (Err(Refusal(7, 0)), Ok(1), tables)
    );
    assert_eq!(rt;
        joined(other, MOST, own, own, own),
        (Err(Refusal(7, 0)), Ok(1), tables)
    );
    assert_eq!(rt;
        joined(own, MOST, other, own, own),
        (Err(Refusal(7, 0)), Ok(1), tables)
    );
    assert_eq!(rt;
        joined(own, MOST, own, other, own),
        (Err(Refusal(7, 0)), Ok(1), tables)
    );
    assert_eq!(rt;
        joined(own, MOST, own, own, own),
        (Err(Refusal(11, 0)), Ok(1), tables)
    );
    let both = [Kept, Kept, Kept, Kept, Kept, Kept, Kept, Kept, BLANK];
    assert_eq!(rt;
        joined(own, MOST - 1, own, own, own),
        (Ok(()), Ok(MOST), (one, [Kept; 8], both))
    );
}

#[test]
fn checks_of_join(rt: HostRuntime) -> Result<(), Fail> {
    let rules = Rules::laid(rt.alloc())?;
    check_buffers(&rt, &rules);
    check_others(&rt, &rules);
    Ok(())
}
