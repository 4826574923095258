// Opening: the empty volume is written over the front of the buffer, or nothing where the buffer is too short. A count is
// refused there.
use crate::shared::{BLANK, OWN, Refusal};
use cells::laid_rule::LaidRule;
use cells::lay_rule::lay_rule;
use monitor::summary::Summary;
use monitor::watch::Watch;
use scale::verdict::Verdict::{Broken, Kept};
use std::process::Abort;
use std::test::Fail;

fn check_written(rt: &impl Abort, laid: &LaidRule) {
    let mut row = [BLANK; 6];
    let mut table = [BLANK; 10];
    let watch = Watch::open(laid, &mut row);
    let summary = Summary::open(laid, &mut table);
    assert_eq!(rt; watch.count(), Ok(0));
    assert_eq!(rt; summary.count(), Ok(0));
    assert_eq!(rt; row, [Broken, Kept, Broken, Kept, BLANK, BLANK]);
    assert_eq!(rt;
        table,
        [
            Broken, Kept, Broken, Kept, Broken, Broken, Kept, Kept, BLANK, BLANK,
        ]
    );
}

fn check_left(rt: &impl Abort, laid: &LaidRule) {
    let mut row = [BLANK; 3];
    let mut table = [BLANK; 7];
    let watch = Watch::open(laid, &mut row);
    let summary = Summary::open(laid, &mut table);
    assert_eq!(rt; watch.count().map_err(Refusal::from), Err(Refusal(8, 0)));
    assert_eq!(rt; summary.count().map_err(Refusal::from), Err(Refusal(8, 0)));
    assert_eq!(rt; row, [BLANK; 3]);
    assert_eq!(rt; table, [BLANK; 7]);
}

#[test]
fn what_opening_writes(rt: HostRuntime) -> Result<(), Fail> {
    let laid = lay_rule(rt.alloc(), OWN)?;
    check_written(&rt, &laid);
    check_left(&rt, &laid);
    Ok(())
}
