// Reporting: what is refused and in which order.
use crate::shared::{BLANK, OnSummary, OnWatch, Refusal, Rules, volume};
use cells::laid_rule::LaidRule;
use monitor::watch::Watch;
use scale::verdict::Verdict;
use std::process::Abort;
use std::test::Fail;

// A report, by a watch or by a summary.
trait Reports {
    // One that has read a volume, in a buffer, reports.
    fn reports(
        own: &LaidRule,
        buffer: &mut [Verdict],
        words: &[u16],
        rule: &LaidRule,
    ) -> Result<(), Refusal>;
}

impl Reports for OnWatch {
    fn reports(
        own: &LaidRule,
        buffer: &mut [Verdict],
        words: &[u16],
        rule: &LaidRule,
    ) -> Result<(), Refusal> {
        let mut table = [BLANK; 8];
        let mut spare = [BLANK; 312];
        let read = volume(own, words, &mut table);
        let mut watch = Watch::open(own, buffer);
        let _ = watch.apply(own, &read, &mut spare);
        watch.report(rule)?;
        Ok(())
    }
}

impl Reports for OnSummary {
    fn reports(
        own: &LaidRule,
        buffer: &mut [Verdict],
        words: &[u16],
        rule: &LaidRule,
    ) -> Result<(), Refusal> {
        volume(own, words, buffer).report(rule)?;
        Ok(())
    }
}

// In each call all faults that are checked later are there as well.
fn check<R: Reports>(
    rt: &impl Abort,
    rules: &Rules,
    short: &mut [Verdict],
    buffer: &mut [Verdict],
) {
    let Rules { own, other } = rules;
    assert_eq!(rt; R::reports(own, short, &[], other), Err(Refusal(8, 0)));
    assert_eq!(rt; R::reports(own, buffer, &[], other), Err(Refusal(7, 0)));
    assert_eq!(rt; R::reports(own, buffer, &[], own), Err(Refusal(12, 0)));
    assert_eq!(rt; R::reports(own, buffer, &[0], other), Err(Refusal(7, 0)));
    assert_eq!(rt; R::reports(own, buffer, &[0], own), Ok(()));
}

#[test]
fn checks_of_a_report(rt: HostRuntime) -> Result<(), Fail> {
    let rules = Rules::laid(rt.alloc())?;
    check::<OnWatch>(&rt, &rules, &mut [BLANK; 3], &mut [BLANK; 4]);
    check::<OnSummary>(&rt, &rules, &mut [BLANK; 7], &mut [BLANK; 8]);
    Ok(())
}
