// Runs by hand: the reports after each letter, by letters, by joined summaries and by summaries taken in.
use crate::shared::{BLANK, OWN, volume};
use cells::laid_rule::LaidRule;
use cells::lay_rule::lay_rule;
use fault::WorkFault;
use letter::bits::Bits;
use letter::measured::Measured;
use monitor::join::join;
use monitor::summary::Summary;
use monitor::watch::Watch;
use scale::margin::Margin;
use scale::verdict::Verdict;
use std::process::Abort;
use std::test::Fail;

// The numbers of a report: verdict, floor and ceiling, as the tests give them.
type Told = Result<(u8, u8, u8), WorkFault>;

fn told(answer: Result<(Verdict, Verdict, Verdict), WorkFault>) -> Told {
    answer.map(|(verdict, floor, ceiling)| (verdict as u8, floor as u8, ceiling as u8))
}

// The report of a watch after one letter more.
fn next<'b>(watch: &mut Watch<'b, Verdict>, laid: &LaidRule, word: u16) -> Told {
    let mut spare = [BLANK; 312];
    let _ = watch.letter(laid, &Bits { word }, &mut spare);
    told(watch.report(laid))
}

// The report of the join of two volumes.
fn by_join(laid: &LaidRule, first: &[u16], second: &[u16]) -> Told {
    let mut one = [BLANK; 24];
    let mut two = [BLANK; 24];
    let mut three = [BLANK; 24];
    let left = volume(laid, first, &mut one);
    let right = volume(laid, second, &mut two);
    let mut both = Summary::open(laid, &mut three);
    let _ = join(laid, &left, &right, &mut both);
    told(both.report(laid))
}

// The report of a watch that takes in two volumes.
fn by_apply(laid: &LaidRule, first: &[u16], second: &[u16]) -> Told {
    let mut one = [BLANK; 24];
    let mut two = [BLANK; 24];
    let mut row = [BLANK; 8];
    let mut spare = [BLANK; 312];
    let left = volume(laid, first, &mut one);
    let right = volume(laid, second, &mut two);
    let mut watch = Watch::open(laid, &mut row);
    let _ = watch.apply(laid, &left, &mut spare);
    let _ = watch.apply(laid, &right, &mut spare);
    told(watch.report(laid))
}

// A rule of at most 3 cells, a log of three letters, and the report after each.
#[derive(Drop)]
struct Case {
    text: &'static [u8],
    words: [u16; 3],
    reports: [(u8, u8, u8); 3],
}

fn check_case(rt: &impl Abort, laid: &LaidRule, words: [u16; 3], reports: [(u8, u8, u8); 3]) {
    let mut row = [BLANK; 8];
    let mut watch = Watch::open(laid, &mut row);
    let [one, two, three] = words;
    let [first, second, third] = reports;
    assert_eq!(rt; next(&mut watch, laid, one), Ok(first));
    assert_eq!(rt; next(&mut watch, laid, two), Ok(second));
    assert_eq!(rt; next(&mut watch, laid, three), Ok(third));
    assert_eq!(rt; by_join(laid, &[one], &[two]), Ok(second));
    assert_eq!(rt; by_join(laid, &[one], &[two, three]), Ok(third));
    assert_eq!(rt; by_join(laid, &[one, two], &[three]), Ok(third));
    assert_eq!(rt; by_apply(laid, &[one], &[two, three]), Ok(third));
    assert_eq!(rt; by_apply(laid, &[], &[one, two, three]), Ok(third));
}

#[test]
fn reports_after_each_letter(rt: HostRuntime) -> Result<(), Fail> {
    let cases = [
        Case {
            text: b"Uef01yh02",
            words: [0, 0, 6],
            reports: [(2, 0, 3), (2, 0, 3), (3, 3, 3)],
        },
        Case {
            text: b"Uef01yh02",
            words: [0, 2, 6],
            reports: [(2, 0, 3), (0, 0, 0), (0, 0, 0)],
        },
        Case {
            text: b"!Uef01yh02",
            words: [0, 2, 0],
            reports: [(1, 0, 3), (3, 3, 3), (3, 3, 3)],
        },
        Case {
            text: b"E.ynh00",
            words: [0, 0, 0],
            reports: [(1, 0, 3), (0, 0, 0), (0, 0, 0)],
        },
        Case {
            text: b"Ranyh00",
            words: [1, 1, 0],
            reports: [(2, 0, 3), (2, 0, 3), (0, 0, 0)],
        },
    ];
    for case in cases {
        let laid = lay_rule(rt.alloc(), case.text)?;
        check_case(&rt, &laid, case.words, case.reports);
    }
    Ok(())
}

// Margins -21 on channel 1 and -7 on channel 2: the until is by 7 short of being kept here, and by 21 not yet broken.
fn check_margins(rt: &impl Abort, laid: &LaidRule) -> Result<(), Fail> {
    let mut letter = Measured {
        readings: [0; 16],
        limits: [0; 16],
    };
    letter.readings[1] = -11;
    letter.readings[2] = -4;
    let mut row = [Margin { number: 5 }; 4];
    let mut spare = [Margin { number: 5 }; 312];
    let mut watch = Watch::open(laid, &mut row);
    watch.letter(laid, &letter, &mut spare)?;
    let (verdict, floor, ceiling) = watch.report(laid)?;
    assert_eq!(rt; verdict.number, 21);
    assert_eq!(rt; floor.number, -7);
    assert_eq!(rt; ceiling.number, 21);
    Ok(())
}

#[test]
fn a_report_of_margins(rt: HostRuntime) -> Result<(), Fail> {
    let laid = lay_rule(rt.alloc(), OWN)?;
    check_margins(&rt, &laid)
}
