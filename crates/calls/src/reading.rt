// Reading a letter: what is refused and in which order, and what is written.
use crate::shared::{
    BLANK, MOST, OWN, OnSummary, OnWatch, Refusal, Rules, SCRATCH, all_are, repeated,
};
use cells::laid_rule::LaidRule;
use cells::lay_rule::lay_rule;
use fault::WorkFault;
use letter::bits::Bits;
use letter::measured::Measured;
use monitor::summary::Summary;
use monitor::watch::Watch;
use scale::margin::Margin;
use scale::verdict::Verdict;
use scale::verdict::Verdict::{Broken, Kept};
use std::fmt::Debug;
use std::process::Abort;
use std::test::Fail;

// What the buffers of margins hold at first.
fn blank() -> Margin {
    Margin { number: 5 }
}

// A letter with the same reading on all channels, and limits 0.
fn even(reading: i16) -> Measured {
    Measured {
        readings: [reading; 16],
        limits: [0; 16],
    }
}

// A letter with two unfit channels, the lower of which is 7.
fn unfit() -> Measured {
    let mut letter = even(3);
    letter.readings[9] = 8192;
    letter.limits[7] = -8192;
    letter
}

// What was seen of a call: the answer, the count afterwards, and the table with the place after it.
type Seen<T> = (Result<(), Refusal>, Result<u32, WorkFault>, T);

// Reading a letter, by a watch or by a summary.
trait Reads {
    // the numbers of the table with the place after it
    type Table: Copy + PartialEq + Debug;

    // One that has read so many letters of margins -1 reads a letter.
    fn reads(
        own: &LaidRule,
        times: u32,
        rule: &LaidRule,
        letter: &Measured,
        spare: &mut [Margin],
    ) -> Seen<Self::Table>;

    // One that has just been opened in a buffer reads a letter.
    fn reads_in(
        own: &LaidRule,
        buffer: &mut [Margin],
        rule: &LaidRule,
        letter: &Measured,
        spare: &mut [Margin],
    ) -> Result<(), Refusal>;
}

impl Reads for OnWatch {
    type Table = [i16; 5];

    fn reads(
        own: &LaidRule,
        times: u32,
        rule: &LaidRule,
        letter: &Measured,
        spare: &mut [Margin],
    ) -> Seen<[i16; 5]> {
        let mut table = [blank(); 8];
        let mut row = [blank(); 5];
        let mut used = [blank(); 312];
        let volume = repeated(own, &even(-1), times, &mut [blank(); SCRATCH], &mut table);
        let mut watch = Watch::open(own, &mut row);
        let _ = watch.apply(own, &volume, &mut used);
        let answer = watch.letter(rule, letter, spare).map_err(Refusal::from);
        let count = watch.count();
        (answer, count, row.map(|margin| margin.number))
    }

    fn reads_in(
        own: &LaidRule,
        buffer: &mut [Margin],
        rule: &LaidRule,
        letter: &Measured,
        spare: &mut [Margin],
    ) -> Result<(), Refusal> {
        Ok(Watch::open(own, buffer).letter(rule, letter, spare)?)
    }
}

impl Reads for OnSummary {
    type Table = [i16; 9];

    fn reads(
        own: &LaidRule,
        times: u32,
        rule: &LaidRule,
        letter: &Measured,
        spare: &mut [Margin],
    ) -> Seen<[i16; 9]> {
        let mut table = [blank(); 9];
        let mut summary = repeated(own, &even(-1), times, &mut [blank(); SCRATCH], &mut table);
        let answer = summary.letter(rule, letter, spare).map_err(Refusal::from);
        let count = summary.count();
        (answer, count, table.map(|margin| margin.number))
    }

    fn reads_in(
        own: &LaidRule,
        buffer: &mut [Margin],
        rule: &LaidRule,
        letter: &Measured,
        spare: &mut [Margin],
    ) -> Result<(), Refusal> {
        Ok(Summary::open(own, buffer).letter(rule, letter, spare)?)
    }
}

// In each call all faults that are checked later are there as well. Letters of margins -1 have rows -1 -1 1 1, and one of
// margins 7 after them would make them 1 1 1 1.
fn check<R: Reads>(
    rt: &impl Abort,
    rules: &Rules,
    short: &mut [Margin],
    before: R::Table,
    after: R::Table,
) {
    let Rules { own, other } = rules;
    let mut spare = [blank(); 312];
    let mut scant = [blank(); 311];
    assert_eq!(rt;
        R::reads_in(own, short, other, &unfit(), &mut scant),
        Err(Refusal(8, 0))
    );
    assert!(rt; all_are(short, blank()));
    assert_eq!(rt;
        R::reads(own, MOST, other, &unfit(), &mut scant),
        (Err(Refusal(7, 0)), Ok(MOST), before)
    );
    assert_eq!(rt;
        R::reads(own, MOST, own, &unfit(), &mut scant),
        (Err(Refusal(9, 0)), Ok(MOST), before)
    );
    assert_eq!(rt;
        R::reads(own, MOST, own, &unfit(), &mut spare),
        (Err(Refusal(10, 7)), Ok(MOST), before)
    );
    assert_eq!(rt;
        R::reads(own, MOST, own, &even(3), &mut spare),
        (Err(Refusal(11, 0)), Ok(MOST), before)
    );
    assert!(rt; all_are(&spare, blank()) && all_are(&scant, blank()));
    assert_eq!(rt;
        R::reads(own, MOST - 1, own, &even(3), &mut spare),
        (Ok(()), Ok(MOST), after)
    );
}

#[test]
fn checks_of_a_letter(rt: HostRuntime) -> Result<(), Fail> {
    let rules = Rules::laid(rt.alloc())?;
    check::<OnWatch>(
        &rt,
        &rules,
        &mut [blank(); 3],
        [-1, -1, 1, 1, 5],
        [1, 1, 1, 1, 5],
    );
    check::<OnSummary>(
        &rt,
        &rules,
        &mut [blank(); 7],
        [-1, -1, 1, 1, -1, -1, 1, 1, 5],
        [1, 1, 1, 1, 1, 1, 1, 1, 5],
    );
    Ok(())
}

// The row and the table after one letter 0000, in a buffer of two places more.
fn one_letter(
    laid: &LaidRule,
    first: &mut [Verdict],
    second: &mut [Verdict],
) -> ([Verdict; 6], [Verdict; 10]) {
    let mut row = [BLANK; 6];
    let mut table = [BLANK; 10];
    let mut watch = Watch::open(laid, &mut row);
    let _ = watch.letter(laid, &Bits { word: 0 }, first);
    let mut summary = Summary::open(laid, &mut table);
    let _ = summary.letter(laid, &Bits { word: 0 }, second);
    (row, table)
}

// Both rows of a letter 0000 are 0 0 3 3.
fn check_written(rt: &impl Abort, laid: &LaidRule) {
    let mut first = [BLANK; 315];
    let mut second = [BLANK; 312];
    let (row, table) = one_letter(laid, &mut first, &mut second);
    assert_eq!(rt; row, [Broken, Broken, Kept, Kept, BLANK, BLANK]);
    assert_eq!(rt;
        table,
        [
            Broken, Broken, Kept, Kept, Broken, Broken, Kept, Kept, BLANK, BLANK,
        ]
    );
    assert!(rt; all_are(&first[0..312], Broken) && all_are(&first[312..315], BLANK));
    assert!(rt; all_are(&second, Broken));
}

#[test]
fn what_a_letter_writes(rt: HostRuntime) -> Result<(), Fail> {
    let laid = lay_rule(rt.alloc(), OWN)?;
    check_written(&rt, &laid);
    Ok(())
}
