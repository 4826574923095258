// Rules on logs: the verdict after each letter.
use evaluator::report::judge_log;
use letter::bits::Bits;
use letter::measured::Measured;
use rule::read_rule;
use std::alloc::Global;
use std::process::Abort;
use std::test::Fail;

// The verdict's number after the whole log: the tests give verdicts by number.
fn verdict(heap: Global, text: &[u8], letters: &[Bits]) -> Option<u8> {
    let rule = read_rule(heap, text).ok()?;
    let (verdict, _, _) = judge_log(heap, &rule, letters).ok()??;
    Some(verdict as u8)
}

// A rule, the words of a log of at most five letters, and the verdict after each. Five words always, so that they are made letters at
// once; as many count as there are verdicts.
#[derive(Drop)]
struct Case {
    text: &'static [u8],
    words: [u16; 5],
    verdicts: &'static [u8],
}

fn check_case(rt: &impl Abort, heap: Global, case: Case) {
    let letters = case.words.map(|word| Bits { word });
    for (k, expected) in case.verdicts.iter().enumerate() {
        assert!(rt; k < 5);
        let log = &letters[..k + 1];
        assert_eq!(rt; verdict(heap, case.text, log), Some(*expected));
    }
}

#[test]
fn verdicts_after_each_letter(rt: HostRuntime) {
    let cases = [
        Case {
            text: b"E*.h00h00.h00h01h00",
            words: [1, 3, 1, 2, 2],
            verdicts: &[1, 1, 3, 3, 3],
        },
        Case {
            text: b"A*.h00h00.h00h01h00",
            words: [1, 3, 1, 2, 2],
            verdicts: &[1, 1, 1, 1, 0],
        },
        Case {
            text: b"e*.h00h00.h00h01h00",
            words: [1, 3, 1, 2, 2],
            verdicts: &[2, 2, 3, 3, 3],
        },
        Case {
            text: b"a*.h00h00.h00h01h00",
            words: [1, 3, 1, 2, 2],
            verdicts: &[2, 2, 2, 2, 0],
        },
        Case {
            text: b"Uef01yh02",
            words: [0, 0, 6, 0, 0],
            verdicts: &[2, 2, 3],
        },
        Case {
            text: b"Uef01yh02",
            words: [0, 2, 6, 0, 0],
            verdicts: &[2, 0, 0],
        },
        Case {
            text: b"!Uef01yh02",
            words: [0, 2, 0, 0, 0],
            verdicts: &[1, 3],
        },
        Case {
            text: b"E.ynh00",
            words: [0, 0, 0, 0, 0],
            verdicts: &[1, 0],
        },
        Case {
            text: b"Anh00",
            words: [0, 0, 0, 0, 0],
            verdicts: &[3],
        },
        Case {
            text: b"Ranyh00",
            words: [1, 1, 0, 0, 0],
            verdicts: &[2, 2, 0],
        },
    ];
    for case in cases {
        check_case(&rt, rt.alloc(), case);
    }
}

#[test]
fn further_logs(rt: HostRuntime) {
    let cases = [
        Case {
            text: b"h00",
            words: [0, 1, 0, 0, 0],
            verdicts: &[0, 0],
        },
        Case {
            text: b"Eyh00",
            words: [0, 1, 0, 0, 0],
            verdicts: &[1, 3],
        },
        Case {
            text: b"Ayh00",
            words: [0, 0, 0, 0, 0],
            verdicts: &[1, 0],
        },
        Case {
            text: b"ayh00",
            words: [0, 1, 0, 0, 0],
            verdicts: &[2, 3],
        },
        Case {
            text: b"!Eyh00",
            words: [0, 1, 0, 0, 0],
            verdicts: &[2, 0],
        },
        Case {
            text: b"&h00Eyh01",
            words: [1, 2, 0, 0, 0],
            verdicts: &[1, 3],
        },
        Case {
            text: b"+h00eyh01",
            words: [0, 0, 0, 0, 0],
            verdicts: &[2, 0],
        },
        Case {
            text: b"UEyyh02",
            words: [0, 0, 4, 0, 0],
            verdicts: &[1, 1, 3],
        },
        Case {
            text: b"E*h00h01h02",
            words: [1, 1, 2, 4, 0],
            verdicts: &[1, 1, 1, 3],
        },
        Case {
            text: b"E*h00h01h02",
            words: [1, 0, 0, 0, 0],
            verdicts: &[1, 0],
        },
        Case {
            text: b"a*h00h01h02",
            words: [1, 1, 2, 4, 0],
            verdicts: &[2, 2, 2, 3],
        },
        Case {
            text: b"a*h00h01h02",
            words: [1, 0, 0, 0, 0],
            verdicts: &[2, 3],
        },
    ];
    for case in cases {
        check_case(&rt, rt.alloc(), case);
    }
}

#[test]
fn an_until_on_margins(rt: HostRuntime) -> Result<(), Fail> {
    let mut letter = Measured {
        readings: [0; 16],
        limits: [0; 16],
    };
    letter.readings[1] = -11;
    letter.readings[2] = -4;
    let rule = read_rule(rt.alloc(), b"Uef01yh02")?;
    let Some((verdict, floor, ceiling)) = judge_log(rt.alloc(), &rule, &[letter])? else {
        return Err(Fail::new("no report"));
    };
    assert_eq!(rt; verdict.number, 21);
    assert_eq!(rt; floor.number, -7);
    assert_eq!(rt; ceiling.number, 21);
    Ok(())
}
