// Cells: their number, and the same reports by steps as by the evaluator.
use cells::laid::Laid;
use cells::lay::lay;
use cells::step::step;
use evaluator::report::judge_log;
use letter::bits::Bits;
use rule::read_rule;
use scale::verdict::Verdict;
use std::alloc::Global;
use std::array;
use std::process::Abort;

// The number of cells of a rule text, or the refusal's number.
fn cells_of(heap: Global, text: &[u8]) -> Result<usize, Option<u8>> {
    lay(heap, text)
        .map(|laid| laid.count)
        .map_err(|fault| fault.number())
}

#[test]
fn cells_are_counted(rt: HostRuntime) {
    assert_eq!(rt; cells_of(rt.alloc(), b"h00"), Ok(1));
    assert_eq!(rt; cells_of(rt.alloc(), b"Uef01yh02"), Ok(2));
    assert_eq!(rt; cells_of(rt.alloc(), b"E*.h00h00.h00h01h00"), Ok(5));
    assert_eq!(rt; cells_of(rt.alloc(), b"EyEyEyEyEyEyEyh00"), Ok(8));
    assert_eq!(rt; cells_of(rt.alloc(), b"EyEyEyEyEyEyEyEyh00"), Err(Some(6)));
    assert_eq!(rt; cells_of(rt.alloc(), b"h16"), Err(Some(2)));
    let mut text = [b'!'; 48];
    text[47] = b'y';
    assert_eq!(rt; cells_of(rt.alloc(), &text), Ok(1));
}

// One step back over a letter.
fn back(laid: &Laid, letter: &Bits, after: [Verdict; 8]) -> [Verdict; 8] {
    let mut before = [Verdict::Broken; 8];
    let _ = step(laid, letter, &after, &mut before);
    before
}

// Cell 0 before the letters, by steps from what each cell has at the log's end.
fn by_steps<F: Fn(&Laid, usize) -> Verdict>(
    heap: Global,
    text: &[u8],
    letters: &[Bits],
    at_end: F,
) -> Option<Verdict>
    requires { F.IsAlwaysCallable at_end }
{
    let laid = lay(heap, text).ok()?;
    let mut cells = array::from_fn(|cell| at_end(&laid, cell));
    for letter in letters.iter().rev() {
        cells = back(&laid, letter, cells);
    }
    Some(cells[0])
}

// Verdict, floor and ceiling by steps.
fn report_by_steps(
    heap: Global,
    text: &[u8],
    letters: &[Bits],
) -> Option<(Verdict, Verdict, Verdict)> {
    let verdict = by_steps(heap, text, letters, |laid, cell| {
        laid.mark(cell).unwrap_or(Verdict::Broken)
    })?;
    let floor = by_steps(heap, text, letters, |_, _| Verdict::Broken)?;
    let ceiling = by_steps(heap, text, letters, |_, _| Verdict::Kept)?;
    Some((verdict, floor, ceiling))
}

// Verdict, floor and ceiling by the evaluator. The other tests of it want the verdict alone, by number.
fn report_by_positions(
    heap: Global,
    text: &[u8],
    letters: &[Bits],
) -> Option<(Verdict, Verdict, Verdict)> {
    let rule = read_rule(heap, text).ok()?;
    judge_log(heap, &rule, letters).ok()?
}

// The reports on every front of a log are the same by steps and by positions. Fronts go by their length, since the library
// has no iterator over them.
fn check_fronts(rt: &impl Abort, heap: Global, text: &[u8], letters: [Bits; 5]) {
    for length in 1..=5 {
        let log = &letters[..length];
        let expected = report_by_positions(heap, text, log);
        assert!(rt; expected.is_some());
        assert_eq!(rt; report_by_steps(heap, text, log), expected);
    }
}

// A letter on the first four channels.
fn letter(bits: u32) -> Bits {
    Bits {
        word: (bits & 15) as u16,
    }
}

#[test]
fn steps_and_positions_agree(rt: HostRuntime) {
    let texts: [&[u8]; 12] = [
        b"Uef01yh02",
        b"!Uef01yh02",
        b"E*.h00h00.h00h01h00",
        b"a*.h00h00.h00h01h00",
        b"A|h00.h01h02!h03",
        b"Ranyh00",
        b"RE+h00h01*h00h01h02",
        b"&Ey+h00h01!a.yyf02",
        b"UA!h00|h01h02eyh03",
        b"E**h00h01h02h03",
        b"!Anh00",
        b"E.ynh00",
    ];
    let mut seed = 1u32;
    for text in texts {
        seed = seed.wrapping_mul(1_103_515_245).wrapping_add(12345);
        let log = [
            letter(seed >> 4),
            letter(seed >> 9),
            letter(seed >> 14),
            letter(seed >> 19),
            letter(seed >> 24),
        ];
        check_fronts(&rt, rt.alloc(), text, log);
    }
}
