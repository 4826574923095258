// What the tests share: two rules of two cells, which differ in their text alone, and letters for them.
ghost use Rattle.std.specs.Prelude.{◌≤◌, length};
ghost use Rattle.calls.specs.declared.shared.TheConstants.{SCRATCH};

use cells::laid_rule::LaidRule;
use cells::lay_rule::lay_rule;
use fault::WorkFault;
use letter::bits::Bits;
use letter::kind::Letter;
use monitor::join::join;
use monitor::summary::Summary;
use scale::order::Scale;
use scale::verdict::Verdict;
use std::alloc::Global;
use std::test::Fail;

pub(crate) const OWN: &[u8] = b"Uef01yh02";

pub(crate) const OTHER: &[u8] = b"Uef01yh03";

// The two rules with their cells laid.
#[derive(Drop)]
pub(crate) struct Rules {
    pub(crate) own: LaidRule,
    pub(crate) other: LaidRule,
}

impl Rules {
    pub(crate) fn laid(heap: Global) -> Result<Rules, Fail> {
        Ok(Rules {
            own: lay_rule(heap, OWN)?,
            other: lay_rule(heap, OTHER)?,
        })
    }
}

// What the buffers hold at first. The calls of the tests never write it, so that where it stands nothing was written.
pub(crate) const BLANK: Verdict = Verdict::BrokenSoFar;

// The most letters that are counted.
pub(crate) const MOST: u32 = 1_000_000_000;

// Which of the two a call is tested on.
pub(crate) struct OnWatch;

pub(crate) struct OnSummary;

// The number and the place of a refusal, as the tests give them. The crate trials has its own, since tests share no public code.
#[derive(Clone, Copy, PartialEq, Eq, Debug)]
pub(crate) struct Refusal(pub(crate) u8, pub(crate) usize);

impl From<WorkFault> for Refusal {
    fn from(fault: WorkFault) -> Refusal {
        Refusal(fault.number(), fault.place())
    }
}

// Are all values of a slice this one.
pub(crate) fn all_are<S: Scale>(values: &[S], value: S) -> bool {
    values.iter().all(|each| each.same(value))
}

// The summary of a volume of bit letters.
pub(crate) fn volume<'b>(
    laid: &LaidRule,
    words: &[u16],
    buffer: &'b mut [Verdict],
) -> Summary<'b, Verdict> {
    let mut summary = Summary::open(laid, buffer);
    for word in words {
        let mut spare = [BLANK; 312];
        let _ = summary.letter(laid, &Bits { word: *word }, &mut spare);
    }
    summary
}

// Doubles the count of a summary, and takes in a volume more.
fn double<'a, 'b, 'c, S: Scale>(
    laid: &LaidRule,
    more: &Summary<'a, S>,
    twice: &mut Summary<'b, S>,
    summary: &mut Summary<'c, S>,
) {
    let _ = join(laid, summary, summary, twice);
    let _ = join(laid, twice, more, summary);
}

// How many values `repeated` works with: a spare, and the tables of three summaries.
pub(crate) const SCRATCH: usize = 336;

// The summary of a letter read so many times: the count is doubled 30 times, with one letter more where the next of the
// number's bits is set. Bits go by their number, since the library has no iterator over them. The scratch is the caller's,
// since code that is generic in the scale can't lend an array of its values without knowing that it fits into memory.
pub(crate) fn repeated<'b, S: Scale, L: Letter<Scale = S>>(
    laid: &LaidRule,
    letter: &L,
    times: u32,
    scratch: &mut [S],
    buffer: &'b mut [S],
) -> Summary<'b, S>
    requires { SCRATCH ≤ length scratch.old }
{
    let (spare, tables) = scratch.split_at_mut(312);
    let (first, tables) = tables.split_at_mut(8);
    let (second, third) = tables.split_at_mut(8);
    let mut one = Summary::open(laid, first);
    let _ = one.letter(laid, letter, spare);
    let none = Summary::open(laid, second);
    let mut twice = Summary::open(laid, third);
    let mut summary = Summary::open(laid, buffer);
    for bit in (0..30u32).rev() {
        let more = if (times >> bit) % 2 == 1 { &one } else { &none };
        double(laid, more, &mut twice, &mut summary);
    }
    summary
}
