// The verdict scale: broken, broken so far, kept so far, kept.
ghost use Rattle.scale.specs.Verdicts.{verdicts, IsVerdictNumbered};
ghost use Rattle.std.proofs.Common.{rules};

use crate::fault::CodeFault;
use crate::order::Scale;

// A verdict with its number.
#[derive(Clone, Copy, PartialEq, Eq, Debug)]
pub enum Verdict {
    Broken = 0,
    BrokenSoFar = 1,
    KeptSoFar = 2,
    Kept = 3,
}

use Verdict::{Broken, BrokenSoFar, Kept, KeptSoFar};

// Join, meet and opposite are read off constant tables, by a rule of the project.

// The larger number.
const JOIN: [[Verdict; 4]; 4] = [
    [Broken, BrokenSoFar, KeptSoFar, Kept],
    [BrokenSoFar, BrokenSoFar, KeptSoFar, Kept],
    [KeptSoFar, KeptSoFar, KeptSoFar, Kept],
    [Kept, Kept, Kept, Kept],
];

// The smaller number.
const MEET: [[Verdict; 4]; 4] = [
    [Broken, Broken, Broken, Broken],
    [Broken, BrokenSoFar, BrokenSoFar, BrokenSoFar],
    [Broken, BrokenSoFar, KeptSoFar, KeptSoFar],
    [Broken, BrokenSoFar, KeptSoFar, Kept],
];

// Three minus the number.
const OPPOSITE: [Verdict; 4] = [Kept, KeptSoFar, BrokenSoFar, Broken];

// The verdict with a number: a number above 3 has none.
impl TryFrom<u8> for Verdict {
    type Error = CodeFault;

    ghost try_from_gives = { IsVerdictNumbered };

    fn try_from(number: u8) -> Result<Verdict, CodeFault> {
        match number {
            0 => Ok(Broken),
            1 => Ok(BrokenSoFar),
            2 => Ok(KeptSoFar),
            3 => Ok(Kept),
            _ => Err(CodeFault::NoCode),
        }
    }
}

impl Scale for Verdict {
    ghost algebra = { verdicts };

    ghost lawful = { Prim.search rules };

    fn worst() -> Verdict {
        Broken // below all others
    }

    fn best() -> Verdict {
        Kept // above all others
    }

    fn pending() -> Verdict {
        BrokenSoFar // until it is kept
    }

    fn presumed() -> Verdict {
        KeptSoFar // until it is broken
    }

    fn join(self, other: Verdict) -> Verdict {
        JOIN[self as usize][other as usize]
    }

    fn meet(self, other: Verdict) -> Verdict {
        MEET[self as usize][other as usize]
    }

    fn opposite(self) -> Verdict {
        OPPOSITE[self as usize]
    }

    fn same(self, other: Verdict) -> bool {
        self == other
    }
}
