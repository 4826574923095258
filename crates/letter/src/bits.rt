// Bit letters, on the verdict scale.
ghost use Rattle.letter.specs.Bits.{bits_heard};

use crate::kind::Letter;
use scale::verdict::Verdict;

// A bit letter: bit c of the word, bit 0 the least, says whether channel c is best or worst. It is always fit.
#[derive(Clone, Copy, PartialEq, Eq, Default, Debug)]
pub struct Bits {
    pub word: u16,
}

impl Letter for Bits {
    type Scale = Verdict;

    ghost heard = { bits_heard };

    fn unfit(&self) -> Option<u8> {
        None
    }

    fn value(&self, channel: u8) -> Verdict {
        if channel < 16 && (self.word >> channel) % 2 == 1 {
            Verdict::Kept
        } else {
            Verdict::Broken
        }
    }
}
