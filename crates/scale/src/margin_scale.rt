// The margin scale: join is the larger number, meet the smaller, opposite the negated number.
ghost use Rattle.scale.specs.Margins.{margins};
ghost use Rattle.scale.specs.MarginsLemmas.{margins_lawful};

use crate::margin::Margin;
use crate::order::Scale;

// the two ends of the scale
const LOWEST: i16 = -32767;

const HIGHEST: i16 = 32767;

impl Scale for Margin {
    ghost algebra = { margins };

    ghost lawful = { margins_lawful };

    fn worst() -> Margin {
        Margin { number: LOWEST } // below all others
    }

    fn best() -> Margin {
        Margin { number: HIGHEST } // above all others
    }

    fn pending() -> Margin {
        Margin { number: LOWEST } // until it is kept
    }

    fn presumed() -> Margin {
        Margin { number: HIGHEST } // until it is broken
    }

    fn join(self, other: Margin) -> Margin {
        self.max(other)
    }

    fn meet(self, other: Margin) -> Margin {
        self.min(other)
    }

    fn opposite(self) -> Margin {
        Margin {
            number: -self.number,
        }
    }

    fn same(self, other: Margin) -> bool {
        self == other
    }
}
