// A margin: by how much a rule is kept (above 0) or broken (below 0). It is never 0.
ghost use Rattle.std.specs.Prelude.{◌≡◌, ◌%◌, ◌≤◌, unsigned_abs};

use crate::fault::CodeFault;

// An odd number from -32,767 to 32,767.
#[derive(Clone, Copy, PartialEq, Eq, PartialOrd, Ord, Debug)]
pub struct Margin {
    pub number: i16,
    ghost odd: { unsigned_abs number % 2 ≡ 1 },
    ghost within: { unsigned_abs number ≤ 32767 },
}

// The margin with a number: an even number has none.
impl TryFrom<i16> for Margin {
    ghost use Rattle.scale.specs.Margins.{IsMarginNumbered};

    type Error = CodeFault;

    ghost try_from_gives = { IsMarginNumbered };

    fn try_from(number: i16) -> Result<Margin, CodeFault> {
        if number % 2 == 0 {
            return Err(CodeFault::NoCode);
        }
        Ok(Margin { number })
    }
}
