// The count of a watch or a summary.
ghost use Rattle.std.specs.Prelude.{◌≡◌, ◌+◌, ◌≤◌, nat_lt};
ghost use Rattle.runs.specs.Calls.{most_letters};

// The most letters that are counted.
const MOST_LETTERS: u64 = 1_000_000_000;

// How many letters were read: at most 1,000,000,000.
#[derive(Clone, Copy, PartialEq, Eq, Debug)]
pub struct Count {
    pub number: u32,
    ghost few: { number ≤ 1000000000 },
}

impl Count {
    // Are they too many with so many more. This and plus are not one call that answers an Option: a call's checks answer exactly
    // what the call answers, which holds no count, and the sum is made after the work.
    pub(crate) fn overflows(self, more: u32) -> bool
        ensures { result ≡ nat_lt most_letters (self.number + more) }
    {
        u64::from(self.number) + u64::from(more) > MOST_LETTERS
    }

    // So many more.
    pub(crate) fn plus(self, more: u32) -> Count
        requires { self.number + more ≤ 1000000000 }
        ensures { result.number ≡ self.number + more }
    {
        Count {
            number: self.number + more,
        }
    }
}
