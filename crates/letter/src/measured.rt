// Measured letters, on the margin scale.
ghost use Rattle.std.specs.Prelude.{◌≡◌, ◌<◌, false};
ghost use Rattle.letter.specs.Measured.{outside, channel_unfit, over_by, measured_heard};

use crate::kind::Letter;
use scale::margin::Margin;
use scale::order::Scale;

// A measured letter: a reading and a limit for each channel. A channel is unfit when one of them is out of range.
// Two arrays, by this project's rule that a letter holds its sixteen readings and its sixteen limits by value.
#[derive(Clone, Copy, PartialEq, Eq, Debug)]
pub struct Measured {
    pub readings: [i16; 16],
    pub limits: [i16; 16],
}

// Whether a reading or a limit is out of range.
fn out_of_range(number: i16) -> bool
    ensures { result ≡ outside number }
{
    !(-8191..=8191).contains(&number)
}

// Twice the reading above the limit, and one: odd, so that a reading at its limit is kept.
fn over(reading: i16, limit: i16) -> Margin
    requires reading { outside reading ≡ false }
    requires limit { outside limit ≡ false }
    ensures { result ≡ over_by reading limit }
{
    Margin {
        number: 2 * (reading - limit) + 1,
    }
}

impl Measured {
    // Whether a channel is unfit.
    fn is_unfit(&self, channel: u8) -> bool
        requires { channel < 16 }
        ensures { result ≡ channel_unfit self.now channel }
    {
        out_of_range(self.readings[channel as usize]) || out_of_range(self.limits[channel as usize])
    }
}

impl Letter for Measured {
    type Scale = Margin;

    ghost heard = { measured_heard };

    fn unfit(&self) -> Option<u8> {
        (0..16).find(|channel| self.is_unfit(*channel))
    }

    fn value(&self, channel: u8) -> Margin {
        if channel >= 16 || self.is_unfit(channel) {
            return Margin::worst();
        }
        let at = channel as usize;
        over(self.readings[at], self.limits[at])
    }
}
