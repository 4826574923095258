// Scales whose values can be put into bytes.
ghost use Rattle.std.specs.Prelude.{◌≡◌};
ghost use Rattle.scale.specs.Codes.{Coding, Sound, Put, Taken, Back};

use crate::fault::CodeFault;
use crate::order::Scale;

// A stored scale is a scale with a number of its own and a code of fixed width for each value.
pub trait Stored: Scale {
    // its number, the width of a code and the code of each value
    ghost coding: { Coding Self };

    // The scale's number.
    fn number() -> u8
        ensures { result ≡ coding.number };

    // How many bytes a code has, 1 to 4.
    fn width() -> usize
        ensures { result ≡ coding.width };

    // Puts the value's code at the front of the bytes; if they are too few, changes nothing.
    fn put(self, bytes: &mut [u8]) -> Result<(), CodeFault>
        ensures { Put coding self bytes.old bytes.new result };

    // The value whose code stands at the front of the bytes.
    fn take(bytes: &[u8]) -> Result<Self, CodeFault>
        ensures found { Taken coding bytes.now result }
        ensures back { Back coding bytes.now result };

    // every code has that width, and different values have different codes
    ghost sound: { Sound coding };
}
