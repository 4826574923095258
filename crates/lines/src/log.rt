// The log that `judge` has read so far.
ghost use Rattle.std.specs.Prelude.{◌≡◌, ◌≤◌, length};

use letter::bits::Bits;

// At most 64 bit letters, in a place for 64: fixed memory, and Copy, as callers know it. An array with its count, since the library's
// vector of fixed place can not be copied; and one type for this and for short texts would need an array of a type parameter, which
// no generic struct has.
#[derive(Clone, Copy)]
pub struct Log {
    pub letters: [Bits; 64],
    pub count: usize,
    ghost few: { count ≤ 64 },
    ghost long: { length letters ≡ 64 },
}
