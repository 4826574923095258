// Drawn letters.
use crate::draw::Draw;
use letter::bits::Bits;
use letter::measured::Measured;
use std::alloc::{AllocError, Global};
use std::array;

// Letters that can be drawn.
pub(crate) trait Drawn: Copy + Sized {
    fn drawn(draw: &mut Draw) -> Self;
}

// A number from -3 to 3 for each channel.
fn near_zero(draw: &mut Draw) -> [i16; 16] {
    array::from_fn(|_| draw.below(7) as i16 - 3)
}

impl Drawn for Bits {
    fn drawn(draw: &mut Draw) -> Bits {
        Bits {
            word: draw.below(65536) as u16,
        }
    }
}

impl Drawn for Measured {
    fn drawn(draw: &mut Draw) -> Measured {
        Measured {
            readings: near_zero(draw),
            limits: near_zero(draw),
        }
    }
}

// A log of so many letters.
pub(crate) fn log_of<L: Drawn>(
    heap: Global,
    draw: &mut Draw,
    length: usize,
) -> Result<Vec<L>, AllocError> {
    (0..length).map(|_| L::drawn(draw)).collect(heap)
}
