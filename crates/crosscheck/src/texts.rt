// Drawn rule texts, over all tests, segments, operators and kinds.
ghost use Rattle.std.specs.Prelude.{◌<◌, length};

use crate::draw::Draw;
use std::alloc::{AllocError, Global};

// How deep a rule and its segments are at most.
const RULE_DEPTH: usize = 4;

const SEGMENT_DEPTH: u8 = 2;

// The tests of a channel: a few channels, so that they meet.
const CHANNEL_TESTS: [&[u8]; 8] = [
    b"h00", b"h01", b"h02", b"h15", b"f00", b"f01", b"f02", b"f15",
];

const PAIRINGS: [u8; 3] = *b"|.*";

const KINDS: [u8; 4] = *b"EeAa";

const JOINTS: [u8; 2] = *b"&+";

const COURSES: [u8; 2] = *b"UR";

// A text that is being drawn.
#[derive(Drop)]
struct Drawing<'d> {
    draw: &'d mut Draw,
    text: Vec<u8>,
}

impl<'d> Drawing<'d> {
    // Puts one of some signs.
    fn put_one_of(&mut self, signs: &[u8]) -> Result<(), AllocError>
        requires { 0 < length signs.now }
    {
        let sign = self.draw.one_of(signs);
        self.text.push(sign)?;
        Ok(())
    }

    // Puts a test.
    fn put_test(&mut self) -> Result<(), AllocError> {
        match self.draw.below(10) {
            0 => self.text.push(b'y')?,
            1 => self.text.push(b'n')?,
            _ => self
                .text
                .extend_from_slice(self.draw.one_of(&CHANNEL_TESTS))?,
        }
        Ok(())
    }

    // Puts a segment.
    fn put_segment(&mut self, depth: u8) -> Result<(), AllocError> {
        if depth == 0 || self.draw.below(3) == 0 {
            return self.put_test();
        }
        self.put_one_of(&PAIRINGS)?;
        self.put_segment(depth - 1)?;
        self.put_segment(depth - 1)
    }

    // Puts a rule.
    fn put_rule(&mut self, depth: usize) -> Result<(), AllocError> {
        if depth == 0 {
            return self.put_test();
        }
        let inner = depth - 1;
        match self.draw.below(9) {
            0 => self.put_test(),
            1 => {
                self.text.push(b'!')?;
                self.put_rule(inner)
            }
            2 | 3 => {
                self.put_one_of(&JOINTS)?;
                self.put_rule(inner)?;
                self.put_rule(inner)
            }
            4 | 5 | 6 => {
                self.put_one_of(&KINDS)?;
                self.put_segment(SEGMENT_DEPTH)?;
                self.put_rule(inner)
            }
            _ => {
                self.put_one_of(&COURSES)?;
                self.put_one_of(&KINDS)?;
                self.put_rule(inner)?;
                self.put_segment(SEGMENT_DEPTH)?;
                self.put_rule(inner)
            }
        }
    }
}

// A rule text; it may be too long, or have too many nodes or cells.
pub(crate) fn rule_text(heap: Global, draw: &mut Draw) -> Result<Vec<u8>, AllocError> {
    let depth = draw.up_to(RULE_DEPTH);
    let mut drawing = Drawing {
        draw,
        text: Vec::new(heap),
    };
    drawing.put_rule(depth)?;
    Ok(drawing.text)
}
