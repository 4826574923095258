// A bit letter's line: four lowercase hexadecimal digits, most significant first.
ghost use Rattle.letter.specs.Lines.{Digit, LineRead};

use crate::bits::Bits;
use fault::{TextCause, TextFault};

// The refusal of a line that spells no letter.
const NO_LETTER: TextFault = TextFault::Refused(TextCause::Hexadecimal, 0);

// The value of a lowercase hexadecimal digit. The library's `to_digit` takes uppercase ones too.
fn digit(byte: u8) -> Option<u16>
    ensures { Digit byte result }
{
    match byte {
        b'0'..=b'9' => Some(u16::from(byte - b'0')),
        b'a'..=b'f' => Some(u16::from(byte - b'a') + 10),
        _ => None,
    }
}

// The letter that a line spells; all but four lowercase hexadecimal digits is refused at place 0. A function and no conversion:
// callers know it by this name, and a `TryFrom` beside it would only call it.
pub fn read_bits(line: &[u8]) -> Result<Bits, TextFault>
    ensures { LineRead line.now result }
{
    let [first, second, third, fourth] = line else {
        return Err(NO_LETTER);
    };
    let a = digit(*first).ok_or(NO_LETTER)?;
    let b = digit(*second).ok_or(NO_LETTER)?;
    let c = digit(*third).ok_or(NO_LETTER)?;
    let d = digit(*fourth).ok_or(NO_LETTER)?;
    Ok(Bits {
        word: ((a * 16 + b) * 16 + c) * 16 + d,
    })
}
