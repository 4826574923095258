// The code of a margin: its number in two's complement, most significant byte first.
ghost use Rattle.scale.specs.MarginCode.{margin_coding};
ghost use Rattle.scale.specs.MarginsLemmas.{margins_sound};

use crate::fault::CodeFault;
use crate::margin::Margin;
use crate::stored::Stored;

impl Stored for Margin {
    ghost coding = { margin_coding };

    ghost sound = { margins_sound };

    fn number() -> u8 {
        2 // the scale's number
    }

    fn width() -> usize {
        2 // two bytes
    }

    fn put(self, bytes: &mut [u8]) -> Result<(), CodeFault> {
        let code = bytes.first_chunk_mut().ok_or(CodeFault::Short)?;
        *code = self.number.to_be_bytes();
        Ok(())
    }

    fn take(bytes: &[u8]) -> Result<Margin, CodeFault> {
        let code = bytes.first_chunk::<2>().ok_or(CodeFault::Short)?;
        Margin::try_from(i16::from_be_bytes(*code))
    }
}
