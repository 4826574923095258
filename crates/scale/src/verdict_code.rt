// The code of a verdict: its number, in one byte.
ghost use Rattle.scale.specs.VerdictCode.{verdict_coding};
ghost use Rattle.std.proofs.Common.{rules};

use crate::fault::CodeFault;
use crate::stored::Stored;
use crate::verdict::Verdict;

impl Stored for Verdict {
    ghost coding = { verdict_coding };

    ghost sound = { Prim.search rules };

    fn number() -> u8 {
        1 // the scale's number
    }

    fn width() -> usize {
        1 // one byte
    }

    fn put(self, bytes: &mut [u8]) -> Result<(), CodeFault> {
        let code = bytes.first_mut().ok_or(CodeFault::Short)?;
        *code = self as u8;
        Ok(())
    }

    fn take(bytes: &[u8]) -> Result<Verdict, CodeFault> {
        let code = bytes.first().ok_or(CodeFault::Short)?;
        Verdict::try_from(*code)
    }
}
