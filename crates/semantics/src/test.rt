// What a test is worth on a letter.
ghost use Rattle.std.specs.Prelude.{◌≡◌};
ghost use Rattle.semantics.specs.Reports.{test_on};

use letter::kind::Letter;
use rule::leaf::Test;
use scale::order::Scale;

// The value of the test's channel or its opposite; with no channel best or worst.
pub fn tested<S: Scale, L: Letter<Scale = S>>(test: &Test, letter: &L) -> S
    ensures { result ≡ test_on S.Scale.algebra test.now.channel test.now.opposite (L.Letter.heard letter.now) }
{
    match (test.channel, test.opposite) {
        (None, false) => S::best(),
        (None, true) => S::worst(),
        (Some(channel), false) => letter.value(channel.number),
        (Some(channel), true) => letter.value(channel.number).opposite(),
    }
}
