// The verdict's mark of a kind.
ghost use Rattle.std.specs.Prelude.{◌≡◌};
ghost use Rattle.semantics.specs.Marks.{mark_of};

use rule::leaf::Kind;
use scale::order::Scale;

// Pending for a strong kind, presumed for a weak one.
pub fn kind_mark<S: Scale>(kind: Kind) -> S
    ensures { result ≡ mark_of S.Scale.algebra kind }
{
    match kind {
        Kind::SomeStrong | Kind::EveryStrong => S::pending(),
        Kind::SomeWeak | Kind::EveryWeak => S::presumed(),
    }
}
