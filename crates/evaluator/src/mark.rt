// The marks: what a next is worth past the log's end.
ghost use Rattle.std.specs.Prelude.{◌≡◌};
ghost use Rattle.evaluator.specs.Markings.{marks_of};

use rule::leaf::Kind;
use scale::order::Scale;
use semantics::mark::kind_mark;

// The three values of a report. An enum and no closure that gives marks: it says which value is meant, and the
// definition of the marks takes it.
#[derive(Clone, Copy)]
pub enum Value {
    Verdict,
    Floor,
    Ceiling,
}

// Which value the marks are for, and whether the rule at hand stands under an odd number of `!`.
#[derive(Clone, Copy)]
pub struct Marking {
    pub value: Value,
    pub odd: bool,
}

impl Marking {
    // The mark of a kind.
    pub fn mark<S: Scale>(self, kind: Kind) -> S
        ensures { result ≡ marks_of S.Scale.algebra self.value self.odd kind }
    {
        match self.value {
            Value::Verdict => kind_mark(kind),
            Value::Floor => { if self.odd { S::best() } else { S::worst() } }
            Value::Ceiling => { if self.odd { S::worst() } else { S::best() } }
        }
    }
}
