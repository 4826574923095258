// Where a segment stands in the rule.
ghost use Rattle.std.specs.Prelude.{◌≡◌, ◌+◌, ◌≤◌, true, false};
ghost use Rattle.cells.specs.Reading.{kind_under};
ghost use Rattle.cells.specs.Step.{wants_every};

use rule::leaf::Kind;

// The operator of a segment wants every match, or some match, and has cell number op; the segment's test cells begin
// at base. Inside says that a test around the segment may follow its last letter, ends that this letter may end the match: two
// flags, since what a test is worth is defined for either and for both. Every is a flag too, and no closure that meets or joins: it
// goes down the segment with the rest, where a closure would be a type parameter of each step.
#[derive(Clone, Copy)]
pub struct Place {
    pub every: bool,
    pub op: usize,
    pub inside: bool,
    pub ends: bool,
    pub base: usize,
}

impl Place {
    // Of the whole segment of an operator; odd says that the operator stands for its opposite.
    pub fn of(kind: Kind, odd: bool, op: usize, base: usize) -> Place
        ensures { result ≡ record { every = wants_every (kind_under odd kind); op = op; inside = false; ends = true; base = base } }
    {
        let every = matches!(kind.under(odd), Kind::EveryStrong | Kind::EveryWeak);
        Place {
            every,
            op,
            inside: false,
            ends: true,
            base,
        }
    }

    // Of the first part of a chain or a star: what follows it lies within the segment.
    pub fn inner(self) -> Place
        ensures { result ≡ record { every = self.every; op = self.op; inside = true; ends = false; base = self.base } }
    {
        Place {
            inside: true,
            ends: false,
            ..self
        }
    }

    // Of the second part: behind so many cells of the first.
    pub fn behind(self, cells: usize) -> Place
        requires { self.base + cells ≤ 64 }
        ensures { result ≡ record { every = self.every; op = self.op; inside = self.inside; ends = self.ends; base = self.base + cells } }
    {
        Place {
            base: self.base + cells,
            ..self
        }
    }
}
