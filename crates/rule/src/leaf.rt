// The leaves of a rule: channels, tests and kinds.
ghost use Rattle.std.specs.Prelude.{◌<◌};

use std::fmt;

// A channel of the recorder, 0 to 15.
#[derive(Clone, Copy, PartialEq, Eq, Debug)]
pub struct Channel {
    pub number: u8,
    ghost few: { number < 16 },
}

// Two digits.
impl fmt::Display for Channel {
    ghost use Rattle.std.specs.Prelude.{Some};
    ghost use Rattle.rule.specs.Spelling.{digits};

    ghost output = { λ channel. Some (digits channel) };

    fn fmt<W: fmt::Write>(&self, f: &mut fmt::Formatter<W>) -> fmt::Result {
        write!(f, "{:02}", self.number)
    }
}

// A test of one letter: a channel's value or its opposite; with no channel, best or its opposite, worst. By a rule of the project
// the channel is an Option; the flag says of either that it is the opposite.
#[derive(Clone, Copy, PartialEq, Eq, Debug)]
pub struct Test {
    pub channel: Option<Channel>,
    pub opposite: bool,
}

// As in a rule's text.
impl fmt::Display for Test {
    ghost use Rattle.std.specs.Prelude.{Some};
    ghost use Rattle.rule.specs.Spelling.{spelled_test};

    ghost output = { λ test. Some (spelled_test test) };

    fn fmt<W: fmt::Write>(&self, f: &mut fmt::Formatter<W>) -> fmt::Result {
        match (self.channel, self.opposite) {
            (None, false) => f.write_str("y"),
            (None, true) => f.write_str("n"),
            (Some(channel), false) => write!(f, "h{channel}"),
            (Some(channel), true) => write!(f, "f{channel}"),
        }
    }
}

// The kind of a next, an until or a release: does it want some match or every match, and is its mark
// pending (strong) or presumed (weak).
#[derive(Clone, Copy, PartialEq, Eq, Debug)]
pub enum Kind {
    SomeStrong,
    SomeWeak,
    EveryStrong,
    EveryWeak,
}

impl Kind {
    ghost use Rattle.std.specs.Prelude.{◌≡◌};
    ghost use Rattle.rule.specs.Kinds.{dual, kind_under};

    // The kind that stands for this one under an odd number of `!`.
    pub fn dual(self) -> Kind
        ensures { result ≡ dual self }
    {
        match self {
            Kind::SomeStrong => Kind::EveryWeak,
            Kind::SomeWeak => Kind::EveryStrong,
            Kind::EveryStrong => Kind::SomeWeak,
            Kind::EveryWeak => Kind::SomeStrong,
        }
    }

    // Its dual where odd says that it stands under an odd number of `!`, else itself.
    pub fn under(self, odd: bool) -> Kind
        ensures { result ≡ kind_under odd self }
    {
        if odd { self.dual() } else { self }
    }
}

// The letter in a rule's text.
impl fmt::Display for Kind {
    ghost use Rattle.std.specs.Prelude.{Some};
    ghost use Rattle.rule.specs.Spelling.{spelled_kind};

    ghost output = { λ kind. Some (spelled_kind kind) };

    fn fmt<W: fmt::Write>(&self, f: &mut fmt::Formatter<W>) -> fmt::Result {
        f.write_str(match self {
            Kind::SomeStrong => "E",
            Kind::SomeWeak => "e",
            Kind::EveryStrong => "A",
            Kind::EveryWeak => "a",
        })
    }
}
