// What the first byte of a test, a kind, a segment or a rule says.
ghost use Rattle.rule.specs.Heads.{KindByte, RuleByte, SegmentByte, TestByte};

use crate::leaf::Kind;
use fault::TextCause;

// The first byte of a test.
#[derive(Clone, Copy)]
pub enum TestHead {
    // `y`
    Best,
    // `n`
    Worst,
    // `h`, and a channel follows
    Value,
    // `f`, and a channel follows
    Opposite,
}

// The sign before two segments. This, Joint and Course are kinds, by which a constructor is chosen, and no steps.
#[derive(Clone, Copy)]
pub enum Pairing {
    Either,
    Chain,
    Star,
}

#[derive(Clone, Copy)]
pub enum SegmentHead {
    Single(TestHead),
    Pair(Pairing),
}

// The sign before two rules.
#[derive(Clone, Copy)]
pub enum Joint {
    Both,
    Any,
}

// The letter before a kind, a rule, a segment and a rule.
#[derive(Clone, Copy)]
pub enum Course {
    Until,
    Release,
}

#[derive(Clone, Copy)]
pub enum RuleHead {
    Letter(TestHead),
    Negated,
    Joined(Joint),
    Next(Kind),
    Lasting(Course),
}

impl TryFrom<u8> for Kind {
    type Error = TextCause;

    ghost try_from_gives = { KindByte };

    fn try_from(byte: u8) -> Result<Kind, TextCause> {
        match byte as char {
            'E' => Ok(Kind::SomeStrong),
            'e' => Ok(Kind::SomeWeak),
            'A' => Ok(Kind::EveryStrong),
            'a' => Ok(Kind::EveryWeak),
            _ => Err(TextCause::Byte),
        }
    }
}

impl TryFrom<u8> for TestHead {
    type Error = TextCause;

    ghost try_from_gives = { TestByte };

    fn try_from(byte: u8) -> Result<TestHead, TextCause> {
        match byte as char {
            'y' => Ok(TestHead::Best),
            'n' => Ok(TestHead::Worst),
            'h' => Ok(TestHead::Value),
            'f' => Ok(TestHead::Opposite),
            _ => Err(TextCause::Byte),
        }
    }
}

impl TryFrom<u8> for SegmentHead {
    type Error = TextCause;

    ghost try_from_gives = { SegmentByte };

    fn try_from(byte: u8) -> Result<SegmentHead, TextCause> {
        match byte as char {
            '|' => Ok(SegmentHead::Pair(Pairing::Either)),
            '.' => Ok(SegmentHead::Pair(Pairing::Chain)),
            '*' => Ok(SegmentHead::Pair(Pairing::Star)),
            _ => Ok(SegmentHead::Single(TestHead::try_from(byte)?)),
        }
    }
}

impl TryFrom<u8> for RuleHead {
    type Error = TextCause;

    ghost try_from_gives = { RuleByte };

    fn try_from(byte: u8) -> Result<RuleHead, TextCause> {
        match byte as char {
            '!' => Ok(RuleHead::Negated),
            '&' => Ok(RuleHead::Joined(Joint::Both)),
            '+' => Ok(RuleHead::Joined(Joint::Any)),
            'U' => Ok(RuleHead::Lasting(Course::Until)),
            'R' => Ok(RuleHead::Lasting(Course::Release)),
            // two errors with one meaning, of which the second is the answer: so a match
            _ => match Kind::try_from(byte) {
                Ok(kind) => Ok(RuleHead::Next(kind)),
                Err(_) => Ok(RuleHead::Letter(TestHead::try_from(byte)?)),
            },
        }
    }
}
