// The reader: from a text to a rule, from left to right, or to the first thing that is wrong.
ghost use Rattle.std.specs.Prelude.{◌≡◌, ◌+◌, ◌<◌, ◌≤◌, length};
ghost use Rattle.rule.specs.Machine.{highest};

use crate::head::{RuleHead, SegmentHead, TestHead};
use crate::leaf::{Channel, Kind, Test};
use crate::sign::Sign;
use crate::tree::{Rule, Segment};
use fault::{TextCause, TextFault};
use std::alloc::Global;

const MOST_NODES: u8 = 48;

// What is left to be read of a text, its place in the text, and how many nodes were read.
#[derive(Drop)]
pub struct Reader<'t> {
    pub heap: Global,
    pub rest: &'t [u8],
    pub at: usize,
    pub nodes: u8,
    ghost short: { at + length rest.now ≤ 96 },
    ghost few: { nodes ≤ 48 },
}

// The highest second digit of a channel after its first.
fn most_ones(tens: u8) -> u8
    ensures { result ≡ highest tens }
{
    if tens == 0 { 9 } else { 5 }
}

impl<'t> Reader<'t> {
    ghost use Rattle.rule.specs.Parts.{Advanced, ByteAt, ChannelAt, DigitAt, RuleAt, SegmentAt, SignAt, TestAfter};

    // Nothing of the text is read yet.
    pub fn new(heap: Global, text: &'t [u8]) -> Reader<'t>
        requires { length text.now ≤ 96 }
        ensures rest { result.rest.now ≡ text.now }
        ensures at { result.at ≡ 0 }
        ensures nodes { result.nodes ≡ 0 }
    {
        Reader {
            heap,
            rest: text,
            at: 0,
            nodes: 0,
        }
    }

    // The next byte, which is not yet read.
    fn byte(&self) -> Result<u8, TextFault>
        ensures { ByteAt self.now result }
    {
        self.rest
            .first()
            .copied()
            .ok_or(TextFault::Refused(TextCause::Early, self.at))
    }

    // Reads the next byte, which is so many nodes.
    fn advance(&mut self, nodes: u8)
        requires more { 0 < length self.old.rest.now }
        requires few { self.old.nodes + nodes ≤ 48 }
        ensures { Advanced self.old nodes self.new }
    {
        self.rest = &self.rest[1..];
        self.at += 1;
        self.nodes += nodes;
    }

    // A digit up to `most`.
    fn digit(&mut self, most: u8) -> Result<u8, TextFault>
        requires { most ≤ 9 }
        ensures { DigitAt most self.old self.new result }
    {
        let byte = self.byte()?;
        if !(b'0'..=b'0' + most).contains(&byte) {
            return Err(TextFault::Refused(TextCause::Byte, self.at));
        }
        self.advance(0);
        Ok(byte - b'0')
    }

    // Two digits, 00 to 15.
    fn channel(&mut self) -> Result<Channel, TextFault>
        ensures { ChannelAt self.old self.new result }
    {
        let tens = self.digit(1)?;
        let ones = self.digit(most_ones(tens))?;
        let number = 10 * tens + ones;
        Ok(Channel { number })
    }

    // The sign that the next byte is; any other byte is refused, and so is a 49th node.
    fn sign<S: Sign>(&mut self) -> Result<S, TextFault>
        ensures { SignAt S.want S.spelling S.left S.NODES self.old self.new result }
    {
        let byte = self.byte()?;
        // by a match: tried with `map_err`, but the proof did not close for a sign that is a type parameter
        let sign = match S::try_from(byte) {
            Ok(sign) => sign,
            Err(cause) => return Err(TextFault::Refused(cause, self.at)),
        };
        if self.nodes + S::NODES > MOST_NODES {
            return Err(TextFault::Refused(TextCause::Nodes, self.at));
        }
        self.advance(S::NODES);
        Ok(sign)
    }

    // The rest of a test after its first byte.
    fn test(&mut self, head: TestHead) -> Result<Test, TextFault>
        ensures { TestAfter head self.old self.new result }
    {
        let channel = match head {
            TestHead::Best | TestHead::Worst => None,
            TestHead::Value | TestHead::Opposite => Some(self.channel()?),
        };
        let opposite = matches!(head, TestHead::Worst | TestHead::Opposite);
        Ok(Test { channel, opposite })
    }

    fn segment(&mut self) -> Result<Segment, TextFault>
        ensures { SegmentAt self.old self.new result }
    {
        match self.sign::<SegmentHead>()? {
            SegmentHead::Single(head) => Ok(Segment::Single(self.test(head)?)),
            SegmentHead::Pair(pairing) => {
                let first = self.segment()?;
                let second = self.segment()?;
                Segment::pair(self.heap, pairing, first, second)
            }
        }
    }

    pub fn rule(&mut self) -> Result<Rule, TextFault>
        ensures { RuleAt self.old self.new result }
    {
        match self.sign::<RuleHead>()? {
            RuleHead::Letter(head) => Ok(Rule::Letter(self.test(head)?)),
            RuleHead::Negated => {
                let inner = self.rule()?;
                Rule::negate(self.heap, inner)
            }
            RuleHead::Joined(joint) => {
                let first = self.rule()?;
                let second = self.rule()?;
                Rule::join(self.heap, joint, first, second)
            }
            RuleHead::Next(kind) => {
                let segment = self.segment()?;
                let then = self.rule()?;
                Rule::after(self.heap, kind, segment, then)
            }
            RuleHead::Lasting(course) => {
                let kind = self.sign::<Kind>()?;
                let first = self.rule()?;
                let middle = self.segment()?;
                let second = self.rule()?;
                Rule::last(self.heap, course, kind, first, middle, second)
            }
        }
    }
}
