// A rule as the reader hands it back: a tree.
use crate::leaf::{Kind, Test};

// A segment reads a stretch of at least one letter.
#[derive(Drop)]
pub enum Segment {
    // One letter that meets the test.
    Single(Test),
    // Either the first or the second.
    Either(Box<Segment>, Box<Segment>),
    // The first, then the second.
    Chain(Box<Segment>, Box<Segment>),
    // The first any number of times, then the second once.
    Star(Box<Segment>, Box<Segment>),
}

// A rule about a log.
#[derive(Drop)]
pub enum Rule {
    // The test of the letter at hand.
    Letter(Test),
    // The opposite of a rule.
    Negated(Box<Rule>),
    // Both rules.
    Both(Box<Rule>, Box<Rule>),
    // One rule or the other.
    Any(Box<Rule>, Box<Rule>),
    // After some match, or after every match, of the segment: the rule.
    Next(Kind, Box<Segment>, Box<Rule>),
    // The third holds, or the first does and so does the whole after a match of the segment.
    Until(Kind, Box<Rule>, Box<Segment>, Box<Rule>),
    // The until with join and meet exchanged.
    Release(Kind, Box<Rule>, Box<Segment>, Box<Rule>),
}
