// Puts trees together, each part in a box of its own.
ghost use Rattle.rule.specs.Parts.{Built, paired, joined, lasting};
ghost use Rattle.rule.specs.Stands.{segment_of, rule_of};
ghost use Rattle.rule.specs.Tree.{negated, next};

use crate::head::{Course, Joint, Pairing};
use crate::leaf::Kind;
use crate::tree::{Rule, Segment};
use fault::TextFault;
use std::alloc::Global;

// Pairs and joints are boxed alike; one function for both would take the constructor as a closure and speak of what that
// gives, which is no plainer.
impl Segment {
    pub(crate) fn pair(
        heap: Global,
        pairing: Pairing,
        first: Segment,
        second: Segment,
    ) -> Result<Segment, TextFault>
        ensures { Built segment_of (paired pairing (segment_of first) (segment_of second)) result }
    {
        let first = Box::new(heap, first)?;
        let second = Box::new(heap, second)?;
        Ok(match pairing {
            Pairing::Either => Segment::Either(first, second),
            Pairing::Chain => Segment::Chain(first, second),
            Pairing::Star => Segment::Star(first, second),
        })
    }
}

impl Rule {
    pub(crate) fn negate(heap: Global, rule: Rule) -> Result<Rule, TextFault>
        ensures { Built rule_of (negated (rule_of rule)) result }
    {
        Ok(Rule::Negated(Box::new(heap, rule)?))
    }

    pub(crate) fn join(
        heap: Global,
        joint: Joint,
        first: Rule,
        second: Rule,
    ) -> Result<Rule, TextFault>
        ensures { Built rule_of (joined joint (rule_of first) (rule_of second)) result }
    {
        let first = Box::new(heap, first)?;
        let second = Box::new(heap, second)?;
        Ok(match joint {
            Joint::Both => Rule::Both(first, second),
            Joint::Any => Rule::Any(first, second),
        })
    }

    pub(crate) fn after(
        heap: Global,
        kind: Kind,
        segment: Segment,
        rule: Rule,
    ) -> Result<Rule, TextFault>
        ensures { Built rule_of (next kind (segment_of segment) (rule_of rule)) result }
    {
        let segment = Box::new(heap, segment)?;
        let rule = Box::new(heap, rule)?;
        Ok(Rule::Next(kind, segment, rule))
    }

    pub(crate) fn last(
        heap: Global,
        course: Course,
        kind: Kind,
        first: Rule,
        segment: Segment,
        second: Rule,
    ) -> Result<Rule, TextFault>
        ensures { Built rule_of (lasting course kind (rule_of first) (segment_of segment) (rule_of second)) result }
    {
        let first = Box::new(heap, first)?;
        let segment = Box::new(heap, segment)?;
        let second = Box::new(heap, second)?;
        Ok(match course {
            Course::Until => Rule::Until(kind, first, segment, second),
            Course::Release => Rule::Release(kind, first, segment, second),
        })
    }
}
