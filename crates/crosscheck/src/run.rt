// A run: rules are drawn and compared, as planned.
use crate::compare::Comparison;
use crate::counts::Counts;
use crate::draw::Draw;
use crate::letters::{Drawn, log_of};
use crate::texts::rule_text;
use cells::laid_rule::LaidRule;
use cells::lay_rule::lay_rule;
use letter::kind::Letter;
use scale::order::Scale;
use std::alloc::{AllocError, Global};
use std::collections::BTreeSet;

// How many texts are drawn for one rule at most.
const MOST_DRAWS: u32 = 1_000_000;

// Rules of so many cells: how many for each kind of letter, and how many letters their logs have.
#[derive(Clone, Copy)]
pub(crate) struct Plan {
    pub(crate) cells: usize,
    pub(crate) rules: u32,
    pub(crate) letters: usize,
}

// Its memory, where the draws stand and what was counted.
#[derive(Drop)]
pub(crate) struct Run {
    pub(crate) heap: Global,
    pub(crate) draw: Draw,
    pub(crate) counts: Counts,
}

impl Run {
    // A rule of so many cells that was not seen before; other texts are passed over.
    fn drawn_rule(
        &mut self,
        cells: usize,
        seen: &mut BTreeSet<Vec<u8>>,
    ) -> Result<Option<LaidRule>, AllocError> {
        // a loop, since what is drawn needs memory and `?` leads out of it
        for _ in 0..MOST_DRAWS {
            let text = rule_text(self.heap, &mut self.draw)?;
            if let Ok(rule) = lay_rule(self.heap, text.as_slice()) {
                if rule.laid.count == cells && seen.insert(text)? {
                    return Ok(Some(rule));
                }
            }
            self.counts.passed = self.counts.passed.saturating_add(1);
        }
        Ok(None)
    }

    // Draws the planned rules for a kind of letter, none of them twice, a log for each, and compares. How many rules there were.
    pub(crate) fn compare_rules<S: Scale, L: Letter<Scale = S> + Drawn>(
        &mut self,
        plan: Plan,
        seen: &mut BTreeSet<Vec<u8>>,
    ) -> Result<u64, AllocError> {
        let mut rules = 0u64;
        // a loop, since a rule and its log need memory
        for _ in 0..plan.rules {
            if let Some(rule) = self.drawn_rule(plan.cells, seen)? {
                let log: Vec<L> = log_of(self.heap, &mut self.draw, plan.letters)?;
                Comparison::new(self, &rule)?.compare_log(log.as_slice())?;
                rules = rules.saturating_add(1);
            }
        }
        Ok(rules)
    }
}
