// A rule and its cells before a letter, with `!` driven inward on the way: odd says that a rule stands for its opposite. It
// stands beside the rule, and not in a struct with it, which each step down would have to make anew.
ghost use Rattle.std.specs.Prelude.{◌≡◌, ◌+◌, ◌-◌, ◌≤◌, if◌then◌else◌};
ghost use Rattle.cells.specs.Reading.{meets_parts, rule_at, inner_at};
ghost use Rattle.rule.specs.Size.{size};
ghost use Rattle.rule.specs.Stands.{rule_of};
ghost use Rattle.semantics.specs.Inward.{flipped};

use crate::ahead::Ahead;
use crate::count::{rule_cells, segment_cells};
use crate::place::Place;
use crate::walk::blend;
use letter::kind::Letter;
use rule::leaf::Test;
use rule::tree::Rule;
use scale::order::Scale;
use semantics::test::tested;

// The test, or its opposite.
fn turned(test: &Test, odd: bool) -> Test
    ensures { result ≡ (if odd then flipped test.now else test.now) }
{
    Test {
        opposite: test.opposite != odd,
        ..*test
    }
}

// Does a rule of two parts, or its opposite, meet them; else it joins them.
fn meets(rule: &Rule, odd: bool) -> bool
    ensures { result ≡ meets_parts odd (rule_of rule.now) }
{
    match rule {
        Rule::Both(_, _) | Rule::Release(_, _, _, _) => !odd,
        _ => odd,
    }
}

impl<'a, S: Scale, L: Letter<Scale = S>> Ahead<'a, S, L> {
    // The rule before the letter; its cells are numbered from base on.
    pub fn rule_before(&self, rule: &Rule, odd: bool, base: usize) -> S
        requires { base + size (rule_of rule.now) ≤ 64 }
        ensures { result ≡ rule_at S.Scale.algebra (L.Letter.heard self.now.letter.now) self.now.after.now odd (rule_of rule.now) base }
    {
        match rule {
            Rule::Letter(test) => tested(&turned(test, odd), self.letter),
            Rule::Negated(inner) => self.rule_before(inner, !odd, base),
            Rule::Both(first, second) | Rule::Any(first, second) => {
                let one = self.rule_before(first, odd, base);
                let other = self.rule_before(second, odd, base + rule_cells(first));
                blend(meets(rule, odd), one, other)
            }
            Rule::Next(kind, segment, _) => {
                let place = Place::of(*kind, odd, base, base + 1);
                self.enter(segment, place)
            }
            Rule::Until(kind, hold, segment, goal) | Rule::Release(kind, hold, segment, goal) => {
                let every = meets(rule, odd);
                let tests = base + 1 + rule_cells(hold);
                let rest = tests + segment_cells(segment, false);
                let kept = self.rule_before(hold, odd, base + 1);
                let again = self.enter(segment, Place::of(*kind, odd, base, tests));
                let reached = self.rule_before(goal, odd, rest);
                blend(every, reached, blend(!every, kept, again))
            }
        }
    }

    // One of the rule's cells before the letter; worst past the last.
    pub fn inner_before(&self, rule: &Rule, odd: bool, base: usize, cell: usize) -> S
        requires fits { base + size (rule_of rule.now) ≤ 64 }
        requires from { base ≤ cell }
        ensures { result ≡ inner_at S.Scale.algebra (L.Letter.heard self.now.letter.now) self.now.after.now odd (rule_of rule.now) base (cell - base) }
    {
        match rule {
            Rule::Letter(_) => S::worst(),
            Rule::Negated(inner) => self.inner_before(inner, !odd, base, cell),
            Rule::Both(first, second) | Rule::Any(first, second) => {
                let middle = base + rule_cells(first);
                if cell < middle {
                    self.inner_before(first, odd, base, cell)
                } else {
                    self.inner_before(second, odd, middle, cell)
                }
            }
            Rule::Next(kind, segment, inner) => {
                let rest = base + 1 + segment_cells(segment, false);
                if cell == base {
                    self.rule_before(inner, odd, rest)
                } else if cell < rest {
                    let place = Place::of(*kind, odd, base, base + 1);
                    self.follow(segment, place, S::worst(), cell)
                } else {
                    self.inner_before(inner, odd, rest, cell)
                }
            }
            Rule::Until(kind, hold, segment, goal) | Rule::Release(kind, hold, segment, goal) => {
                let tests = base + 1 + rule_cells(hold);
                let rest = tests + segment_cells(segment, false);
                if cell == base {
                    self.rule_before(rule, odd, base)
                } else if cell < tests {
                    self.inner_before(hold, odd, base + 1, cell)
                } else if cell < rest {
                    let place = Place::of(*kind, odd, base, tests);
                    self.follow(segment, place, S::worst(), cell)
                } else {
                    self.inner_before(goal, odd, rest, cell)
                }
            }
        }
    }
}
