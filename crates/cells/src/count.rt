// How many cells a segment and a rule have.
ghost use Rattle.std.specs.Prelude.{◌≡◌, ◌≤◌};
ghost use Rattle.cells.specs.Step.{inner_cells};
ghost use Rattle.cells.specs.Walk.{cells_in};
ghost use Rattle.rule.specs.Size.{segment_size, size};
ghost use Rattle.rule.specs.Stands.{segment_of, rule_of};

use rule::tree::{Rule, Segment};

// The tests of a segment that have a cell; inside says that a test around it may follow its last letter: the flag of the
// definition. That a tree is small is asked here and below for parts of trees too, so no type of whole rules can say it.
pub fn segment_cells(segment: &Segment, inside: bool) -> usize
    requires { segment_size (segment_of segment.now) ≤ 64 }
    ensures counted { result ≡ cells_in (segment_of segment.now) inside }
    ensures few { result ≤ segment_size (segment_of segment.now) }
{
    match segment {
        Segment::Single(_) => usize::from(inside),
        Segment::Either(first, second) => segment_cells(first, inside)
            + segment_cells(second, inside),
        Segment::Chain(first, second) | Segment::Star(first, second) => {
            segment_cells(first, true) + segment_cells(second, inside)
        }
    }
}

// The cells of a rule beside cell 0.
#[tactic(auto, using(crate::proofs::Walking::counted), unfolding(crate::specs::Step::inner_cells))]
pub fn rule_cells(rule: &Rule) -> usize
    requires { size (rule_of rule.now) ≤ 64 }
    ensures counted { result ≡ inner_cells (rule_of rule.now) }
    ensures few { result ≤ size (rule_of rule.now) }
{
    match rule {
        Rule::Letter(_) => 0,
        Rule::Negated(inner) => rule_cells(inner),
        Rule::Both(first, second) | Rule::Any(first, second) => rule_cells(first)
            + rule_cells(second),
        Rule::Next(_, segment, inner) => 1 + segment_cells(segment, false) + rule_cells(inner),
        Rule::Until(_, hold, segment, goal) | Rule::Release(_, hold, segment, goal) => {
            1 + rule_cells(hold) + segment_cells(segment, false) + rule_cells(goal)
        }
    }
}
