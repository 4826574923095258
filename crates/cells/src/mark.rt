// The cells at the log's end.
ghost use Rattle.std.specs.Prelude.{◌≡◌, ◌≤◌, slice_index_or};
ghost use Rattle.cells.specs.Answers.{marked_cell};
ghost use Rattle.semantics.specs.Inward.{inward};
ghost use Rattle.cells.specs.Reading.{kind_under};
ghost use Rattle.cells.specs.Step.{inner_marks};
ghost use Rattle.rule.specs.Size.{size};
ghost use Rattle.rule.specs.Stands.{rule_of};
ghost use Rattle.semantics.specs.Marks.{mark_of};

use crate::count::{rule_cells, segment_cells};
use crate::laid::Laid;
use rule::leaf::Kind;
use rule::tree::Rule;
use scale::order::Scale;
use semantics::mark::kind_mark;

// The mark of a kind; odd says that the operator stands for its opposite.
fn mark_under<S: Scale>(kind: Kind, odd: bool) -> S
    ensures { result ≡ mark_of S.Scale.algebra (kind_under odd kind) }
{
    kind_mark(kind.under(odd))
}

// One of the rule's cells at the log's end; worst past the last. It goes down the rule as what works out a cell before a letter
// does; one function for both would need a type parameter for what it takes along, which only its proof would use.
fn inner_mark<S: Scale>(rule: &Rule, odd: bool, cell: usize) -> S
    requires { size (rule_of rule.now) ≤ 64 }
    ensures { result ≡ slice_index_or (inner_marks (mark_of S.Scale.algebra) (inward odd (rule_of rule.now))) cell S.Scale.algebra.worst }
{
    match rule {
        Rule::Letter(_) => S::worst(),
        Rule::Negated(inner) => inner_mark(inner, !odd, cell),
        Rule::Both(first, second) | Rule::Any(first, second) => {
            let cells = rule_cells(first);
            if cell < cells {
                inner_mark(first, odd, cell)
            } else {
                inner_mark(second, odd, cell - cells)
            }
        }
        Rule::Next(kind, segment, inner) => {
            let cells = 1 + segment_cells(segment, false);
            if cell < cells {
                mark_under(*kind, odd)
            } else {
                inner_mark(inner, odd, cell - cells)
            }
        }
        Rule::Until(kind, hold, segment, goal) | Rule::Release(kind, hold, segment, goal) => {
            let tests = 1 + rule_cells(hold);
            let rest = tests + segment_cells(segment, false);
            if cell == 0 {
                mark_under(*kind, odd)
            } else if cell < tests {
                inner_mark(hold, odd, cell - 1)
            } else if cell < rest {
                mark_under(*kind, odd)
            } else {
                inner_mark(goal, odd, cell - rest)
            }
        }
    }
}

impl Laid {
    // What a cell is worth at the log's end: its mark, for the whole rule pending; none past the last cell.
    pub fn mark<S: Scale>(&self, cell: usize) -> Option<S>
        ensures { result ≡ marked_cell S.Scale.algebra (rule_of self.now.rule) cell }
    {
        match cell {
            0 => Some(S::pending()),
            _ if cell < self.count => Some(inner_mark(&self.rule, false, cell - 1)),
            _ => None,
        }
    }
}
