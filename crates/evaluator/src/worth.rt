// What a rule is worth at each position of a log, from what its parts are worth.
ghost use Rattle.std.specs.Prelude.{◌≡◌, ℕ, suc, ◌<◌, map, length, IfOk};
ghost use Rattle.rule.specs.Stands.{segment_of, rule_of};
ghost use Rattle.evaluator.specs.Segments.{next_is, Nexted, Ruled, Turning};
ghost use Rattle.evaluator.specs.Tables.{entry, Rowed};

use crate::fill::{merged_row, row_from_fn};
use crate::log::Log;
use crate::mark::Marking;
use crate::next::{Ahead, Next};
use crate::segment::{letter_row, segment_table};
use letter::kind::Letter;
use rule::leaf::Kind;
use rule::tree::{Rule, Segment};
use scale::order::Scale;
use std::alloc::{AllocError, Global};

// The opposite of a row.
fn opposite_row<S: Scale>(heap: Global, row: &[S]) -> Result<Vec<S>, AllocError>
    ensures { IfOk result (λ opposite. Rowed S.Scale.algebra (length row.now) (λ k. S.Scale.algebra.opposite (entry S.Scale.algebra row.now k)) opposite.items) }
{
    row.iter().map(|value| value.opposite()).collect(heap)
}

impl<'a, S: Scale> Ahead<'a, S> {
    // The next at a position. Of some match: it ends where the row after it holds, ends with the log, or is open
    // there. Of every match: it ends where the row after it holds; one that ends with the log or is open there has
    // the mark. Two arms, since each operation in one is another one in the other, and `opposite` stands in one alone.
    fn at(&self, from: usize) -> S
        requires { from < length self.now.after.now }
        ensures { result ≡ next_is S.Scale.algebra self.now.next.now (length self.now.after.now) (entry S.Scale.algebra self.now.after.now) from }
    {
        let Next { kind, table, mark } = self.next;
        let end = self.after.len();
        let (ended, open) = (table.matches.at(from, end), table.opened[from]);
        match kind {
            Kind::SomeStrong | Kind::SomeWeak => {
                let inside = table.matches.some_along(self.after, from, from + 1, end);
                inside.join(ended.meet(*mark)).join(open.meet(*mark))
            }
            Kind::EveryStrong | Kind::EveryWeak => {
                let inside = table.matches.every_along(self.after, from, from + 1, end);
                inside
                    .meet(ended.opposite().join(*mark))
                    .meet(open.opposite().join(*mark))
            }
        }
    }
}

impl<S: Scale> Next<S> {
    // The next at each position.
    fn row(&self, heap: Global, after: &[S]) -> Result<Vec<S>, AllocError>
        requires { self.now.table.matches.size ≡ suc (length after.now) }
        ensures { IfOk result (λ row. Rowed S.Scale.algebra (length after.now) (next_is S.Scale.algebra self.now (length after.now) (entry S.Scale.algebra after.now)) row.items) }
    {
        let ahead = Ahead { next: self, after };
        row_from_fn(heap, after.len(), |from| ahead.at(from))
    }

    // The until or the release at each position, the last one first: it looks at its own values further on, so a loop
    // writes the row in place. Turn makes a value of the goal's, the hold's and the next's.
    fn turned<F: Fn(S, S, S) -> S>(
        &self,
        heap: Global,
        hold: &[S],
        goal: &[S],
        turn: F,
    ) -> Result<Vec<S>, AllocError>
        requires callable { F.IsAlwaysCallable turn }
        requires both { length goal.now ≡ length hold.now }
        requires same { self.now.table.matches.size ≡ suc (length hold.now) }
        ensures { (t : S → S → S → S) → ((g h x r : S) → F.post turn g h x r → r ≡ t g h x) → IfOk result (λ row. Turning S.Scale.algebra t self.now (length hold.now) hold.now goal.now row.items) }
    {
        // no `vec!`, which copies by the scale's `clone`: a scale promises nothing of that, and it may fail
        let mut row = row_from_fn(heap, hold.len(), |_position| S::worst())?;
        for k in (0..hold.len()).rev() {
            let ahead = Ahead {
                next: self,
                after: &row,
            }
            .at(k);
            row[k] = turn(goal[k], hold[k], ahead);
        }
        Ok(row)
    }
}

// The next of a kind over a segment, with its mark.
fn next_over<S: Scale, L: Letter<Scale = S>>(
    log: &Log<L>,
    marking: Marking,
    kind: Kind,
    segment: &Segment,
) -> Result<Next<S>, AllocError>
    ensures { IfOk result (Nexted S.Scale.algebra marking (map L.Letter.heard log.now.letters.now) kind (segment_of segment.now)) }
{
    let table = segment_table(log, segment)?;
    let mark = marking.mark(kind);
    Ok(Next { kind, table, mark })
}

// What a rule is worth at each letter of a log, under the marks. Both and Any, and Until and Release, have an arm each:
// S::meet and S::join, and the two closures, are of different types, so that one arm would match on the rule again.
pub fn rule_row<S: Scale, L: Letter<Scale = S>>(
    log: &Log<L>,
    marking: Marking,
    rule: &Rule,
) -> Result<Vec<S>, AllocError>
    ensures { IfOk result (λ row. Ruled S.Scale.algebra marking (map L.Letter.heard log.now.letters.now) (rule_of rule.now) row.items) }
{
    match rule {
        Rule::Letter(test) => letter_row(log, test),
        Rule::Negated(inner) => {
            let negated = Marking {
                odd: !marking.odd,
                ..marking
            };
            let row = rule_row(log, negated, inner)?;
            opposite_row(log.heap, &row)
        }
        Rule::Both(first, second) => {
            let first = rule_row(log, marking, first)?;
            let second = rule_row(log, marking, second)?;
            merged_row(log.heap, &first, &second, S::meet)
        }
        Rule::Any(first, second) => {
            let first = rule_row(log, marking, first)?;
            let second = rule_row(log, marking, second)?;
            merged_row(log.heap, &first, &second, S::join)
        }
        Rule::Next(kind, segment, inner) => {
            let next = next_over(log, marking, *kind, segment)?;
            let after = rule_row(log, marking, inner)?;
            next.row(log.heap, &after)
        }
        Rule::Until(kind, hold, segment, goal) => {
            let hold = rule_row(log, marking, hold)?;
            let next = next_over(log, marking, *kind, segment)?;
            let goal = rule_row(log, marking, goal)?;
            next.turned(
                log.heap,
                &hold,
                &goal,
                |goal, hold, next| goal.join(hold.meet(next)),
            )
        }
        Rule::Release(kind, hold, segment, goal) => {
            let hold = rule_row(log, marking, hold)?;
            let next = next_over(log, marking, *kind, segment)?;
            let goal = rule_row(log, marking, goal)?;
            next.turned(
                log.heap,
                &hold,
                &goal,
                |goal, hold, next| goal.meet(hold.join(next)),
            )
        }
    }
}
