// A segment before a letter: one walk that carries what may follow.
ghost use Rattle.std.specs.Prelude.{◌≡◌, ◌+◌, ◌≤◌};
ghost use Rattle.cells.specs.Reading.{blended, after_test, one_test_at, enter_at, follow_from};
ghost use Rattle.rule.specs.Size.{segment_size};
ghost use Rattle.rule.specs.Stands.{segment_of};

use crate::ahead::Ahead;
use crate::count::segment_cells;
use crate::place::Place;
use letter::kind::Letter;
use rule::leaf::Test;
use rule::tree::Segment;
use scale::order::Scale;
use semantics::test::tested;

// Some match joins, every match meets, by a flag, as the definition has it (see Place).
pub fn blend<S: Scale>(every: bool, x: S, y: S) -> S
    ensures { result ≡ blended S.Scale.algebra every x y }
{
    if every { x.meet(y) } else { x.join(y) }
}

impl<'a, S: Scale, L: Letter<Scale = S>> Ahead<'a, S, L> {
    // What comes after a test: its cell, if it is inside, and the operator's, if it ends the match.
    fn behind_test(&self, place: Place) -> S
        ensures { result ≡ after_test S.Scale.algebra self.now.after.now place }
    {
        match (place.inside, place.ends) {
            (true, true) => {
                let own = self.cell_after(place.base);
                blend(place.every, own, self.cell_after(place.op))
            }
            (true, false) => self.cell_after(place.base),
            (false, true) => self.cell_after(place.op),
            (false, false) => { if place.every { S::best() } else { S::worst() } }
        }
    }

    // A test and what comes after it.
    fn enter_test(&self, test: &Test, place: Place) -> S
        ensures { result ≡ one_test_at S.Scale.algebra (L.Letter.heard self.now.letter.now) self.now.after.now place test.now }
    {
        let value = tested(test, self.letter);
        let then = self.behind_test(place);
        if place.every {
            value.opposite().join(then)
        } else {
            value.meet(then)
        }
    }

    // The first tests of a segment.
    #[tactic(auto, unfolding(crate::specs::Walk::enter))]
    pub fn enter(&self, segment: &Segment, place: Place) -> S
        requires { place.base + segment_size (segment_of segment.now) ≤ 64 }
        ensures { result ≡ enter_at S.Scale.algebra (L.Letter.heard self.now.letter.now) self.now.after.now place (segment_of segment.now) }
    {
        match segment {
            Segment::Single(test) => self.enter_test(test, place),
            Segment::Either(first, second) => {
                let cells = segment_cells(first, place.inside);
                let one = self.enter(first, place);
                let other = self.enter(second, place.behind(cells));
                blend(place.every, one, other)
            }
            Segment::Chain(first, _) => self.enter(first, place.inner()),
            Segment::Star(first, second) => {
                let cells = segment_cells(first, true);
                let again = self.enter(first, place.inner());
                let on = self.enter(second, place.behind(cells));
                blend(place.every, again, on)
            }
        }
    }

    // A cell of a segment's tests, where follows is what the tests around it give that may follow its last letter.
    #[tactic(auto, unfolding(crate::specs::Walk::follow_at))]
    pub fn follow(&self, segment: &Segment, place: Place, follows: S, cell: usize) -> S
        requires { place.base + segment_size (segment_of segment.now) ≤ 64 }
        ensures { result ≡ follow_from S.Scale.algebra (L.Letter.heard self.now.letter.now) self.now.after.now place (segment_of segment.now) follows cell }
    {
        match segment {
            Segment::Single(_) => follows,
            Segment::Either(first, second) => {
                let cells = segment_cells(first, place.inside);
                if cell < place.base + cells {
                    self.follow(first, place, follows, cell)
                } else {
                    self.follow(second, place.behind(cells), follows, cell)
                }
            }
            Segment::Chain(first, second) => {
                let cells = segment_cells(first, true);
                if cell < place.base + cells {
                    let then = self.enter(second, place.behind(cells));
                    self.follow(first, place.inner(), then, cell)
                } else {
                    self.follow(second, place.behind(cells), follows, cell)
                }
            }
            Segment::Star(first, second) => {
                let cells = segment_cells(first, true);
                if cell < place.base + cells {
                    let then = self.enter(segment, place);
                    self.follow(first, place.inner(), then, cell)
                } else {
                    self.follow(second, place.behind(cells), follows, cell)
                }
            }
        }
    }
}
