// The cells of a rule in words, in the order of the text.
use cells::lay::lay;
use rule::{Rule, Segment};
use std::alloc::Global;
use std::fmt::Display;
use std::io;

// Prints cells, each with its number.
#[derive(Drop)]
struct Listing<'r, R: Print> {
    rt: &'r R,
    next: usize,
}

impl<'r, R: Print> Listing<'r, R> {
    // The next cell.
    fn show(&mut self, cell: impl Display + Drop) -> io::Result<()> {
        let number = self.next;
        self.next = number.saturating_add(1);
        println!(self.rt; "{number}: {cell}")
    }

    // The cells of a segment's tests; inside says that a test around it may follow, as where the cells are counted.
    fn show_segment(&mut self, segment: &Segment, inside: bool) -> io::Result<()> {
        match segment {
            Segment::Single(test) => {
                if inside {
                    self.show(format_args!(
                        "after the test {test}, what may follow it in its segment"
                    ))?;
                }
                Ok(())
            }
            Segment::Either(first, second) => {
                self.show_segment(first, inside)?;
                self.show_segment(second, inside)
            }
            Segment::Chain(first, second) | Segment::Star(first, second) => {
                self.show_segment(first, true)?;
                self.show_segment(second, inside)
            }
        }
    }

    // The cells of a rule, `!` driven inward.
    fn show_rule(&mut self, rule: &Rule, odd: bool) -> io::Result<()> {
        match rule {
            Rule::Letter(_) => Ok(()),
            Rule::Negated(inner) => self.show_rule(inner, !odd),
            Rule::Both(first, second) | Rule::Any(first, second) => {
                self.show_rule(first, odd)?;
                self.show_rule(second, odd)
            }
            Rule::Next(kind, segment, then) => {
                let kind = kind.under(odd);
                self.show(format_args!("{kind}, what comes after a match"))?;
                self.show_segment(segment, false)?;
                self.show_rule(then, odd)
            }
            Rule::Until(kind, hold, segment, goal) | Rule::Release(kind, hold, segment, goal) => {
                let kind = kind.under(odd);
                // these two letters are printed nowhere else, so that no type has them
                let sign = match (rule, odd) {
                    (Rule::Until(_, _, _, _), false) | (Rule::Release(_, _, _, _), true) => 'U',
                    _ => 'R',
                };
                self.show(format_args!("{sign}{kind}, itself after a match"))?;
                self.show_rule(hold, odd)?;
                self.show_segment(segment, false)?;
                self.show_rule(goal, odd)
            }
        }
    }
}

// The number of cells of a rule, or the refusal of a ninth, and each cell on a line of its own.
pub(crate) fn show_cells(
    rt: &impl Print,
    heap: Global,
    text: &[u8],
    rule: &Rule,
) -> io::Result<()> {
    match lay(heap, text) {
        Ok(laid) => println!(rt; "{} cells", laid.count)?,
        // Want of memory has no number; it is printed as 0, as the program must print what it printed.
        Err(fault) => println!(rt; "! {}", fault.number().unwrap_or(0))?,
    }
    let mut listing = Listing { rt, next: 0 };
    listing.show("the whole rule")?;
    listing.show_rule(rule, false)
}
