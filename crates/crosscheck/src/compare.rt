// The comparisons on the prefixes of a log.
ghost use Rattle.std.specs.Prelude.{◌≡◌, ◌≤◌, true};
ghost use Rattle.crosscheck.specs.Agreement.{Agrees};

use crate::run::Run;
use cells::laid_rule::LaidRule;
use evaluator::report::judge_log;
use fault::WorkFault;
use letter::kind::Letter;
use monitor::equal::equal;
use monitor::join::join;
use monitor::summary::Summary;
use monitor::watch::Watch;
use scale::order::Scale;
use std::alloc::{AllocError, Global};

// How often a part is cut again at most.
const CUTS: u8 = 3;

// How many values the spare has. This and the length of a row are a caller's numbers; the monitor's own are private.
const SPARE: usize = 312;

// How many values a row has.
fn row_length(rule: &LaidRule) -> usize
    ensures { result ≤ 256 }
{
    1usize << rule.laid.count
}

// What should be reported of a prefix: verdict, floor and ceiling by the evaluator, and its letters.
#[derive(Clone, Copy)]
struct Expected<S> {
    report: Option<(S, S, S)>,
    letters: usize,
}

impl<S: Scale> Expected<S> {
    // What the evaluator says of a prefix.
    fn by_evaluator<L: Letter<Scale = S>>(
        heap: Global,
        rule: &LaidRule,
        letters: &[L],
    ) -> Expected<S> {
        Expected {
            report: judge_log(heap, &rule.laid.rule, letters).ok().flatten(),
            letters: letters.len(),
        }
    }

    // Are a count and a report as expected.
    fn agrees(self, count: Result<u32, WorkFault>, report: Result<(S, S, S), WorkFault>) -> bool
        ensures { result ≡ true → Agrees self.report self.letters count report }
    {
        match (self.report, count, report) {
            (Some(wanted), Ok(counted), Ok(told)) => {
                counted as usize == self.letters && same_report(told, wanted)
            }
            _ => false,
        }
    }
}

// Are two reports the same, by the scale's own test: a scale need not have `==`.
fn same_report<S: Scale>(first: (S, S, S), second: (S, S, S)) -> bool
    ensures { result ≡ true → first ≡ second }
{
    first.0.same(second.0) && first.1.same(second.1) && first.2.same(second.2)
}

// The comparisons for one rule: what they draw and count is the run's.
#[derive(Drop)]
pub(crate) struct Comparison<'r, S: Scale> {
    run: &'r mut Run,
    rule: &'r LaidRule,
    spare: Vec<S>,
}

impl<'r, S: Scale> Comparison<'r, S> {
    pub(crate) fn new(
        run: &'r mut Run,
        rule: &'r LaidRule,
    ) -> Result<Comparison<'r, S>, AllocError> {
        let spare = vec![in run.heap; S::worst(); SPARE]?;
        Ok(Comparison { run, rule, spare })
    }

    // A buffer for a watch.
    fn row(&self) -> Result<Vec<S>, AllocError> {
        vec![in self.run.heap; S::worst(); row_length(self.rule)]
    }

    // A buffer for a summary.
    fn rows(&self) -> Result<Vec<S>, AllocError> {
        vec![in self.run.heap; S::worst(); self.rule.laid.count * row_length(self.rule)]
    }

    // Makes an open summary that of the letters: letter by letter, or from two parts that are made in the same way, one of
    // which may be empty.
    fn sum_up<'b, L: Letter<Scale = S>>(
        &mut self,
        depth: u8,
        letters: &[L],
        summary: &mut Summary<'b, S>,
    ) -> Result<(), AllocError> {
        if depth == 0 || self.run.draw.below(4) == 0 {
            for letter in letters {
                let _ = summary.letter(self.rule, letter, self.spare.as_mut_slice());
            }
            return Ok(());
        }
        let (front, back) = letters.split_at(self.run.draw.up_to(letters.len()));
        let mut left = self.rows()?;
        let mut first = Summary::open(self.rule, left.as_mut_slice());
        self.sum_up(depth - 1, front, &mut first)?;
        let mut right = self.rows()?;
        let mut second = Summary::open(self.rule, right.as_mut_slice());
        self.sum_up(depth - 1, back, &mut second)?;
        let _ = join(self.rule, &first, &second, summary);
        Ok(())
    }

    // A summary joined from parts, against what is expected and against the summary of the whole.
    fn compare_joined<'b, L: Letter<Scale = S>>(
        &mut self,
        letters: &[L],
        expected: Expected<S>,
        whole: &Summary<'b, S>,
    ) -> Result<(), AllocError> {
        let mut rows = self.rows()?;
        let mut joined = Summary::open(self.rule, rows.as_mut_slice());
        self.sum_up(CUTS, letters, &mut joined)?;
        let agrees = expected.agrees(joined.count(), joined.report(self.rule));
        self.run.counts.joined.note(agrees);
        self.run
            .counts
            .equal
            .note(equal(whole, &joined).unwrap_or(false));
        Ok(())
    }

    // A watch that reads a first part and takes in a summary of the rest, against what is expected.
    fn compare_applied<L: Letter<Scale = S>>(
        &mut self,
        letters: &[L],
        expected: Expected<S>,
    ) -> Result<(), AllocError> {
        let mut row = self.row()?;
        let mut rows = self.rows()?;
        let (front, back) = letters.split_at(self.run.draw.up_to(letters.len()));
        let mut watch = Watch::open(self.rule, row.as_mut_slice());
        for letter in front {
            let _ = watch.letter(self.rule, letter, self.spare.as_mut_slice());
        }
        let mut rest = Summary::open(self.rule, rows.as_mut_slice());
        self.sum_up(CUTS, back, &mut rest)?;
        let _ = watch.apply(self.rule, &rest, self.spare.as_mut_slice());
        let agrees = expected.agrees(watch.count(), watch.report(self.rule));
        self.run.counts.applied.note(agrees);
        Ok(())
    }

    // All comparisons on a prefix, with a watch and a summary that have read it.
    fn compare_prefix<'b, 'c, L: Letter<Scale = S>>(
        &mut self,
        letters: &[L],
        watch: &Watch<'b, S>,
        whole: &Summary<'c, S>,
    ) -> Result<(), AllocError> {
        let expected = Expected::by_evaluator(self.run.heap, self.rule, letters);
        self.run.counts.prefixes = self.run.counts.prefixes.saturating_add(1);
        let agrees = expected.agrees(watch.count(), watch.report(self.rule));
        self.run.counts.watch.note(agrees);
        let agrees = expected.agrees(whole.count(), whole.report(self.rule));
        self.run.counts.whole.note(agrees);
        self.compare_joined(letters, expected, whole)?;
        self.compare_applied(letters, expected)
    }

    // All comparisons on each prefix of a log.
    pub(crate) fn compare_log<L: Letter<Scale = S>>(
        &mut self,
        letters: &[L],
    ) -> Result<(), AllocError> {
        let mut row = self.row()?;
        let mut rows = self.rows()?;
        let mut watch = Watch::open(self.rule, row.as_mut_slice());
        let mut whole = Summary::open(self.rule, rows.as_mut_slice());
        for (at, letter) in letters.iter().enumerate() {
            let _ = watch.letter(self.rule, letter, self.spare.as_mut_slice());
            let _ = whole.letter(self.rule, letter, self.spare.as_mut_slice());
            self.compare_prefix(&letters[..at + 1], &watch, &whole)?;
        }
        Ok(())
    }
}
