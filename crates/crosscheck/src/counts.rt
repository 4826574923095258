// What was compared, and how often it differed.

// The comparisons of one kind.
#[derive(Clone, Copy, Default)]
pub(crate) struct Tally {
    pub(crate) made: u64,
    pub(crate) differed: u64,
}

impl Tally {
    // One more comparison.
    pub(crate) fn note(&mut self, same: bool) {
        self.made = self.made.saturating_add(1);
        if !same {
            self.differed = self.differed.saturating_add(1);
        }
    }
}

// The counts of a run.
#[derive(Clone, Copy, Default)]
pub(crate) struct Counts {
    // the texts that were passed over
    pub(crate) passed: u64,
    // the prefixes that the evaluator judged
    pub(crate) prefixes: u64,
    // the reports of a watch
    pub(crate) watch: Tally,
    // the reports of the summary of a whole prefix
    pub(crate) whole: Tally,
    // the reports of a summary joined from parts
    pub(crate) joined: Tally,
    // the summary joined from parts and the whole one
    pub(crate) equal: Tally,
    // the reports of a watch that took in a summary
    pub(crate) applied: Tally,
}
