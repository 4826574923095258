// Tests of the crates together, in a crate of their own so that none of those is proved twice. The expected values were
// worked out by hand from the position rules; in cell_steps the expected reports are the evaluator's.
#![tactic(auto)]

#[cfg(test)]
mod cell_steps;
#[cfg(test)]
mod letters;
#[cfg(test)]
mod refusals;
#[cfg(test)]
mod scales;
#[cfg(test)]
mod verdicts;
