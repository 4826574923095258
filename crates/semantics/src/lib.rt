// The position rules and truth on endless logs: definitions (specs) and theorems (proofs), which the evaluator's contract
// names. The code is what all who work out rules share: a test on a letter (test), the mark of a kind (mark).
#![tactic(auto)]

pub mod mark;
pub mod test;
