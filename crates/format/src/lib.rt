// The card format: the bytes of a stored summary, what reading them answers, and the laws of both. Definitions (specs) and
// theorems (proofs), and no code. The contracts of the crate card name them.
#![tactic(auto)]
