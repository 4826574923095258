// Watches and summaries as states, the calls on them as functions of states, runs of calls and the law of whole runs:
// definitions (specs) and theorems (proofs), and no code. The contracts of the monitor's calls name them.
#![tactic(auto)]
