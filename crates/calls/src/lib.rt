// Tests of the calls on watches and summaries, in a crate of their own so that the monitor is not proved twice: what each
// call refuses and in which order, that a refused call changes nothing, which places of the buffers a call writes, what a caller
// knows of his buffer afterwards, and whole runs. The expected values were worked out by hand, from the table of refusals and from the position rules.
#![tactic(auto)]

#[cfg(test)]
mod afterwards;
#[cfg(test)]
mod applying;
#[cfg(test)]
mod by_hand;
#[cfg(test)]
mod comparing;
#[cfg(test)]
mod joining;
#[cfg(test)]
mod opening;
#[cfg(test)]
mod reading;
#[cfg(test)]
mod reporting;
#[cfg(test)]
mod shared;
#[cfg(test)]
mod text_lines;
