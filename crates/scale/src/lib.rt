// Scales of values: what a scale is (order), what a stored scale is (stored), the verdict scale and the margin
// scale with their codes.
#![tactic(auto)]

pub mod fault;
pub mod margin;
pub mod margin_code;
pub mod margin_scale;
pub mod order;
pub mod stored;
pub mod verdict;
pub mod verdict_code;
