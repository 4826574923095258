// Cells: a rule as a step from letter to letter. A rule with its cells counted (laid), laying the cells of a rule text
// (lay), the cells at the log's end (mark), one letter's step (step), and a row at cell values (row). For the calls that
// compare rules by their texts: the text of a rule (text), and a laid rule with it (laid_rule, lay_rule).
#![tactic(auto)]

mod ahead;
mod before;
mod count;
pub mod laid;
pub mod laid_rule;
pub mod lay;
pub mod lay_rule;
mod mark;
mod place;
pub mod row;
pub mod step;
pub mod text;
mod walk;
