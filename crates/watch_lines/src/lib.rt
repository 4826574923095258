// The text lines of `logwatch`: it lays the rule for the rule's line and lets a watch read a letter a line (watching).
#![tactic(auto)]

pub mod watching;
