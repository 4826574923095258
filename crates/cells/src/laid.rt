// A rule with its cells laid.
ghost use Rattle.std.specs.Prelude.{◌≡◌, ◌≤◌, false};
ghost use Rattle.semantics.specs.Inward.{inward};
ghost use Rattle.cells.specs.Step.{cell_count};
ghost use Rattle.rule.specs.Size.{size};
ghost use Rattle.rule.specs.Stands.{rule_of};

use rule::tree::Rule;

// A rule of at most 48 nodes that has at most 8 cells, and how many they are (not the length of anything beside it).
#[derive(Drop)]
pub struct Laid {
    pub rule: Rule,
    pub count: usize,
    ghost small: { size (rule_of rule) ≤ 48 },
    ghost counted: { count ≡ cell_count (inward false (rule_of rule)) },
    ghost few: { count ≤ 8 },
}
