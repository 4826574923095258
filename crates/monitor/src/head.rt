// The head of a watch or a summary.
ghost use Rattle.std.specs.Prelude.{◌≡◌, ◌≤◌};
ghost use Rattle.cells.specs.Texts.{text_of};
ghost use Rattle.monitor.specs.Heads.{rule_named};
ghost use Rattle.rule.specs.Spelling.{spelled};
ghost use Rattle.runs.specs.States.{cells_of_rule};

use cells::text::RuleText;

// The text of the rule it was opened for, and how many cells that rule has.
#[derive(Clone, Copy)]
pub struct Head {
    pub text: RuleText,
    pub cells: usize,
    ghost spells: { text_of text ≡ spelled (rule_named (text_of text)) },
    ghost counted: { cells ≡ cells_of_rule (rule_named (text_of text)) },
    ghost few: { cells ≤ 8 },
}
