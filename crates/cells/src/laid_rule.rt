// A laid rule with its text.
ghost use Rattle.std.specs.Prelude.{◌≡◌};
ghost use Rattle.cells.specs.Texts.{text_of};
ghost use Rattle.rule.specs.Spelling.{spelled};
ghost use Rattle.rule.specs.Stands.{rule_of};

use crate::laid::Laid;
use crate::text::RuleText;

// A rule with its cells laid, and the text that spells it.
#[derive(Drop)]
pub struct LaidRule {
    pub laid: Laid,
    pub text: RuleText,
    ghost spells: { text_of text ≡ spelled (rule_of laid.rule) },
}
