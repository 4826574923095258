// The text of a rule: at most 96 bytes, in a place for 96.
use short_text::ShortText;

pub type RuleText = ShortText<96>;
