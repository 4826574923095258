// Laying the cells of a rule text, with the text kept.
ghost use Rattle.cells.specs.LaysRule.{LaysRule};

use crate::laid_rule::LaidRule;
use crate::lay::lay;
use crate::text::RuleText;
use fault::CellFault;
use std::alloc::Global;

// Lays the cells of a rule text, as lay does, and keeps the text beside them.
pub fn lay_rule(heap: Global, text: &[u8]) -> Result<LaidRule, CellFault>
    ensures { LaysRule text.now result }
{
    let laid = lay(heap, text)?;
    Ok(LaidRule {
        laid,
        text: RuleText::of(text),
    })
}
