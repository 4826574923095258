// Laying the cells of a rule text.
ghost use Rattle.cells.specs.Lays.{Lays};
ghost use Rattle.cells.specs.Meaning.{StepLaws};
ghost use Rattle.scale.specs.Margins.{margins as margin_scale};
ghost use Rattle.scale.specs.Verdicts.{verdicts as verdict_scale};

use crate::count::rule_cells;
use crate::laid::Laid;
use fault::{CellCause, CellFault};
use rule::read_rule;
use std::alloc::Global;

const MOST_CELLS: usize = 8;

// Reads a rule text and counts the rule's cells; a ninth cell is refused, at place 0 (answer). What each cell stands for and
// what its mark is at the log's end, on the verdict scale and on the margin scale, stands beside it (verdicts, margins); step
// says so for every scale.
pub fn lay(heap: Global, text: &[u8]) -> Result<Laid, CellFault>
    ensures answer { Lays text.now result }
    ensures verdicts { StepLaws verdict_scale }
    ensures margins { StepLaws margin_scale }
{
    laid_of(heap, text)
}

// The answer of lay.
fn laid_of(heap: Global, text: &[u8]) -> Result<Laid, CellFault>
    ensures { Lays text.now result }
{
    let rule = read_rule(heap, text)?;
    let count = 1 + rule_cells(&rule);
    if count > MOST_CELLS {
        return Err(CellFault::Refused(CellCause::Ninth, 0));
    }
    Ok(Laid { rule, count })
}
