// The head of a laid rule.
ghost use Rattle.std.specs.Prelude.{◌≡◌};
ghost use Rattle.monitor.specs.Outside.{own};
ghost use Rattle.rule.specs.Stands.{rule_of};

use crate::head::Head;
use cells::laid_rule::LaidRule;

impl Head {
    // The head that names the rule. It is no From, which would be a public call.
    pub(crate) fn of(rule: &LaidRule) -> Head
        ensures named { own result ≡ rule_of rule.now.laid.rule }
        ensures cells { result.cells ≡ rule.now.laid.count }
    {
        Head {
            text: rule.text,
            cells: rule.laid.count,
        }
    }
}
