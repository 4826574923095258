// A caller knows his buffer after the watch is gone: that is proved here, and run once.
ghost use Rattle.std.specs.Prelude.{◌≡◌};
ghost use Rattle.letter.specs.Bits.{bits_heard};
ghost use Rattle.rule.specs.Stands.{rule_of};
ghost use Rattle.runs.specs.Calls.{letter_state};
ghost use Rattle.runs.specs.States.{opened, watch as a_watch};
ghost use Rattle.scale.specs.Verdicts.{verdicts};

use cells::laid_rule::LaidRule;
use cells::lay_rule::lay_rule;
use fault::WorkFault;
use letter::bits::Bits;
use monitor::watch::Watch;
use scale::verdict::Verdict;
use scale::verdict::Verdict::{Broken, Kept};
use std::test::Fail;

// Opens a watch, reads one letter and lets the watch go.
fn one_letter(
    rule: &LaidRule,
    letter: &Bits,
    table: &mut [Verdict],
    spare: &mut [Verdict],
) -> Result<(), WorkFault>
    ensures { table.new ≡ (letter_state verdicts a_watch (rule_of rule.now.laid.rule) (opened verdicts a_watch (rule_of rule.now.laid.rule) table.old) (bits_heard letter.now) spare.old).buffer }
{
    let mut opened = Watch::open(rule, table);
    opened.letter(rule, letter, spare)
}

// Row 0 of the rule's table after a letter 0000, and a place beyond it.
#[test]
fn table_afterwards(rt: HostRuntime) -> Result<(), Fail> {
    let rule = lay_rule(rt.alloc(), b"Uef01yh02")?;
    let mut table = [Kept; 5];
    let mut spare = [Kept; 312];
    one_letter(&rule, &Bits { word: 0 }, &mut table, &mut spare)?;
    assert_eq!(rt; table, [Broken, Broken, Kept, Kept, Kept]);
    Ok(())
}
