// The calls on a summary. What they promise of volumes differs from what a watch's calls promise of runs (watching), so each has
// its own, over what both do alike (holding).
ghost use Rattle.std.specs.Prelude.{◌≡◌, ◌≤◌, List, [], ◌∷◌, ◌++◌};
ghost use Rattle.letter.specs.Heard.{Heard};
ghost use Rattle.monitor.specs.Outside.{summary_state};
ghost use Rattle.rule.specs.Stands.{rule_of};
ghost use Rattle.runs.specs.Calls.{after, letter_answer, letter_state, letter_spare, report_answer};
ghost use Rattle.runs.specs.Promises.{SummaryLaw};
ghost use Rattle.runs.specs.Runs.{Built};
ghost use Rattle.runs.specs.States.{opened, summary as a_summary};

use crate::held::Held;
use crate::kept::EachRow;
use crate::summary::Summary;
use cells::laid_rule::LaidRule;
use fault::WorkFault;
use letter::kind::Letter;
use scale::order::Scale;

impl<'b, S: Scale> Held<'b, S, EachRow> {
    // Opens a summary for a rule over a buffer: it writes the empty volume, or nothing where the buffer is too short.
    pub fn open(rule: &LaidRule, buffer: &'b mut [S]) -> Summary<'b, S>
        ensures state { summary_state result ≡ opened S.Scale.algebra a_summary (rule_of rule.now.laid.rule) buffer.old }
        ensures buffer { result.table.ghost_name ≡ buffer.entry.ghost_name }
        ensures built { Built S.Scale.algebra (summary_state result) [] }
        ensures law { SummaryLaw S.Scale.algebra (summary_state result) }
    {
        Held::opening(rule, buffer)
    }

    // Reads a letter.
    pub fn letter<L: Letter<Scale = S>>(
        &mut self,
        rule: &LaidRule,
        letter: &L,
        spare: &mut [S],
    ) -> Result<(), WorkFault>
        ensures answer { result ≡ letter_answer S.Scale.algebra a_summary (rule_of rule.now.laid.rule) (summary_state self.old) (L.Letter.heard letter.now) spare.old }
        ensures state { summary_state self.new ≡ letter_state S.Scale.algebra a_summary (rule_of rule.now.laid.rule) (summary_state self.old) (L.Letter.heard letter.now) spare.old }
        ensures spare { spare.new ≡ letter_spare S.Scale.algebra a_summary (rule_of rule.now.laid.rule) (summary_state self.old) (L.Letter.heard letter.now) spare.old }
        ensures buffer { self.new.table.ghost_name ≡ self.old.table.ghost_name }
        ensures built { (volume : List (Heard S)) → Built S.Scale.algebra (summary_state self.old) volume → Built S.Scale.algebra (summary_state self.new) (after result (volume ++ L.Letter.heard letter.now ∷ []) volume) }
        ensures law { SummaryLaw S.Scale.algebra (summary_state self.new) }
    {
        self.read(rule, letter, spare)
    }

    // Verdict, floor and ceiling together.
    pub fn report(&self, rule: &LaidRule) -> Result<(S, S, S), WorkFault>
        ensures answer { result ≡ report_answer S.Scale.algebra a_summary (rule_of rule.now.laid.rule) (summary_state self.now) }
        ensures law { SummaryLaw S.Scale.algebra (summary_state self.now) }
    {
        self.told(rule)
    }
}
