// The calls on a watch. What they promise of runs differs from what a summary's calls promise of volumes (summing), so each has
// its own, over what both do alike (holding). Each call is handed rule, letter and spare, by a rule of the project. The clause buffer
// stands at each that changes one: what a watch was lent no type can say.
ghost use Rattle.std.specs.Prelude.{◌≡◌, ◌≤◌, List, [], ◌∷◌, ◌++◌, length, Ok};
ghost use Rattle.letter.specs.Heard.{Heard};
ghost use Rattle.monitor.specs.Outside.{watch_state, summary_state};
ghost use Rattle.rule.specs.Stands.{rule_of};
ghost use Rattle.runs.specs.Calls.{after, letter_answer, letter_state, letter_spare, apply_answer, apply_state, apply_spare, report_answer};
ghost use Rattle.runs.specs.Promises.{WatchLaw, BitLaw};
ghost use Rattle.runs.specs.Runs.{Report, Run, Built, noted};
ghost use Rattle.runs.specs.States.{opened, table_size, watch as a_watch};

use crate::after::add_to_rows;
use crate::held::Held;
use crate::holding::refused;
use crate::kept::FirstRow;
use crate::rows::SPARE;
use crate::summary::Summary;
use crate::volume::Volume;
use crate::watch::Watch;
use cells::laid_rule::LaidRule;
use fault::{WorkCause, WorkFault};
use letter::kind::Letter;
use scale::order::Scale;

impl<'b, S: Scale> Held<'b, S, FirstRow> {
    // The checks of an apply, in order.
    fn check_apply<'c>(
        &self,
        rule: &LaidRule,
        summary: &Summary<'c, S>,
        spare: &[S],
    ) -> Result<(), WorkFault>
        ensures { result ≡ apply_answer S.Scale.algebra (rule_of rule.now.laid.rule) (watch_state self.now) (summary_state summary.now) spare.now }
    {
        if self.is_short() || summary.is_short() {
            return Err(refused(WorkCause::BufferShort));
        }
        if self.differs(rule) || summary.differs(rule) {
            return Err(refused(WorkCause::Differs));
        }
        if spare.len() < SPARE {
            return Err(refused(WorkCause::SpareShort));
        }
        if self.count.overflows(summary.count.number) {
            return Err(refused(WorkCause::CountAbove));
        }
        Ok(())
    }

    // Takes in a summary: the answer of apply.
    fn take_in<'c>(
        &mut self,
        rule: &LaidRule,
        summary: &Summary<'c, S>,
        spare: &mut [S],
    ) -> Result<(), WorkFault>
        ensures answer { result ≡ apply_answer S.Scale.algebra (rule_of rule.now.laid.rule) (watch_state self.old) (summary_state summary.now) spare.old }
        ensures state { watch_state self.new ≡ apply_state S.Scale.algebra (rule_of rule.now.laid.rule) (watch_state self.old) (summary_state summary.now) spare.old }
        ensures spare { spare.new ≡ apply_spare S.Scale.algebra (rule_of rule.now.laid.rule) (watch_state self.old) (summary_state summary.now) spare.old }
        ensures buffer { self.new.table.ghost_name ≡ self.old.table.ghost_name }
    {
        self.check_apply(rule, summary, spare)?;
        let volume = Volume {
            laid: &rule.laid,
            table: summary.table,
        };
        add_to_rows(&volume, 1, self.table, spare);
        self.count = self.count.plus(summary.count.number);
        Ok(())
    }

    // Opens a watch for a rule over a buffer: it writes the empty volume, or nothing where the buffer is too short.
    pub fn open(rule: &LaidRule, buffer: &'b mut [S]) -> Watch<'b, S>
        ensures state { watch_state result ≡ opened S.Scale.algebra a_watch (rule_of rule.now.laid.rule) buffer.old }
        ensures buffer { result.table.ghost_name ≡ buffer.entry.ghost_name }
        ensures run { table_size a_watch (rule_of rule.now.laid.rule) ≤ length buffer.old → Run S.Scale.algebra (watch_state result) [] [] }
        ensures law { WatchLaw S.Scale.algebra (watch_state result) }
    {
        Held::opening(rule, buffer)
    }

    // Reads a letter.
    pub fn letter<L: Letter<Scale = S>>(
        &mut self,
        rule: &LaidRule,
        letter: &L,
        spare: &mut [S],
    ) -> Result<(), WorkFault>
        ensures answer { result ≡ letter_answer S.Scale.algebra a_watch (rule_of rule.now.laid.rule) (watch_state self.old) (L.Letter.heard letter.now) spare.old }
        ensures state { watch_state self.new ≡ letter_state S.Scale.algebra a_watch (rule_of rule.now.laid.rule) (watch_state self.old) (L.Letter.heard letter.now) spare.old }
        ensures spare { spare.new ≡ letter_spare S.Scale.algebra a_watch (rule_of rule.now.laid.rule) (watch_state self.old) (L.Letter.heard letter.now) spare.old }
        ensures buffer { self.new.table.ghost_name ≡ self.old.table.ghost_name }
        ensures run { (log : List (Heard S)) (reports : List (Report S)) → Run S.Scale.algebra (watch_state self.old) log reports → Run S.Scale.algebra (watch_state self.new) (after result (log ++ L.Letter.heard letter.now ∷ []) log) reports }
        ensures law { WatchLaw S.Scale.algebra (watch_state self.new) }
        ensures bits { BitLaw }
    {
        self.read(rule, letter, spare)
    }

    // Takes in a summary: its volume comes after what the watch has read.
    pub fn apply<'c>(
        &mut self,
        rule: &LaidRule,
        summary: &Summary<'c, S>,
        spare: &mut [S],
    ) -> Result<(), WorkFault>
        ensures answer { result ≡ apply_answer S.Scale.algebra (rule_of rule.now.laid.rule) (watch_state self.old) (summary_state summary.now) spare.old }
        ensures state { watch_state self.new ≡ apply_state S.Scale.algebra (rule_of rule.now.laid.rule) (watch_state self.old) (summary_state summary.now) spare.old }
        ensures spare { spare.new ≡ apply_spare S.Scale.algebra (rule_of rule.now.laid.rule) (watch_state self.old) (summary_state summary.now) spare.old }
        ensures buffer { self.new.table.ghost_name ≡ self.old.table.ghost_name }
        ensures run { (log : List (Heard S)) (reports : List (Report S)) (volume : List (Heard S)) → Run S.Scale.algebra (watch_state self.old) log reports → (result ≡ Ok tt → Built S.Scale.algebra (summary_state summary.now) volume) → Run S.Scale.algebra (watch_state self.new) (after result (log ++ volume) log) reports }
        ensures law { WatchLaw S.Scale.algebra (watch_state self.new) }
        ensures bits { BitLaw }
    {
        self.take_in(rule, summary, spare)
    }

    // Verdict, floor and ceiling together.
    pub fn report(&self, rule: &LaidRule) -> Result<(S, S, S), WorkFault>
        ensures answer { result ≡ report_answer S.Scale.algebra a_watch (rule_of rule.now.laid.rule) (watch_state self.now) }
        ensures run { (log : List (Heard S)) (reports : List (Report S)) → Run S.Scale.algebra (watch_state self.now) log reports → Run S.Scale.algebra (watch_state self.now) log (noted reports log result) }
        ensures law { WatchLaw S.Scale.algebra (watch_state self.now) }
        ensures bits { BitLaw }
    {
        self.told(rule)
    }
}
