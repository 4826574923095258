// What watches and summaries do alike.
ghost use Rattle.std.specs.Prelude.{◌≡◌, false, take};
ghost use Rattle.fault.specs.declared.WorkFault.TheVariants.{Refused};
ghost use Rattle.monitor.specs.Outside.{own, state_of};
ghost use Rattle.rule.specs.Stands.{rule_of};
ghost use Rattle.runs.specs.Calls.{differs, letter_answer, letter_state, letter_spare, count_answer};
ghost use Rattle.runs.specs.States.{opened, short, table_size};

use crate::after::add_to_rows;
use crate::count::Count;
use crate::head::Head;
use crate::held::Held;
use crate::kept::Kept;
use crate::minute::Minute;
use crate::opening::write_empty;
use crate::rows::{SPARE, corners};
use cells::laid_rule::LaidRule;
use fault::{WorkCause, WorkFault};
use letter::kind::Letter;
use scale::order::Scale;
use std::marker::PhantomData;

// A refusal whose cause has no place of its own. It is no From: a conversion would take the cause that has a place, too.
pub(crate) fn refused(cause: WorkCause) -> WorkFault
    ensures { result ≡ Refused cause 0 }
{
    WorkFault::Refused(cause, 0)
}

impl<'b, S: Scale, K: Kept> Held<'b, S, K> {
    // How many values its rows have.
    fn size(&self) -> usize
        ensures { result ≡ table_size K.form (own self.now.head) }
    {
        K::rows(&self.head) * corners(self.head.cells)
    }

    // Is the buffer too short for them.
    pub(crate) fn is_short(&self) -> bool
        ensures { result ≡ short K.form (state_of self.now) }
    {
        self.table.len() < self.size()
    }

    // Its rows.
    pub(crate) fn rows(&self) -> &[S]
        requires { short K.form (state_of self.now) ≡ false }
        ensures { result.now ≡ take (table_size K.form (own self.now.head)) self.now.table.now }
    {
        let table: &[S] = self.table;
        &table[..self.size()]
    }

    // Has the rule of a call another text.
    pub(crate) fn differs(&self, rule: &LaidRule) -> bool
        ensures { result ≡ differs (rule_of rule.now.laid.rule) (state_of self.now) }
    {
        rule.text != self.head.text
    }

    // Opens it over a buffer: the answer of open.
    pub(crate) fn opening(rule: &LaidRule, buffer: &'b mut [S]) -> Held<'b, S, K>
        ensures state { state_of result ≡ opened S.Scale.algebra K.form (rule_of rule.now.laid.rule) buffer.old }
        ensures buffer { result.table.ghost_name ≡ buffer.entry.ghost_name }
    {
        let held = Held {
            head: Head::of(rule),
            count: Count { number: 0 },
            table: buffer,
            kept: PhantomData,
        };
        if !held.is_short() {
            write_empty(&rule.laid, K::rows(&held.head), held.table);
        }
        held
    }

    // The checks of a letter. They are spelled out, as those of each call, one for a row of the table of refusals and in its order,
    // so that the two can be read side by side.
    fn check_letter<L: Letter<Scale = S>>(
        &self,
        rule: &LaidRule,
        letter: &L,
        spare: &[S],
    ) -> Result<(), WorkFault>
        ensures { result ≡ letter_answer S.Scale.algebra K.form (rule_of rule.now.laid.rule) (state_of self.now) (L.Letter.heard letter.now) spare.now }
    {
        if self.is_short() {
            return Err(refused(WorkCause::BufferShort));
        }
        if self.differs(rule) {
            return Err(refused(WorkCause::Differs));
        }
        if spare.len() < SPARE {
            return Err(refused(WorkCause::SpareShort));
        }
        if let Some(channel) = letter.unfit() {
            return Err(WorkFault::Refused(WorkCause::Unfit, channel as usize));
        }
        if self.count.overflows(1) {
            return Err(refused(WorkCause::CountAbove));
        }
        Ok(())
    }

    // Reads a letter: the answer of letter.
    pub(crate) fn read<L: Letter<Scale = S>>(
        &mut self,
        rule: &LaidRule,
        letter: &L,
        spare: &mut [S],
    ) -> Result<(), WorkFault>
        ensures answer { result ≡ letter_answer S.Scale.algebra K.form (rule_of rule.now.laid.rule) (state_of self.old) (L.Letter.heard letter.now) spare.old }
        ensures state { state_of self.new ≡ letter_state S.Scale.algebra K.form (rule_of rule.now.laid.rule) (state_of self.old) (L.Letter.heard letter.now) spare.old }
        ensures spare { spare.new ≡ letter_spare S.Scale.algebra K.form (rule_of rule.now.laid.rule) (state_of self.old) (L.Letter.heard letter.now) spare.old }
        ensures buffer { self.new.table.ghost_name ≡ self.old.table.ghost_name }
    {
        self.check_letter(rule, letter, spare)?;
        let rows = K::rows(&self.head);
        let minute = Minute {
            laid: &rule.laid,
            letter,
        };
        add_to_rows(&minute, rows, self.table, spare);
        self.count = self.count.plus(1);
        Ok(())
    }

    // How many letters it has read.
    pub fn count(&self) -> Result<u32, WorkFault>
        ensures { result ≡ count_answer K.form (state_of self.now) }
    {
        if self.is_short() {
            return Err(refused(WorkCause::BufferShort));
        }
        Ok(self.count.number)
    }
}
