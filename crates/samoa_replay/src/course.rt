//! How far a script was run: the tick at hand, what is left of it, and what is written of the ticks and parts before.
ghost use Rattle.std.specs.Prelude.{◌≡◌, ◌<◌, ◌≤◌, ◌+◌, ◌++◌, ◌⊎◌, ℕ, [], true, false, length, take, drop, slice_get, Some, IfSome, IfNone, OnOk, OnErr, if◌then◌else◌, nat_lt};
ghost use Rattle.samoa_model.specs.declared.script.Script.{Script as ScriptValue};
ghost use Rattle.samoa_model.specs.Range.{IsInRange};
ghost use Rattle.samoa_invariant.specs.State.{AllEnded, NothingOut};
ghost use Rattle.samoa_invariant.specs.Runs.{state, with_clear};
ghost use Rattle.samoa_ledger.specs.Gathering.{HasGathered};
ghost use Rattle.samoa_ledger.specs.Written.{AreTotals, closing_text};
ghost use Rattle.samoa_replay.specs.Following.{IsFilled, IsOnCourse, rest_of};

use samoa_core::Core;
use samoa_ledger::{Totals, push_closing, push_comps};
use samoa_micro::Micro;
use samoa_model::{Ext, NoMemory, Script};
use samoa_net::Net;
use std::alloc::Global;

/// How many computations a script admits at most.
const MOST_ADMITTED: u32 = 100_000;

/// How far a script was run: the totals of what has ended and is written, what is gathered for the next tick, the present
/// tick and its batch, of which those before `next` were admitted, whether the limit of computations cut it short, and the
/// text so far.
#[derive(Drop)]
pub(crate) struct Course {
    pub(crate) totals: Totals,
    pub(crate) net: Net,
    pub(crate) tick: u32,
    pub(crate) batch: Vec<Ext>,
    pub(crate) next: usize,
    pub(crate) limited: bool,
    pub(crate) text: Vec<u8>,
}

impl Course {
    /// Nothing is admitted, and nothing is written.
    pub(crate) fn new(alloc: Global) -> Course
        ensures counted { (script : ScriptValue) → AreTotals script [] result.totals }
        ensures gathered { (script : ScriptValue) → HasGathered script [] result.net }
        ensures batch { result.batch.items ≡ [] }
        ensures next { result.next ≡ 0 }
        ensures ticks { (result.tick ≡ 0) × (result.net.tick ≡ 0) }
        ensures free { result.limited ≡ false }
        ensures text { result.text.items ≡ [] }
    {
        let totals = Totals {
            comps: 0,
            deliveries: 0,
            refusals: 0,
        };
        Course {
            totals,
            net: Net::new(alloc),
            tick: 0,
            batch: Vec::new(alloc),
            next: 0,
            limited: false,
            text: Vec::new(alloc),
        }
    }

    /// The next admission of the tick at hand, if there is one.
    pub(crate) fn due(&self) -> Option<Ext>
        requires within { self.now.next ≤ length self.now.batch.items }
        ensures some { IfSome result (λ ext. slice_get (rest_of self.now) 0 ≡ Some ext) }
        ensures more { IfSome result (λ ext. self.now.next < length self.now.batch.items) }
        ensures none { IfNone result (rest_of self.now ≡ []) }
    {
        if self.next < self.batch.len() {
            Some(self.batch[self.next])
        } else {
            None
        }
    }

    /// Takes the admissions of later ticks, until there are some, or nothing more is admitted.
    pub(crate) fn refill<B: Micro>(
        &mut self,
        alloc: Global,
        script: &Script,
        core: &Core<B>,
    ) -> Result<(), NoMemory>
        requires in_range { IsInRange script.now }
        requires on_course { IsOnCourse script.now core.now self.old }
        requires written { self.old.totals.comps ≡ length core.now.exts }
        ensures on_course { OnOk result (IsOnCourse script.now core.now self.new) }
        ensures written { OnOk result (self.new.totals.comps ≡ length core.now.exts) }
        ensures some_or_end { OnOk result ((self.new.next < length self.new.batch.items) ⊎ ((self.new.limited ≡ true) ⊎ (script.now.ticks ≤ self.new.tick))) }
    {
        while self.next == self.batch.len() && !self.limited && self.tick < script.ticks {
            self.next_tick(alloc, script, core)?;
        }
        Ok(())
    }

    /// Takes the admissions of the next tick, as many as the limit leaves room for.
    fn next_tick<B: Micro>(
        &mut self,
        alloc: Global,
        script: &Script,
        core: &Core<B>,
    ) -> Result<(), NoMemory>
        requires in_range { IsInRange script.now }
        requires on_course { IsOnCourse script.now core.now self.old }
        requires written { self.old.totals.comps ≡ length core.now.exts }
        requires none { rest_of self.old ≡ [] }
        requires free { self.old.limited ≡ false }
        requires more { self.old.tick < script.now.ticks }
        ensures on_course { OnOk result (IsOnCourse script.now core.now self.new) }
        ensures written { OnOk result (self.new.totals.comps ≡ length core.now.exts) }
        ensures tick { OnOk result (self.new.tick ≡ self.old.tick + 1) }
    {
        let tick = self.tick + 1;
        let mut batch = self.net.batch(alloc, script, tick)?;
        let room = (MOST_ADMITTED - core.admitted()) as usize;
        self.limited = room < batch.len();
        batch.truncate(room);
        self.batch = batch;
        self.tick = tick;
        self.next = 0;
        Ok(())
    }

    /// Writes the lines of all that was admitted and isn't written, gathers what it brings the next tick, and clears the
    /// core. All have ended. Where there was no memory, the core is as it was.
    pub(crate) fn close<B: Micro>(
        &mut self,
        script: &Script,
        core: &mut Core<B>,
    ) -> Result<(), NoMemory>
        requires in_range { IsInRange script.now }
        requires on_course { IsOnCourse script.now core.old self.old }
        requires all { AllEnded (state core.old) }
        ensures on_course { OnOk result (IsOnCourse script.now core.new self.new) }
        ensures written { OnOk result (self.new.totals.comps ≡ length core.new.exts) }
        ensures none_held { OnOk result ((state core.new).cells ≡ 0) }
        ensures core { OnOk result (core.new ≡ (if nat_lt 0 (state core.old).cells then with_clear core.old else core.old)) }
        ensures err { OnErr result (core.new ≡ core.old) }
    {
        push_comps(
            script,
            core,
            false,
            &mut self.text,
            &mut self.totals,
            &mut self.net,
        )?;
        let _ended = core.admitted();
        core.clear();
        let _cleared = core.admitted();
        Ok(())
    }

    /// Writes what the report ends with.
    pub(crate) fn finish<B: Micro>(
        &mut self,
        script: &Script,
        core: &Core<B>,
    ) -> Result<(), NoMemory>
        requires few { length script.now.micros ≤ 24 }
        requires on_course { IsOnCourse script.now core.now self.old }
        requires written { self.old.totals.comps ≡ length core.now.exts }
        requires all { AllEnded (state core.now) }
        requires home { NothingOut (state core.now) }
        ensures { OnOk result (self.new.text.items ≡ self.old.text.items ++ closing_text script.now core.now.exts) }
    {
        push_closing(script, core, self.totals, &mut self.text)
    }
}
