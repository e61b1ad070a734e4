//! A journal that is being replayed.
ghost use Rattle.std.specs.Prelude.{◌≡◌, ◌+◌, ◌<◌, ◌≤◌, ◌++◌, ◌∷◌, [], true, false, length, IsTrue, ◌↔◌, IfOk, IfErr, OnOk};
ghost use Rattle.samoa_model.specs.Range.{IsInRange};
ghost use Rattle.samoa_micro.specs.Covers.{Covers};
ghost use Rattle.samoa_serial.specs.LimitedReport.{report_in_full};
ghost use Rattle.samoa_invariant.specs.State.{AllEnded};
ghost use Rattle.samoa_invariant.specs.Runs.{state};
ghost use Rattle.samoa_journal.specs.Finished.{IsComplete};
ghost use Rattle.samoa_replay.specs.Faults.{IsFaultOf, IsLeastUnended};
ghost use Rattle.samoa_replay.specs.Following.{AreOut, Follows, HasMade, IsOnCourse, IsOver, IsReady};
ghost use Rattle.samoa_replay.specs.Lines.{IsFaultAfter};

use crate::course::Course;
use crate::fault::ReplayFault;
use samoa_core::{Core, Turn};
use samoa_micro::{Micro, Stock};
use samoa_model::{NoMemory, Script, Step};
use std::alloc::Global;

/// How many cells the core has.
const MOST_CELLS: u32 = 1_048_576;

/// A journal that is being replayed: the core that makes its steps, how far the script was run, and the handler steps that
/// are out. These can't be dropped, so they are given back at the end.
pub(crate) struct Replay<B: Micro> {
    pub(crate) core: Core<B>,
    pub(crate) course: Course,
    pub(crate) turns: Vec<Turn<B>>,
}

impl<B: Micro> Replay<B> {
    /// Before the first line.
    pub(crate) fn new(
        alloc: Global,
        script: &Script,
        stock: Stock<B>,
    ) -> Result<Replay<B>, NoMemory>
        requires in_range { IsInRange script.now }
        requires covers { Covers script.now stock }
        ensures ready { IfOk result (λ replay. IsReady replay.core replay.course replay.turns.items) }
        ensures of_script { IfOk result (λ replay. replay.core.script ≡ script.now) }
        ensures journal { IfOk result (λ replay. replay.core.journal ≡ []) }
    {
        let core = Core::new(alloc, script, stock, MOST_CELLS)?;
        let mut course = Course::new(alloc);
        course.refill(alloc, script, &core)?;
        Ok(Replay {
            core,
            course,
            turns: Vec::new(alloc),
        })
    }

    /// Makes all steps, and writes what the report ends with.
    pub(crate) fn follow(
        &mut self,
        alloc: Global,
        script: &Script,
        steps: &[Step],
    ) -> Result<(), ReplayFault>
        requires in_range { IsInRange script.now }
        requires ready { IsReady self.old.core self.old.course self.old.turns.items }
        requires of_script { self.old.core.script ≡ script.now }
        requires none { self.old.core.journal ≡ [] }
        requires few { length steps.now < 4294967296 }
        ensures complete { OnOk result (IsComplete script.now steps.now) }
        ensures report { OnOk result (self.new.course.text.items ≡ report_in_full script.now false) }
        ensures fault { IfErr result (λ fault. IsFaultOf script.now steps.now fault) }
        ensures out { AreOut self.new.core self.new.turns.items }
    {
        match self.follow_lines(alloc, script, steps) {
            Ok(()) => self.end_report(script),
            Err(fault) => Err(fault),
        }
    }

    /// Makes the steps line by line.
    fn follow_lines(
        &mut self,
        alloc: Global,
        script: &Script,
        steps: &[Step],
    ) -> Result<(), ReplayFault>
        requires in_range { IsInRange script.now }
        requires ready { IsReady self.old.core self.old.course self.old.turns.items }
        requires of_script { self.old.core.script ≡ script.now }
        requires none { self.old.core.journal ≡ [] }
        requires few { length steps.now < 4294967296 }
        ensures ready { OnOk result (IsReady self.new.core self.new.course self.new.turns.items) }
        ensures of_script { OnOk result (self.new.core.script ≡ script.now) }
        ensures journal { OnOk result (self.new.core.journal ≡ steps.now) }
        ensures fault { IfErr result (λ fault. IsFaultOf script.now steps.now fault) }
        ensures out { AreOut self.new.core self.new.turns.items }
    {
        let mut line = 0;
        while line < steps.len() {
            let step = steps[line];
            if let Err(fault) = self.follow_line(alloc, script, step, line as u32 + 1) {
                return Err(fault);
            }
            line += 1;
        }
        Ok(())
    }

    /// Makes the step of one line. Where all have ended then, their part of the report is written, and the next tick is
    /// taken if nothing is left of this one.
    fn follow_line(
        &mut self,
        alloc: Global,
        script: &Script,
        step: Step,
        line: u32,
    ) -> Result<(), ReplayFault>
        requires in_range { IsInRange script.now }
        requires ready { IsReady self.old.core self.old.course self.old.turns.items }
        requires of_script { self.old.core.script ≡ script.now }
        ensures ready { OnOk result (IsReady self.new.core self.new.course self.new.turns.items) }
        ensures of_script { OnOk result (self.new.core.script ≡ script.now) }
        ensures journal { OnOk result (self.new.core.journal ≡ self.old.core.journal ++ step ∷ []) }
        ensures fault { IfErr result (λ fault. IsFaultAfter script.now self.old.core.journal step line fault) }
        ensures out { AreOut self.new.core self.new.turns.items }
    {
        let _admitted = self.core.admitted();
        if self.is_over() {
            return Err(ReplayFault::Trailing { line });
        }
        let made = self.make(alloc, step);
        match made {
            Ok(true) => {}
            Ok(false) => return Err(ReplayFault::NotEnabled { line }),
            Err(NoMemory) => return Err(ReplayFault::Memory),
        }
        match self.close_if_ended(alloc, script) {
            Ok(()) => Ok(()),
            Err(NoMemory) => Err(ReplayFault::Memory),
        }
    }

    /// Whether all have ended and nothing more is admitted.
    fn is_over(&self) -> bool
        requires { IsOnCourse self.now.core.script self.now.core self.now.course }
        ensures { IsTrue result ↔ IsOver self.now.core self.now.course }
    {
        self.may_close() && self.course.due().is_none()
    }

    /// Whether all have ended: then their part of the report may be closed, and the next tick opened.
    fn may_close(&self) -> bool
        ensures { IsTrue result ↔ AllEnded (state self.now.core) }
    {
        self.core.all_ended()
    }

    /// Where all have ended, writes their part of the report and takes the next tick if nothing is left of this one.
    fn close_if_ended(&mut self, alloc: Global, script: &Script) -> Result<(), NoMemory>
        requires in_range { IsInRange script.now }
        requires follows { Follows self.old.core self.old.course self.old.turns.items }
        requires of_script { self.old.core.script ≡ script.now }
        ensures ready { OnOk result (IsReady self.new.core self.new.course self.new.turns.items) }
        ensures of_script { OnOk result (self.new.core.script ≡ script.now) }
        ensures journal { OnOk result (self.new.core.journal ≡ self.old.core.journal) }
        ensures out { AreOut self.new.core self.new.turns.items }
    {
        if !self.may_close() {
            return Ok(());
        }
        let _ended = self.core.admitted();
        self.course.close(script, &mut self.core)?;
        let _closed = self.core.admitted();
        self.course.refill(alloc, script, &self.core)?;
        Ok(())
    }

    /// Writes what the report ends with, if all that the script admits was run and the limit of computations didn't cut it
    /// short.
    fn end_report(&mut self, script: &Script) -> Result<(), ReplayFault>
        requires in_range { IsInRange script.now }
        requires ready { IsReady self.old.core self.old.course self.old.turns.items }
        requires of_script { self.old.core.script ≡ script.now }
        ensures complete { OnOk result (IsComplete script.now self.old.core.journal) }
        ensures report { OnOk result (self.new.course.text.items ≡ report_in_full script.now false) }
        ensures fault { IfErr result (λ fault. IsFaultOf script.now self.old.core.journal fault) }
        ensures core { self.new.core ≡ self.old.core }
        ensures out { AreOut self.new.core self.new.turns.items }
    {
        let _admitted = self.core.admitted();
        if !self.is_over() || self.course.limited {
            let comp = self.least_unended();
            return Err(ReplayFault::Unfinished { comp });
        }
        match self.course.finish(script, &self.core) {
            Ok(()) => Ok(()),
            Err(NoMemory) => Err(ReplayFault::Memory),
        }
    }

    /// The least computation that hasn't ended: the number after all that were admitted, where these have ended.
    fn least_unended(&self) -> u32
        requires { IsOnCourse self.now.core.script self.now.core self.now.course }
        ensures { IsLeastUnended (state self.now.core) result }
    {
        let admitted = self.core.admitted();
        let mut comp = self.course.totals.comps + 1;
        while comp <= admitted && self.core.has_ended(comp) {
            comp += 1;
        }
        comp
    }

    /// Gives back what is out, and answers the text.
    pub(crate) fn into_text(self) -> Vec<u8>
        requires { AreOut self.core self.turns.items }
        ensures { result.items ≡ self.course.text.items }
    {
        let Replay {
            core,
            course,
            turns,
        } = self;
        give_back(core, turns);
        let Course {
            totals: _,
            net: _,
            tick: _,
            batch: _,
            next: _,
            limited: _,
            text,
        } = course;
        text
    }
}

/// Gives back all handler steps that are out.
fn give_back<B: Micro>(core: Core<B>, turns: Vec<Turn<B>>)
    requires { AreOut core turns.items }
{
    let mut core = core;
    let mut turns = turns;
    while let Some(turn) = turns.pop() {
        let _before = core.admitted();
        core.abandon(turn);
        let _after = core.admitted();
    }
    turns.destroy_empty();
}
