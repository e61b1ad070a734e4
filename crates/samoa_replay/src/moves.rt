//! The steps of a journal, each tested before it is made.
ghost use Rattle.std.specs.Prelude.{◌≡◌, ◌≢◌, ◌<◌, ◌++◌, ◌∷◌, [], ℕ, true, false, length, slice_get, slice_index_or, Some, All, IfOk, IfSome, IfNone};
ghost use Rattle.samoa_model.specs.declared.record.Step.{Step as StepValue};
ghost use Rattle.samoa_control.specs.Turns.{Going};
ghost use Rattle.samoa_replay.specs.Following.{AreOut, HasMade, IsOver, IsReady, IsRefused};

use crate::replay::Replay;
use samoa_micro::Micro;
use samoa_model::{NoMemory, Step};
use std::alloc::Global;

impl<B: Micro> Replay<B> {
    /// Makes a step, and answers whether it is enabled.
    pub(crate) fn make(&mut self, alloc: Global, step: Step) -> Result<bool, NoMemory>
        requires ready { IsReady self.old.core self.old.course self.old.turns.items }
        requires going { IsOver self.old.core self.old.course → ⊥ }
        ensures made { IfOk result (λ made. made ≡ true → HasMade step self.old.core self.new.core self.new.course self.new.turns.items) }
        ensures refused { IfOk result (λ made. made ≡ false → IsRefused self.old.core step) }
        ensures out { AreOut self.new.core self.new.turns.items }
    {
        match step {
            Step::Admit { comp } => self.admit(alloc, comp),
            Step::Enter { comp, micro } => self.enter(comp, micro),
            Step::Leave { comp } => self.leave(alloc, comp),
            Step::Abandon { comp } => Ok(self.abandon(comp)),
            Step::Release { comp, micro } => Ok(self.release(comp, micro)),
            Step::End { comp } => Ok(self.end(comp)),
        }
    }

    /// Admits the next computation of the tick at hand, if it has this number and its cells are free.
    fn admit(&mut self, alloc: Global, comp: u32) -> Result<bool, NoMemory>
        requires ready { IsReady self.old.core self.old.course self.old.turns.items }
        requires going { IsOver self.old.core self.old.course → ⊥ }
        ensures made { IfOk result (λ made. made ≡ true → HasMade (StepValue.Admit comp) self.old.core self.new.core self.new.course self.new.turns.items) }
        ensures refused { IfOk result (λ made. made ≡ false → IsRefused self.old.core (StepValue.Admit comp)) }
        ensures out { AreOut self.new.core self.new.turns.items }
    {
        let admitted = self.core.admitted();
        if comp != admitted + 1 {
            return Ok(false);
        }
        let Some(ext) = self.course.due() else {
            return Ok(false);
        };
        if !self.core.fits(&ext) {
            return Ok(false);
        }
        match self.core.admit(alloc, ext) {
            Ok(_) => {
                self.course.next += 1;
                Ok(true)
            }
            Err((_, fault)) => Err(fault),
        }
    }

    /// Begins a handler step, if it is due.
    fn enter(&mut self, comp: u32, micro: u32) -> Result<bool, NoMemory>
        requires ready { IsReady self.old.core self.old.course self.old.turns.items }
        ensures made { IfOk result (λ made. made ≡ true → HasMade (StepValue.Enter comp micro) self.old.core self.new.core self.new.course self.new.turns.items) }
        ensures refused { IfOk result (λ made. made ≡ false → IsRefused self.old.core (StepValue.Enter comp micro)) }
        ensures out { AreOut self.new.core self.new.turns.items }
    {
        let _admitted = self.core.admitted();
        if !self.core.enabled(&Step::Enter { comp, micro }) {
            return Ok(false);
        }
        self.turns.reserve(1)?;
        let turn = self.core.enter(comp);
        let _entered = self.core.admitted();
        self.turns.push_reserved(turn);
        Ok(true)
    }

    /// Makes the handler step that is out for a computation, and ends it, if there is one. Where there was no memory for
    /// it, it is taken back.
    fn leave(&mut self, alloc: Global, comp: u32) -> Result<bool, NoMemory>
        requires ready { IsReady self.old.core self.old.course self.old.turns.items }
        ensures made { IfOk result (λ made. made ≡ true → HasMade (StepValue.Leave comp) self.old.core self.new.core self.new.course self.new.turns.items) }
        ensures refused { IfOk result (λ made. made ≡ false → IsRefused self.old.core (StepValue.Leave comp)) }
        ensures out { AreOut self.new.core self.new.turns.items }
    {
        let _admitted = self.core.admitted();
        let Some(at) = self.turn_of(comp) else {
            return Ok(false);
        };
        let turn = self.turns.remove(at);
        match turn.run(alloc) {
            Ok(ran) => {
                self.core.leave(ran);
                let _left = self.core.admitted();
                Ok(true)
            }
            Err((turn, fault)) => {
                self.core.abandon(turn);
                let _back = self.core.admitted();
                Err(fault)
            }
        }
    }

    /// Takes the handler step that is out for a computation back, if there is one.
    fn abandon(&mut self, comp: u32) -> bool
        requires ready { IsReady self.old.core self.old.course self.old.turns.items }
        ensures made { result ≡ true → HasMade (StepValue.Abandon comp) self.old.core self.new.core self.new.course self.new.turns.items }
        ensures refused { result ≡ false → IsRefused self.old.core (StepValue.Abandon comp) }
        ensures out { AreOut self.new.core self.new.turns.items }
    {
        let _admitted = self.core.admitted();
        let Some(at) = self.turn_of(comp) else {
            return false;
        };
        let turn = self.turns.remove(at);
        self.core.abandon(turn);
        let _back = self.core.admitted();
        true
    }

    /// Makes a release, if it is due.
    fn release(&mut self, comp: u32, micro: u32) -> bool
        requires ready { IsReady self.old.core self.old.course self.old.turns.items }
        ensures made { result ≡ true → HasMade (StepValue.Release comp micro) self.old.core self.new.core self.new.course self.new.turns.items }
        ensures refused { result ≡ false → IsRefused self.old.core (StepValue.Release comp micro) }
        ensures out { AreOut self.new.core self.new.turns.items }
    {
        let _admitted = self.core.admitted();
        if !self.core.enabled(&Step::Release { comp, micro }) {
            return false;
        }
        self.core.release(comp, micro);
        let _released = self.core.admitted();
        true
    }

    /// Makes an end, if it is due.
    fn end(&mut self, comp: u32) -> bool
        requires ready { IsReady self.old.core self.old.course self.old.turns.items }
        ensures made { result ≡ true → HasMade (StepValue.End comp) self.old.core self.new.core self.new.course self.new.turns.items }
        ensures refused { result ≡ false → IsRefused self.old.core (StepValue.End comp) }
        ensures out { AreOut self.new.core self.new.turns.items }
    {
        let _admitted = self.core.admitted();
        if !self.core.enabled(&Step::End { comp }) {
            return false;
        }
        self.core.end(comp);
        let _ended = self.core.admitted();
        true
    }

    /// Where the turn of a computation stands among those that are out, if there is one.
    fn turn_of(&self, comp: u32) -> Option<usize>
        ensures within { IfSome result (λ at. at < length self.now.turns.items) }
        ensures comp { IfSome result (λ at. (d : Going) → (slice_index_or self.now.turns.items at d).comp ≡ comp) }
        ensures none { IfNone result (All (λ g. g.comp ≢ comp) self.now.turns.items) }
    {
        let mut at = 0;
        while at < self.turns.len() {
            if self.turns[at].comp() == comp {
                return Some(at);
            }
            at += 1;
        }
        None
    }
}
