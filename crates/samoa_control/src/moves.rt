//! Handler steps: they begin, and come back done or undone.
ghost use Rattle.std.specs.Prelude.{◌≡◌, ℕ, ◌<◌, ◌≤◌, ◌+◌, ◌-◌, length, Some, None, true, false};
ghost use Rattle.samoa_model.specs.declared.record.Step.{Step};
ghost use Rattle.samoa_calls.specs.Handed.{next_moment};
ghost use Rattle.samoa_model.specs.declared.handler.Moment.{Moment};
ghost use Rattle.samoa_serial.specs.Kinds.{after_step, outcome_of};
ghost use Rattle.samoa_invariant.specs.State as model;
ghost use Rattle.samoa_invariant.specs.Runs.{IsDue, Trace, play, state, with_step};
ghost use Rattle.samoa_control.specs.Later.{IsLater};
ghost use Rattle.samoa_control.specs.Since.{cleared_comps};
ghost use Rattle.samoa_control.specs.Turns.{HasCome, IsAway, IsNext, box_of};

use crate::control::Control;
use crate::running::take_outcome_at;
use crate::tray::Tray;
use crate::turn::{Ran, Turn};
use samoa_micro::Micro;
use samoa_model::{MicroId, Moment, Outcome, Step};

impl<B: Micro> Control<B> {
    /// Begins the next handler step of a computation, which is due: its microprotocol leaves its slot.
    pub fn enter(&mut self, comp: u32) -> Turn<B>
        requires due { (micro : ℕ) × IsDue self.old (Step.Enter comp micro) }
        ensures comp { result.comp ≡ comp }
        ensures due { IsDue self.old (Step.Enter comp result.micro) }
        ensures step { self.new ≡ with_step self.old (Step.Enter comp result.micro) }
        ensures later { IsLater self.old self.new }
        ensures away { IsAway self.new result }
        ensures fewer { model.left (play self.new) (state self.new) < model.left (play self.old) (state self.old) }
    {
        self.recall();
        let (micro, moment) = self.due(comp);
        let held = self.go_out(comp, micro.0);
        Turn::new(comp, micro.0, moment, held)
    }

    /// Ends a handler step that is out and was made: its microprotocol comes back to its slot, and its outcome takes
    /// effect.
    pub fn leave(&mut self, ran: Ran<B>)
        requires away { IsAway self.old ran }
        ensures step { self.new ≡ with_step self.old (Step.Leave ran.comp) }
        ensures later { IsLater self.old self.new }
        ensures fewer { model.left (play self.new) (state self.new) < model.left (play self.old) (state self.old) }
    {
        let comp = ran.comp();
        let micro = ran.micro();
        self.recall();
        let (held, outcome) = ran.into_parts();
        self.go_home(comp, micro, held, outcome);
    }

    /// Takes a handler step back that is out: its microprotocol comes back as it was, and no handler step begins any more.
    pub fn abandon(&mut self, turn: Turn<B>)
        requires away { IsAway self.old turn }
        ensures step { self.new ≡ with_step self.old (Step.Abandon turn.comp) }
        ensures later { IsLater self.old self.new }
    {
        let comp = turn.comp();
        let micro = turn.micro();
        self.recall();
        let held = turn.into_held();
        self.go_back(comp, micro, held);
    }

    /// The next handler step of a computation for which it is due.
    fn due(&self, comp: u32) -> (MicroId, Moment)
        requires due { (micro : ℕ) × IsDue self.now (Step.Enter comp micro) }
        ensures next { next_moment ((state self.now).comp (comp - 1)) ≡ Some result }
        ensures due { IsDue self.now (Step.Enter comp result.0.0) }
        ensures within { result.0.0 < length self.now.script.micros }
    {
        self.recall();
        match self.next(comp) {
            Some(step) => step,
            None => unreachable!(),
        }
    }

    /// Takes the microprotocol of a handler step that is due out of its slot.
    fn go_out(&mut self, comp: u32, micro: u32) -> Tray<B>
        requires due { IsDue self.old (Step.Enter comp micro) }
        requires kept { cleared_comps self.old < comp }
        requires within { micro < length self.old.script.micros }
        ensures held { result ≡ box_of self.old comp micro }
        ensures step { self.new ≡ with_step self.old (Step.Enter comp micro) }
    {
        let node = self.running(comp).node;
        let held = self.slots.take(node, micro);
        self.away += 1;
        self.journal.note(Step::Enter { comp, micro });
        held
    }

    /// Puts the microprotocol of a handler step that is out back, and lets its outcome take effect.
    fn go_home(&mut self, comp: u32, micro: u32, held: Tray<B>, outcome: Outcome)
        requires due { IsDue self.old (Step.Leave comp) }
        requires come { HasCome self.old comp micro held outcome }
        requires kept { cleared_comps self.old < comp }
        requires within { micro < length self.old.script.micros }
        ensures step { self.new ≡ with_step self.old (Step.Leave comp) }
    {
        let node = self.running(comp).node;
        let at = (comp - 1 - self.first) as usize;
        self.slots.put(node, micro, held);
        self.away -= 1;
        take_outcome_at(
            &mut self.running,
            at,
            &self.script,
            &self.tables,
            &mut self.versions,
            outcome,
        );
        self.journal.note(Step::Leave { comp });
    }

    /// Puts the microprotocol of a handler step that is out back as it was.
    fn go_back(&mut self, comp: u32, micro: u32, held: Tray<B>)
        requires due { IsDue self.old (Step.Abandon comp) }
        requires next { (moment : Moment) × IsNext self.old (record { comp = comp; micro = micro; moment = moment; before = held }) }
        requires kept { cleared_comps self.old < comp }
        requires within { micro < length self.old.script.micros }
        ensures step { self.new ≡ with_step self.old (Step.Abandon comp) }
    {
        let node = self.running(comp).node;
        self.slots.put(node, micro, held);
        self.away -= 1;
        self.stopped = true;
        self.journal.note(Step::Abandon { comp });
    }
}
