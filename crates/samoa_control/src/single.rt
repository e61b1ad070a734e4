//! Single steps: whether one is enabled, and a release or an end alone.
ghost use Rattle.std.specs.Prelude.{◌≡◌, ◌<◌, ◌≤◌, ◌-◌, ◌↔◌, length, IsTrue};
ghost use Rattle.samoa_model.specs.declared.record.Step.{Step};
ghost use Rattle.samoa_invariant.specs.State as model;
ghost use Rattle.samoa_invariant.specs.Runs.{IsDue, play, state, with_step};
ghost use Rattle.samoa_control.specs.Later.{IsLater};
ghost use Rattle.samoa_control.specs.Since.{cleared_comps};
ghost use Rattle.samoa_control.specs.Steps.{IsNoAdmit};

use crate::control::Control;
use crate::grid::place;
use crate::running::end_at;
use samoa_micro::Micro;
use samoa_model::Step;

impl<B: Micro> Control<B> {
    /// Whether a step is enabled, which is no Admit. It answers whatever number and microprotocol the step names: none is
    /// enabled of a computation that wasn't admitted or was cleared away, or at a microprotocol that isn't there. A Leave
    /// and an Abandon are enabled exactly where the computation is out.
    pub fn enabled(&self, step: &Step) -> bool
        requires { IsNoAdmit step.now }
        ensures { IsTrue result ↔ IsDue self.now step.now }
    {
        match *step {
            Step::Admit { comp: _ } => unreachable!(),
            Step::Enter { comp, micro } => self.enters(comp, micro),
            Step::Leave { comp } => self.comes_back(comp),
            Step::Abandon { comp } => self.comes_back(comp),
            Step::Release { comp, micro } => self.releases(comp, micro),
            Step::End { comp } => self.ends(comp),
        }
    }

    /// Makes a release, which is due: the computation is done with the microprotocol, and the next one has its turn there.
    pub fn release(&mut self, comp: u32, micro: u32)
        requires due { IsDue self.old (Step.Release comp micro) }
        ensures step { self.new ≡ with_step self.old (Step.Release comp micro) }
        ensures later { IsLater self.old self.new }
        ensures fewer { model.left (play self.new) (state self.new) < model.left (play self.old) (state self.old) }
    {
        self.recall();
        self.hand_on(comp, micro);
    }

    /// Makes an end, which is due: the computation has ended.
    pub fn end(&mut self, comp: u32)
        requires due { IsDue self.old (Step.End comp) }
        ensures step { self.new ≡ with_step self.old (Step.End comp) }
        ensures later { IsLater self.old self.new }
        ensures fewer { model.left (play self.new) (state self.new) < model.left (play self.old) (state self.old) }
    {
        self.recall();
        self.finish(comp);
    }

    /// Whether a computation was admitted since the last clear.
    fn is_since_clear(&self, comp: u32) -> bool
        ensures { IsTrue result ↔ ((cleared_comps self.now < comp) × (comp ≤ length self.now.exts)) }
    {
        self.cleared() < comp && comp <= self.admitted()
    }

    /// Whether an Enter of a microprotocol is due.
    fn enters(&self, comp: u32, micro: u32) -> bool
        ensures { IsTrue result ↔ IsDue self.now (Step.Enter comp micro) }
    {
        self.recall();
        if !self.is_since_clear(comp) {
            return false;
        }
        self.is_next(comp, micro) && self.is_ready(comp)
    }

    /// Whether a computation's next handler step, which may be out, is at a microprotocol.
    fn is_next(&self, comp: u32, micro: u32) -> bool
        requires kept { cleared_comps self.now < comp }
        requires admitted { comp ≤ length self.now.exts }
        ensures { IsTrue result ↔ model.IsNextAt ((state self.now).comp (comp - 1)) micro }
    {
        match self.next(comp) {
            None => false,
            Some((next, _)) => next.0 == micro,
        }
    }

    /// Whether a computation is out, so that its handler step may come back.
    fn comes_back(&self, comp: u32) -> bool
        ensures leave { IsTrue result ↔ IsDue self.now (Step.Leave comp) }
        ensures abandon { IsTrue result ↔ IsDue self.now (Step.Abandon comp) }
    {
        self.recall();
        self.is_since_clear(comp) && self.is_out(comp)
    }

    /// Whether a computation is out. It is so only at its next handler step, where it has its turn; and what is out there
    /// is out to the one that has its turn.
    fn is_out(&self, comp: u32) -> bool
        requires kept { cleared_comps self.now < comp }
        requires admitted { comp ≤ length self.now.exts }
        ensures { IsTrue result ↔ model.CanLeave (play self.now) (state self.now) (comp - 1) }
    {
        self.recall();
        match self.next(comp) {
            None => false,
            Some((micro, _)) => self.has_turn(comp, micro.0) && !self.is_home_of(comp, micro.0),
        }
    }

    /// Whether a release is due.
    fn releases(&self, comp: u32, micro: u32) -> bool
        ensures { IsTrue result ↔ IsDue self.now (Step.Release comp micro) }
    {
        self.recall();
        if !self.is_since_clear(comp) {
            return false;
        }
        micro < self.micros() && self.can_release(comp, micro)
    }

    /// Whether an end is due.
    fn ends(&self, comp: u32) -> bool
        ensures { IsTrue result ↔ IsDue self.now (Step.End comp) }
    {
        self.recall();
        self.is_since_clear(comp) && self.can_end(comp)
    }

    /// Hands a slot on, whose release is due.
    fn hand_on(&mut self, comp: u32, micro: u32)
        requires due { IsDue self.old (Step.Release comp micro) }
        requires kept { cleared_comps self.old < comp }
        requires within { micro < length self.old.script.micros }
        ensures step { self.new ≡ with_step self.old (Step.Release comp micro) }
    {
        let node = self.running(comp).node;
        let turn = self.running(comp).turn(micro);
        let slot = place(self.script.micros.len(), node.0, micro);
        self.versions.hand_on(slot, turn.from, turn.to);
        self.journal.note(Step::Release { comp, micro });
    }

    /// Notes that a computation has ended, whose end is due.
    fn finish(&mut self, comp: u32)
        requires due { IsDue self.old (Step.End comp) }
        requires kept { cleared_comps self.old < comp }
        ensures step { self.new ≡ with_step self.old (Step.End comp) }
    {
        let at = (comp - 1 - self.first) as usize;
        end_at(&mut self.running, at);
        self.unended -= 1;
        self.journal.note(Step::End { comp });
    }
}
