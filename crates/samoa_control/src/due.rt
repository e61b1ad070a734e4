//! What is due: whether a computation may begin its next handler step, release a microprotocol, or end.
ghost use Rattle.std.specs.Prelude.{◌≡◌, ℕ, ◌<◌, ◌≤◌, ◌-◌, ◌↔◌, length, true, IsTrue};
ghost use Rattle.samoa_model.specs.declared.record.Step.{Step};
ghost use Rattle.samoa_invariant.specs.Index.{MayEnter};
ghost use Rattle.samoa_invariant.specs.Runs.{IsDue, play, state};
ghost use Rattle.samoa_control.specs.Since.{cleared_comps};
ghost use Rattle.samoa_control.specs.Sound.{IsPast};

use crate::control::Control;
use crate::forms::waits_for_rest;
use samoa_micro::Micro;

impl<B: Micro> Control<B> {
    /// Whether the next handler step of a computation may begin, were no handler step abandoned: it is one at which the
    /// computation has its turn, and its microprotocol is home.
    pub fn may_enter(&self, comp: u32) -> bool
        requires kept { cleared_comps self.now < comp }
        requires admitted { comp ≤ length self.now.exts }
        ensures { IsTrue result ↔ MayEnter (play self.now) (state self.now) (comp - 1) }
    {
        self.recall();
        match self.next(comp) {
            None => false,
            Some((micro, _)) => self.has_turn(comp, micro.0) && self.is_home_of(comp, micro.0),
        }
    }

    /// Whether a release of a computation may be due, by what is tested at once: it hasn't ended, and nothing is left of
    /// it if its declaration waits for the rest.
    pub fn may_have_releases(&self, comp: u32) -> bool
        requires kept { cleared_comps self.now < comp }
        requires admitted { comp ≤ length self.now.exts }
        ensures { (micro : ℕ) → IsDue self.now (Step.Release comp micro) → result ≡ true }
    {
        self.recall();
        !self.has_ended(comp) && (self.is_idle(comp) || !waits_for_rest(self.declaration(comp)))
    }

    /// Whether a release is due.
    pub(crate) fn can_release(&self, comp: u32, micro: u32) -> bool
        requires kept { cleared_comps self.now < comp }
        requires admitted { comp ≤ length self.now.exts }
        requires micro { micro < length self.now.script.micros }
        ensures { IsTrue result ↔ IsDue self.now (Step.Release comp micro) }
    {
        // What isn't declared has no turn.
        self.has_turn(comp, micro) && self.is_quiet(comp, micro)
    }

    /// Whether the end of a computation may be due, by what is tested at once: it hasn't ended, and nothing is left of it.
    pub fn may_end(&self, comp: u32) -> bool
        requires kept { cleared_comps self.now < comp }
        requires admitted { comp ≤ length self.now.exts }
        ensures { IsDue self.now (Step.End comp) → result ≡ true }
    {
        self.recall();
        !self.has_ended(comp) && self.is_idle(comp)
    }

    /// Whether an end is due.
    pub fn can_end(&self, comp: u32) -> bool
        requires kept { cleared_comps self.now < comp }
        requires admitted { comp ≤ length self.now.exts }
        ensures { IsTrue result ↔ IsDue self.now (Step.End comp) }
    {
        self.recall();
        !self.has_ended(comp) && self.is_idle(comp) && self.all_past(comp)
    }

    fn all_past(&self, comp: u32) -> bool
        requires kept { cleared_comps self.now < comp }
        requires admitted { comp ≤ length self.now.exts }
        ensures { IsTrue result ↔ ((micro : ℕ) → IsPast (play self.now) (state self.now) (comp - 1) micro) }
    {
        self.recall();
        let micros = self.micros();
        let mut micro = 0;
        while micro < micros {
            if !self.is_past(comp, micro) {
                return false;
            }
            micro += 1;
        }
        true
    }
}
