//! The journal, and the room that is kept for the steps to come.
ghost use Rattle.std.specs.Prelude.{◌≡◌, ◌<◌, ◌+◌, ◌-◌, [], ◌∷◌, ◌++◌, OnOk, OnErr, IfOk, length, min};

use samoa_model::{NoMemory, Step};
use std::alloc::Global;
use std::marker::Model;

/// The steps that were made, and for how many more there is room.
#[derive(Drop)]
pub(crate) struct Journal {
    steps: Vec<Step>,
    promised: u64,
}

impl Model for Journal {
    ghost use Rattle.std.specs.Prelude.{◌≤◌, ◌+◌, length, vec_capacity};
    ghost use Rattle.samoa_control.specs.Noted.{Noted};

    ghost Value = { Noted };

    ghost view = { λ j. record { steps = j.steps.items; promised = j.promised } };

    ghost invariant = { λ j. length j.steps.items + j.promised ≤ vec_capacity j.steps };
}

impl Journal {
    pub(crate) fn new(alloc: Global) -> Journal
        ensures { result ≡ record { steps = []; promised = 0 } }
    {
        Journal {
            steps: Vec::new(alloc),
            promised: 0,
        }
    }

    pub(crate) fn steps(&self) -> &[Step]
        ensures { result.now ≡ self.now.steps }
    {
        self.steps.as_slice()
    }

    pub(crate) fn len(&self) -> u64
        ensures { result ≡ length self.now.steps }
    {
        self.steps.len() as u64
    }

    /// Makes room for so many steps more, or answers want of memory, and nothing has changed.
    pub(crate) fn promise(&mut self, more: u64) -> Result<(), NoMemory>
        ensures ok { OnOk result (self.new ≡ record self.old { promised = self.old.promised + more }) }
        ensures err { OnErr result (self.new ≡ self.old) }
    {
        let promised = sum(self.promised, more)?;
        self.steps.reserve(promised as usize)?;
        self.promised = promised;
        Ok(())
    }

    /// Notes a step, for which there is room.
    pub(crate) fn note(&mut self, step: Step)
        requires { 0 < self.old.promised }
        ensures { self.new ≡ record { steps = self.old.steps ++ step ∷ []; promised = self.old.promised - 1 } }
    {
        self.steps.push_reserved(step);
        self.promised -= 1;
    }

    /// Keeps room for at most so many steps.
    pub(crate) fn keep(&mut self, most: u64)
        ensures { self.new ≡ record self.old { promised = min self.old.promised most } }
    {
        if most < self.promised {
            self.promised = most;
        }
    }
}

/// The sum, where it is a number of the machine; no memory has room for more.
pub(crate) fn sum(a: u64, b: u64) -> Result<u64, NoMemory>
    ensures { IfOk result (λ c. c ≡ a + b) }
{
    match a.checked_add(b) {
        Some(c) => Ok(c),
        None => Err(NoMemory),
    }
}
