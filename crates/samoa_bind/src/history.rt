//! What was bound to one event of a node after its first handlers.
ghost use Rattle.std.specs.Prelude.{◌≡◌, ◌<◌, ◌≤◌, ◌+◌, ◌-◌, [], ◌∷◌, ◌++◌, All, None, OnOk};
ghost use Rattle.samoa_bind.specs.Histories.{found_after};

use samoa_model::{ChangeId, NoMemory};
use std::alloc::Global;
use std::marker::Model;

/// From this epoch on, the handlers are those in a row of a change.
#[derive(Clone, Copy)]
pub(crate) struct Binding {
    pub(crate) epoch: u32,
    pub(crate) change: ChangeId,
    pub(crate) row: usize,
}

/// The bindings of an event, by rising epoch.
#[derive(Drop)]
pub(crate) struct History {
    bindings: Vec<Binding>,
}

impl Model for History {
    ghost use Rattle.std.specs.Prelude.{◌-◌, length, vec_capacity};
    ghost use Rattle.std.specs.List.Sorted.{IsNonDecreasingBy};
    ghost use Rattle.samoa_bind.specs.Histories.{Past};

    ghost Value = { Past };

    ghost view = { λ h. record { bindings = h.bindings.items; room = vec_capacity h.bindings - length h.bindings.items } };

    ghost invariant = { λ h. IsNonDecreasingBy (λ b. b.epoch) h.bindings.items };
}

impl History {
    pub(crate) fn new(alloc: Global) -> History
        ensures { result.bindings ≡ [] }
    {
        History {
            bindings: Vec::new(alloc),
        }
    }

    /// Makes room for so many bindings, or answers want of memory.
    pub(crate) fn reserve(&mut self, more: usize) -> Result<(), NoMemory>
        ensures bindings { self.new.bindings ≡ self.old.bindings }
        ensures kept { self.old.room ≤ self.new.room }
        ensures room { OnOk result (more ≤ self.new.room) }
    {
        self.bindings.reserve(more)?;
        Ok(())
    }

    /// One more binding, from an epoch that is no earlier than those of the others.
    pub(crate) fn bind(&mut self, binding: Binding)
        requires room { 0 < self.old.room }
        requires last { All (λ b. b.epoch ≤ binding.epoch) self.old.bindings }
        ensures { self.new ≡ record { bindings = self.old.bindings ++ binding ∷ []; room = self.old.room - 1 } }
    {
        self.bindings.push_reserved(binding);
    }

    /// The last binding that is no later than an epoch.
    pub(crate) fn find(&self, epoch: u32) -> Option<Binding>
        ensures { result ≡ found_after epoch None self.now.bindings }
    {
        let count = self
            .bindings
            .partition_point(|binding| binding.epoch <= epoch);
        if count == 0 {
            return None;
        }
        Some(self.bindings[count - 1])
    }
}
