//! A computation with the number of its declaration.
ghost use Rattle.std.specs.Prelude.{◌≡◌, ◌<◌, ◌≤◌, ◌↔◌, List, [], ◌∷◌, length, None, IfOk, IsSome, IsTrue, slice_get};
ghost use Rattle.samoa_model.specs.Scripts.{Table, resolve};
ghost use Rattle.samoa_serial.specs.declared.call.Active.{Active};
ghost use Rattle.samoa_serial.specs.World.{attempts_of};
ghost use Rattle.samoa_serial.specs.Calls.{start, take_outcome};
ghost use Rattle.samoa_bind.specs.Bound.{epochs_of, table_at};
ghost use Rattle.samoa_calls.specs.Held.{Held, handlers_of};
ghost use Rattle.samoa_calls.specs.Handed.{AreCounted, AreNamed, IsCounted, IsNamed, IsStarted, NothingLeft, ended_at, ending_of, fresh, next_moment};

use crate::calls::Calls;
use samoa_bind::Tables;
use samoa_declare::Standing;
use samoa_model::{
    Decl, Ending, Entry, EventId, HandlerId, MicroId, Moment, NoMemory, NodeId, Outcome, Words,
};
use std::alloc::Global;
use std::marker::Model;

/// A computation: its active and waiting calls, the units that are left, and its entries. It is started once, and then
/// takes the outcome of each handler step. Each call that is lent a declaration judges by that one.
#[derive(Drop)]
pub struct Comp {
    decl: u32,
    calls: Calls,
}

impl Model for Comp {
    ghost use Rattle.samoa_calls.specs.Held.{Held, handlers_of};

    ghost Value = { Held };

    ghost view = { λ c. record { decl = c.decl; comp = c.calls.comp; waiting_handlers = c.calls.waiting_handlers } };

    ghost use Rattle.samoa_calls.specs.Handed.{IsBetween};

    ghost invariant = { λ c. IsBetween c.calls.comp };
}

/// Its active calls, the innermost first, and its waiting calls, the first first, each with all its handlers.
impl Standing for Comp {
    ghost use Rattle.std.specs.Prelude.{map};

    ghost active_handlers = { λ c. map (λ a. a.call.handler) c.active };

    ghost waiting_handlers = { λ c. c.waiting_handlers };

    fn active(&self, at: usize) -> Option<HandlerId> {
        self.calls.active(at)
    }

    fn waiting(&self, at: usize) -> Option<HandlerId> {
        self.calls.waiting(at)
    }
}

impl Comp {
    /// A computation under the declaration of this number, with a budget of 1 to 256 units, or want of memory. All room
    /// that it can need is made.
    pub fn new(alloc: Global, decl: u32, budget: u32) -> Result<Comp, NoMemory>
        requires some { 1 ≤ budget }
        requires few { budget ≤ 256 }
        ensures { IfOk result (λ comp. comp ≡ record { decl = decl; comp = fresh budget; waiting_handlers = [] }) }
    {
        let calls = Calls::new(alloc, budget)?;
        Ok(Comp { decl, calls })
    }

    /// The same as `new` gives, in the memory of a computation that is of no further use, where that is enough.
    pub fn renewed(self, decl: u32, budget: u32) -> Result<Comp, NoMemory>
        requires some { 1 ≤ budget }
        requires few { budget ≤ 256 }
        ensures { IfOk result (λ comp. comp ≡ record { decl = decl; comp = fresh budget; waiting_handlers = [] }) }
    {
        let calls = self.calls.renewed(budget)?;
        Ok(Comp { decl, calls })
    }

    /// The number of its declaration.
    pub fn decl(&self) -> u32
        ensures { result ≡ self.now.decl }
    {
        self.decl
    }

    /// Attempts the root call, of an event with these handlers, of which there are at most four, at microprotocols 0 to
    /// 23, in a new computation. It takes no memory.
    pub fn start(&mut self, decl: &Decl, handlers: &[HandlerId], event: EventId, arg: Words)
        requires few { length handlers.now ≤ 4 }
        requires counted { AreCounted handlers.now }
        requires fresh { self.old.comp ≡ fresh self.old.units }
        ensures started { (table : Table) → resolve table event ≡ handlers.now
            → self.new ≡ record self.old { comp = start (attempts_of decl.now table) self.old.units event arg } }
        ensures none_waits { self.new.waiting ≡ [] }
    {
        self.calls.start(decl, handlers, event, arg);
    }

    /// The microprotocol and the moment of the next handler step, None exactly where nothing is left. It takes no memory.
    pub fn next(&self) -> Option<(MicroId, Moment)>
        ensures next { result ≡ next_moment self.now.comp }
        ensures none { (result ≡ None) ↔ NothingLeft self.now.comp }
        ensures active { IsSome result → (a : Active) × (rest : List Active) × (self.now.active ≡ a ∷ rest) }
    {
        self.calls.next()
    }

    /// The next handler step gave this outcome, which takes effect by the table of the node in that epoch, the same as for
    /// every outcome before; its handlers are at microprotocols 0 to 23. Answers the microprotocol of the handler call that
    /// was completed, None exactly where none was. It takes no memory.
    pub fn take_outcome(
        &mut self,
        decl: &Decl,
        tables: &Tables,
        node: NodeId,
        epoch: u32,
        outcome: Outcome,
    ) -> Option<MicroId>
        requires active { (a : Active) × (rest : List Active) × (self.old.active ≡ a ∷ rest) }
        requires epoch { epoch < length (epochs_of tables.now node) }
        requires counted { IsCounted (table_at tables.now node epoch) }
        requires listed { self.old.waiting_handlers ≡ handlers_of (table_at tables.now node epoch) self.old.waiting }
        requires waiting_named { AreNamed (table_at tables.now node epoch) self.old.waiting }
        requires named { IsNamed (table_at tables.now node epoch) outcome }
        ensures taken { self.new ≡ record self.old {
          comp = take_outcome (attempts_of decl.now (table_at tables.now node epoch)) self.old.comp outcome;
          waiting_handlers = handlers_of (table_at tables.now node epoch) self.new.waiting;
        } }
        ensures ended { (a : Active) (rest : List Active) → self.old.active ≡ a ∷ rest
            → result ≡ ended_at a.call outcome }
        ensures named { AreNamed (table_at tables.now node epoch) self.new.waiting }
    {
        self.calls.take_outcome(decl, tables, node, epoch, outcome)
    }

    /// Whether no call is active and none waits. It takes no memory.
    pub fn is_over(&self) -> bool
        ensures { IsTrue result ↔ ((self.now.active ≡ []) × (self.now.waiting ≡ [])) }
    {
        self.calls.is_over()
    }

    /// How a computation that was started ended, None exactly where something is left. It takes no memory.
    pub fn ending(&self) -> Option<Ending>
        ensures ending { result ≡ ending_of self.now.comp }
        ensures none { IsStarted self.now.comp → (result ≡ None) ↔ (NothingLeft self.now.comp → ⊥) }
    {
        self.calls.ending()
    }

    /// An entry, in the order in which they were made, None exactly past the last of them. It takes no memory.
    pub fn entry(&self, at: usize) -> Option<Entry>
        ensures { result ≡ slice_get self.now.entries at }
    {
        self.calls.entry(at)
    }
}
