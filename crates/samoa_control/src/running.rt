//! Computations that were admitted since the last clear.
ghost use Rattle.std.specs.Prelude.{◌≡◌, ◌↔◌, ◌⊎◌, ℕ, ◌<◌, ◌≤◌, IsTrue, List, ◌∷◌, length, set, slice_get, true};
ghost use Rattle.samoa_model.specs.Range.{IsInRange};
ghost use Rattle.samoa_model.specs.Scripts.{decl_at};
ghost use Rattle.samoa_bind.specs.Bound.{table_at};
ghost use Rattle.samoa_calls.specs.Handed.{AreNamed, ended_at};
ghost use Rattle.samoa_serial.specs.declared.call.Active.{Active};
ghost use Rattle.samoa_versions.specs.Counters.{Counters};
ghost use Rattle.samoa_control.specs.declared.running.Running.{Running};
ghost use Rattle.samoa_control.specs.Leaving.{TakesOutcome, taken};
ghost use Rattle.samoa_control.specs.Forms.{risen};

use crate::forms::raise;
use crate::parts::decl_in;
use samoa_bind::Tables;
use samoa_calls::Comp;
use samoa_model::{NodeId, Outcome, Script};
use samoa_versions::Versions;

/// The local versions of a slot at which it is a computation's turn there: from the one on, up to before the other.
#[derive(Clone, Copy)]
pub(crate) struct Interval {
    pub(crate) from: u64,
    pub(crate) to: u64,
}

impl Interval {
    /// Whether a local version is below its end.
    pub(crate) fn is_above(self, local: u64) -> bool
        ensures { IsTrue result ↔ (local < self.to) }
    {
        local < self.to
    }

    /// Whether it isn't empty.
    pub(crate) fn is_some(self) -> bool
        ensures { IsTrue result ↔ (self.from < self.to) }
    {
        self.from < self.to
    }

    /// Whether it is empty, or a local version is past it.
    pub(crate) fn is_over(self, local: u64) -> bool
        ensures { IsTrue result ↔ ((self.to ≤ self.from) ⊎ (self.to ≤ local)) }
    {
        self.to <= self.from || self.to <= local
    }
}

/// A computation: its node, the epoch of its table, its turns by microprotocol, its calls, and whether it has ended.
#[derive(Drop)]
pub(crate) struct Running {
    pub(crate) node: NodeId,
    pub(crate) epoch: u32,
    pub(crate) turns: Vec<Interval>,
    pub(crate) calls: Comp,
    pub(crate) ended: bool,
}

impl Running {
    /// Its turn at a microprotocol.
    pub(crate) fn turn(&self, micro: u32) -> Interval
        requires { micro < length self.now.turns.items }
        ensures { slice_get self.now.turns.items micro ≡ Some result }
    {
        self.turns[micro as usize]
    }

    pub(crate) fn end(&mut self)
        ensures { self.new ≡ record self.old { ended = true } }
    {
        self.ended = true;
    }

    /// Its calls take the outcome of its handler step, and where this completes a call of a bound, the local version
    /// there rises.
    fn take_outcome(
        &mut self,
        script: &Script,
        tables: &Tables,
        versions: &mut Versions,
        outcome: Outcome,
    )
        requires in_range { IsInRange script.now }
        requires takes { TakesOutcome script.now tables.now versions.old self.old outcome }
        ensures taken { self.new ≡ taken script.now tables.now self.old outcome }
        ensures named { AreNamed (table_at tables.now self.old.node self.old.epoch) (taken script.now tables.now self.old outcome).calls.comp.waiting }
        ensures lv { (a : Active) (rest : List Active) → self.old.calls.comp.active ≡ a ∷ rest
            → versions.new.lv ≡ risen (decl_at script.now self.old.calls.decl).decl (length script.now.micros) self.old.node.0 (ended_at a.call outcome) versions.old.lv }
        ensures gv { versions.new.gv ≡ versions.old.gv }
    {
        let decl = &decl_in(script, self.calls.decl()).decl;
        let completed = self
            .calls
            .take_outcome(decl, tables, self.node, self.epoch, outcome);
        raise(decl, script.micros.len(), self.node, completed, versions);
    }
}

/// The computation at a place has ended.
pub(crate) fn end_at(running: &mut Vec<Running>, at: usize)
    requires { at < length running.old.items }
    ensures { (r : Running) → slice_get running.old.items at ≡ Some r
        → running.new.items ≡ set running.old.items at (record r { ended = true }) }
{
    running[at].end();
}

/// The computation at a place takes the outcome of its handler step.
pub(crate) fn take_outcome_at(
    running: &mut Vec<Running>,
    at: usize,
    script: &Script,
    tables: &Tables,
    versions: &mut Versions,
    outcome: Outcome,
)
    requires in_range { IsInRange script.now }
    requires takes { (r : Running) × (slice_get running.old.items at ≡ Some r) × TakesOutcome script.now tables.now versions.old r outcome }
    ensures taken { (r : Running) → slice_get running.old.items at ≡ Some r
        → running.new.items ≡ set running.old.items at (taken script.now tables.now r outcome) }
    ensures named { (r : Running) → slice_get running.old.items at ≡ Some r
        → AreNamed (table_at tables.now r.node r.epoch) (taken script.now tables.now r outcome).calls.comp.waiting }
    ensures lv { (r : Running) (a : Active) (rest : List Active) → slice_get running.old.items at ≡ Some r → r.calls.comp.active ≡ a ∷ rest
        → versions.new.lv ≡ risen (decl_at script.now r.calls.decl).decl (length script.now.micros) r.node.0 (ended_at a.call outcome) versions.old.lv }
    ensures gv { versions.new.gv ≡ versions.old.gv }
{
    running[at].take_outcome(script, tables, versions, outcome);
}
