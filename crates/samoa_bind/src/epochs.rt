//! The tables of one node.
ghost use Rattle.std.specs.Prelude.{◌≡◌, ℕ, ◌<◌, ◌≤◌, ◌+◌, ◌∷◌, [], ◌++◌, All, IfOk, OnOk, None, get_or, length};
ghost use Rattle.samoa_model.specs.declared.script.TableDef.{TableDef};
ghost use Rattle.samoa_model.specs.Scripts.{Table, rebound};
ghost use Rattle.samoa_bind.specs.declared.epochs.Epochs.{Epochs};
ghost use Rattle.samoa_bind.specs.Histories.{found_after, no_past, table_in};
ghost use Rattle.samoa_bind.specs.Kept.{AreRows, HasRoom, IsFirst, IsNode, IsRoomier, histories_of, tables_of};

use crate::history::{Binding, History};
use crate::rows::Row;
use samoa_model::{ChangeId, EventId, Listed, NoMemory};
use std::alloc::Global;

/// The last epoch of a node, and what was bound to each event after the first table.
#[derive(Drop)]
pub(crate) struct Epochs {
    last: u32,
    histories: Vec<History>,
}

impl Epochs {
    /// One epoch, in which nothing was bound, or want of memory.
    pub(crate) fn new(alloc: Global, events: usize) -> Result<Epochs, NoMemory>
        ensures { IfOk result (λ node. IsFirst events node) }
    {
        let mut histories = Vec::new(alloc);
        for _event in 0..events {
            histories.push(History::new(alloc))?;
        }
        Ok(Epochs { last: 0, histories })
    }

    pub(crate) fn last(&self) -> u32
        ensures { result ≡ self.now.last }
    {
        self.last
    }

    /// What is bound to an event in an epoch, None where it still has its first handlers.
    pub(crate) fn find(&self, epoch: u32, event: EventId) -> Option<Binding>
        requires { event.0 < length self.now.histories.items }
        ensures { result ≡ found_after epoch None (get_or self.now.histories.items event.0 no_past).bindings }
    {
        self.histories[event.0 as usize].find(epoch)
    }

    /// Makes room for any one of these changes, or answers want of memory.
    pub(crate) fn reserve(&mut self, changes: &[Listed<Row>]) -> Result<(), NoMemory>
        requires { AreRows (length self.old.histories.items) changes.now }
        ensures roomier { IsRoomier self.old self.new }
        ensures room { OnOk result (HasRoom changes.now self.new) }
    {
        for rows in changes {
            self.reserve_rows(rows.as_slice())?;
        }
        Ok(())
    }

    fn reserve_rows(&mut self, rows: &[Row]) -> Result<(), NoMemory>
        requires { All (λ (row : TableDef). row.event.0 < length self.old.histories.items) rows.now }
        ensures roomier { IsRoomier self.old self.new }
        ensures room { OnOk result (All (λ (row : TableDef). length rows.now ≤ (get_or self.new.histories.items row.event.0 no_past).room) rows.now) }
    {
        for row in rows {
            self.histories[row.event().0 as usize].reserve(rows.len())?;
        }
        Ok(())
    }

    /// One more epoch, in which the lists of a change are bound, for which there is room.
    pub(crate) fn rebind(&mut self, changes: &[Listed<Row>], change: ChangeId)
        requires rows { AreRows (length self.old.histories.items) changes.now }
        requires change { change.0 < length changes.now }
        requires last { self.old.last < 4294967295 }
        requires node { IsNode (length self.old.histories.items) changes.now 1 self.old }
        ensures last { self.new.last ≡ self.old.last + 1 }
        ensures node { IsNode (length self.old.histories.items) changes.now 0 self.new }
        ensures tables { (first : Table) → length first ≡ length self.old.histories.items
            → tables_of changes.now first self.new ≡ tables_of changes.now first self.old
            ++ rebound (get_or changes.now change.0 []) (table_in changes.now self.old.last first (histories_of self.old)) ∷ [] }
    {
        let rows = changes[change.0 as usize].as_slice();
        let epoch = self.last + 1;
        for row in 0..rows.len() {
            let event = rows[row].event();
            let binding = Binding { epoch, change, row };
            self.histories[event.0 as usize].bind(binding);
        }
        self.last = epoch;
    }
}

/// So many nodes, each with one epoch, or want of memory.
pub(crate) fn first_epochs(
    alloc: Global,
    nodes: u32,
    events: usize,
) -> Result<Vec<Epochs>, NoMemory>
    ensures count { IfOk result (λ epochs. length epochs.items ≡ nodes) }
    ensures each { IfOk result (λ epochs. All (λ (node : Epochs). IsFirst events node) epochs.items) }
{
    let mut epochs = Vec::new(alloc);
    for _node in 0..nodes {
        epochs.push(Epochs::new(alloc, events)?)?;
    }
    Ok(epochs)
}

/// Makes room at each node for any one of these changes, or answers want of memory.
pub(crate) fn reserve_each(nodes: &mut Vec<Epochs>, changes: &[Listed<Row>]) -> Result<(), NoMemory>
    requires { All (λ (node : Epochs). AreRows (length node.histories.items) changes.now) nodes.old.items }
    ensures count { length nodes.new.items ≡ length nodes.old.items }
    ensures roomier { (node : ℕ) (none : Epochs) → IsRoomier (get_or nodes.old.items node none) (get_or nodes.new.items node none) }
    ensures room { OnOk result (All (HasRoom changes.now) nodes.new.items) }
{
    for node in 0..nodes.len() {
        nodes[node].reserve(changes)?;
    }
    Ok(())
}
