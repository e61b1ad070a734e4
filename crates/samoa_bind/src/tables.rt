//! The tables of all nodes.
ghost use Rattle.std.specs.Prelude.{◌≡◌, ◌<◌, ◌≤◌, ◌+◌, All, IfOk, OnErr, OnOk, get_or, length, map};
ghost use Rattle.samoa_model.specs.Scripts.{resolve};
ghost use Rattle.samoa_model.specs.Range.{IsInRange};
ghost use Rattle.samoa_bind.specs.Bound.{epochs_of, table_at, first_tables, lists_of, with_change};
ghost use Rattle.samoa_bind.specs.Histories.{no_row};

use crate::epochs::{Epochs, first_epochs, reserve_each};
use crate::history::Binding;
use crate::lists::BoundList;
use crate::rows::{Row, rows_of_each};
use samoa_model::{ChangeId, EventDef, EventId, HandlerId, Listed, NoMemory, NodeId, Script};
use std::alloc::Global;
use std::marker::Model;

/// The handlers that are bound to each event, at each node in each of its epochs.
///
/// The handlers that each event has at first stand once, and so do the lists of each change. A node keeps, by event, which
/// list of which change was bound in which epoch.
#[derive(Drop)]
pub struct Tables {
    first: Vec<BoundList>,
    changes: Vec<Listed<Row>>,
    nodes: Vec<Epochs>,
    room: u32,
}

impl Model for Tables {
    ghost use Rattle.samoa_bind.specs.Bound.{Bindings};
    ghost use Rattle.samoa_bind.specs.Kept.{IsKept, bindings_in};

    ghost Value = { Bindings };

    ghost view = { bindings_in };

    ghost invariant = { IsKept };
}

impl Tables {
    /// One epoch for each node of the script, with the handlers that its events have, or want of memory.
    pub fn new(alloc: Global, script: &Script) -> Result<Tables, NoMemory>
        requires { IsInRange script.now }
        ensures { IfOk result (λ tables. tables ≡ first_tables script.now) }
    {
        let first = first_lists(alloc, script.events.as_slice())?;
        let changes = rows_of_each(alloc, script.changes.as_slice())?;
        let nodes = first_epochs(alloc, script.nodes, first.len())?;
        Ok(Tables {
            first,
            changes,
            nodes,
            room: 0,
        })
    }

    /// The present epoch of a node of the script, from 0.
    pub fn current(&self, node: NodeId) -> u32
        requires { node.0 < length self.now.epochs }
        ensures { result + 1 ≡ length (epochs_of self.now node) }
    {
        self.nodes[node.0 as usize].last()
    }

    /// Makes room for one change at any node, or answers want of memory. No table changes.
    pub fn reserve(&mut self) -> Result<(), NoMemory>
        ensures ok { OnOk result (self.new ≡ record self.old { room = 1 }) }
        ensures err { OnErr result (self.new ≡ self.old) }
    {
        reserve_each(&mut self.nodes, self.changes.as_slice())?;
        self.room = 1;
        Ok(())
    }

    /// Makes a change at a node, for which there is room. Answers the new epoch, whose table is the last one with the lists
    /// of the change in their places. All older epochs stay, and all other nodes. It takes no memory.
    pub fn rebind(&mut self, node: NodeId, change: ChangeId) -> u32
        requires room { 0 < self.old.room }
        requires node { node.0 < length self.old.epochs }
        requires change { change.0 < length self.old.changes }
        requires few { length (epochs_of self.old node) < 4294967296 }
        ensures epoch { result ≡ length (epochs_of self.old node) }
        ensures tables { self.new ≡ record self.old { epochs = with_change self.old node change; room = 0 } }
    {
        self.room = 0;
        let at = node.0 as usize;
        self.nodes[at].rebind(self.changes.as_slice(), change);
        self.nodes[at].last()
    }

    /// The handlers of an event at a node in an epoch of it, at most four, in the order of their binding. It takes no memory.
    pub fn resolve(&self, node: NodeId, epoch: u32, event: EventId) -> &[HandlerId]
        requires epoch { epoch < length (epochs_of self.now node) }
        requires event { event.0 < length (table_at self.now node epoch) }
        ensures list { result.now ≡ resolve (table_at self.now node epoch) event }
        ensures few { length result.now ≤ 4 }
    {
        match self.nodes[node.0 as usize].find(epoch, event) {
            None => self.first[event.0 as usize].as_slice(),
            Some(binding) => self.row(binding).handlers(),
        }
    }

    /// The row of a change that a binding means.
    fn row(&self, binding: Binding) -> &Row
        requires change { binding.change.0 < length self.now.changes }
        requires row { binding.row < length (lists_of self.now binding.change) }
        ensures { result.now ≡ get_or (lists_of self.now binding.change) binding.row no_row }
    {
        &self.changes[binding.change.0 as usize].as_slice()[binding.row]
    }
}

/// The handlers that each event has at first, or want of memory.
fn first_lists(alloc: Global, events: &[EventDef]) -> Result<Vec<BoundList>, NoMemory>
    requires few { All (λ e. length e.handlers ≤ 4) events.now }
    ensures { IfOk result (λ lists. lists.items ≡ map (λ e. e.handlers) events.now) }
{
    let mut lists = Vec::new(alloc);
    for event in events {
        lists.push(BoundList::of(event.handlers.as_slice()))?;
    }
    Ok(lists)
}
