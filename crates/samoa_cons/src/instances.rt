//! The instances that a node is in, and what was decided.
ghost use Rattle.std.specs.Prelude.{◌≡◌, OnOk, OnErr, Some, None, [], find, length, max};
ghost use Rattle.std.specs.Ordering.{nat_cmp};
ghost use Rattle.std.specs.BTreeMap.{insert_entry};
ghost use Rattle.samoa_serial.specs.Rows.{message_of};
ghost use Rattle.samoa_serial.specs.ConsTable.{instance_of, waits_for, greatest_round};
ghost use Rattle.samoa_cons.specs.Known.{bound_after, entry_at};

use crate::letter::coordinator;
use samoa_model::{NoMemory, Setup};
use samoa_serial::{Instance, Message};
use std::alloc::Global;
use std::collections::{BTreeMap, BTreeSet};
use std::marker::Model;
use std::ops::Bound;

/// The instances that a node is in, and what was decided. Beside them stand the numbers of those that are entered and
/// undecided, so that a search for one that waits passes over no decided one. A number stays there where memory failed
/// as its instance was to be entered.
#[derive(Drop)]
pub struct Instances {
    entered: BTreeMap<u64, Instance>,
    decisions: BTreeMap<u64, Message>,
    undecided: BTreeSet<u64>,
}

impl Model for Instances {
    ghost use Rattle.samoa_cons.specs.Known.{Known, IsIndexed};

    ghost Value = { Known };

    ghost view = { λ s. record { instances = s.entered.entries; decisions = s.decisions.entries } };

    ghost invariant = { λ s. IsIndexed s.entered.entries s.decisions.entries s.undecided.keys };
}

impl Instances {
    /// None, and nothing decided. It takes no memory.
    pub fn new(alloc: Global) -> Instances
        ensures { result ≡ record { instances = []; decisions = [] } }
    {
        Instances {
            entered: BTreeMap::new(alloc),
            decisions: BTreeMap::new(alloc),
            undecided: BTreeSet::new(alloc),
        }
    }

    /// How many were decided.
    pub fn decided(&self) -> usize
        ensures { result ≡ length self.now.decisions }
    {
        self.decisions.len()
    }

    /// The instance of a number, where this node is in it.
    pub fn get(&self, at: u64) -> Option<Instance>
        ensures { result ≡ instance_of self.now.instances at }
    {
        self.entered.get(&at).copied()
    }

    /// What was decided in an instance.
    pub fn decision(&self, at: u64) -> Option<Message>
        ensures { result ≡ message_of self.now.decisions at }
    {
        self.decisions.get(&at).copied()
    }

    /// An instance is so from now on.
    pub fn put(&mut self, at: u64, instance: Instance) -> Result<(), NoMemory>
        ensures ok { OnOk result (self.new ≡ record self.old { instances = insert_entry nat_cmp self.old.instances at instance }) }
        ensures err { OnErr result (self.new ≡ self.old) }
    {
        if self.decision(at).is_none() {
            self.undecided.insert(at)?;
        }
        self.entered.insert(at, instance)?;
        Ok(())
    }

    /// Decides an instance that has no decision yet.
    pub fn decide(&mut self, at: u64, message: Message) -> Result<(), NoMemory>
        requires { message_of self.old.decisions at ≡ None }
        ensures ok { OnOk result (self.new ≡ record self.old { decisions = insert_entry nat_cmp self.old.decisions at message }) }
        ensures err { OnErr result (self.new ≡ self.old) }
    {
        self.decisions.insert(at, message)?;
        self.undecided.remove(&at);
        Ok(())
    }

    /// The first instance after one that is undecided and waits for a node.
    pub fn first_waiting(
        &self,
        setup: &Setup,
        node: u64,
        after: Option<u64>,
    ) -> Option<(u64, Instance)>
        ensures { result ≡ find (waits_for setup.now self.now.decisions node after) self.now.instances }
    {
        for at in self.undecided.range((start_after(after), Bound::Unbounded)) {
            if let Some(entry) = self.waiting(setup, node, *at) {
                return Some(entry);
            }
        }
        None
    }

    /// The instance of a number, where this node is in it and it is undecided and waits for a node.
    fn waiting(&self, setup: &Setup, node: u64, at: u64) -> Option<(u64, Instance)>
        ensures { result ≡ entry_at (waits_for setup.now self.now.decisions node None) self.now.instances at }
    {
        let instance = self.get(at)?;
        if self.decision(at).is_none() && coordinator(setup, instance.round) == node {
            Some((at, instance))
        } else {
            None
        }
    }

    /// The greatest round of an instance, 0 where there is none.
    pub fn greatest_round(&self) -> u64
        ensures { result ≡ greatest_round self.now.instances }
    {
        let mut most = 0;
        for (_, instance) in &self.entered {
            most = most.max(instance.round);
        }
        most
    }
}

/// Where what comes after an instance starts.
fn start_after(after: Option<u64>) -> Bound<u64>
    ensures { result ≡ bound_after after }
{
    match after {
        None => Bound::Unbounded,
        Some(x) => Bound::Excluded(x),
    }
}
