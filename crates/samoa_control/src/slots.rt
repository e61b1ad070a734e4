//! The slots of all nodes, each with its microprotocol.
ghost use Rattle.std.specs.Prelude.{◌≡◌, ◌+◌, ◌*◌, ◌<◌, ◌≤◌, ◌++◌, map, length, Option, Some, None, is_some, false, IfOk, OnOk, slice_get, set, count_by, if◌then◌else◌};
ghost use Rattle.samoa_model.specs.declared.setup.Kind.{Kind};
ghost use Rattle.samoa_serial.specs.Kinds.{Seen, set_up_as, shown};
ghost use Rattle.samoa_micro.specs.Covers.{Covers, count_of};
ghost use Rattle.samoa_control.specs.Slots.{setup_with, row_of, rows_of};

use crate::tray::Tray;
use samoa_micro::{Micro, Stock};
use samoa_model::{
    CodeDef, Copied, Instr, Kind, Listed, MicroDef, NoMemory, NodeId, Script, Setup, Words,
};
use std::alloc::Global;
use std::marker::Model;

/// One slot for each microprotocol of each node, node by node.
#[derive(Drop)]
pub(crate) struct Slots<B: Micro> {
    micros: usize,
    boxes: Vec<Option<Tray<B>>>,
}

impl<B: Micro> Model for Slots<B> {
    ghost use Rattle.samoa_control.specs.Slots.{Slotted};

    ghost Value = { Slotted };

    ghost view = { λ s. record { micros = s.micros; boxes = s.boxes.items } };
}

impl<B: Micro> Slots<B> {
    /// Draws the microprotocols of each node from the stock, and sets them up.
    pub(crate) fn set_up(
        alloc: Global,
        script: &Script,
        stock: Stock<B>,
    ) -> Result<Slots<B>, NoMemory>
        requires { Covers script.now stock }
        ensures { IfOk result (λ slots. slots ≡ record { micros = length script.now.micros; boxes = rows_of script.now script.now.nodes }) }
    {
        let mut stock = stock;
        let mut boxes = Vec::new(alloc);
        for node in 0..script.nodes {
            fill_node(alloc, script, NodeId(node), &mut stock, &mut boxes)?;
        }
        Ok(Slots {
            micros: script.micros.len(),
            boxes,
        })
    }

    /// Takes the microprotocol of a slot out.
    pub(crate) fn take(&mut self, node: NodeId, micro: u32) -> Tray<B>
        requires { (seen : Seen) × (slice_get self.old.boxes (node.0 * self.old.micros + micro) ≡ Some (Some seen)) }
        ensures held { slice_get self.old.boxes (node.0 * self.old.micros + micro) ≡ Some (Some result) }
        ensures out { self.new ≡ record self.old { boxes = set self.old.boxes (node.0 * self.old.micros + micro) None } }
    {
        let slot = node.0 as usize * self.micros + micro as usize;
        self.boxes[slot].take().unwrap()
    }

    /// Puts a microprotocol into its slot.
    pub(crate) fn put(&mut self, node: NodeId, micro: u32, held: Tray<B>)
        requires { node.0 * self.old.micros + micro < length self.old.boxes }
        ensures { self.new ≡ record self.old { boxes = set self.old.boxes (node.0 * self.old.micros + micro) (Some held) } }
    {
        let slot = node.0 as usize * self.micros + micro as usize;
        self.boxes[slot] = Some(held);
    }

    /// Whether the microprotocol of a slot is there.
    pub(crate) fn is_home(&self, node: NodeId, micro: u32) -> bool
        requires { node.0 * self.now.micros + micro < length self.now.boxes }
        ensures { (slot : Option Seen) → slice_get self.now.boxes (node.0 * self.now.micros + micro) ≡ Some slot → result ≡ is_some slot }
    {
        let slot = node.0 as usize * self.micros + micro as usize;
        self.boxes[slot].is_some()
    }

    /// What the microprotocol of a slot shows.
    pub(crate) fn show(&self, node: NodeId, micro: u32) -> Words
        requires { (seen : Seen) × (seen.fresh ≡ false) × (slice_get self.now.boxes (node.0 * self.now.micros + micro) ≡ Some (Some seen)) }
        ensures { (seen : Seen) → slice_get self.now.boxes (node.0 * self.now.micros + micro) ≡ Some (Some seen) → result ≡ shown seen.kind seen.state }
    {
        let slot = node.0 as usize * self.micros + micro as usize;
        match &self.boxes[slot] {
            Some(held) => held.show(),
            None => unreachable!(),
        }
    }
}

/// Fills the slots of one more node.
fn fill_node<B: Micro>(
    alloc: Global,
    script: &Script,
    node: NodeId,
    stock: &mut Stock<B>,
    boxes: &mut Vec<Option<Tray<B>>>,
) -> Result<(), NoMemory>
    requires { (kind : Kind) → count_by (λ micro. ⟦<Kind as PartialEq>⟧.eq micro.kind kind) script.now.micros ≤ count_of stock.old kind }
    ensures filled { OnOk result (boxes.new.items ≡ boxes.old.items ++ row_of script.now node.0) }
    ensures counts { OnOk result ((kind : Kind) → count_of stock.old kind ≡ count_of stock.new kind + count_by (λ micro. ⟦<Kind as PartialEq>⟧.eq micro.kind kind) script.now.micros) }
{
    for micro in script.micros.as_slice() {
        let setup = setup_with(alloc, script, node, micro)?;
        boxes.push(Some(drawn(alloc, stock, micro.kind, &setup)?))?;
    }
    Ok(())
}

/// Draws a microprotocol of a kind, and sets it up.
fn drawn<B: Micro>(
    alloc: Global,
    stock: &mut Stock<B>,
    kind: Kind,
    setup: &Setup,
) -> Result<Tray<B>, NoMemory>
    requires { 0 < count_of stock.old kind }
    ensures held { IfOk result (λ held. held ≡ set_up_as kind setup.now) }
    ensures counts { (other : Kind) → count_of stock.old other ≡ count_of stock.new other + (if ⟦<Kind as PartialEq>⟧.eq kind other then 1 else 0) }
{
    let mut held = Tray::new(alloc, stock.draw(kind).unwrap())?;
    held.set_up(alloc, setup)?;
    Ok(held)
}

/// What a microprotocol is set up with at a node.
fn setup_with(
    alloc: Global,
    script: &Script,
    node: NodeId,
    micro: &MicroDef,
) -> Result<Setup, NoMemory>
    ensures { IfOk result (λ setup. setup ≡ setup_with script.now node.0 micro.now) }
{
    let ports = micro.ports.copied(alloc)?;
    let changes = micro.changes.copied(alloc)?;
    let codes = codes_of(alloc, micro.handlers.as_slice())?;
    Ok(Setup {
        node,
        nodes: script.nodes,
        ports,
        changes,
        nums: micro.nums,
        codes,
    })
}

/// The code of each handler.
fn codes_of(alloc: Global, handlers: &[CodeDef]) -> Result<Listed<Listed<Instr>>, NoMemory>
    ensures { IfOk result (λ codes. codes ≡ map (λ c. c.code) handlers.now) }
{
    let mut codes = Vec::new(alloc);
    for handler in handlers {
        codes.push(handler.code.copied(alloc)?)?;
    }
    Ok(Listed::from_vec(codes))
}
