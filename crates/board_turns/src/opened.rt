//! From a script to a core in which its items are admitted.
ghost use Rattle.std.specs.Prelude.{◌≡◌, ◌<◌, ◌≤◌, [], true, All, IfOk, OnOk};
ghost use Rattle.std.specs.Bool.{OnTrue};
ghost use Rattle.samoa_model.specs.Cells.{need as cells_needed};
ghost use Rattle.samoa_model.specs.Range.{IsCauseOf, IsInRange};
ghost use Rattle.samoa_micro.specs.Covers.{Covers};
ghost use Rattle.samoa_invariant.specs.State as model;
ghost use Rattle.samoa_invariant.specs.Runs.{play, state};
ghost use Rattle.samoa_control.specs.Later.{IsStill};

use samoa_core::Core;
use samoa_micro::{Micro, Stock};
use samoa_model::{DoDef, Ext, NoMemory, Script};
use samoa_print::need;
use samoa_prog::Prog;
use std::alloc::Global;

/// How many cells the core has.
const CELLS: u32 = 1_048_576;

/// As many microprotocols as a script can have at all nodes.
const MOST_BOXES: usize = 192;

/// Why a script isn't run.
#[derive(Clone, Copy, Debug, PartialEq, Eq)]
pub enum Fault {
    /// It has a microprotocol that isn't scripted.
    Unfit,
    /// Its items hold more cells than there are.
    TooMany,
    Memory,
}

impl From<NoMemory> for Fault {
    fn from(_fault: NoMemory) -> Fault {
        Fault::Memory
    }
}

/// A core in which all items of a script are admitted together, in script order and whatever their ticks.
pub fn opened(alloc: Global, script: &Script) -> Result<Core<Prog>, Fault>
    requires { IsInRange script.now }
    ensures clears { IfOk result (λ core. core.clears ≡ []) }
    ensures settled { IfOk result (λ core. model.IsSettled (play core) (state core)) }
    ensures home { IfOk result (λ core. model.NothingOut (state core)) }
{
    let stock = Stock::new(boxes(alloc)?);
    if !can_run(script, &stock) {
        return Err(Fault::Unfit);
    }
    let mut core = Core::new(alloc, script, stock, CELLS)?;
    for item in script.does.as_slice() {
        admit(alloc, &mut core, item)?;
    }
    core.settle();
    Ok(core)
}

/// As many scripted microprotocols as a script can take.
fn boxes(alloc: Global) -> Result<Vec<Prog>, NoMemory>
    ensures { IfOk result (λ boxes. All (λ b. (⟦<Prog as Micro>⟧.seen b).fresh ≡ true) boxes.items) }
{
    let mut boxes = Vec::new(alloc);
    while boxes.len() < MOST_BOXES {
        boxes.push(Prog::new(alloc))?;
    }
    Ok(boxes)
}

/// Whether the stock is enough for a script, and a computation of it has room.
fn can_run<B: Micro>(script: &Script, stock: &Stock<B>) -> bool
    requires { IsInRange script.now }
    ensures covers { OnTrue result (Covers script.now stock.now) }
    ensures cells { OnTrue result (cells_needed script.now ≤ CELLS) }
{
    if !stock.covers(script) {
        return false;
    }
    need(script) <= CELLS
}

/// Admits an item of the script, where its cells are free.
fn admit<B: Micro>(alloc: Global, core: &mut Core<B>, item: &DoDef) -> Result<(), Fault>
    requires node { item.now.node.0 < core.old.script.nodes }
    requires cause { IsCauseOf core.old.script item.now.cause }
    ensures script { OnOk result (core.new.script ≡ core.old.script) }
    ensures clears { OnOk result (core.new.clears ≡ core.old.clears) }
    ensures still { OnOk result (IsStill (state core.old) core.new) }
{
    let ext = Ext {
        node: item.node,
        tick: item.tick,
        cause: item.cause,
        args: item.args,
    };
    if !core.fits(&ext) || core.admitted() >= 100_000 {
        return Err(Fault::TooMany);
    }
    match core.admit(alloc, ext) {
        Ok(_) => Ok(()),
        Err((_ext, fault)) => Err(fault.into()),
    }
}
