//! Admissions: a computation comes last in the queue of each microprotocol that it declares.
ghost use Rattle.std.specs.Prelude.{◌≡◌, ◌<◌, ◌≤◌, ◌+◌, length, IfOk, IfErr, OnOk, OnErr};
ghost use Rattle.samoa_model.specs.Cells.{cells_of as computation_cells};
ghost use Rattle.samoa_model.specs.Range.{IsExtOf};
ghost use Rattle.samoa_invariant.specs.Index as queues;
ghost use Rattle.samoa_invariant.specs.Runs.{state};
ghost use Rattle.samoa_control.specs.Admission.{admitted, most_admitted};
ghost use Rattle.samoa_control.specs.Later.{IsStill};
ghost use Rattle.samoa_control.specs.Since.{cleared_comps};
ghost use Rattle.samoa_core.specs.Rows.{IsSized};
ghost use Rattle.samoa_core.specs.Indexed.{IsIndexedBy};
ghost use Rattle.samoa_core.specs.Joining.{CanJoin, HasAdmitted, HasRowFor, Joins, TailsWithin, WasKeptFor};

use crate::index::{Index, place};
use crate::keeping::take_note;
use samoa_control::Control;
use samoa_micro::Micro;
use samoa_model::{Ext, NoMemory};
use std::alloc::Global;

/// Admits a computation, or answers want of memory, and the control is as it was.
pub(crate) fn admit<B: Micro>(
    control: &mut Control<B>,
    index: &mut Index,
    alloc: Global,
    ext: Ext,
) -> Result<u32, (Ext, NoMemory)>
    requires indexed { IsIndexedBy control.old index.old }
    requires fits { (state control.old).cells + computation_cells control.old.script ext ≤ control.old.cells }
    requires few { length control.old.exts < most_admitted }
    requires known { IsExtOf control.old.script ext }
    ensures number { IfOk result (λ comp. comp ≡ length control.old.exts + 1) }
    ensures step { OnOk result (control.new ≡ admitted control.old ext) }
    ensures still { OnOk result (IsStill (state control.old) control.new) }
    ensures cleared { cleared_comps control.new ≡ cleared_comps control.old }
    ensures back { IfErr result (λ e. e.0 ≡ ext) }
    ensures err { OnErr result (control.new ≡ control.old) }
    ensures indexed { IsIndexedBy control.new index.new }
{
    control.recall();
    let rows = control.admitted() + 1 - control.cleared();
    match index.grow(rows) {
        Ok(()) => {}
        Err(fault) => return Err((ext, fault)),
    }
    let comp = control.admit(alloc, ext)?;
    control.recall();
    take_up(control, index, comp);
    Ok(comp)
}

/// Puts a computation that was just admitted into the index.
fn take_up<B: Micro>(control: &Control<B>, index: &mut Index, comp: u32)
    requires kept { cleared_comps control.now < comp }
    requires last { comp ≡ length control.now.exts }
    requires row { HasRowFor control.now index.old }
    ensures { (g : queues.Index) → WasKeptFor control.now index.old g → TailsWithin control.now g → HasAdmitted control.now index.new g }
{
    control.recall();
    let at = place(comp, control.cleared());
    index.blank(at);
    join_queues(control, index, comp);
    take_note(control, index, comp);
}

/// Puts a computation that was just admitted at the end of its queues.
fn join_queues<B: Micro>(control: &Control<B>, index: &mut Index, comp: u32)
    requires kept { cleared_comps control.now < comp }
    requires last { comp ≡ length control.now.exts }
    requires can { CanJoin control.now index.old 0 }
    ensures joins { (g : queues.Index) → TailsWithin control.now g → Joins control.now index.old g 0 → Joins control.now index.new g (length control.now.script.micros) }
    ensures sized { IsSized index.new }
{
    control.recall();
    let micros = control.micros();
    let mut micro = 0;
    while micro < micros {
        join(control, index, comp, micro);
        micro += 1;
    }
}

/// Puts it at the end of the queue of a microprotocol, if it declares that.
fn join<B: Micro>(control: &Control<B>, index: &mut Index, comp: u32, micro: u32)
    requires kept { cleared_comps control.now < comp }
    requires last { comp ≡ length control.now.exts }
    requires within { micro < length control.now.script.micros }
    requires can { CanJoin control.now index.old micro }
    ensures { (g : queues.Index) → TailsWithin control.now g → Joins control.now index.old g micro → Joins control.now index.new g (micro + 1) }
{
    control.recall();
    if control.declares(comp, micro) {
        let slot = control.slot(comp, micro);
        index.link(slot, micro, comp - 1, control.cleared());
    }
}
