//! Parts of the report, as a text in memory.
ghost use Rattle.std.specs.Prelude.{◌≡◌, ◌+◌, ◌-◌, ◌<◌, ◌≤◌, ◌^◌, ◌++◌, length, take, drop, true, Some, All, OnOk, slice_get};
ghost use Rattle.samoa_model.specs.declared.record.Ext.{Ext};
ghost use Rattle.samoa_model.specs.Range.{IsInRange};
ghost use Rattle.samoa_serial.specs.Report.{comp_text, entries_text, node_text, states_text};
ghost use Rattle.samoa_invariant.specs.State.{AllEnded, NothingOut};
ghost use Rattle.samoa_invariant.specs.Runs.{ext_at, served_at, state};
ghost use Rattle.samoa_control.specs.Since.{cleared_comps};
ghost use Rattle.samoa_ledger.specs.Gathering.{Gathers, HasGathered};
ghost use Rattle.samoa_ledger.specs.Written.{AreTotals, Counts, closing_text, later_text, states_of};

use crate::totals::Totals;
use samoa_core::Core;
use samoa_micro::Micro;
use samoa_model::{MicroId, NoMemory, NodeId, Script};
use samoa_net::Net;
use samoa_report::{end_line, entry_line, ext_line, state_line, total_line};

/// Appends the lines of all computations from the first that isn't counted on, counts them, and gathers what they bring
/// the next tick. All have ended, and those weren't cleared away. Where there was no memory, some lines may be missing, and
/// some may be counted and gathered.
pub fn push_comps<B: Micro>(
    script: &Script,
    core: &Core<B>,
    calls: bool,
    text: &mut Vec<u8>,
    totals: &mut Totals,
    net: &mut Net,
) -> Result<(), NoMemory>
    requires in_range { IsInRange script.now }
    requires script { core.now.script ≡ script.now }
    requires all { AllEnded (state core.now) }
    requires kept { cleared_comps core.now ≤ totals.old.comps }
    requires counted { AreTotals script.now (take totals.old.comps core.now.exts) totals.old }
    requires of_tick { All (λ ext. ext.tick ≡ net.old.tick) (drop totals.old.comps core.now.exts) }
    requires gathered { HasGathered script.now (take totals.old.comps core.now.exts) net.old }
    ensures text { OnOk result (text.new.items ≡ text.old.items ++ later_text script.now calls (take totals.old.comps core.now.exts) (drop totals.old.comps core.now.exts)) }
    ensures counted { OnOk result (AreTotals script.now core.now.exts totals.new) }
    ensures gathered { OnOk result (HasGathered script.now core.now.exts net.new) }
    ensures tick { OnOk result (net.new.tick ≡ net.old.tick) }
{
    while totals.comps < core.admitted() {
        let comp = totals.comps + 1;
        push_comp(script, core, comp, calls, text, totals, net)?;
        totals.comps += 1;
    }
    Ok(())
}

/// Appends the lines of a computation that has ended and wasn't cleared away, counts its deliveries and refusals, and
/// gathers what it brings the next tick. The lines of calls are among them where `calls` is given.
/// Where there was no memory, some lines may be missing, and some may be counted and gathered.
fn push_comp<B: Micro>(
    script: &Script,
    core: &Core<B>,
    comp: u32,
    calls: bool,
    text: &mut Vec<u8>,
    totals: &mut Totals,
    net: &mut Net,
) -> Result<(), NoMemory>
    requires in_range { IsInRange script.now }
    requires script { core.now.script ≡ script.now }
    requires kept { cleared_comps core.now < comp }
    requires admitted { comp ≤ length core.now.exts }
    requires ended { (state core.now).ended (comp - 1) ≡ true }
    requires deliveries { totals.old.deliveries + length (served_at core.now comp).world.entries < 2 ^ 64 }
    requires refusals { totals.old.refusals + length (served_at core.now comp).world.entries < 2 ^ 64 }
    requires tick { (ext_at core.now.exts (comp - 1)).tick ≡ net.old.tick }
    requires few_ticks { net.old.tick ≤ script.now.ticks }
    requires next { net.old.comp ≤ comp }
    ensures text { OnOk result ((ext : Ext) → slice_get core.now.exts (comp - 1) ≡ Some ext
        → text.new.items ≡ text.old.items ++ comp_text script.now calls comp ext (served_at core.now comp)) }
    ensures totals { OnOk result (Counts (served_at core.now comp).world.entries totals.old totals.new) }
    ensures gathered { OnOk result (Gathers script.now (ext_at core.now.exts (comp - 1)) (served_at core.now comp).world.entries net.old net.new) }
    ensures comp { OnOk result (net.new.comp ≤ comp) }
{
    let ext = core.ext(comp);
    ext_line(script, comp, &ext, text)?;
    push_entries(script, core, comp, calls, text, totals, net)?;
    let ending = core.ending(comp);
    end_line(comp, &ending, text)
}

/// Appends the lines of its entries, counts these, and gathers what they send and ask for.
fn push_entries<B: Micro>(
    script: &Script,
    core: &Core<B>,
    comp: u32,
    calls: bool,
    text: &mut Vec<u8>,
    totals: &mut Totals,
    net: &mut Net,
) -> Result<(), NoMemory>
    requires in_range { IsInRange script.now }
    requires script { core.now.script ≡ script.now }
    requires kept { cleared_comps core.now < comp }
    requires admitted { comp ≤ length core.now.exts }
    requires ended { (state core.now).ended (comp - 1) ≡ true }
    requires deliveries { totals.old.deliveries + length (served_at core.now comp).world.entries < 2 ^ 64 }
    requires refusals { totals.old.refusals + length (served_at core.now comp).world.entries < 2 ^ 64 }
    requires tick { (ext_at core.now.exts (comp - 1)).tick ≡ net.old.tick }
    requires few_ticks { net.old.tick ≤ script.now.ticks }
    requires next { net.old.comp ≤ comp }
    ensures text { OnOk result (text.new.items ≡ text.old.items ++ entries_text script.now comp calls (served_at core.now comp).world.entries) }
    ensures totals { OnOk result (Counts (served_at core.now comp).world.entries totals.old totals.new) }
    ensures gathered { OnOk result (Gathers script.now (ext_at core.now.exts (comp - 1)) (served_at core.now comp).world.entries net.old net.new) }
    ensures comp { OnOk result (net.new.comp ≤ comp) }
{
    let _admitted = core.admitted();
    let ext = core.ext(comp);
    let mut at = 0;
    while let Some(entry) = core.entry(comp, at) {
        entry_line(script, comp, &entry, calls, text)?;
        totals.count(&entry);
        net.gather(script, comp, ext.node, ext.tick, &entry)?;
        at += 1;
    }
    Ok(())
}

/// Appends what a report ends with: the shown states, node by node, and the line of the totals. All have ended, and nothing
/// is out. Where there was no memory, some may be missing.
pub fn push_closing<B: Micro>(
    script: &Script,
    core: &Core<B>,
    totals: Totals,
    text: &mut Vec<u8>,
) -> Result<(), NoMemory>
    requires script { core.now.script ≡ script.now }
    requires all { AllEnded (state core.now) }
    requires home { NothingOut (state core.now) }
    requires few { length script.now.micros < 2 ^ 32 }
    requires counted { AreTotals script.now core.now.exts totals }
    ensures { OnOk result (text.new.items ≡ text.old.items ++ closing_text script.now core.now.exts) }
{
    push_states(script, core, text)?;
    total_line(totals.comps, totals.deliveries, totals.refusals, text)?;
    Ok(())
}

/// Appends the shown states, node by node.
fn push_states<B: Micro>(
    script: &Script,
    core: &Core<B>,
    text: &mut Vec<u8>,
) -> Result<(), NoMemory>
    requires script { core.now.script ≡ script.now }
    requires all { AllEnded (state core.now) }
    requires home { NothingOut (state core.now) }
    requires few { length script.now.micros < 2 ^ 32 }
    ensures { OnOk result (text.new.items ≡ text.old.items ++ states_text script.now (states_of core.now) script.now.nodes) }
{
    for node in 0..script.nodes {
        push_node(script, core, NodeId(node), text)?;
    }
    Ok(())
}

/// Appends the shown states of a node, in the order of its microprotocols.
fn push_node<B: Micro>(
    script: &Script,
    core: &Core<B>,
    node: NodeId,
    text: &mut Vec<u8>,
) -> Result<(), NoMemory>
    requires script { core.now.script ≡ script.now }
    requires all { AllEnded (state core.now) }
    requires home { NothingOut (state core.now) }
    requires few { length script.now.micros < 2 ^ 32 }
    requires node { node.0 < script.now.nodes }
    ensures { OnOk result (text.new.items ≡ text.old.items ++ node_text script.now (states_of core.now) node.0 (length script.now.micros)) }
{
    for micro in 0..script.micros.len() as u32 {
        let words = core.shown(node, MicroId(micro));
        state_line(script, node, MicroId(micro), &words, text)?;
    }
    Ok(())
}
