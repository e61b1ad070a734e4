//! A part of a tick: what is admitted together is run to its end.
ghost use Rattle.std.specs.Prelude.{◌≡◌, ◌+◌, ◌<◌, ◌≤◌, ◌∷◌, [], length, take, slice_get, Some, All, IfOk, IfSome, IfNone, OnOk};
ghost use Rattle.samoa_model.specs.declared.record.Ext.{Ext};
ghost use Rattle.samoa_model.specs.Cells.{cells_of, need};
ghost use Rattle.samoa_model.specs.Range.{IsExtOf};
ghost use Rattle.samoa_invariant.specs.State.{AllEnded, NothingOut};
ghost use Rattle.samoa_invariant.specs.Runs.{state};
ghost use Rattle.samoa_control.specs.Later.{IsLater};
ghost use Rattle.samoa_control.specs.Since.{cleared_comps};
ghost use Rattle.samoa_ticks.specs.Running.{HasOpened};

use samoa_core::Core;
use samoa_micro::Micro;
use samoa_model::{Ext, NoMemory};
use samoa_workers::{Batch, Gate, drain, drain_behind, run_batch};
use std::alloc::Global;
use std::marker::Send;
use std::sync::Wait;
use std::thread::Threads;

/// Admits the first of these, as many as have room together, and at most so many. Answers how many: at least
/// one, since the core holds no cells. Where there was no memory, some may be admitted.
pub fn admit_part<B: Micro>(
    alloc: Global,
    core: &mut Core<B>,
    exts: &[Ext],
    most: usize,
) -> Result<usize, NoMemory>
    requires some { 0 < most }
    requires within { most ≤ length exts.now }
    requires named { All (IsExtOf core.old.script) exts.now }
    requires few { length core.old.exts + length exts.now ≤ 100000 }
    requires none_held { (state core.old).cells ≡ 0 }
    requires room { need core.old.script ≤ core.old.cells }
    ensures some { IfOk result (λ count. 0 < count) }
    ensures most { IfOk result (λ count. count ≤ most) }
    ensures opened { IfOk result (λ count. HasOpened core.old (take count exts.now) core.new) }
    ensures held { OnOk result (0 < (state core.new).cells) }
    ensures longest { IfOk result (λ count. (ext : Ext) → count < most → slice_get exts.now count ≡ Some ext
        → core.new.cells < (state core.new).cells + cells_of core.new.script ext) }
{
    let mut count = 0;
    while let Some(ext) = next_fitting(core, exts, count, most) {
        admit(alloc, core, ext)?;
        count += 1;
    }
    Ok(count)
}

/// The admission at this place, where it is among so many and has room beside what is open.
fn next_fitting<B: Micro>(core: &Core<B>, exts: &[Ext], at: usize, most: usize) -> Option<Ext>
    requires at { at ≤ most }
    requires within { most ≤ length exts.now }
    requires named { All (IsExtOf core.now.script) exts.now }
    ensures more { IfSome result (λ ext. at < most) }
    ensures item { IfSome result (λ ext. slice_get exts.now at ≡ Some ext) }
    ensures named { IfSome result (λ ext. IsExtOf core.now.script ext) }
    ensures fits { IfSome result (λ ext. (state core.now).cells + cells_of core.now.script ext ≤ core.now.cells) }
    ensures none { IfNone result ((ext : Ext) → at < most → slice_get exts.now at ≡ Some ext
        → core.now.cells < (state core.now).cells + cells_of core.now.script ext) }
{
    if at == most {
        return None;
    }
    let ext = exts[at];
    if core.fits(&ext) { Some(ext) } else { None }
}

/// Admits one computation, which has room.
fn admit<B: Micro>(alloc: Global, core: &mut Core<B>, ext: Ext) -> Result<(), NoMemory>
    requires fits { (state core.old).cells + cells_of core.old.script ext ≤ core.old.cells }
    requires few { length core.old.exts < 100000 }
    requires named { IsExtOf core.old.script ext }
    ensures opened { OnOk result (HasOpened core.old (ext ∷ []) core.new) }
    ensures held { OnOk result (0 < (state core.new).cells) }
{
    let _admitted = core.admitted();
    match core.admit(alloc, ext) {
        Ok(_) => Ok(()),
        Err((_, fault)) => Err(fault),
    }
}

/// Runs what was admitted to its end, on the calling thread. Where there was no memory, a computation may stay open for
/// good.
pub fn run_to_end<B: Micro>(alloc: Global, core: &mut Core<B>) -> Result<(), NoMemory>
    requires home { NothingOut (state core.old) }
    ensures all { OnOk result (AllEnded (state core.new)) }
    ensures home { NothingOut (state core.new) }
    ensures later { IsLater core.old core.new }
    ensures cleared { cleared_comps core.new ≡ cleared_comps core.old }
    ensures held { (state core.old).cells ≤ (state core.new).cells }
{
    let _admitted = core.admitted();
    core.settle();
    ended(drain(alloc, core))
}

/// The same by workers behind a gate, each on a thread of its own; one works on the calling thread.
pub fn work_to_end<B: Micro + Send, G: Gate + Sync, R: Threads + Wait + Sync>(
    rt: &R,
    alloc: Global,
    core: Core<B>,
    workers: u32,
    gate: &G,
) -> (Core<B>, Result<(), NoMemory>)
    requires some { 1 ≤ workers }
    requires few { workers ≤ 64 }
    requires home { NothingOut (state core) }
    ensures all { OnOk result.1 (AllEnded (state result.0)) }
    ensures home { NothingOut (state result.0) }
    ensures later { IsLater core result.0 }
    ensures cleared { cleared_comps result.0 ≡ cleared_comps core }
    ensures held { (state core).cells ≤ (state result.0).cells }
{
    let mut core = core;
    let _admitted = core.admitted();
    core.settle();
    // Each handing on of a core by value is a copy of it.
    if workers == 1 {
        let batch = drain_behind(alloc, &mut core, gate);
        return (core, ended(batch));
    }
    let (core, batch) = run_batch(rt, alloc, core, workers, gate);
    (core, ended(batch))
}

/// What a batch that came to its end means: want of memory, unless all have ended.
fn ended(batch: Batch) -> Result<(), NoMemory>
    ensures { OnOk result (batch ≡ Batch.Done) }
{
    match batch {
        Batch::Done => Ok(()),
        Batch::Memory => Err(NoMemory),
    }
}
