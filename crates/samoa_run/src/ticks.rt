//! A run on workers, with its journal and its status.
ghost use Rattle.std.specs.Prelude.{◌≡◌, ◌≤◌, ◌⊎◌};
ghost use Rattle.samoa_model.specs.Cells.{need};
ghost use Rattle.samoa_model.specs.Range.{IsInRange};
ghost use Rattle.samoa_ends.specs.Causes.{Rose};
ghost use Rattle.samoa_invariant.specs.Runs.{opening_trace};
ghost use Rattle.samoa_journal.specs.Finished.{most_cells};
ghost use Rattle.samoa_run.specs.Due.{ended_with};
ghost use Rattle.samoa_run.specs.Runs.{RunsTo};
ghost use Rattle.samoa_run.specs.Statuses.{number};

use crate::status::Status;
use samoa_core::Core;
use samoa_ends::Sink;
use samoa_micro::Micro;
use samoa_model::Script;
use samoa_ticks::{Stop, run_on_workers, write_journal};
use samoa_workers::Gate;
use std::alloc::Global;
use std::marker::Send;
use std::sync::Wait;
use std::thread::Threads;

/// Runs a script on workers, in a core that was made for it and has made no step, and writes its report, with the lines of
/// calls where `calls` is given, and after it the core's journal where `journal` is given. Gives back the core that made the
/// steps, and the status: 0, or 8 where the limit of computations ended the run, or 5 where a write failed, or 6 where there
/// was no memory; at 5 and 6 a prefix of the text is written.
///
/// The gate is called around each handler step. It may wait.
pub fn run_ticks<R: Wait + Threads + Sync, K: Sink, G: Gate + Sync, B: Micro + Send>(
    rt: &R,
    alloc: Global,
    script: &Script,
    core: Core<B>,
    workers: u32,
    calls: bool,
    journal: bool,
    sink: &mut K,
    gate: &G,
) -> (Core<B>, u8)
    requires in_range { IsInRange script.now }
    requires unused { core ≡ opening_trace script.now core.cells }
    requires room { need script.now ≤ core.cells }
    requires most { core.cells ≤ most_cells }
    requires some { 1 ≤ workers }
    requires few { workers ≤ 64 }

    // What is written is the report and the journal of the core that is given back, or a prefix of that; the journal is a
    // whole run of all that the script admits, in parts.
    ensures run { RunsTo script.now calls journal core.cells result.0 (K.written sink.old) (K.written sink.new) result.1 }
    ensures sink_failed { result.1 ≡ 5 → Rose (K.faults sink.old) (K.faults sink.new) }
{
    let (core, status) = run_to_status(
        rt, alloc, script, core, workers, calls, journal, sink, gate,
    );
    (core, status.number())
}

/// The same, with the status by its name.
pub fn run_to_status<R: Wait + Threads + Sync, K: Sink, G: Gate + Sync, B: Micro + Send>(
    rt: &R,
    alloc: Global,
    script: &Script,
    core: Core<B>,
    workers: u32,
    calls: bool,
    journal: bool,
    sink: &mut K,
    gate: &G,
) -> (Core<B>, Status)
    requires in_range { IsInRange script.now }
    requires unused { core ≡ opening_trace script.now core.cells }
    requires room { need script.now ≤ core.cells }
    requires most { core.cells ≤ most_cells }
    requires some { 1 ≤ workers }
    requires few { workers ≤ 64 }
    ensures run { RunsTo script.now calls journal core.cells result.0 (K.written sink.old) (K.written sink.new) (number result.1) }
    ensures sink_failed { result.1 ≡ Status.SinkFailed → Rose (K.faults sink.old) (K.faults sink.new) }
{
    let (core, ended) = run_on_workers(rt, alloc, script, core, workers, calls, sink, gate);
    match ended {
        Err(stop) => (core, status_of(Err(stop))),
        Ok(ended) if !journal => (core, status_of(Ok(ended.limited))),
        Ok(ended) => match write_journal(alloc, core.journal(), sink) {
            Ok(()) => (core, status_of(Ok(ended.limited))),
            Err(stop) => (core, status_of(Err(stop))),
        },
    }
}

/// The status of a run, of which it is known whether the limit ended it.
pub fn status_of(limited: Result<bool, Stop>) -> Status
    ensures { number result ≡ ended_with limited }
{
    match limited {
        Ok(true) => Status::Limited,
        Ok(false) => Status::Done,
        Err(Stop::Failed) => Status::SinkFailed,
        Err(Stop::Memory) => Status::Memory,
    }
}
