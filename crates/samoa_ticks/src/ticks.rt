//! A run of a script: its report, on one thread or on workers.
ghost use Rattle.std.specs.Prelude.{◌≡◌, ◌≤◌, [], false, IfOk, OnOk, OnErr};
ghost use Rattle.std.specs.Io.KnownBytes.{Appends};
ghost use Rattle.samoa_model.specs.Cells.{need};
ghost use Rattle.samoa_model.specs.Range.{IsInRange};
ghost use Rattle.samoa_serial.specs.LimitedReport.{report_in_full};
ghost use Rattle.samoa_serial.specs.Ticks.{admitted, is_limited};
ghost use Rattle.samoa_ends.specs.Pieces.{AppendsPrefix};
ghost use Rattle.samoa_invariant.specs.Runs.{opening_trace};
ghost use Rattle.samoa_journal.specs.Finished.{IsFinished, most_cells};
ghost use Rattle.samoa_journal.specs.Parts.{IsPacked};
ghost use Rattle.samoa_ledger.specs.Written.{AreTotals};
ghost use Rattle.samoa_ticks.specs.Stops.{StopsFor};

use crate::report::Report;
use crate::running::{run_to_end, work_to_end};
use crate::stop::Stop;
use samoa_core::Core;
use samoa_ends::Sink;
use samoa_ledger::Totals;
use samoa_micro::Micro;
use samoa_model::Script;
use samoa_workers::{Gate, crew_for};
use std::alloc::Global;
use std::marker::Send;
use std::sync::Wait;
use std::thread::Threads;

/// How a run ended: whether the limit of computations ended it, and how many computations, deliveries and refusals there
/// were.
#[derive(Clone, Copy, Debug, PartialEq, Eq)]
pub struct Ended {
    pub limited: bool,
    pub totals: Totals,
}

/// Runs a script, one computation after another on the calling thread, in a core that was made for it and has made no step,
/// and writes its report, with the lines of calls where `calls` is given. Answers whether the limit of computations ended
/// the run.
pub fn run_one_by_one<B: Micro, K: Sink>(
    alloc: Global,
    script: &Script,
    core: &mut Core<B>,
    calls: bool,
    sink: &mut K,
) -> Result<bool, Stop>
    requires in_range { IsInRange script.now }
    requires unused { core.old ≡ opening_trace script.now core.old.cells }
    requires room { need script.now ≤ core.old.cells }
    ensures all { OnOk result (Appends (K.written sink.old) (K.written sink.new) (report_in_full script.now calls)) }
    ensures part { OnErr result (AppendsPrefix (K.written sink.old) (K.written sink.new) (report_in_full script.now calls)) }
    ensures limited { IfOk result (λ limited. limited ≡ is_limited script.now) }
    ensures cause { StopsFor (K.faults sink.old) (K.faults sink.new) result }
{
    let mut report = Report::new(alloc, true);
    loop {
        let count = report.open(alloc, script, core)?;
        if count == 0 {
            break;
        }
        let _opened = core.admitted();
        run_to_end(alloc, core)?;
        let _ended = core.admitted();
        report.close(script, calls, core, count, sink)?;
    }
    let limited = report.finish(script, core, sink)?;
    Ok(limited)
}

/// Runs a script on workers behind a gate, in a core that was made for it and has made no step, and writes its report, with
/// the lines of calls where `calls` is given. Of the workers each part has as many as it is worth (`crew_for`), one of them
/// on the calling thread. Gives the core back, and answers whether the limit of computations ended the run, with the totals
/// of all that was admitted. It may wait.
pub fn run_on_workers<B: Micro + Send, K: Sink, G: Gate + Sync, R: Threads + Wait + Sync>(
    rt: &R,
    alloc: Global,
    script: &Script,
    core: Core<B>,
    workers: u32,
    calls: bool,
    sink: &mut K,
    gate: &G,
) -> (Core<B>, Result<Ended, Stop>)
    requires in_range { IsInRange script.now }
    requires unused { core ≡ opening_trace script.now core.cells }
    requires room { need script.now ≤ core.cells }
    requires some { 1 ≤ workers }
    requires few { workers ≤ 64 }
    ensures all { OnOk result.1 (Appends (K.written sink.old) (K.written sink.new) (report_in_full script.now calls)) }
    ensures part { OnErr result.1 (AppendsPrefix (K.written sink.old) (K.written sink.new) (report_in_full script.now calls)) }
    ensures limited { IfOk result.1 (λ ended. ended.limited ≡ is_limited script.now) }
    // As the line of the totals counts them, also where the limit ended the run and there is no such line.
    ensures counted { IfOk result.1 (λ ended. AreTotals script.now (admitted script.now) ended.totals) }
    // The journal is a whole run of all that the script admits, in parts of which each is the longest prefix of what was
    // left of its tick that fits the cells.
    ensures finished { OnOk result.1 (core.cells ≤ most_cells → IsFinished script.now result.0.journal) }
    ensures parts { OnOk result.1 (IsPacked false result.0 []) }
    ensures cells { OnOk result.1 (result.0.cells ≡ core.cells) }
    ensures cause { StopsFor (K.faults sink.old) (K.faults sink.new) result.1 }
{
    let mut core = core;
    let mut report = Report::new(alloc, false);
    loop {
        let Ok(count) = report.open(alloc, script, &mut core) else {
            return (core, Err(Stop::Memory));
        };
        if count == 0 {
            break;
        }
        let _opened = core.admitted();
        let crew = crew_for(count, workers, gate);
        let (later, ended) = work_to_end(rt, alloc, core, crew, gate);
        core = later;
        let Ok(()) = ended else {
            return (core, Err(Stop::Memory));
        };
        let _ended = core.admitted();
        if let Err(stop) = report.close(script, calls, &mut core, count, sink) {
            return (core, Err(stop));
        }
    }
    let _all = core.admitted();
    let totals = report.totals();
    match report.finish(script, &core, sink) {
        Ok(limited) => (core, Ok(Ended { limited, totals })),
        Err(stop) => (core, Err(stop)),
    }
}
