//! The generated script, run and counted.
ghost use Rattle.std.specs.Prelude.{◌≡◌, ◌≤◌, ◌⊎◌, IfOk};
ghost use Rattle.samoa_model.specs.Valid.{IsValid};
ghost use Rattle.samoa_ends.specs.Causes.{Rose};
ghost use Rattle.samoa_ledger.specs.Written.{AreTotals};
ghost use Rattle.samoa_micro.specs.Stocks.{HasEnough};
ghost use Rattle.samoa_serial.specs.Ticks.{admitted};
ghost use Rattle.samoa_run.specs.Made.{counts_line, made_line};
ghost use Rattle.samoa_run.specs.Serving.{Answers};
ghost use Rattle.samoa_run.specs.Statuses.{number};

use crate::answer::write_text;
use crate::fault::totals_line;
use crate::status::Status;
use crate::words::{CELLS, WORKERS};
use samoa_core::Core;
use samoa_ends::{NoSink, Sink};
use samoa_micro::{Micro, Stock};
use samoa_model::{NoMemory, Script};
use samoa_script::{MOST_GENERATED, generate};
use samoa_ticks::{Stop, Totals, run_on_workers};
use samoa_workers::Gate;
use std::alloc::Global;
use std::marker::Send;
use std::sync::Wait;
use std::thread::Threads;

/// Runs the generated script of a number on workers, and writes how many computations, deliveries and refusals it had.
pub fn make<R: Wait + Threads + Sync, K: Sink, G: Gate + Sync, B: Micro + Send>(
    rt: &R,
    alloc: Global,
    n: u32,
    sink: &mut K,
    stock: Stock<B>,
    gate: &G,
) -> Status
    requires some { 1 ≤ n }
    requires most { n ≤ MOST_GENERATED }
    requires stock { HasEnough stock }
    ensures written { Answers (number Status.Done) (made_line n) (K.written sink.old) (K.written sink.new) (number result) }
    ensures statuses { (result ≡ Status.Done) ⊎ (result ≡ Status.SinkFailed) ⊎ (result ≡ Status.Memory) }
    ensures sink_failed { result ≡ Status.SinkFailed → Rose (K.faults sink.old) (K.faults sink.new) }
{
    match line_of(rt, alloc, n, stock, gate) {
        Ok(line) => write_text(&line, Status::Done, sink),
        Err(NoMemory) => Status::Memory,
    }
}

/// The line of the generated script of a number.
fn line_of<R: Wait + Threads + Sync, G: Gate + Sync, B: Micro + Send>(
    rt: &R,
    alloc: Global,
    n: u32,
    stock: Stock<B>,
    gate: &G,
) -> Result<Vec<u8>, NoMemory>
    requires some { 1 ≤ n }
    requires most { n ≤ MOST_GENERATED }
    requires stock { HasEnough stock }
    ensures { IfOk result (λ line. line.items ≡ made_line n) }
{
    let script = generate(alloc, n)?;
    let totals = totals_of(rt, alloc, &script, stock, gate)?;
    totals_line(alloc, n, totals)
}

/// Runs a script on four workers, and counts its computations, deliveries and refusals.
fn totals_of<R: Wait + Threads + Sync, G: Gate + Sync, B: Micro + Send>(
    rt: &R,
    alloc: Global,
    script: &Script,
    stock: Stock<B>,
    gate: &G,
) -> Result<Totals, NoMemory>
    requires valid { IsValid script.now }
    requires stock { HasEnough stock }
    ensures { IfOk result (λ totals. AreTotals script.now (admitted script.now) totals) }
{
    let core = Core::new(alloc, script, stock, CELLS)?;
    let (_core, ended) = run_on_workers(rt, alloc, script, core, WORKERS, false, &mut NoSink, gate);
    match ended {
        Ok(ended) => Ok(ended.totals),
        Err(Stop::Memory) => Err(NoMemory),
        Err(Stop::Failed) => unreachable!(),
    }
}
