//! What is answered for a script that is held, or for an input that holds none.
ghost use Rattle.std.specs.Prelude.{◌≡◌, ◌≤◌, ◌<◌, ◌⊎◌, IfOk};
ghost use Rattle.samoa_model.specs.Valid.{IsValid};
ghost use Rattle.samoa_ends.specs.Causes.{Rose};
ghost use Rattle.samoa_micro.specs.Stocks.{HasEnough};
ghost use Rattle.samoa_run.specs.Due.{canonical_text, fault_line as line_of, few_cells};
ghost use Rattle.samoa_run.specs.Serving.{Answers, Treats};
ghost use Rattle.samoa_run.specs.Statuses.{number};
ghost use Rattle.samoa_run.specs.Words.{HasNumbers};

use crate::fault::{cells_line, fault_line};
use crate::status::Status;
use crate::ticks::{run_to_status, status_of};
use crate::words::{CELLS, Order};
use samoa_core::Core;
use samoa_ends::{Failed, Sink};
use samoa_micro::{Micro, Stock};
use samoa_model::{NoMemory, Script};
use samoa_print::{need, print_script};
use samoa_script::ScriptFault;
use samoa_ticks::{run_one_by_one, write_lines};
use samoa_workers::Gate;
use std::alloc::Global;
use std::marker::Send;
use std::sync::Wait;
use std::thread::Threads;

/// What a run on workers is asked for: so many workers, so many cells for what is open at once, the lines of calls, and the
/// journal after the report.
#[derive(Clone, Copy, Debug, PartialEq, Eq)]
pub struct Asked {
    pub workers: u32,
    pub cells: u32,
    pub calls: bool,
    pub journal: bool,
}

/// Runs a script on workers, and writes its report, and the journal after it where that is asked for.
pub fn write_run<R: Wait + Threads + Sync, K: Sink, G: Gate + Sync, B: Micro + Send>(
    rt: &R,
    alloc: Global,
    script: &Script,
    stock: Stock<B>,
    asked: Asked,
    sink: &mut K,
    gate: &G,
) -> Status
    requires valid { IsValid script.now }
    requires stock { HasEnough stock }
    requires numbers { HasNumbers (Order.Run asked.workers asked.cells asked.calls asked.journal) }
    ensures { Treats (Order.Run asked.workers asked.cells asked.calls asked.journal) script.now (K.written sink.old) (K.written sink.new) (K.faults sink.old) (K.faults sink.new) result }
{
    let needed = need(script);
    if asked.cells < needed {
        return refuse_cells(alloc, asked.cells, needed, sink);
    }
    let Ok(core) = Core::new(alloc, script, stock, asked.cells) else {
        return Status::Memory;
    };
    let (_core, status) = run_to_status(
        rt,
        alloc,
        script,
        core,
        asked.workers,
        asked.calls,
        asked.journal,
        sink,
        gate,
    );
    status
}

/// Runs a script, one computation after another on this thread, and writes its report.
pub fn write_report<K: Sink, B: Micro>(
    alloc: Global,
    script: &Script,
    stock: Stock<B>,
    calls: bool,
    sink: &mut K,
) -> Status
    requires valid { IsValid script.now }
    requires stock { HasEnough stock }
    ensures { Treats (Order.Serial calls) script.now (K.written sink.old) (K.written sink.new) (K.faults sink.old) (K.faults sink.new) result }
{
    let Ok(core) = Core::new(alloc, script, stock, CELLS) else {
        return Status::Memory;
    };
    let mut core = core;
    let ended = run_one_by_one(alloc, script, &mut core, calls, sink);
    status_of(ended)
}

/// Writes the line of cells that aren't enough, and answers the status.
fn refuse_cells<K: Sink>(alloc: Global, cells: u32, needed: u32, sink: &mut K) -> Status
    ensures written { Answers (number Status.Refused) (few_cells cells needed) (K.written sink.old) (K.written sink.new) (number result) }
    ensures statuses { (result ≡ Status.Refused) ⊎ (result ≡ Status.SinkFailed) ⊎ (result ≡ Status.Memory) }
    ensures sink_failed { result ≡ Status.SinkFailed → Rose (K.faults sink.old) (K.faults sink.new) }
{
    match cells_line(alloc, cells, needed) {
        Ok(line) => write_text(&line, Status::Refused, sink),
        Err(NoMemory) => Status::Memory,
    }
}

/// Writes the canonical text of a script, and a line feed.
pub fn write_canonical<K: Sink>(alloc: Global, script: &Script, sink: &mut K) -> Status
    ensures written { Answers (number Status.Done) (canonical_text script.now) (K.written sink.old) (K.written sink.new) (number result) }
    ensures statuses { (result ≡ Status.Done) ⊎ (result ≡ Status.SinkFailed) ⊎ (result ≡ Status.Memory) }
    ensures sink_failed { result ≡ Status.SinkFailed → Rose (K.faults sink.old) (K.faults sink.new) }
{
    match canonical(alloc, script) {
        Ok(text) => write_text(&text, Status::Done, sink),
        Err(NoMemory) => Status::Memory,
    }
}

/// The canonical text of a script, and a line feed.
fn canonical(alloc: Global, script: &Script) -> Result<Vec<u8>, NoMemory>
    ensures { IfOk result (λ text. text.items ≡ canonical_text script.now) }
{
    let mut text = print_script(alloc, script)?;
    text.push(b'\n')?;
    Ok(text)
}

/// Writes the line of a script's fault, and answers the status.
pub fn refuse<K: Sink>(alloc: Global, fault: &ScriptFault, sink: &mut K) -> Status
    ensures written { Answers (number Status.Refused) (line_of fault.now) (K.written sink.old) (K.written sink.new) (number result) }
    ensures statuses { (result ≡ Status.Refused) ⊎ (result ≡ Status.SinkFailed) ⊎ (result ≡ Status.Memory) }
    ensures sink_failed { result ≡ Status.SinkFailed → Rose (K.faults sink.old) (K.faults sink.new) }
{
    match fault_line(alloc, fault) {
        Ok(line) => write_text(&line, Status::Refused, sink),
        Err(NoMemory) => Status::Memory,
    }
}

/// Writes a text, and answers its status, or 5.
pub fn write_text<K: Sink>(text: &[u8], status: Status, sink: &mut K) -> Status
    requires { (number status < 4) ⊎ (6 < number status) }
    ensures written { Answers (number status) text.now (K.written sink.old) (K.written sink.new) (number result) }
    ensures statuses { (result ≡ status) ⊎ (result ≡ Status.SinkFailed) }
    ensures sink_failed { result ≡ Status.SinkFailed → Rose (K.faults sink.old) (K.faults sink.new) }
{
    match write_lines(text, sink) {
        Ok(()) => status,
        Err(Failed) => Status::SinkFailed,
    }
}
