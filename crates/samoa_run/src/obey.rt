//! An order carried out on what a source gives.
ghost use Rattle.std.specs.Prelude.{◌≡◌, ℕ, List, Some, IfErr, IfOk, OnOk};
ghost use Rattle.std.specs.Io.KnownBytes.{IsAtEnd};
ghost use Rattle.samoa_model.specs.Valid.{IsValid};
ghost use Rattle.samoa_ends.specs.Causes.{Rose};
ghost use Rattle.samoa_grammar.specs.Held.{Holds};
ghost use Rattle.samoa_script.specs.declared.fault.ScriptFault.{ScriptFault as Fault};
ghost use Rattle.samoa_run.specs.declared.words.Order.{Order as OrderValue};
ghost use Rattle.samoa_micro.specs.Stocks.{HasEnough};
ghost use Rattle.samoa_run.specs.Due.{is_memory as memory_is};
ghost use Rattle.samoa_run.specs.Serving.{Obeys};
ghost use Rattle.samoa_run.specs.Statuses.{number};
ghost use Rattle.samoa_run.specs.Words.{HasNumbers};

use crate::answer::{Asked, refuse, write_canonical, write_report, write_run};
use crate::reading::{LIMIT, read_input};
use crate::status::Status;
use crate::words::Order;
use samoa_ends::{Sink, Source};
use samoa_micro::{Micro, Stock};
use samoa_model::Script;
use samoa_script::{ScriptFault, read_script};
use samoa_ticks::Stop;
use samoa_workers::Gate;
use std::alloc::Global;
use std::marker::Send;
use std::sync::Wait;
use std::thread::Threads;

/// Reads the source, does what is ordered with the script that it gave, and answers the status.
pub fn obey<R: Wait + Threads + Sync, S: Source, K: Sink, G: Gate + Sync, B: Micro + Send>(
    rt: &R,
    alloc: Global,
    order: Order,
    source: &mut S,
    sink: &mut K,
    stock: Stock<B>,
    gate: &G,
) -> Status
    requires stock { HasEnough stock }
    requires numbers { HasNumbers order }
    ensures { Obeys order
        (record { left = S.left source.old; left_after = S.left source.new; source_faults = S.faults source.old; source_faults_after = S.faults source.new; written = K.written sink.old; written_after = K.written sink.new; sink_faults = K.faults sink.old; sink_faults_after = K.faults sink.new })
        (number result) }
{
    match order {
        Order::Run {
            workers,
            cells,
            calls,
            journal,
        } => {
            let asked = Asked {
                workers,
                cells,
                calls,
                journal,
            };
            obey_run(rt, alloc, asked, source, sink, stock, gate)
        }
        Order::Serial { calls } => obey_serial(alloc, calls, source, sink, stock),
        Order::Check => obey_check(alloc, source, sink),
    }
}

/// Runs the script of the source on workers, and answers the status.
fn obey_run<R: Wait + Threads + Sync, S: Source, K: Sink, G: Gate + Sync, B: Micro + Send>(
    rt: &R,
    alloc: Global,
    asked: Asked,
    source: &mut S,
    sink: &mut K,
    stock: Stock<B>,
    gate: &G,
) -> Status
    requires stock { HasEnough stock }
    requires numbers { HasNumbers (Order.Run asked.workers asked.cells asked.calls asked.journal) }
    ensures { Obeys (Order.Run asked.workers asked.cells asked.calls asked.journal)
        (record { left = S.left source.old; left_after = S.left source.new; source_faults = S.faults source.old; source_faults_after = S.faults source.new; written = K.written sink.old; written_after = K.written sink.new; sink_faults = K.faults sink.old; sink_faults_after = K.faults sink.new })
        (number result) }
{
    match take_script(alloc, source, sink) {
        Ok(script) => write_run(rt, alloc, &script, stock, asked, sink, gate),
        Err(status) => status,
    }
}

/// Runs the script of the source one computation after another, and answers the status.
pub fn obey_serial<S: Source, K: Sink, B: Micro>(
    alloc: Global,
    calls: bool,
    source: &mut S,
    sink: &mut K,
    stock: Stock<B>,
) -> Status
    requires { HasEnough stock }
    ensures { Obeys (Order.Serial calls)
        (record { left = S.left source.old; left_after = S.left source.new; source_faults = S.faults source.old; source_faults_after = S.faults source.new; written = K.written sink.old; written_after = K.written sink.new; sink_faults = K.faults sink.old; sink_faults_after = K.faults sink.new })
        (number result) }
{
    match take_script(alloc, source, sink) {
        Ok(script) => write_report(alloc, &script, stock, calls, sink),
        Err(status) => status,
    }
}

/// Writes the canonical text of the source's script, and answers the status.
pub fn obey_check<S: Source, K: Sink>(alloc: Global, source: &mut S, sink: &mut K) -> Status
    ensures { Obeys Order.Check
        (record { left = S.left source.old; left_after = S.left source.new; source_faults = S.faults source.old; source_faults_after = S.faults source.new; written = K.written sink.old; written_after = K.written sink.new; sink_faults = K.faults sink.old; sink_faults_after = K.faults sink.new })
        (number result) }
{
    match take_script(alloc, source, sink) {
        Ok(script) => write_canonical(alloc, &script, sink),
        Err(status) => status,
    }
}

/// The script that the source gives; or the status where it gives none, and then its fault line was written.
fn take_script<S: Source, K: Sink>(
    alloc: Global,
    source: &mut S,
    sink: &mut K,
) -> Result<Script, Status>
    ensures valid { IfOk result (λ script. IsValid script) }
    ensures held { IfOk result (λ script. (input : List ℕ) → S.left source.old ≡ Some input → Holds input script) }
    ensures at_end { OnOk result (IsAtEnd (S.left source.new)) }
    ensures unwritten { OnOk result (sink.new ≡ sink.old) }
    ensures refused { IfErr result (λ status. (order : OrderValue) → Obeys order
        (record { left = S.left source.old; left_after = S.left source.new; source_faults = S.faults source.old; source_faults_after = S.faults source.new; written = K.written sink.old; written_after = K.written sink.new; sink_faults = K.faults sink.old; sink_faults_after = K.faults sink.new })
        (number status)) }
{
    let bytes = match read_input(alloc, LIMIT, source) {
        Ok(bytes) => bytes,
        Err(Stop::Failed) => return Err(Status::SourceFailed),
        Err(Stop::Memory) => return Err(Status::Memory),
    };
    match read_script(alloc, &bytes) {
        Ok(script) => Ok(script),
        Err(fault) if is_memory(&fault) => Err(Status::Memory),
        Err(fault) => Err(refuse(alloc, &fault, sink)),
    }
}

/// Whether the fault is want of memory.
pub fn is_memory(fault: &ScriptFault) -> bool
    ensures { result ≡ memory_is fault.now }
{
    matches!(fault, ScriptFault::Memory)
}
