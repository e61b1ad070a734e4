//! A journal replayed on its script.
ghost use Rattle.std.specs.Prelude.{◌≡◌, ◌≢◌, ◌≤◌, ◌<◌, ◌⊎◌, ◌^◌, length};
ghost use Rattle.samoa_model.specs.Valid.{IsValid};
ghost use Rattle.samoa_ends.specs.Causes.{Rose};
ghost use Rattle.samoa_micro.specs.Stocks.{HasEnough};
ghost use Rattle.samoa_run.specs.Replays.{Gives, IsDueFor, IsDueForJournal, IsDueForSteps, IsRefusal, Replays, journal_part, replay_line as line_of, script_part};
ghost use Rattle.samoa_run.specs.Serving.{Answers};
ghost use Rattle.samoa_run.specs.Statuses.{number};

use crate::answer::{refuse, write_text};
use crate::fault::replay_line;
use crate::obey::is_memory;
use crate::reading::{REPLAY_LIMIT, read_input};
use crate::status::Status;
use memchr::memchr;
use samoa_ends::{Sink, Source};
use samoa_micro::{Micro, Stock};
use samoa_model::{NoMemory, Script, Step};
use samoa_replay::{ReplayFault, check};
use samoa_report::{StepsFault, read_steps};
use samoa_script::{ScriptFault, read_script};
use samoa_ticks::Stop;
use std::alloc::Global;

/// Reads the source, a script on one line and then the lines of a journal, checks the journal, and answers the status.
pub fn obey_replay<S: Source, K: Sink, B: Micro>(
    alloc: Global,
    source: &mut S,
    sink: &mut K,
    stock: Stock<B>,
) -> Status
    requires { HasEnough stock }
    ensures { Replays
        (record { left = S.left source.old; left_after = S.left source.new; source_faults = S.faults source.old; source_faults_after = S.faults source.new; written = K.written sink.old; written_after = K.written sink.new; sink_faults = K.faults sink.old; sink_faults_after = K.faults sink.new })
        (number result) }
{
    let bytes = match read_input(alloc, REPLAY_LIMIT, source) {
        Ok(bytes) => bytes,
        Err(Stop::Failed) => return Status::SourceFailed,
        Err(Stop::Memory) => return Status::Memory,
    };
    if bytes.len() > REPLAY_LIMIT {
        return refuse(alloc, &ScriptFault::TooLong, sink);
    }
    replay_text(alloc, &bytes, stock, sink)
}

/// Checks the journal of a text on the text's script.
fn replay_text<K: Sink, B: Micro>(
    alloc: Global,
    text: &[u8],
    stock: Stock<B>,
    sink: &mut K,
) -> Status
    requires stock { HasEnough stock }
    requires short { length text.now ≤ REPLAY_LIMIT }
    ensures { Gives (IsDueFor text.now) (K.written sink.old) (K.written sink.new) (K.faults sink.old) (K.faults sink.new) result }
{
    let (line, journal) = split_line(text);
    match read_script(alloc, line) {
        Ok(script) => replay(alloc, &script, journal, stock, sink),
        Err(fault) => refuse_script(alloc, &fault, sink),
    }
}

/// Writes the line of a script's fault, if it is no want of memory.
fn refuse_script<K: Sink>(alloc: Global, fault: &ScriptFault, sink: &mut K) -> Status
    ensures { Gives (IsRefusal fault.now) (K.written sink.old) (K.written sink.new) (K.faults sink.old) (K.faults sink.new) result }
{
    if is_memory(fault) {
        return Status::Memory;
    }
    refuse(alloc, fault, sink)
}

/// The first line of a text without its line feed, and what comes after that.
fn split_line(text: &[u8]) -> (&[u8], &[u8])
    ensures line { result.0.now ≡ script_part text.now }
    ensures rest { result.1.now ≡ journal_part text.now }
    ensures shorter { length result.1.now ≤ length text.now }
{
    match memchr(b'\n', text) {
        Some(at) => (&text[..at], &text[at + 1..]),
        None => (text, &[]),
    }
}

/// Checks the lines of a journal.
fn replay<K: Sink, B: Micro>(
    alloc: Global,
    script: &Script,
    journal: &[u8],
    stock: Stock<B>,
    sink: &mut K,
) -> Status
    requires valid { IsValid script.now }
    requires stock { HasEnough stock }
    requires few { length journal.now < 2 ^ 32 }
    ensures { Gives (IsDueForJournal script.now journal.now) (K.written sink.old) (K.written sink.new) (K.faults sink.old) (K.faults sink.new) result }
{
    match read_steps(alloc, journal) {
        Ok(steps) => replay_steps(alloc, script, &steps, stock, sink),
        Err(StepsFault::BadLine { line }) => refuse_journal(alloc, b"BadLine", line, sink),
        Err(StepsFault::Memory) => Status::Memory,
    }
}

/// Checks the steps of a journal, and writes the report where they are a complete one.
fn replay_steps<K: Sink, B: Micro>(
    alloc: Global,
    script: &Script,
    steps: &[Step],
    stock: Stock<B>,
    sink: &mut K,
) -> Status
    requires valid { IsValid script.now }
    requires stock { HasEnough stock }
    requires few { length steps.now < 2 ^ 32 }
    ensures { Gives (IsDueForSteps script.now steps.now) (K.written sink.old) (K.written sink.new) (K.faults sink.old) (K.faults sink.new) result }
{
    match check(alloc, script, steps, stock) {
        Ok(text) => write_text(&text, Status::Done, sink),
        Err(ReplayFault::NotEnabled { line }) => refuse_journal(alloc, b"NotEnabled", line, sink),
        Err(ReplayFault::Unfinished { comp }) => refuse_journal(alloc, b"Unfinished", comp, sink),
        Err(ReplayFault::Trailing { line }) => refuse_journal(alloc, b"Trailing", line, sink),
        Err(ReplayFault::Memory) => Status::Memory,
    }
}

/// Writes the line of a journal that isn't accepted, and answers the status.
fn refuse_journal<K: Sink>(alloc: Global, cause: &[u8], at: u32, sink: &mut K) -> Status
    ensures written { Answers (number Status.NotReplayed) (line_of cause.now at) (K.written sink.old) (K.written sink.new) (number result) }
    ensures statuses { (result ≡ Status.NotReplayed) ⊎ (result ≡ Status.SinkFailed) ⊎ (result ≡ Status.Memory) }
    ensures sink_failed { result ≡ Status.SinkFailed → Rose (K.faults sink.old) (K.faults sink.new) }
{
    match replay_line(alloc, cause, at) {
        Ok(line) => write_text(&line, Status::NotReplayed, sink),
        Err(NoMemory) => Status::Memory,
    }
}
