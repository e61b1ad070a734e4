//! The top call.
ghost use Rattle.std.specs.Prelude.{◌≡◌, ◌≢◌, ◌⊎◌, ◌<◌, ◌≤◌, ℕ, List, Bool, None, true, false, length, map, codes, string_bytes, Some, option_and_then};
ghost use Rattle.std.specs.Io.KnownBytes.{IsAtEnd};
ghost use Rattle.samoa_model.specs.declared.script.Script.{Script as ScriptValue};
ghost use Rattle.samoa_model.specs.Cells.{need};
ghost use Rattle.samoa_serial.specs.LimitedReport.{report_in_full};
ghost use Rattle.samoa_ends.specs.Causes.{Rose};
ghost use Rattle.samoa_grammar.specs.Held.{Holds};
ghost use Rattle.samoa_laws.specs.trace.Group.{IsGroup};
ghost use Rattle.samoa_laws.specs.text.Clause.{AppendsOneOrder};
ghost use Rattle.samoa_micro.specs.Stocks.{HasEnough};
ghost use Rattle.samoa_run.specs.declared.words.Order.{Order as OrderValue};
ghost use Rattle.samoa_run.specs.Due.{IsRunOutput, run_status};
ghost use Rattle.samoa_run.specs.Made.{made_line};
ghost use Rattle.samoa_run.specs.Serving.{Answers, AnswersOne, Obeys};
ghost use Rattle.samoa_run.specs.Statuses.{number};
ghost use Rattle.samoa_run.specs.Replays.{Replays, script_text};
ghost use Rattle.samoa_run.specs.Words.{AreNoCheck, AreOther, is_replay, made_in, order_in as order_of, check_only as only_check, serial_only as only_serial};

use crate::answer::write_text;
use crate::making::make;
use crate::obey::{obey, obey_check, obey_serial};
use crate::replaying::obey_replay;
use crate::status::Status;
use crate::words::{Order, asks_replay, number_to_make, order_in};
use samoa_ends::{Sink, Source};
use samoa_micro::{Micro, Stock};
use samoa_workers::Gate;
use std::alloc::Global;
use std::marker::Send;
use std::sync::Wait;
use std::thread::Threads;

/// Does what the words ask for, and answers the status.
///
/// | Words | What is done |
/// |---|---|
/// | `run [--workers n] [--cells n] [--calls] [--journal]` | reads a script, runs it on workers, and writes its report, with the lines of calls where asked, and after it the journal where asked |
/// | `serial [--calls]` | the same, one computation after another |
/// | `check` | reads a script, and writes its canonical text and a line feed |
/// | `replay` | reads a script on one line and the lines of a journal after it, checks the journal, and writes the report |
/// | `make n` | runs the generated script of n, 1 to 600, by 4 workers and with 65,536 cells, and writes the line `G n comps deliveries refusals`; it reads nothing |
///
/// The source is read to its end, or to one byte past 1,048,576; for a replay, past 16,777,216. A run has as many computations open at once as its cells
/// are enough for (1 to 1,048,576, and 65,536 where none are given): 16 for each unit of a budget, and 16 more. The number
/// of cells changes no byte of the report. At most 100,000 computations are run; where more would be admitted, the line
/// `L 100000` ends the report, in place of the states and the totals. There are 1 to 64 workers, 4 where none are given;
/// their number changes no byte of the report. The journal is the line `J` with the number of steps, and a line for each
/// step; it is that of some whole run of the script. A replay takes the lines of the steps alone.
///
/// | Status | Comes | What is written |
/// |---|---|---|
/// | 0 | all was done and written, and the limit didn't end the run | the report, and the journal where asked, or the text, or the line |
/// | 2 | the words are others | `! usage` |
/// | 3 | the script has a fault, or the input is too long, or the cells are too few | the fault line |
/// | 4 | a read failed | nothing |
/// | 5 | a write failed | a prefix of what was to be written |
/// | 6 | there was no memory | a prefix of what was to be written |
/// | 7 | a journal that is replayed has a bad line, or isn't that of a whole run of its script which the limit doesn't end | the fault line |
/// | 8 | the limit ended the run: computation 100,001 would be admitted | the report, which ends with the line of the limit, and the journal where asked |
///
/// The sink is given the rest of one line at a time. The gate is called around each handler step of a run on workers.
pub fn serve<R: Wait + Threads + Sync, S: Source, K: Sink, G: Gate + Sync, B: Micro + Send>(
    rt: &R,
    alloc: Global,
    words: &[String],
    source: &mut S,
    sink: &mut K,
    stock: Stock<B>,
    gate: &G,
) -> u8
    requires { HasEnough stock }

    // The headline: the words ask for a run by so many workers, the input holds a script, and the cells are enough for it.
    // Whatever the interleaving, what is written is a prefix of the report of running all that the script admits whole, one
    // after another: its own events, the messages and the changes that were asked for. All of it is written at the due
    // status: 8 where the limit ends the run, and else 0.
    ensures report { (input : List ℕ) (script : ScriptValue) (workers cells : ℕ) (calls : Bool) → order_of (map string_bytes words.now) ≡ Some (OrderValue.Run workers cells calls false)
        → S.left source.old ≡ Some input → Holds input script → need script ≤ cells
        → Answers (run_status script) (report_in_full script calls) (K.written sink.old) (K.written sink.new) result }

    // The same where the journal is asked for: that of a whole run of the script follows the report.
    ensures journal { (input : List ℕ) (script : ScriptValue) (workers cells : ℕ) (calls : Bool) → order_of (map string_bytes words.now) ≡ Some (OrderValue.Run workers cells calls true)
        → S.left source.old ≡ Some input → Holds input script → need script ≤ cells
        → AnswersOne (run_status script) (IsRunOutput true script calls) (λ text. (text ≡ report_in_full script calls) ⊎ IsRunOutput true script calls text) (K.written sink.old) (K.written sink.new) result }

    // The words give an order, and it is carried out.
    ensures obeys { (order : OrderValue) → order_of (map string_bytes words.now) ≡ Some order → Obeys order
        (record { left = S.left source.old; left_after = S.left source.new; source_faults = S.faults source.old; source_faults_after = S.faults source.new; written = K.written sink.old; written_after = K.written sink.new; sink_faults = K.faults sink.old; sink_faults_after = K.faults sink.new })
        result }

    // The word asks for a replay. What is due is written: the report where the journal is a complete one, and else the line of
    // the one fault, in the order script, bad line, other faults of the journal.
    ensures replays { is_replay (map string_bytes words.now) ≡ true → Replays
        (record { left = S.left source.old; left_after = S.left source.new; source_faults = S.faults source.old; source_faults_after = S.faults source.new; written = K.written sink.old; written_after = K.written sink.new; sink_faults = K.faults sink.old; sink_faults_after = K.faults sink.new })
        result }

    // The input holds a script of the group stack. Whatever the words, at every status, what was appended to the sink tells
    // one order: of the deliveries that it tells of any two nodes one list begins the other, and at no node are two of the
    // same origin and number.
    ensures one_order { (input : List ℕ) (script : ScriptValue) → S.left source.old ≡ Some input → Holds (script_text (map string_bytes words.now) input) script → IsGroup script
        → AppendsOneOrder (K.written sink.old) (K.written sink.new) }

    // The words ask for the generated script of a number to be made: the line that counts what it admits, and the deliveries
    // and refusals of their serial run, is written. Nothing is read.
    ensures made { (n : ℕ) → made_in (map string_bytes words.now) ≡ Some n
        → Answers 0 (made_line n) (K.written sink.old) (K.written sink.new) result }
    ensures made_untouched { (n : ℕ) → made_in (map string_bytes words.now) ≡ Some n
        → ((result ≡ 0) ⊎ ((result ≡ 5) ⊎ (result ≡ 6))) × (source.new ≡ source.old) }

    // The words are others: the fault line, nothing is read, and no memory is taken.
    ensures usage { AreOther (map string_bytes words.now)
        → Answers 2 (codes "! usage\n") (K.written sink.old) (K.written sink.new) result }
    ensures untouched { AreOther (map string_bytes words.now)
        → ((result ≡ 2) ⊎ (result ≡ 5)) × (source.new ≡ source.old) }
    ensures usage_only { result ≡ 2 → AreOther (map string_bytes words.now) }
    ensures sink_failed { result ≡ 5 → Rose (K.faults sink.old) (K.faults sink.new) }
{
    if asks_replay(words) {
        return obey_replay(alloc, source, sink, stock).number();
    }
    if let Some(n) = number_to_make(words) {
        return make(rt, alloc, n, sink, stock, gate).number();
    }
    match order_in(words) {
        Some(order) => obey(rt, alloc, order, source, sink, stock, gate).number(),
        None => refuse_words(sink).number(),
    }
}

/// Carries out `serial [--calls]`, and waits for nobody. All other words are status 2. The statuses are those of
/// [`serve`].
pub fn serve_serial<S: Source, K: Sink, B: Micro>(
    alloc: Global,
    words: &[String],
    source: &mut S,
    sink: &mut K,
    stock: Stock<B>,
) -> u8
    requires { HasEnough stock }

    // The words ask for a serial run, and the input holds a script.
    ensures report { (input : List ℕ) (script : ScriptValue) (calls : Bool) → order_of (map string_bytes words.now) ≡ Some (OrderValue.Serial calls)
        → S.left source.old ≡ Some input → Holds input script
        → Answers (run_status script) (report_in_full script calls) (K.written sink.old) (K.written sink.new) result }

    ensures obeys { (order : OrderValue) → option_and_then only_serial (order_of (map string_bytes words.now)) ≡ Some order → Obeys order
        (record { left = S.left source.old; left_after = S.left source.new; source_faults = S.faults source.old; source_faults_after = S.faults source.new; written = K.written sink.old; written_after = K.written sink.new; sink_faults = K.faults sink.old; sink_faults_after = K.faults sink.new })
        result }

    // The input holds a script of the group stack, as for [`serve`].
    ensures one_order { (input : List ℕ) (script : ScriptValue) → S.left source.old ≡ Some input → Holds input script → IsGroup script
        → AppendsOneOrder (K.written sink.old) (K.written sink.new) }

    ensures usage { option_and_then only_serial (order_of (map string_bytes words.now)) ≡ None
        → Answers 2 (codes "! usage\n") (K.written sink.old) (K.written sink.new) result }
    ensures untouched { option_and_then only_serial (order_of (map string_bytes words.now)) ≡ None
        → ((result ≡ 2) ⊎ (result ≡ 5)) × (source.new ≡ source.old) }
    ensures usage_only { result ≡ 2 → option_and_then only_serial (order_of (map string_bytes words.now)) ≡ None }
    ensures sink_failed { result ≡ 5 → Rose (K.faults sink.old) (K.faults sink.new) }
{
    match order_in(words) {
        Some(Order::Serial { calls }) => { obey_serial(alloc, calls, source, sink, stock).number() }
        _ => refuse_words(sink).number(),
    }
}

/// Carries out `check` and `replay`, and waits for nobody. All other words are status 2. The statuses are those of [`serve`].
pub fn check_only<S: Source, K: Sink, B: Micro>(
    alloc: Global,
    words: &[String],
    source: &mut S,
    sink: &mut K,
    stock: Stock<B>,
) -> u8
    requires { HasEnough stock }

    ensures obeys { (order : OrderValue) → option_and_then only_check (order_of (map string_bytes words.now)) ≡ Some order → Obeys order
        (record { left = S.left source.old; left_after = S.left source.new; source_faults = S.faults source.old; source_faults_after = S.faults source.new; written = K.written sink.old; written_after = K.written sink.new; sink_faults = K.faults sink.old; sink_faults_after = K.faults sink.new })
        result }

    ensures replays { is_replay (map string_bytes words.now) ≡ true → Replays
        (record { left = S.left source.old; left_after = S.left source.new; source_faults = S.faults source.old; source_faults_after = S.faults source.new; written = K.written sink.old; written_after = K.written sink.new; sink_faults = K.faults sink.old; sink_faults_after = K.faults sink.new })
        result }

    ensures usage { AreNoCheck (map string_bytes words.now)
        → Answers 2 (codes "! usage\n") (K.written sink.old) (K.written sink.new) result }
    ensures untouched { AreNoCheck (map string_bytes words.now)
        → ((result ≡ 2) ⊎ (result ≡ 5)) × (source.new ≡ source.old) }
    ensures usage_only { result ≡ 2 → AreNoCheck (map string_bytes words.now) }
    ensures sink_failed { result ≡ 5 → Rose (K.faults sink.old) (K.faults sink.new) }
{
    if asks_replay(words) {
        return obey_replay(alloc, source, sink, stock).number();
    }
    match order_in(words) {
        Some(Order::Check) => obey_check(alloc, source, sink).number(),
        _ => refuse_words(sink).number(),
    }
}

/// Writes the line of words that are others.
fn refuse_words<K: Sink>(sink: &mut K) -> Status
    ensures written { Answers (number Status.Usage) (codes "! usage\n") (K.written sink.old) (K.written sink.new) (number result) }
    ensures statuses { (result ≡ Status.Usage) ⊎ (result ≡ Status.SinkFailed) }
    ensures sink_failed { result ≡ Status.SinkFailed → Rose (K.faults sink.old) (K.faults sink.new) }
{
    write_text(b"! usage\n", Status::Usage, sink)
}
