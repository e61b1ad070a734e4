//! A report that is being written, part by part.
ghost use Rattle.std.specs.Prelude.{◌≡◌, ◌<◌, ◌≤◌, ◌+◌, ◌++◌, ◌⊎◌, ℕ, [], true, false, length, take, drop, slice_get, Some, IfOk, OnOk, OnErr, if◌then◌else◌};
ghost use Rattle.std.specs.Io.KnownBytes.{Appends};
ghost use Rattle.samoa_model.specs.declared.record.Ext.{Ext as Admission};
ghost use Rattle.samoa_model.specs.declared.script.Script.{Script as ScriptValue};
ghost use Rattle.samoa_model.specs.Cells.{cells_of};
ghost use Rattle.samoa_model.specs.Range.{IsInRange};
ghost use Rattle.samoa_serial.specs.Ticks.{admitted, is_limited};
ghost use Rattle.samoa_ends.specs.Pieces.{AppendsPrefix};
ghost use Rattle.samoa_invariant.specs.Runs.{state};
ghost use Rattle.samoa_ledger.specs.Gathering.{HasGathered};
ghost use Rattle.samoa_ledger.specs.Written.{AreTotals, later_text};
ghost use Rattle.samoa_ticks.specs.Running.{HasOpened, end_text};
ghost use Rattle.samoa_ticks.specs.Stands.{HasPartRun, Stands, rest_of};
ghost use Rattle.samoa_ticks.specs.Stops.{StopsFor};

use crate::running::admit_part;
use crate::stop::Stop;
use crate::writing::write_lines;
use samoa_core::Core;
use samoa_ends::Sink;
use samoa_ledger::{Totals, push_closing, push_comps};
use samoa_micro::Micro;
use samoa_model::{Ext, NoMemory, Script};
use samoa_net::Net;
use samoa_report::limit_line;
use std::alloc::Global;

/// How many computations a script admits at most.
const MOST_ADMITTED: u32 = 100_000;

/// A report that is being written: the totals of what has ended, what is gathered for the next tick, the present tick and
/// its batch, of which those before `next` were run, whether the limit of computations cut it short, and the text at hand.
#[derive(Drop)]
pub struct Report {
    totals: Totals,
    net: Net,
    tick: u32,
    batch: Vec<Ext>,
    next: usize,
    limited: bool,
    alone: bool,
    text: Vec<u8>,
}

impl Report {
    /// A report of which nothing is written. Computations run one by one where `alone` is given.
    pub fn new(alloc: Global, alone: bool) -> Report
        ensures counted { (script : ScriptValue) → AreTotals script [] result.totals }
        ensures gathered { (script : ScriptValue) → HasGathered script [] result.net }
        ensures batch { result.batch.items ≡ [] }
        ensures next { result.next ≡ 0 }
        ensures ticks { (result.tick ≡ 0) × (result.net.tick ≡ 0) }
        ensures free { result.limited ≡ false }
        ensures alone { result.alone ≡ alone }
    {
        let totals = Totals {
            comps: 0,
            deliveries: 0,
            refusals: 0,
        };
        Report {
            totals,
            net: Net::new(alloc),
            tick: 0,
            batch: Vec::new(alloc),
            next: 0,
            limited: false,
            alone,
            text: Vec::new(alloc),
        }
    }

    /// Takes the admissions of the next tick, as many as the limit leaves room for.
    fn next_tick<B: Micro>(
        &mut self,
        alloc: Global,
        script: &Script,
        core: &Core<B>,
    ) -> Result<(), NoMemory>
        requires in_range { IsInRange script.now }
        requires stands { Stands script.now core.now self.old }
        requires none { rest_of self.old ≡ [] }
        requires free { self.old.limited ≡ false }
        requires more { self.old.tick < script.now.ticks }
        ensures stands { OnOk result (Stands script.now core.now self.new) }
        ensures tick { OnOk result (self.new.tick ≡ self.old.tick + 1) }
        ensures alone { self.new.alone ≡ self.old.alone }
    {
        let tick = self.tick + 1;
        let mut batch = self.net.batch(alloc, script, tick)?;
        let room = (MOST_ADMITTED - core.admitted()) as usize;
        self.limited = room < batch.len();
        batch.truncate(room);
        self.batch = batch;
        self.tick = tick;
        self.next = 0;
        Ok(())
    }

    /// Takes the admissions of later ticks, until there are some, or nothing more is admitted.
    fn refill<B: Micro>(
        &mut self,
        alloc: Global,
        script: &Script,
        core: &Core<B>,
    ) -> Result<(), NoMemory>
        requires in_range { IsInRange script.now }
        requires stands { Stands script.now core.now self.old }
        ensures stands { OnOk result (Stands script.now core.now self.new) }
        ensures some_or_end { OnOk result ((self.new.next < length self.new.batch.items) ⊎ ((self.new.limited ≡ true) ⊎ (script.now.ticks ≤ self.new.tick))) }
        ensures alone { self.new.alone ≡ self.old.alone }
    {
        while self.next == self.batch.len() && !self.limited && self.tick < script.ticks {
            self.next_tick(alloc, script, core)?;
        }
        Ok(())
    }

    /// Admits the next part: as many computations of the tick at hand as have room together, or one. Answers how many: none
    /// exactly at the end, where all that the script admits was run.
    pub fn open<B: Micro>(
        &mut self,
        alloc: Global,
        script: &Script,
        core: &mut Core<B>,
    ) -> Result<usize, NoMemory>
        requires in_range { IsInRange script.now }
        requires stands { Stands script.now core.old self.old }
        ensures stands { OnOk result (Stands script.now core.old self.new) }
        ensures within { IfOk result (λ count. count ≤ length (rest_of self.new)) }
        ensures opened { IfOk result (λ count. HasOpened core.old (take count (rest_of self.new)) core.new) }
        ensures held { IfOk result (λ count. 0 < count → 0 < (state core.new).cells) }
        ensures longest { IfOk result (λ count. 0 < count → self.new.alone ≡ false → (ext : Admission) → slice_get (rest_of self.new) count ≡ Some ext
            → core.new.cells < (state core.new).cells + cells_of core.new.script ext) }
        ensures end { IfOk result (λ count. count ≡ 0 → (core.new ≡ core.old) × ((core.new.exts ≡ admitted script.now) × (self.new.limited ≡ is_limited script.now))) }
        ensures alone { self.new.alone ≡ self.old.alone }
    {
        self.refill(alloc, script, core)?;
        let rest = self.rest();
        if rest.is_empty() {
            return Ok(0);
        }
        let count = admit_part(alloc, core, rest, self.most(rest.len()))?;
        Ok(count)
    }

    /// What is still to be run of the tick at hand.
    fn rest(&self) -> &[Ext]
        requires { self.now.next ≤ length self.now.batch.items }
        ensures { result.now ≡ rest_of self.now }
    {
        &self.batch[self.next..]
    }

    /// The totals of what has ended.
    pub fn totals(&self) -> Totals
        ensures { result ≡ self.now.totals }
    {
        self.totals
    }

    /// Of so many computations, how many may be open together.
    fn most(&self, count: usize) -> usize
        ensures { result ≡ (if self.now.alone then 1 else count) }
    {
        if self.alone { 1 } else { count }
    }

    /// Writes the lines of a part that was run to its end, gathers what it brings the next tick, and clears the core.
    pub fn close<B: Micro, K: Sink>(
        &mut self,
        script: &Script,
        calls: bool,
        core: &mut Core<B>,
        count: usize,
        sink: &mut K,
    ) -> Result<(), Stop>
        requires in_range { IsInRange script.now }
        requires ended { HasPartRun script.now core.old self.old count }
        ensures stands { OnOk result (Stands script.now core.new self.new) }
        ensures exts { core.new.exts ≡ core.old.exts }
        ensures all { OnOk result (Appends (K.written sink.old) (K.written sink.new) (later_text script.now calls (take self.old.totals.comps core.old.exts) (drop self.old.totals.comps core.old.exts))) }
        ensures part { OnErr result (AppendsPrefix (K.written sink.old) (K.written sink.new) (later_text script.now calls (take self.old.totals.comps core.old.exts) (drop self.old.totals.comps core.old.exts))) }
        ensures cause { StopsFor (K.faults sink.old) (K.faults sink.new) result }
        ensures cells { core.new.cells ≡ core.old.cells }
        ensures alone { self.new.alone ≡ self.old.alone }
    {
        self.text.clear();
        push_comps(
            script,
            core,
            calls,
            &mut self.text,
            &mut self.totals,
            &mut self.net,
        )?;
        let _admitted = core.admitted();
        core.clear();
        self.next += count;
        write_lines(&self.text, sink)?;
        Ok(())
    }

    /// Writes what the report ends with: the line of the limit where that ended the run, else the shown states, node by
    /// node, and the line of the totals. Answers whether the limit ended it.
    pub fn finish<B: Micro, K: Sink>(
        &mut self,
        script: &Script,
        core: &Core<B>,
        sink: &mut K,
    ) -> Result<bool, Stop>
        requires few_micros { length script.now.micros ≤ 24 }
        requires stands { Stands script.now core.now self.old }
        ensures all { OnOk result (Appends (K.written sink.old) (K.written sink.new) (end_text script.now self.old.limited core.now.exts)) }
        ensures part { OnErr result (AppendsPrefix (K.written sink.old) (K.written sink.new) (end_text script.now self.old.limited core.now.exts)) }
        ensures limited { IfOk result (λ limited. limited ≡ self.old.limited) }
        ensures cause { StopsFor (K.faults sink.old) (K.faults sink.new) result }
    {
        self.text.clear();
        if self.limited {
            limit_line(MOST_ADMITTED, &mut self.text)?;
        } else {
            push_closing(script, core, self.totals, &mut self.text)?;
        }
        write_lines(&self.text, sink)?;
        Ok(self.limited)
    }
}
