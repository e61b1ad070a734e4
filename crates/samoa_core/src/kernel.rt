//! The core.
ghost use Rattle.std.specs.Prelude.{◌≡◌, ℕ, ◌<◌, ◌≤◌, ◌+◌, ◌-◌, ◌↔◌, length, Some, None, true, nat_lt, slice_get, if◌then◌else◌, IsTrue, IfOk, IfErr, IfSome, IfNone, OnOk, OnErr};
ghost use Rattle.samoa_model.specs.Cells.{cells_of as computation_cells, need};
ghost use Rattle.samoa_model.specs.Range.{IsExtOf, IsInRange};
ghost use Rattle.samoa_model.specs.Scripts.{micro_at};
ghost use Rattle.samoa_model.specs.declared.record.Step.{Step};
ghost use Rattle.samoa_serial.specs.Kinds.{shown};
ghost use Rattle.samoa_serial.specs.SerialRun.{serial};
ghost use Rattle.samoa_micro.specs.Covers.{Covers};
ghost use Rattle.samoa_invariant.specs.State as model;
ghost use Rattle.samoa_invariant.specs.State.{AllEnded};
ghost use Rattle.samoa_invariant.specs.Runs.{IsDue, IsRun, Trace, ext_at, opening_trace, play, served_at, state, with_clear, with_step};
ghost use Rattle.samoa_invariant.specs.Settling.{EndsAll, ReleasesAll, Settles};
ghost use Rattle.samoa_control.specs.Admission.{admitted, most_admitted};
ghost use Rattle.samoa_control.specs.Later.{IsLater, IsStill};
ghost use Rattle.samoa_control.specs.Places.{away};
ghost use Rattle.samoa_control.specs.Since.{cleared_comps};
ghost use Rattle.samoa_control.specs.Steps.{IsNoAdmit};
ghost use Rattle.samoa_control.specs.Turns.{IsAway};

use crate::index::Index;
use crate::{joining, keeping, settling, steps};
use samoa_control::{Control, Ran, Turn};
use samoa_micro::{Micro, Stock};
use samoa_model::{Ending, Entry, Ext, MicroId, NoMemory, NodeId, Script, Step, Words};
use samoa_versions::Steps;
use std::alloc::Global;
use std::marker::{Brand, Model};
use std::sync::ledger::{Blank, Ledger};

/// A core, which has any number of computations open at once, over the microprotocols of all nodes.
///
/// Contracts see the script, the cells, what was admitted, the lengths of the journal at the clears, and the journal: all
/// steps that were made. What the core stands at is the run of these steps. Computations are numbered from 1, in the order
/// of their admission. Besides `new` and `admit` no call takes memory.
///
/// Beside the control, which makes the steps, stands an index of the computations, so that no call looks at one that the
/// last step can't have changed.
#[derive(Drop)]
pub struct Core<B: Micro> {
    control: Control<B>,
    index: Index,
}

impl<B: Micro> Model for Core<B> {
    ghost use Rattle.samoa_invariant.specs.Runs.{Trace};
    ghost use Rattle.samoa_core.specs.Indexed.{IsIndexedBy};

    ghost Value = { Trace };

    ghost view = { λ c. c.control };

    ghost invariant = { λ c. IsIndexedBy c.control c.index };
}

impl<B: Micro> Core<B> {
    /// A core for this script, with so many cells. Every microprotocol is drawn from the stock and set up; where there
    /// was no memory, the stock is dropped.
    pub fn new(
        alloc: Global,
        script: &Script,
        stock: Stock<B>,
        cells: u32,
    ) -> Result<Core<B>, NoMemory>
        requires in_range { IsInRange script.now }
        requires covers { Covers script.now stock }
        requires cells { need script.now ≤ cells }
        ensures { IfOk result (λ core. core ≡ opening_trace script.now cells) }
    {
        let control = Control::new(alloc, script, stock, cells)?;
        let index = Index::new(alloc, control.slots(), script.micros.len())?;
        Ok(Core { control, index })
    }

    /// Whether a stock is enough for a script: it has, of each kind, at least as many as the script's nodes times its
    /// microprotocols of that kind.
    pub fn covers(script: &Script, stock: &Stock<B>) -> bool
        ensures { IsTrue result ↔ Covers script.now stock.now }
    {
        Control::<B>::covers(script, stock)
    }

    /// Whether the cells of a computation are free: 16 for each unit of its declaration's budget, and 16 more. Its node
    /// and its cause are of the script.
    pub fn fits(&self, ext: &Ext) -> bool
        requires { IsExtOf self.now.script ext.now }
        ensures { IsTrue result ↔ ((state self.now).cells + computation_cells self.now.script ext.now ≤ self.now.cells) }
    {
        self.control.fits(ext)
    }

    /// How many computations were admitted. What the core holds is a run, in which all of them were admitted.
    pub fn admitted(&self) -> u32
        ensures count { result ≡ length self.now.exts }
        ensures run { IsRun self.now }
        ensures all { (state self.now).count ≡ length self.now.exts }
        ensures in_range { IsInRange self.now.script }
        ensures known { (k : ℕ) → k < length self.now.exts → IsExtOf self.now.script (ext_at self.now.exts k) }
        ensures cleared { cleared_comps self.now ≤ length self.now.exts }
        ensures past { (k : ℕ) → k < cleared_comps self.now → (state self.now).ended k ≡ true }
    {
        self.control.admitted()
    }

    /// The steps that were made since `new`.
    pub fn journal(&self) -> &[Step]
        ensures { result.now ≡ self.now.journal }
    {
        self.control.journal()
    }

    /// Whether a handler step was abandoned. No handler step begins any more then.
    pub fn stopped(&self) -> bool
        ensures { result ≡ (state self.now).stopped }
    {
        self.control.stopped()
    }

    /// Whether each computation that was admitted has ended.
    pub fn all_ended(&self) -> bool
        ensures { IsTrue result ↔ model.AllEnded (state self.now) }
    {
        self.control.all_ended()
    }

    /// How many microprotocols are out of their slots.
    pub fn away(&self) -> u32
        ensures { result ≡ away self.now }
    {
        self.control.away()
    }

    /// Whether a computation has ended that was admitted since the last clear.
    pub fn has_ended(&self, comp: u32) -> bool
        requires kept { cleared_comps self.now < comp }
        requires admitted { comp ≤ length self.now.exts }
        ensures { result ≡ (state self.now).ended (comp - 1) }
    {
        self.control.has_ended(comp)
    }

    /// Admits a computation, where its cells are free and fewer than 100,000 were admitted. Answers its number, from 1.
    /// Its versions are taken in this one step, and afterwards none of its steps takes memory. Where there was no memory,
    /// nothing has changed.
    pub fn admit(&mut self, alloc: Global, ext: Ext) -> Result<u32, (Ext, NoMemory)>
        requires fits { (state self.old).cells + computation_cells self.old.script ext ≤ self.old.cells }
        requires few { length self.old.exts < most_admitted }
        requires known { IsExtOf self.old.script ext }
        ensures number { IfOk result (λ comp. comp ≡ length self.old.exts + 1) }
        ensures step { OnOk result (self.new ≡ admitted self.old ext) }
        ensures still { OnOk result (IsStill (state self.old) self.new) }
        ensures cleared { cleared_comps self.new ≡ cleared_comps self.old }
        ensures back { IfErr result (λ e. e.0 ≡ ext) }
        ensures err { OnErr result (self.new ≡ self.old) }
    {
        joining::admit(&mut self.control, &mut self.index, alloc, ext)
    }

    /// The least computation whose next handler step is due, None exactly where there is none.
    pub fn pick(&self) -> Option<u32>
        ensures due { IfSome result (λ comp. (micro : ℕ) × IsDue self.now (Step.Enter comp micro)) }
        ensures least { IfSome result (λ comp. (earlier micro : ℕ) → earlier < comp → IsDue self.now (Step.Enter earlier micro) → ⊥) }
        ensures none { IfNone result ((comp micro : ℕ) → IsDue self.now (Step.Enter comp micro) → ⊥) }
    {
        steps::pick_by::<B, Brand>(&self.control, &self.index, Blank::new(1))
    }

    /// The least computation whose next handler step is due, None exactly where there is none: `pick`, of which a counter
    /// says that it makes at most three probes of the index.
    pub fn pick_counted<L: Ledger>(&self, steps: &mut Steps<L>) -> Option<u32>
        ensures due { IfSome result (λ comp. (micro : ℕ) × IsDue self.now (Step.Enter comp micro)) }
        ensures least { IfSome result (λ comp. (earlier micro : ℕ) → earlier < comp → IsDue self.now (Step.Enter earlier micro) → ⊥) }
        ensures none { IfNone result ((comp micro : ℕ) → IsDue self.now (Step.Enter comp micro) → ⊥) }
        ensures cost { steps.new ≤ steps.old + 3 }
    {
        steps::pick_counted(&self.control, &self.index, steps)
    }

    /// Begins the next handler step of a computation, which is due: its microprotocol leaves its slot.
    pub fn enter(&mut self, comp: u32) -> Turn<B>
        requires due { (micro : ℕ) × IsDue self.old (Step.Enter comp micro) }
        ensures comp { result.comp ≡ comp }
        ensures step { self.new ≡ with_step self.old (Step.Enter comp result.micro) }
        ensures later { IsLater self.old self.new }
        ensures away { IsAway self.new result }
        ensures fewer { model.left (play self.new) (state self.new) < model.left (play self.old) (state self.old) }
    {
        keeping::enter(&mut self.control, &mut self.index, comp)
    }

    /// Ends a handler step that is out and was made: its microprotocol comes back to its slot, and its outcome takes
    /// effect.
    pub fn leave(&mut self, ran: Ran<B>)
        requires away { IsAway self.old ran }
        ensures step { self.new ≡ with_step self.old (Step.Leave ran.comp) }
        ensures later { IsLater self.old self.new }
        ensures fewer { model.left (play self.new) (state self.new) < model.left (play self.old) (state self.old) }
    {
        keeping::leave(&mut self.control, &mut self.index, ran);
    }

    /// Takes a handler step back that is out: its microprotocol comes back as it was, and no handler step begins any more.
    pub fn abandon(&mut self, turn: Turn<B>)
        requires away { IsAway self.old turn }
        ensures step { self.new ≡ with_step self.old (Step.Abandon turn.comp) }
        ensures later { IsLater self.old self.new }
    {
        keeping::abandon(&mut self.control, &mut self.index, turn);
    }

    /// Whether a step is enabled, which is no Admit. It answers whatever number and microprotocol the step names: none is
    /// enabled of a computation that wasn't admitted or was cleared away, or at a microprotocol that isn't there. A Leave
    /// and an Abandon are enabled exactly where the computation is out.
    pub fn enabled(&self, step: &Step) -> bool
        requires { IsNoAdmit step.now }
        ensures { IsTrue result ↔ IsDue self.now step.now }
    {
        self.control.enabled(step)
    }

    /// Makes a release, which is due: the computation is done with the microprotocol, and the next one has its turn there.
    pub fn release(&mut self, comp: u32, micro: u32)
        requires due { IsDue self.old (Step.Release comp micro) }
        ensures step { self.new ≡ with_step self.old (Step.Release comp micro) }
        ensures later { IsLater self.old self.new }
        ensures fewer { model.left (play self.new) (state self.new) < model.left (play self.old) (state self.old) }
    {
        keeping::release(&mut self.control, &mut self.index, comp, micro);
    }

    /// Makes an end, which is due: the computation has ended.
    pub fn end(&mut self, comp: u32)
        requires due { IsDue self.old (Step.End comp) }
        ensures step { self.new ≡ with_step self.old (Step.End comp) }
        ensures later { IsLater self.old self.new }
        ensures fewer { model.left (play self.new) (state self.new) < model.left (play self.old) (state self.old) }
    {
        keeping::end(&mut self.control, &self.index, comp);
    }

    /// Makes the releases that are due, by rising computation, then rising microprotocol, until none is.
    pub fn release_all(&mut self)
        ensures releases { ReleasesAll self.old self.new }
        ensures still { IsStill (state self.old) self.new }
        ensures later { IsLater self.old self.new }
        ensures not_more { model.left (play self.new) (state self.new) ≤ model.left (play self.old) (state self.old) }
    {
        settling::release_all(&mut self.control, &mut self.index);
    }

    /// Makes the ends that are due, by rising computation, until none is.
    pub fn end_all(&mut self)
        ensures ends { EndsAll self.old self.new }
        ensures still { IsStill (state self.old) self.new }
        ensures later { IsLater self.old self.new }
        ensures not_more { model.left (play self.new) (state self.new) ≤ model.left (play self.old) (state self.old) }
    {
        settling::end_all(&mut self.control, &mut self.index);
    }

    /// Makes all releases and then all ends that are due. None of either is due afterwards.
    pub fn settle(&mut self)
        ensures settles { Settles self.old self.new }
        ensures settled { model.IsSettled (play self.new) (state self.new) }
        ensures still { IsStill (state self.old) self.new }
        ensures later { IsLater self.old self.new }
        ensures not_more { model.left (play self.new) (state self.new) ≤ model.left (play self.old) (state self.old) }
    {
        settling::settle(&mut self.control, &mut self.index);
    }

    /// What began a computation.
    pub fn ext(&self, comp: u32) -> Ext
        requires first { 0 < comp }
        requires admitted { comp ≤ length self.now.exts }
        ensures { slice_get self.now.exts (comp - 1) ≡ Some result }
    {
        self.control.ext(comp)
    }

    /// An entry of a computation that has ended, since the last `clear`, None exactly past the last of them. It is that of
    /// the serial run, whether or not others have ended.
    pub fn entry(&self, comp: u32, at: usize) -> Option<Entry>
        requires kept { cleared_comps self.now < comp }
        requires admitted { comp ≤ length self.now.exts }
        requires ended { (state self.now).ended (comp - 1) ≡ true }
        ensures { result ≡ slice_get (served_at self.now comp).world.entries at }
    {
        self.control.entry(comp, at)
    }

    /// How a computation ended, since the last `clear`: as in the serial run, whether or not others have ended.
    pub fn ending(&self, comp: u32) -> Ending
        requires kept { cleared_comps self.now < comp }
        requires admitted { comp ≤ length self.now.exts }
        requires ended { (state self.now).ended (comp - 1) ≡ true }
        ensures { result ≡ (served_at self.now comp).value }
    {
        self.control.ending(comp)
    }

    /// Gives the cells back and drops the entries, where all have ended. Where no cells were held, nothing has changed.
    pub fn clear(&mut self)
        requires { AllEnded (state self.old) }
        ensures clear { self.new ≡ (if nat_lt 0 (state self.old).cells then with_clear self.old else self.old) }
        ensures still { IsStill (state self.old) self.new }
        ensures cells { (state self.new).cells ≡ 0 }
    {
        keeping::clear(&mut self.control, &mut self.index);
    }

    /// What a microprotocol of a node shows, which is in its slot. Where all have ended, it is what the serial run leaves.
    pub fn shown(&self, node: NodeId, micro: MicroId) -> Words
        requires node { node.0 < self.now.script.nodes }
        requires micro { micro.0 < length self.now.script.micros }
        requires home { (state self.now).out node.0 micro.0 ≡ None }
        ensures shown { result ≡ shown (micro_at self.now.script micro.0).kind ((state self.now).boxes node.0 micro.0) }
        ensures serial { AllEnded (state self.now)
            → result ≡ shown (micro_at self.now.script micro.0).kind ((serial self.now.script self.now.exts).states node.0 micro.0) }
    {
        self.control.shown(node, micro)
    }
}
