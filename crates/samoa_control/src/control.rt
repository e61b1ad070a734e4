//! What is held of the computations, and what is read of it.
ghost use Rattle.std.specs.Prelude.{◌≡◌, ℕ, ◌<◌, ◌≤◌, ◌+◌, ◌*◌, ◌-◌, ◌↔◌, length, None, true, false, IsTrue, IfOk, IfSome};
ghost use Rattle.samoa_model.specs.Allowed.{weight};
ghost use Rattle.samoa_model.specs.Cells.{cells_of as computation_cells, need};
ghost use Rattle.samoa_model.specs.Range.{IsDeclOf, IsExtOf, IsInRange};
ghost use Rattle.samoa_model.specs.declared.record.Step.{Step};
ghost use Rattle.samoa_calls.specs.Handed.{next_moment};
ghost use Rattle.samoa_micro.specs.Covers.{Covers};
ghost use Rattle.samoa_invariant.specs.State as model;
ghost use Rattle.samoa_invariant.specs.Play.{IsIdle};
ghost use Rattle.samoa_invariant.specs.Runs.{IsDue, IsRun, Trace, ext_at, opening_trace, play, state};
ghost use Rattle.samoa_control.specs.Forms.{IsMasked};
ghost use Rattle.samoa_control.specs.Since.{cleared_comps};
ghost use Rattle.samoa_control.specs.Sound.{IsPast, IsSound, StillNeeds};
ghost use Rattle.samoa_control.specs.Places.{away};
ghost use Rattle.samoa_control.specs.Running.{IsRunning};

use crate::forms::{may_release, still_needed};
use crate::grid::place;
use crate::journal::Journal;
use crate::parts::{cells_of, decl_in};
use crate::routes::masks_of;
use crate::running::Running;
use crate::slots::Slots;
use samoa_bind::Tables;
use samoa_micro::{Micro, Stock};
use samoa_model::{Decl, Ext, MicroId, Moment, NoMemory, NodeId, Script, Step};
use samoa_vca_route::Masks;
use samoa_versions::Versions;
use std::alloc::Global;
use std::marker::Model;

/// A core of single steps, which has any number of computations open at once, over the microprotocols of all nodes. Which
/// of them is made next is for who holds it to choose.
///
/// Contracts see the script, the cells, what was admitted, the lengths of the journal at the clears, and the journal: all
/// steps that were made. What it stands at is the run of these steps. Computations are numbered from 1, in the order
/// of their admission. Besides `new` and `admit` no call takes memory.
#[derive(Drop)]
pub struct Control<B: Micro> {
    pub(crate) script: Script,
    pub(crate) cells: u32,
    pub(crate) held: u32,
    pub(crate) tables: Tables,
    pub(crate) masks: Vec<Option<Masks>>,
    pub(crate) slots: Slots<B>,
    pub(crate) versions: Versions,
    pub(crate) exts: Vec<Ext>,
    pub(crate) clears: Vec<u64>,
    pub(crate) journal: Journal,
    pub(crate) first: u32,
    pub(crate) running: Vec<Running>,
    pub(crate) spare: Vec<Running>,
    pub(crate) unended: u32,
    pub(crate) away: u32,
    pub(crate) stopped: bool,
}

impl<B: Micro> Model for Control<B> {
    ghost use Rattle.samoa_invariant.specs.Runs.{Trace};
    ghost use Rattle.samoa_control.specs.Fields.{IsKept, trace_in};

    ghost Value = { Trace };

    ghost view = { trace_in };

    ghost invariant = { IsKept };
}

impl<B: Micro> Control<B> {
    /// A control for this script, with so many cells. Every microprotocol is drawn from the stock and set up; where there
    /// was no memory, the stock is dropped.
    pub fn new(
        alloc: Global,
        script: &Script,
        stock: Stock<B>,
        cells: u32,
    ) -> Result<Control<B>, NoMemory>
        requires in_range { IsInRange script.now }
        requires covers { Covers script.now stock }
        requires cells { need script.now ≤ cells }
        ensures { IfOk result (λ core. core ≡ opening_trace script.now cells) }
    {
        let script = script.copied(alloc)?;
        let tables = Tables::new(alloc, &script)?;
        let slots = Slots::set_up(alloc, &script, stock)?;
        let count = script.nodes as usize * script.micros.len();
        let versions = Versions::new(alloc, count)?;
        let masks = masks_of(alloc, &script)?;
        Ok(Control {
            script,
            cells,
            held: 0,
            tables,
            masks,
            slots,
            versions,
            exts: Vec::new(alloc),
            clears: Vec::new(alloc),
            journal: Journal::new(alloc),
            first: 0,
            running: Vec::new(alloc),
            spare: Vec::new(alloc),
            unended: 0,
            away: 0,
            stopped: false,
        })
    }

    /// Whether a stock is enough for a script: it has, of each kind, at least as many as the script's nodes times its
    /// microprotocols of that kind.
    pub fn covers(script: &Script, stock: &Stock<B>) -> bool
        ensures { IsTrue result ↔ Covers script.now stock.now }
    {
        stock.covers(script)
    }

    /// Whether the cells of a computation are free: 16 for each unit of its declaration's budget, and 16 more. Its node
    /// and its cause are of the script.
    pub fn fits(&self, ext: &Ext) -> bool
        requires { IsExtOf self.now.script ext.now }
        ensures { IsTrue result ↔ ((state self.now).cells + computation_cells self.now.script ext.now ≤ self.now.cells) }
    {
        cells_of(&self.script, ext) <= self.cells - self.held
    }

    /// How many computations were admitted. What the core holds is a run, in which all of them were admitted.
    pub fn admitted(&self) -> u32
        ensures count { result ≡ length self.now.exts }
        ensures run { IsRun self.now }
        ensures all { (state self.now).count ≡ length self.now.exts }
        ensures in_range { IsInRange self.now.script }
        ensures known { (k : ℕ) → k < length self.now.exts → IsExtOf self.now.script (ext_at self.now.exts k) }
        ensures cleared { cleared_comps self.now ≤ length self.now.exts }
        ensures past { (k : ℕ) → k < cleared_comps self.now → (state self.now).ended k ≡ true }
    {
        self.exts.len() as u32
    }

    /// What holds of every core, for a proof that needs it; it costs nothing.
    pub fn recall(&self)
        ensures { IsSound self.now }
    {
        let _script = &self.script;
    }

    /// The steps that were made since `new`.
    pub fn journal(&self) -> &[Step]
        ensures { result.now ≡ self.now.journal }
    {
        self.journal.steps()
    }

    /// Whether a handler step was abandoned. No handler step begins any more then.
    pub fn stopped(&self) -> bool
        ensures { result ≡ (state self.now).stopped }
    {
        self.stopped
    }

    /// Whether each computation that was admitted has ended.
    pub fn all_ended(&self) -> bool
        ensures { IsTrue result ↔ model.AllEnded (state self.now) }
    {
        self.unended == 0
    }

    /// Whether computations that were admitted since the last clear hold cells.
    pub fn holds_cells(&self) -> bool
        ensures { IsTrue result ↔ (0 < (state self.now).cells) }
    {
        0 < self.held
    }

    /// How many microprotocols are out of their slots.
    pub fn away(&self) -> u32
        ensures { result ≡ away self.now }
    {
        self.away
    }

    /// How many computations were cleared away.
    pub fn cleared(&self) -> u32
        ensures { result ≡ cleared_comps self.now }
    {
        self.first
    }

    pub fn micros(&self) -> u32
        ensures { result ≡ length self.now.script.micros }
    {
        self.script.micros.len() as u32
    }

    /// What is kept of a computation that was admitted since the last clear.
    pub(crate) fn running(&self, comp: u32) -> &Running
        requires kept { cleared_comps self.now < comp }
        requires admitted { comp ≤ length self.now.exts }
        ensures { IsRunning self.now.script self.now.exts (state self.now) (comp - 1) result.now }
    {
        &self.running[(comp - 1 - self.first) as usize]
    }

    pub(crate) fn declaration(&self, comp: u32) -> &Decl
        requires kept { cleared_comps self.now < comp }
        requires admitted { comp ≤ length self.now.exts }
        ensures decl { result.now ≡ (play self.now).decl (comp - 1) }
        ensures known { IsDeclOf self.now.script result.now }
    {
        self.recall();
        &decl_in(&self.script, self.running(comp).calls.decl()).decl
    }

    /// The masks of a computation's declaration, if that is a route.
    fn masks(&self, comp: u32) -> &Option<Masks>
        requires kept { cleared_comps self.now < comp }
        requires admitted { comp ≤ length self.now.exts }
        ensures { IsMasked ((play self.now).decl (comp - 1)) result.now }
    {
        self.recall();
        &self.masks[self.running(comp).calls.decl() as usize]
    }

    /// The local version of a microprotocol of a node.
    fn local(&self, node: NodeId, micro: u32) -> u64
        requires node { node.0 < self.now.script.nodes }
        requires micro { micro < length self.now.script.micros }
        ensures { result ≡ (state self.now).local node.0 micro }
    {
        self.versions
            .local(place(self.script.micros.len(), node.0, micro))
    }

    /// Whether it is a computation's turn at a microprotocol.
    pub fn has_turn(&self, comp: u32, micro: u32) -> bool
        requires kept { cleared_comps self.now < comp }
        requires admitted { comp ≤ length self.now.exts }
        requires micro { micro < length self.now.script.micros }
        ensures { IsTrue result ↔ model.HasTurn (play self.now) (state self.now) (comp - 1) micro }
    {
        self.recall();
        let running = self.running(comp);
        let turn = running.turn(micro);
        let local = self.local(running.node, micro);
        turn.from <= local && local < turn.to
    }

    /// Whether a microprotocol isn't declared by a computation, or it is past its turn there.
    pub fn is_past(&self, comp: u32, micro: u32) -> bool
        requires kept { cleared_comps self.now < comp }
        requires admitted { comp ≤ length self.now.exts }
        requires micro { micro < length self.now.script.micros }
        ensures { IsTrue result ↔ IsPast (play self.now) (state self.now) (comp - 1) micro }
    {
        self.recall();
        let running = self.running(comp);
        let local = self.local(running.node, micro);
        running.turn(micro).is_over(local)
    }

    /// Whether a computation isn't past a microprotocol: the local version there is below its private one.
    pub fn holds(&self, comp: u32, micro: u32) -> bool
        requires kept { cleared_comps self.now < comp }
        requires admitted { comp ≤ length self.now.exts }
        requires micro { micro < length self.now.script.micros }
        ensures { IsTrue result ↔ ((state self.now).local ((play self.now).node (comp - 1)) micro < (state self.now).private (comp - 1) ((play self.now).node (comp - 1)) micro) }
    {
        self.recall();
        let running = self.running(comp);
        let local = self.local(running.node, micro);
        running.turn(micro).is_above(local)
    }

    /// Whether a computation declares a microprotocol.
    pub fn declares(&self, comp: u32, micro: u32) -> bool
        requires kept { cleared_comps self.now < comp }
        requires admitted { comp ≤ length self.now.exts }
        requires micro { micro < length self.now.script.micros }
        ensures { IsTrue result ↔ (0 < weight ((play self.now).decl (comp - 1)) micro) }
    {
        self.recall();
        self.running(comp).turn(micro).is_some()
    }

    /// How many slots there are: one for each microprotocol of each node.
    pub fn slots(&self) -> usize
        ensures { result ≡ self.now.script.nodes * length self.now.script.micros }
    {
        self.recall();
        self.script.nodes as usize * self.script.micros.len()
    }

    /// The place of the slot of a microprotocol at a computation's node, node by node.
    pub fn slot(&self, comp: u32, micro: u32) -> usize
        requires kept { cleared_comps self.now < comp }
        requires admitted { comp ≤ length self.now.exts }
        requires micro { micro < length self.now.script.micros }
        ensures place { result ≡ (play self.now).node (comp - 1) * length self.now.script.micros + micro }
        ensures node { (play self.now).node (comp - 1) < self.now.script.nodes }
    {
        self.recall();
        place(self.script.micros.len(), self.running(comp).node.0, micro)
    }

    /// Whether a computation has ended that was admitted since the last clear.
    pub fn has_ended(&self, comp: u32) -> bool
        requires kept { cleared_comps self.now < comp }
        requires admitted { comp ≤ length self.now.exts }
        ensures { result ≡ (state self.now).ended (comp - 1) }
    {
        self.running(comp).ended
    }

    /// Whether nothing is left of a computation's calls.
    pub(crate) fn is_idle(&self, comp: u32) -> bool
        requires kept { cleared_comps self.now < comp }
        requires admitted { comp ≤ length self.now.exts }
        ensures { IsTrue result ↔ IsIdle ((state self.now).comp (comp - 1)) }
    {
        self.running(comp).calls.is_over()
    }

    /// Whether a computation may be done with a microprotocol at which it has its turn.
    pub(crate) fn is_quiet(&self, comp: u32, micro: u32) -> bool
        requires kept { cleared_comps self.now < comp }
        requires admitted { comp ≤ length self.now.exts }
        ensures { IsTrue result ↔ model.Quiet ((play self.now).decl (comp - 1)) ((state self.now).table (comp - 1)) ((state self.now).comp (comp - 1)) micro }
    {
        self.recall();
        may_release(
            self.declaration(comp),
            self.masks(comp),
            &self.running(comp).calls,
            micro,
        )
    }

    /// The microprotocols that a computation may not be done with yet, as the bits of a word, whether it has its turn
    /// there or not.
    pub fn still_needed(&self, comp: u32) -> u32
        requires kept { cleared_comps self.now < comp }
        requires admitted { comp ≤ length self.now.exts }
        ensures { StillNeeds self.now comp result }
    {
        self.recall();
        still_needed(
            self.declaration(comp),
            self.masks(comp),
            &self.running(comp).calls,
        )
    }

    /// The microprotocol and the moment of the next handler step of a computation, which may be out.
    pub(crate) fn next(&self, comp: u32) -> Option<(MicroId, Moment)>
        requires kept { cleared_comps self.now < comp }
        requires admitted { comp ≤ length self.now.exts }
        ensures next { result ≡ next_moment ((state self.now).comp (comp - 1)) }
        ensures within { IfSome result (λ step. step.0.0 < length self.now.script.micros) }
    {
        self.recall();
        self.running(comp).calls.next()
    }

    pub(crate) fn is_home(&self, node: NodeId, micro: u32) -> bool
        requires node { node.0 < self.now.script.nodes }
        requires micro { micro < length self.now.script.micros }
        ensures { IsTrue result ↔ (state self.now).out node.0 micro ≡ None }
    {
        self.slots.is_home(node, micro)
    }

    /// Whether a microprotocol is home at a computation's node.
    pub(crate) fn is_home_of(&self, comp: u32, micro: u32) -> bool
        requires kept { cleared_comps self.now < comp }
        requires admitted { comp ≤ length self.now.exts }
        requires micro { micro < length self.now.script.micros }
        ensures { IsTrue result ↔ (state self.now).out ((play self.now).node (comp - 1)) micro ≡ None }
    {
        self.recall();
        self.is_home(self.running(comp).node, micro)
    }

    /// Whether a microprotocol is home at a computation's node, in a core that isn't stopped.
    fn may_go_out(&self, comp: u32, micro: u32) -> bool
        requires kept { cleared_comps self.now < comp }
        requires admitted { comp ≤ length self.now.exts }
        requires micro { micro < length self.now.script.micros }
        ensures { IsTrue result ↔ (((state self.now).out ((play self.now).node (comp - 1)) micro ≡ None) × ((state self.now).stopped ≡ false)) }
    {
        let stopped = self.stopped();
        self.is_home_of(comp, micro) && !stopped
    }

    /// Whether the next handler step of a computation may begin.
    pub(crate) fn is_ready(&self, comp: u32) -> bool
        requires kept { cleared_comps self.now < comp }
        requires admitted { comp ≤ length self.now.exts }
        ensures { IsTrue result ↔ ((micro : ℕ) × IsDue self.now (Step.Enter comp micro)) }
    {
        self.recall();
        match self.next(comp) {
            None => false,
            Some((micro, _)) => self.has_turn(comp, micro.0) && self.may_go_out(comp, micro.0),
        }
    }
}
