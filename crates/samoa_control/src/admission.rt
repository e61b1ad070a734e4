//! Admissions.
ghost use Rattle.std.specs.Prelude.{◌≡◌, ℕ, ◌<◌, ◌≤◌, ◌+◌, ◌-◌, ◌*◌, [], length, set, IfOk, IfErr, OnOk, OnErr, vec_capacity};
ghost use Rattle.samoa_model.specs.Allowed.{weight};
ghost use Rattle.samoa_model.specs.Cells.{cells_of as computation_cells};
ghost use Rattle.samoa_model.specs.Range.{IsExtOf, IsInRange};
ghost use Rattle.samoa_model.specs.Scripts.{decl_at, decl_of};
ghost use Rattle.samoa_model.specs.declared.ids.ChangeId.{ChangeId};
ghost use Rattle.samoa_model.specs.declared.record.Cause.TheVariants.{Change};
ghost use Rattle.samoa_bind.specs.Bound.{epochs_of};
ghost use Rattle.samoa_control.specs.Known.{decl_number as declaration_number};
ghost use Rattle.samoa_calls.specs.Handed.{fresh};
ghost use Rattle.samoa_invariant.specs.Runs.{Trace, state};
ghost use Rattle.samoa_versions.specs.Counters.{gv_at};
ghost use Rattle.samoa_control.specs.Admission.{admitted, most_admitted, most_versions, raised, started, steps_of as steps_to_come, tables_after, turns_taken, version_after};
ghost use Rattle.samoa_control.specs.Kept.{AreTables};
ghost use Rattle.samoa_control.specs.Later.{IsStill};
ghost use Rattle.samoa_control.specs.Since.{cleared_comps};

use crate::control::Control;
use crate::forms::{named_count, weight};
use crate::grid::place;
use crate::journal::{Journal, sum};
use crate::parts::{cells_of, decl_in, decl_number, root_of};
use crate::running::{Interval, Running};
use samoa_bind::Tables;
use samoa_calls::Comp;
use samoa_micro::Micro;
use samoa_model::{Cause, Decl, DeclDef, Ext, NoMemory, NodeId, Script, Step};
use samoa_versions::Versions;
use std::alloc::Global;

/// How many steps a unit may come to, and how many a computation beside these and its releases.
const STEPS_A_UNIT: u64 = 10;

const BESIDE_UNITS: u64 = 12;

impl<B: Micro> Control<B> {
    /// Admits a computation, where its cells are free and fewer than 100,000 were admitted. Answers its number, from 1.
    /// Its versions are taken in this one step, and afterwards none of its steps takes memory. Where there was no memory,
    /// nothing has changed.
    pub fn admit(&mut self, alloc: Global, ext: Ext) -> Result<u32, (Ext, NoMemory)>
        requires fits { (state self.old).cells + computation_cells self.old.script ext ≤ self.old.cells }
        requires few { length self.old.exts < most_admitted }
        requires known { IsExtOf self.old.script ext }
        ensures number { IfOk result (λ comp. comp ≡ length self.old.exts + 1) }
        ensures step { OnOk result (self.new ≡ admitted self.old ext) }
        ensures still { OnOk result (IsStill (state self.old) self.new) }
        ensures cleared { cleared_comps self.new ≡ cleared_comps self.old }
        ensures back { IfErr result (λ e. e.0 ≡ ext) }
        ensures err { OnErr result (self.new ≡ self.old) }
    {
        self.recall();
        match self.take(alloc, &ext) {
            Ok(comp) => Ok(comp),
            Err(fault) => Err((ext, fault)),
        }
    }

    fn take(&mut self, alloc: Global, ext: &Ext) -> Result<u32, NoMemory>
        requires fits { (state self.old).cells + computation_cells self.old.script ext.now ≤ self.old.cells }
        requires few { length self.old.exts < most_admitted }
        requires known { IsExtOf self.old.script ext.now }
        ensures number { IfOk result (λ comp. comp ≡ length self.old.exts + 1) }
        ensures step { OnOk result (self.new ≡ admitted self.old ext.now) }
        ensures err { OnErr result (self.new ≡ self.old) }
    {
        let spare = self.spare.pop();
        let number = decl_number(&self.script, ext);
        let (mut calls, turns) = room_for_calls(alloc, &self.script, number, spare)?;
        room_for_one(&mut self.exts, &mut self.running, &mut self.clears)?;
        room_for_change(&mut self.tables, ext.cause)?;
        let steps = steps_for(decl_in(&self.script, number))?;
        self.journal.promise(steps)?;
        // From here on no memory is needed.
        change_tables(&mut self.tables, ext);
        begin(&self.script, &self.tables, ext, &mut calls);
        let turns = turns_of(&self.script, number, ext.node, &mut self.versions, turns);
        let running = Running {
            node: ext.node,
            epoch: self.tables.current(ext.node),
            turns,
            calls,
            ended: false,
        };
        self.held += cells_of(&self.script, ext);
        self.unended += 1;
        self.exts.push_reserved(*ext);
        self.running.push_reserved(running);
        let comp = self.exts.len() as u32;
        self.journal.note(Step::Admit { comp });
        Ok(comp)
    }
}

/// Makes room for one more computation, and for the clear after it.
fn room_for_one(
    exts: &mut Vec<Ext>,
    running: &mut Vec<Running>,
    clears: &mut Vec<u64>,
) -> Result<(), NoMemory>
    ensures exts { exts.new.items ≡ exts.old.items }
    ensures exts_room { OnOk result (length exts.new.items < vec_capacity exts.new) }
    ensures running { running.new.items ≡ running.old.items }
    ensures running_room { OnOk result (length running.new.items < vec_capacity running.new) }
    ensures clears { clears.new.items ≡ clears.old.items }
    ensures clears_kept { vec_capacity clears.old ≤ vec_capacity clears.new }
    ensures clears_room { OnOk result (length clears.new.items < vec_capacity clears.new) }
{
    exts.reserve(1)?;
    running.reserve(1)?;
    clears.reserve(1)?;
    Ok(())
}

/// Makes room for a change of bindings, if there is one.
fn room_for_change(tables: &mut Tables, cause: Cause) -> Result<(), NoMemory>
    ensures tables { tables.new ≡ record tables.old { room = tables.new.room } }
    ensures room { OnOk result ((change : ChangeId) → cause ≡ Change change → 0 < tables.new.room) }
{
    if let Cause::Change(_) = cause {
        tables.reserve()?;
    }
    Ok(())
}

/// Makes the change of bindings of an admission, if there is one, for which there is room.
fn change_tables(tables: &mut Tables, ext: &Ext)
    requires node { ext.now.node.0 < length tables.old.epochs }
    requires change { (change : ChangeId) → ext.now.cause ≡ Change change → change.0 < length tables.old.changes }
    requires room { (change : ChangeId) → ext.now.cause ≡ Change change → 0 < tables.old.room }
    requires few { length (epochs_of tables.old ext.now.node) < 4294967296 }
    ensures { tables.new ≡ tables_after tables.old ext.now.node ext.now.cause }
{
    match ext.cause {
        Cause::Event(_) => {}
        Cause::Change(change) => {
            tables.rebind(ext.node, change);
        }
    }
}

/// The calls of a computation that hasn't begun, and a list of no turns with room for them, in the memory of the spare
/// record if there is one. All room that they can need is made, or there was no memory.
fn room_for_calls(
    alloc: Global,
    script: &Script,
    decl: u32,
    spare: Option<Running>,
) -> Result<(Comp, Vec<Interval>), NoMemory>
    requires in_range { IsInRange script.now }
    requires decl { decl < length script.now.decls }
    ensures calls { IfOk result (λ r. r.0 ≡ record { decl = decl; comp = fresh (decl_at script.now decl).budget; waiting_handlers = [] }) }
    ensures turns { IfOk result (λ r. r.1.items ≡ []) }
    ensures room { IfOk result (λ r. length script.now.micros ≤ vec_capacity r.1) }
{
    let budget = decl_in(script, decl).budget;
    let (calls, mut turns) = fresh_parts(alloc, spare, decl, budget)?;
    turns.reserve(script.micros.len())?;
    Ok((calls, turns))
}

/// Begins the calls of an admission, by the present table of its node.
fn begin(script: &Script, tables: &Tables, ext: &Ext, calls: &mut Comp)
    requires in_range { IsInRange script.now }
    requires tables { AreTables script.now tables.now }
    requires known { IsExtOf script.now ext.now }
    requires calls { calls.old ≡ record { decl = declaration_number script.now ext.now; comp = fresh (decl_of script.now ext.now).budget; waiting_handlers = [] } }
    ensures calls { calls.new ≡ started script.now tables.now ext.now }
    ensures none_waits { calls.new.comp.waiting ≡ [] }
{
    let decl = decl_in(script, decl_number(script, ext));
    let root = root_of(script, ext.cause);
    let handlers = tables.resolve(ext.node, tables.current(ext.node), root);
    calls.start(&decl.decl, handlers, root, ext.args);
}

/// The calls of a computation that hasn't begun, and a list of no turns, in the memory of the spare record if there is one.
fn fresh_parts(
    alloc: Global,
    spare: Option<Running>,
    decl: u32,
    budget: u32,
) -> Result<(Comp, Vec<Interval>), NoMemory>
    requires some { 1 ≤ budget }
    requires few { budget ≤ 256 }
    ensures calls { IfOk result (λ r. r.0 ≡ record { decl = decl; comp = fresh budget; waiting_handlers = [] }) }
    ensures turns { IfOk result (λ r. r.1.items ≡ []) }
{
    match spare {
        Some(
            Running {
                node: _,
                epoch: _,
                mut turns,
                calls,
                ended: _,
            },
        ) => {
            turns.clear();
            Ok((calls.renewed(decl, budget)?, turns))
        }
        None => Ok((Comp::new(alloc, decl, budget)?, Vec::new(alloc))),
    }
}

/// How many steps room is made for of a computation under this declaration, its Admit included.
fn steps_for(decl: &DeclDef) -> Result<u64, NoMemory>
    requires { decl.now.budget ≤ 256 }
    ensures { IfOk result (λ steps. steps ≡ steps_to_come decl.now + 1) }
{
    let fixed = STEPS_A_UNIT * u64::from(decl.budget) + BESIDE_UNITS + 1;
    sum(fixed, named_count(&decl.decl) as u64)
}

/// The turns of a computation under the declaration of this number, whose versions are taken.
fn turns_of(
    script: &Script,
    decl: u32,
    node: NodeId,
    versions: &mut Versions,
    turns: Vec<Interval>,
) -> Vec<Interval>
    requires in_range { IsInRange script.now }
    requires decl { decl < length script.now.decls }
    requires there { node.0 * length script.now.micros + length script.now.micros ≤ length versions.old.gv }
    requires small { (p : ℕ) → p < length script.now.micros → gv_at versions.old (node.0 * length script.now.micros + p) < most_versions }
    requires none { turns.items ≡ [] }
    requires room { length script.now.micros ≤ vec_capacity turns }
    ensures turns { result.items ≡ turns_taken (decl_at script.now decl).decl (length script.now.micros) node.0 versions.old.gv (length script.now.micros) }
    ensures gv { versions.new.gv ≡ raised (decl_at script.now decl).decl (length script.now.micros) node.0 versions.old.gv (length script.now.micros) }
    ensures lv { versions.new.lv ≡ versions.old.lv }
{
    let decl = decl_in(script, decl);
    take_turns(&decl.decl, script.micros.len(), node.0, versions, turns)
}

/// Takes the versions of a node for one more computation: each version rises by what the declaration allows of its
/// microprotocol, and the computation's turn there is what lies between.
fn take_turns(
    decl: &Decl,
    columns: usize,
    node: u32,
    versions: &mut Versions,
    turns: Vec<Interval>,
) -> Vec<Interval>
    requires weights { (p : ℕ) → weight decl.now p ≤ 256 }
    requires few { columns ≤ 24 }
    requires there { node * columns + columns ≤ length versions.old.gv }
    requires small { (p : ℕ) → p < columns → gv_at versions.old (node * columns + p) < most_versions }
    requires none { turns.items ≡ [] }
    requires room { columns ≤ vec_capacity turns }
    ensures turns { result.items ≡ turns_taken decl.now columns node versions.old.gv columns }
    ensures gv { versions.new.gv ≡ raised decl.now columns node versions.old.gv columns }
    ensures lv { versions.new.lv ≡ versions.old.lv }
{
    let mut turns = turns;
    let mut micro = 0;
    while (micro as usize) < columns {
        let turn = take_turn(decl, columns, node, micro, versions);
        turns.push_reserved(turn);
        micro += 1;
    }
    turns
}

fn take_turn(
    decl: &Decl,
    columns: usize,
    node: u32,
    micro: u32,
    versions: &mut Versions,
) -> Interval
    requires light { weight decl.now micro ≤ 256 }
    requires few { columns ≤ 24 }
    requires there { node * columns + micro < length versions.old.gv }
    requires small { gv_at versions.old (node * columns + micro) < most_versions }
    ensures turn { result ≡ record { from = gv_at versions.old (node * columns + micro); to = version_after decl.now columns node versions.old.gv micro } }
    ensures gv { versions.new.gv ≡ set versions.old.gv (node * columns + micro) result.to }
    ensures lv { versions.new.lv ≡ versions.old.lv }
{
    let weight = weight(decl, micro);
    let to = versions.admit(place(columns, node, micro), weight);
    Interval {
        from: to - u64::from(weight),
        to,
    }
}
