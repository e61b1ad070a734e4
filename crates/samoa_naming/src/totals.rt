//! Positions and totals.
ghost use Rattle.std.specs.Prelude.{◌≡◌, ◌<◌, ◌≤◌, length, count_by};
ghost use Rattle.std.specs.List.{All};
ghost use Rattle.samoa_model.specs.contracts.setup.KindPartialEq.TheImpl.{ghosts};
ghost use Rattle.samoa_model.specs.Range.{ports_needed as needed};
ghost use Rattle.samoa_grammar.specs.declared.draft.MicroDraft.{MicroDraft as MicroValue};
ghost use Rattle.samoa_grammar.specs.Passes.{ports_fault, is_instr_of, instr_fault, vertices_fault, node_fault, loss_total, tick_fault, totals_fault};
ghost use Rattle.samoa_grammar.specs.Walks.{first_along};
ghost use Rattle.samoa_form.specs.Limits.{HasMicroLimits, HasLimits};
ghost use Rattle.samoa_naming.specs.Finds.{Finds};
ghost use Rattle.samoa_naming.specs.Groups.{handler_outside, micro_outside, ports_missing, codes_outside, vertices_over, does_outside, losses_outside, crashes_outside, ticks_over, kinds_over, kind_over};

use crate::directory::Directory;
use crate::faults::{over, wrong_form};
use crate::routes::vertices;
use samoa_form::Stop;
use samoa_grammar::{BodyDraft, DoDraft, Draft, LossDraft, MicroDraft};
use samoa_model::{CodeDef, Instr, Kind};
use std::alloc::Global;

const MOST_VERTICES: usize = 32;

const MOST_OF_A_KIND: usize = 32;

/// How many ports a kind needs.
fn ports_needed(kind: Kind) -> usize
    ensures { result ≡ needed kind }
{
    match kind {
        Kind::Prog => 0,
        Kind::Link | Kind::Views => 1,
        Kind::Fd | Kind::Rbcast | Kind::Seqcast | Kind::Repl => 2,
        Kind::Cons | Kind::Abcast => 3,
    }
}

fn has_ports(micro: &MicroDraft) -> Result<(), Stop>
    ensures { Finds result (ports_fault micro.now) }
{
    if ports_needed(micro.kind) <= micro.ports.len() {
        Ok(())
    } else {
        Err(wrong_form("ports"))
    }
}

#[tactic(auto, using(crate::proofs::Along::along_items), unfolding(crate::specs::Groups::ports_missing))]
fn all_have_ports(draft: &Draft) -> Result<(), Stop>
    ensures { Finds result (ports_missing draft.now) }
{
    for micro in draft.micros.as_slice() {
        has_ports(micro)?;
    }
    Ok(())
}

/// Whether the positions of an instruction are below the number of ports or changes.
fn is_within(ports: usize, changes: usize, instr: &Instr) -> bool
    ensures { result ≡ is_instr_of ports changes instr.now }
{
    match instr {
        Instr::Call { port, .. } | Instr::Later { port, .. } | Instr::Send { port, .. } => {
            (*port as usize) < ports
        }
        Instr::Change { c, .. } => (*c as usize) < changes,
        _ => true,
    }
}

fn instr_within(micro: &MicroDraft, instr: &Instr) -> Result<(), Stop>
    ensures { Finds result (instr_fault micro.now instr.now) }
{
    if is_within(micro.ports.len(), micro.changes.len(), instr) {
        Ok(())
    } else {
        Err(wrong_form("code"))
    }
}

#[tactic(auto, using(crate::proofs::Along::along_items), unfolding(crate::specs::Groups::handler_outside))]
fn handler_within(micro: &MicroDraft, handler: &CodeDef) -> Result<(), Stop>
    ensures { Finds result (handler_outside micro.now handler.now) }
{
    for instr in handler.code.as_slice() {
        instr_within(micro, instr)?;
    }
    Ok(())
}

#[tactic(auto, using(crate::proofs::Along::along_items), unfolding(crate::specs::Groups::micro_outside))]
fn micro_within(micro: &MicroDraft) -> Result<(), Stop>
    ensures { Finds result (micro_outside micro.now) }
{
    for handler in micro.handlers.as_slice() {
        handler_within(micro, handler)?;
    }
    Ok(())
}

#[tactic(auto, using(crate::proofs::Along::along_items), unfolding(crate::specs::Groups::codes_outside))]
fn codes_within(draft: &Draft) -> Result<(), Stop>
    ensures { Finds result (codes_outside draft.now) }
{
    for micro in draft.micros.as_slice() {
        micro_within(micro)?;
    }
    Ok(())
}

fn body_within(alloc: Global, draft: &Directory, body: &BodyDraft) -> Result<(), Stop>
    requires few { length draft.now.micros ≤ 24 }
    requires each { All HasMicroLimits draft.now.micros }
    ensures { Finds result (vertices_fault draft.now.micros body.now) }
{
    if let BodyDraft::Route { roots, edges } = body {
        let found = vertices(alloc, draft, roots.as_slice(), edges.as_slice())?;
        if found.len() > MOST_VERTICES {
            return Err(over("edges", 32));
        }
    }
    Ok(())
}

#[tactic(auto, using(crate::proofs::Along::along_items), unfolding(crate::specs::Groups::vertices_over))]
fn bodies_within(alloc: Global, draft: &Directory) -> Result<(), Stop>
    requires few { length draft.now.micros ≤ 24 }
    requires each { All HasMicroLimits draft.now.micros }
    ensures { Finds result (vertices_over draft.now) }
{
    for decl in draft.draft().decls.as_slice() {
        body_within(alloc, draft, &decl.body)?;
    }
    Ok(())
}

/// That a node is one of the script's.
fn node_within(nodes: u32, key: &str, node: u64) -> Result<(), Stop>
    requires some { 0 < length key.now }
    requires few { length key.now ≤ 33 }
    ensures { Finds result (node_fault nodes key.now node) }
{
    if node < u64::from(nodes) {
        Ok(())
    } else {
        Err(over(key, u64::from(nodes.saturating_sub(1))))
    }
}

#[tactic(auto, using(crate::proofs::Along::along_items), unfolding(crate::specs::Groups::does_outside))]
fn does_within(draft: &Draft) -> Result<(), Stop>
    ensures { Finds result (does_outside draft.now) }
{
    for item in draft.does.as_slice() {
        node_within(draft.nodes, "node", item.node)?;
    }
    Ok(())
}

fn loss_within(nodes: u32, loss: &LossDraft) -> Result<(), Stop>
    ensures { Finds result (loss_total nodes loss.now) }
{
    node_within(nodes, "from", loss.from)?;
    node_within(nodes, "to", loss.to)
}

#[tactic(auto, using(crate::proofs::Along::along_items), unfolding(crate::specs::Groups::losses_outside))]
fn losses_within(draft: &Draft) -> Result<(), Stop>
    ensures { Finds result (losses_outside draft.now) }
{
    for loss in draft.losses.as_slice() {
        loss_within(draft.nodes, loss)?;
    }
    Ok(())
}

#[tactic(auto, using(crate::proofs::Along::along_items), unfolding(crate::specs::Groups::crashes_outside))]
fn crashes_within(draft: &Draft) -> Result<(), Stop>
    ensures { Finds result (crashes_outside draft.now) }
{
    for crash in draft.crashes.as_slice() {
        node_within(draft.nodes, "node", crash.node)?;
    }
    Ok(())
}

fn tick_within(ticks: u32, item: &DoDraft) -> Result<(), Stop>
    ensures { Finds result (tick_fault ticks item.now) }
{
    if u64::from(ticks) < item.tick {
        Err(over("tick", u64::from(ticks)))
    } else {
        Ok(())
    }
}

#[tactic(auto, using(crate::proofs::Along::along_items), unfolding(crate::specs::Groups::ticks_over))]
fn ticks_within(draft: &Draft) -> Result<(), Stop>
    ensures { Finds result (ticks_over draft.now) }
{
    for item in draft.does.as_slice() {
        tick_within(draft.ticks, item)?;
    }
    Ok(())
}

/// How many microprotocols are of a kind.
fn count(micros: &[MicroDraft], kind: Kind) -> usize
    ensures value { result ≡ count_by (λ (m : MicroValue). ghosts.eq m.kind kind) micros.now }
    ensures most { result ≤ length micros.now }
{
    let mut count = 0;
    for micro in micros {
        if micro.kind == kind {
            count += 1;
        }
    }
    count
}

#[tactic(auto, unfolding(crate::specs::Groups::kind_over))]
fn kind_within(draft: &Draft, name: &str, kind: Kind) -> Result<(), Stop>
    requires nodes { draft.now.nodes ≤ 8 }
    requires micros { length draft.now.micros ≤ 24 }
    requires some { 0 < length name.now }
    requires few { length name.now ≤ 33 }
    ensures { Finds result (kind_over draft.now name.now kind) }
{
    let total = draft.nodes as usize * count(draft.micros.as_slice(), kind);
    if total > MOST_OF_A_KIND {
        Err(over(name, 32))
    } else {
        Ok(())
    }
}

#[tactic(auto, using(crate::proofs::Groups::kinds_by_kind))]
fn kinds_within(draft: &Draft) -> Result<(), Stop>
    requires nodes { draft.now.nodes ≤ 8 }
    requires micros { length draft.now.micros ≤ 24 }
    ensures { Finds result (kinds_over draft.now) }
{
    kind_within(draft, "prog", Kind::Prog)?;
    kind_within(draft, "link", Kind::Link)?;
    kind_within(draft, "fd", Kind::Fd)?;
    kind_within(draft, "rbcast", Kind::Rbcast)?;
    kind_within(draft, "cons", Kind::Cons)?;
    kind_within(draft, "abcast", Kind::Abcast)?;
    kind_within(draft, "seqcast", Kind::Seqcast)?;
    kind_within(draft, "repl", Kind::Repl)?;
    kind_within(draft, "views", Kind::Views)
}

/// That each position is there, and each total within its limit.
#[tactic(auto, using(crate::proofs::Groups::totals_by_groups))]
pub fn totals_within(alloc: Global, draft: &Directory) -> Result<(), Stop>
    requires { HasLimits draft.now }
    ensures { Finds result (totals_fault draft.now) }
{
    let whole = draft.draft();
    all_have_ports(whole)?;
    codes_within(whole)?;
    bodies_within(alloc, draft)?;
    does_within(whole)?;
    losses_within(whole)?;
    crashes_within(whole)?;
    ticks_within(whole)?;
    kinds_within(whole)
}
