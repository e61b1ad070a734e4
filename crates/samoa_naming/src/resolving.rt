//! The script that a draft means.
ghost use Rattle.std.specs.Prelude.{◌≡◌, ◌≤◌, ℕ, List, length, map, None, IfOk};
ghost use Rattle.std.specs.List.{All};
ghost use Rattle.samoa_grammar.specs.declared.draft.BoundDraft.{BoundDraft as BoundValue};
ghost use Rattle.samoa_grammar.specs.declared.draft.DeclDraft.{DeclDraft as DeclValue};
ghost use Rattle.samoa_grammar.specs.Passes.{vertices_fault, totals_fault};
ghost use Rattle.samoa_grammar.specs.Meaning.{number_in_names, micros_named, event_named, change_named, handler_of, vertices_of, vertex_of, route_of, micro_meant, body_meant, decl_meant, event_meant, table_meant, change_meant, cause_meant, do_meant, loss_meant, crash_meant, script_of};
ghost use Rattle.samoa_form.specs.Limits.{HasMicroLimits, HasLimits};
ghost use Rattle.samoa_naming.specs.Sizes.{FitsDo, FitsLoss, FitsCrash};

use crate::directory::Directory;
use crate::handlers::handler;
use crate::routes::{edges_once, roots_once, vertex, vertices};
use samoa_grammar::{
    BodyDraft, BoundDraft, CauseDraft, ChangeDraft, CrashDraft, DeclDraft, DoDraft, EdgeDraft,
    EventDraft, LossDraft, MicroDraft, TableDraft,
};
use samoa_model::{
    Cause, ChangeDef, ChangeId, CrashDef, Decl, DeclDef, DoDef, EventDef, EventId, HandlerId,
    Listed, LossDef, MicroDef, Name, NoMemory, NodeId, Script, TableDef,
};
use std::alloc::Global;

fn events_of(alloc: Global, draft: &Directory, names: &[Name]) -> Result<Listed<EventId>, NoMemory>
    requires { length draft.now.events ≤ 64 }
    ensures { IfOk result (λ l. l ≡ map (event_named draft.now) names.now) }
{
    let mut found = Vec::new(alloc);
    for name in names {
        found.push(draft.event(name))?;
    }
    Ok(Listed::from_vec(found))
}

fn changes_of(
    alloc: Global,
    draft: &Directory,
    names: &[Name],
) -> Result<Listed<ChangeId>, NoMemory>
    requires { length draft.now.changes ≤ 16 }
    ensures { IfOk result (λ l. l ≡ map (change_named draft.now) names.now) }
{
    let mut found = Vec::new(alloc);
    for name in names {
        found.push(draft.change(name))?;
    }
    Ok(Listed::from_vec(found))
}

fn handlers_of(
    alloc: Global,
    draft: &Directory,
    names: &[Name],
) -> Result<Listed<HandlerId>, NoMemory>
    requires few { length draft.now.micros ≤ 24 }
    requires each { All HasMicroLimits draft.now.micros }
    ensures { IfOk result (λ l. l ≡ map (handler_of draft.now.micros) names.now) }
{
    let mut found = Vec::new(alloc);
    for name in names {
        found.push(handler(draft, name))?;
    }
    Ok(Listed::from_vec(found))
}

#[tactic(auto, unfolding(samoa_grammar::specs::Meaning::micro_meant))]
fn micro_def(alloc: Global, draft: &Directory, micro: &MicroDraft) -> Result<MicroDef, NoMemory>
    requires events { length draft.now.events ≤ 64 }
    requires changes { length draft.now.changes ≤ 16 }
    ensures { IfOk result (λ m. m ≡ micro_meant draft.now micro.now) }
{
    let ports = events_of(alloc, draft, micro.ports.as_slice())?;
    let changes = changes_of(alloc, draft, micro.changes.as_slice())?;
    let handlers = micro.handlers.each_copied(alloc)?;
    Ok(MicroDef {
        name: micro.name.copied(),
        kind: micro.kind,
        nums: micro.nums,
        ports,
        changes,
        handlers,
    })
}

fn micro_defs(alloc: Global, draft: &Directory) -> Result<Listed<MicroDef>, NoMemory>
    requires events { length draft.now.events ≤ 64 }
    requires changes { length draft.now.changes ≤ 16 }
    ensures { IfOk result (λ l. l ≡ map (micro_meant draft.now) draft.now.micros) }
{
    let mut found = Vec::new(alloc);
    for micro in draft.draft().micros.as_slice() {
        found.push(micro_def(alloc, draft, micro)?)?;
    }
    Ok(Listed::from_vec(found))
}

fn set(alloc: Global, draft: &Directory, names: &[Name]) -> Result<Listed<u32>, NoMemory>
    requires { length draft.now.micros ≤ 24 }
    ensures { IfOk result (λ l. l ≡ map (number_in_names (micros_named draft.now)) names.now) }
{
    let mut found = Vec::new(alloc);
    for name in names {
        found.push(draft.micro(name))?;
    }
    Ok(Listed::from_vec(found))
}

fn bound(
    alloc: Global,
    draft: &Directory,
    bounds: &[BoundDraft],
) -> Result<Listed<(u32, u32)>, NoMemory>
    requires { length draft.now.micros ≤ 24 }
    ensures { IfOk result (λ l. l ≡ map (λ (b : BoundValue). (number_in_names (micros_named draft.now) b.micro, b.calls)) bounds.now) }
{
    let mut found = Vec::new(alloc);
    for bound in bounds {
        found.push((draft.micro(&bound.micro), bound.calls))?;
    }
    Ok(Listed::from_vec(found))
}

fn root_numbers(
    alloc: Global,
    vertices: &[HandlerId],
    roots: &[HandlerId],
) -> Result<Listed<u32>, NoMemory>
    requires { length vertices.now ≤ 32 }
    ensures { IfOk result (λ l. l ≡ map (vertex_of vertices.now) roots.now) }
{
    let mut found = Vec::new(alloc);
    for root in roots {
        found.push(vertex(vertices, root))?;
    }
    Ok(Listed::from_vec(found))
}

fn route(
    alloc: Global,
    draft: &Directory,
    roots: &[Name],
    edges: &[EdgeDraft],
) -> Result<Decl, NoMemory>
    requires few { length draft.now.micros ≤ 24 }
    requires each { All HasMicroLimits draft.now.micros }
    requires vertices { length (vertices_of draft.now.micros roots.now edges.now) ≤ 32 }
    ensures { IfOk result (λ d. d ≡ route_of draft.now.micros roots.now edges.now (vertices_of draft.now.micros roots.now edges.now)) }
{
    let vertices = vertices(alloc, draft, roots, edges)?;
    let first = roots_once(alloc, draft, roots)?;
    let roots = root_numbers(alloc, vertices.as_slice(), first.as_slice())?;
    let edges = edges_once(alloc, draft, vertices.as_slice(), edges)?;
    Ok(Decl::Route {
        vertices: Listed::from_vec(vertices),
        roots,
        edges: Listed::from_vec(edges),
    })
}

fn body(alloc: Global, draft: &Directory, body: &BodyDraft) -> Result<Decl, NoMemory>
    requires few { length draft.now.micros ≤ 24 }
    requires each { All HasMicroLimits draft.now.micros }
    requires within { vertices_fault draft.now.micros body.now ≡ None }
    ensures { IfOk result (λ d. d ≡ body_meant draft.now body.now) }
{
    match body {
        BodyDraft::Set { micros } => {
            let micros = set(alloc, draft, micros.as_slice())?;
            Ok(Decl::Set { micros })
        }
        BodyDraft::Bound { bounds } => {
            let bounds = bound(alloc, draft, bounds.as_slice())?;
            Ok(Decl::Bound { bounds })
        }
        BodyDraft::Route { roots, edges } => {
            route(alloc, draft, roots.as_slice(), edges.as_slice())
        }
    }
}

#[tactic(auto, unfolding(samoa_grammar::specs::Meaning::decl_meant))]
fn decl_def(alloc: Global, draft: &Directory, decl: &DeclDraft) -> Result<DeclDef, NoMemory>
    requires few { length draft.now.micros ≤ 24 }
    requires each { All HasMicroLimits draft.now.micros }
    requires within { vertices_fault draft.now.micros decl.now.body ≡ None }
    ensures { IfOk result (λ d. d ≡ decl_meant draft.now decl.now) }
{
    Ok(DeclDef {
        name: decl.name.copied(),
        budget: decl.budget,
        decl: body(alloc, draft, &decl.body)?,
    })
}

fn decl_defs(alloc: Global, draft: &Directory) -> Result<Listed<DeclDef>, NoMemory>
    requires few { length draft.now.micros ≤ 24 }
    requires each { All HasMicroLimits draft.now.micros }
    requires within { All (λ (d : DeclValue). vertices_fault draft.now.micros d.body ≡ None) draft.now.decls }
    ensures { IfOk result (λ l. l ≡ map (decl_meant draft.now) draft.now.decls) }
{
    let mut found = Vec::new(alloc);
    for decl in draft.draft().decls.as_slice() {
        found.push(decl_def(alloc, draft, decl)?)?;
    }
    Ok(Listed::from_vec(found))
}

#[tactic(auto, unfolding(samoa_grammar::specs::Meaning::event_meant))]
fn event_def(alloc: Global, draft: &Directory, event: &EventDraft) -> Result<EventDef, NoMemory>
    requires few { length draft.now.micros ≤ 24 }
    requires each { All HasMicroLimits draft.now.micros }
    requires decls { length draft.now.decls ≤ 64 }
    ensures { IfOk result (λ e. e ≡ event_meant draft.now event.now) }
{
    let handlers = handlers_of(alloc, draft, event.handlers.as_slice())?;
    Ok(EventDef {
        name: event.name.copied(),
        decl: draft.decl(&event.decl),
        handlers,
    })
}

fn event_defs(alloc: Global, draft: &Directory) -> Result<Listed<EventDef>, NoMemory>
    requires few { length draft.now.micros ≤ 24 }
    requires each { All HasMicroLimits draft.now.micros }
    requires decls { length draft.now.decls ≤ 64 }
    ensures { IfOk result (λ l. l ≡ map (event_meant draft.now) draft.now.events) }
{
    let mut found = Vec::new(alloc);
    for event in draft.draft().events.as_slice() {
        found.push(event_def(alloc, draft, event)?)?;
    }
    Ok(Listed::from_vec(found))
}

#[tactic(auto, unfolding(samoa_grammar::specs::Meaning::table_meant))]
fn row(alloc: Global, draft: &Directory, row: &TableDraft) -> Result<TableDef, NoMemory>
    requires few { length draft.now.micros ≤ 24 }
    requires each { All HasMicroLimits draft.now.micros }
    requires events { length draft.now.events ≤ 64 }
    ensures { IfOk result (λ t. t ≡ table_meant draft.now row.now) }
{
    let handlers = handlers_of(alloc, draft, row.handlers.as_slice())?;
    Ok(TableDef {
        event: draft.event(&row.event),
        handlers,
    })
}

fn table(
    alloc: Global,
    draft: &Directory,
    rows: &[TableDraft],
) -> Result<Listed<TableDef>, NoMemory>
    requires few { length draft.now.micros ≤ 24 }
    requires each { All HasMicroLimits draft.now.micros }
    requires events { length draft.now.events ≤ 64 }
    ensures { IfOk result (λ l. l ≡ map (table_meant draft.now) rows.now) }
{
    let mut found = Vec::new(alloc);
    for draft_row in rows {
        found.push(row(alloc, draft, draft_row)?)?;
    }
    Ok(Listed::from_vec(found))
}

#[tactic(auto, unfolding(samoa_grammar::specs::Meaning::change_meant))]
fn change_def(alloc: Global, draft: &Directory, change: &ChangeDraft) -> Result<ChangeDef, NoMemory>
    requires few { length draft.now.micros ≤ 24 }
    requires each { All HasMicroLimits draft.now.micros }
    requires events { length draft.now.events ≤ 64 }
    ensures { IfOk result (λ c. c ≡ change_meant draft.now change.now) }
{
    let table = table(alloc, draft, change.table.as_slice())?;
    Ok(ChangeDef {
        name: change.name.copied(),
        event: draft.event(&change.event),
        table,
    })
}

fn change_defs(alloc: Global, draft: &Directory) -> Result<Listed<ChangeDef>, NoMemory>
    requires few { length draft.now.micros ≤ 24 }
    requires each { All HasMicroLimits draft.now.micros }
    requires events { length draft.now.events ≤ 64 }
    ensures { IfOk result (λ l. l ≡ map (change_meant draft.now) draft.now.changes) }
{
    let mut found = Vec::new(alloc);
    for change in draft.draft().changes.as_slice() {
        found.push(change_def(alloc, draft, change)?)?;
    }
    Ok(Listed::from_vec(found))
}

fn cause(draft: &Directory, cause: &CauseDraft) -> Cause
    requires events { length draft.now.events ≤ 64 }
    requires changes { length draft.now.changes ≤ 16 }
    ensures { result ≡ cause_meant draft.now cause.now }
{
    match cause {
        CauseDraft::Event(name) => Cause::Event(draft.event(name)),
        CauseDraft::Change(name) => Cause::Change(draft.change(name)),
    }
}

#[tactic(auto, unfolding(samoa_grammar::specs::Meaning::do_meant))]
fn do_def(draft: &Directory, item: &DoDraft) -> DoDef
    requires events { length draft.now.events ≤ 64 }
    requires changes { length draft.now.changes ≤ 16 }
    requires fits { FitsDo item.now }
    ensures { result ≡ do_meant draft.now item.now }
{
    DoDef {
        tick: item.tick as u32,
        node: NodeId(item.node as u32),
        cause: cause(draft, &item.cause),
        args: item.args,
    }
}

fn do_defs(alloc: Global, draft: &Directory) -> Result<Listed<DoDef>, NoMemory>
    requires events { length draft.now.events ≤ 64 }
    requires changes { length draft.now.changes ≤ 16 }
    requires fits { All FitsDo draft.now.does }
    ensures { IfOk result (λ l. l ≡ map (do_meant draft.now) draft.now.does) }
{
    let mut found = Vec::new(alloc);
    for item in draft.draft().does.as_slice() {
        found.push(do_def(draft, item))?;
    }
    Ok(Listed::from_vec(found))
}

fn loss_def(loss: &LossDraft) -> LossDef
    requires { FitsLoss loss.now }
    ensures { result ≡ loss_meant loss.now }
{
    LossDef {
        from: NodeId(loss.from as u32),
        to: NodeId(loss.to as u32),
        first: loss.first,
        last: loss.last,
    }
}

fn loss_defs(alloc: Global, losses: &[LossDraft]) -> Result<Listed<LossDef>, NoMemory>
    requires { All FitsLoss losses.now }
    ensures { IfOk result (λ l. l ≡ map loss_meant losses.now) }
{
    let mut found = Vec::new(alloc);
    for loss in losses {
        found.push(loss_def(loss))?;
    }
    Ok(Listed::from_vec(found))
}

fn crash_def(crash: &CrashDraft) -> CrashDef
    requires { FitsCrash crash.now }
    ensures { result ≡ crash_meant crash.now }
{
    CrashDef {
        node: NodeId(crash.node as u32),
        tick: crash.tick,
    }
}

fn crash_defs(alloc: Global, crashes: &[CrashDraft]) -> Result<Listed<CrashDef>, NoMemory>
    requires { All FitsCrash crashes.now }
    ensures { IfOk result (λ l. l ≡ map crash_meant crashes.now) }
{
    let mut found = Vec::new(alloc);
    for crash in crashes {
        found.push(crash_def(crash))?;
    }
    Ok(Listed::from_vec(found))
}

/// The script that a draft means whose totals are within their limits, in memory of its own.
#[tactic(auto, unfolding(samoa_grammar::specs::Meaning::script_of))]
pub fn resolve(alloc: Global, draft: &Directory) -> Result<Script, NoMemory>
    requires limits { HasLimits draft.now }
    requires totals { totals_fault draft.now ≡ None }
    ensures { IfOk result (λ s. s ≡ script_of draft.now) }
{
    let whole = draft.draft();
    let micros = micro_defs(alloc, draft)?;
    let decls = decl_defs(alloc, draft)?;
    let events = event_defs(alloc, draft)?;
    let changes = change_defs(alloc, draft)?;
    let does = do_defs(alloc, draft)?;
    let losses = loss_defs(alloc, whole.losses.as_slice())?;
    let crashes = crash_defs(alloc, whole.crashes.as_slice())?;
    Ok(Script {
        nodes: whole.nodes,
        ticks: whole.ticks,
        micros,
        decls,
        events,
        changes,
        does,
        losses,
        crashes,
    })
}
