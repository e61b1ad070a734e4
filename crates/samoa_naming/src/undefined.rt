//! Names that aren't defined.
ghost use Rattle.std.specs.Prelude.{◌≡◌, ◌≤◌, length};
ghost use Rattle.std.specs.List.{All};
ghost use Rattle.samoa_grammar.specs.declared.draft.BoundDraft.{BoundDraft as BoundValue};
ghost use Rattle.samoa_grammar.specs.Passes.{among, micro_names, micro_unknown, body_unknown, event_unknown, table_unknown, change_unknown, cause_unknown, unknown_fault};
ghost use Rattle.samoa_grammar.specs.Walks.{first_along};
ghost use Rattle.samoa_form.specs.Limits.{HasMicroLimits};
ghost use Rattle.samoa_naming.specs.Finds.{Finds};
ghost use Rattle.samoa_naming.specs.Groups.{edge_unknown, micros_unknown, bodies_unknown, events_unknown, changes_unknown, causes_unknown};

use crate::directory::Directory;
use crate::handlers::{handler_known, handlers_known};
use crate::lookups::{known, names_known};
use samoa_form::Stop;
use samoa_grammar::{
    BodyDraft, BoundDraft, CauseDraft, ChangeDraft, EdgeDraft, EventDraft, MicroDraft, TableDraft,
};
use samoa_model::Name;

fn micro_part_known(draft: &Directory, micro: &MicroDraft) -> Result<(), Stop>
    ensures { Finds result (micro_unknown draft.now micro.now) }
{
    names_known(draft.events(), micro.ports.as_slice())?;
    names_known(draft.changes(), micro.changes.as_slice())
}

#[tactic(auto, using(crate::proofs::Along::along_items), unfolding(crate::specs::Groups::micros_unknown))]
fn micros_known(draft: &Directory) -> Result<(), Stop>
    ensures { Finds result (micros_unknown draft.now) }
{
    for micro in draft.draft().micros.as_slice() {
        micro_part_known(draft, micro)?;
    }
    Ok(())
}

#[tactic(auto, using(crate::proofs::Along::along_items))]
fn bounds_known(draft: &Directory, bounds: &[BoundDraft]) -> Result<(), Stop>
    ensures { Finds result (first_along (λ (b : BoundValue). among (micro_names draft.now) b.micro) bounds.now) }
{
    for bound in bounds {
        known(draft.micros(), &bound.micro)?;
    }
    Ok(())
}

#[tactic(auto, unfolding(crate::specs::Groups::edge_unknown))]
fn edge_known(draft: &Directory, edge: &EdgeDraft) -> Result<(), Stop>
    requires few { length draft.now.micros ≤ 24 }
    requires each { All HasMicroLimits draft.now.micros }
    ensures { Finds result (edge_unknown draft.now.micros edge.now) }
{
    handler_known(draft, &edge.from)?;
    handler_known(draft, &edge.to)
}

#[tactic(auto, using(crate::proofs::Along::along_items))]
fn edges_known(draft: &Directory, edges: &[EdgeDraft]) -> Result<(), Stop>
    requires few { length draft.now.micros ≤ 24 }
    requires each { All HasMicroLimits draft.now.micros }
    ensures { Finds result (first_along (edge_unknown draft.now.micros) edges.now) }
{
    for edge in edges {
        edge_known(draft, edge)?;
    }
    Ok(())
}

#[tactic(auto, unfolding(crate::specs::Groups::edge_unknown))]
fn body_known(draft: &Directory, body: &BodyDraft) -> Result<(), Stop>
    requires few { length draft.now.micros ≤ 24 }
    requires each { All HasMicroLimits draft.now.micros }
    ensures { Finds result (body_unknown draft.now body.now) }
{
    match body {
        BodyDraft::Set { micros } => names_known(draft.micros(), micros.as_slice()),
        BodyDraft::Bound { bounds } => bounds_known(draft, bounds.as_slice()),
        BodyDraft::Route { roots, edges } => {
            handlers_known(draft, roots.as_slice())?;
            edges_known(draft, edges.as_slice())
        }
    }
}

#[tactic(auto, using(crate::proofs::Along::along_items), unfolding(crate::specs::Groups::bodies_unknown))]
fn bodies_known(draft: &Directory) -> Result<(), Stop>
    requires few { length draft.now.micros ≤ 24 }
    requires each { All HasMicroLimits draft.now.micros }
    ensures { Finds result (bodies_unknown draft.now) }
{
    for decl in draft.draft().decls.as_slice() {
        body_known(draft, &decl.body)?;
    }
    Ok(())
}

fn event_part_known(draft: &Directory, event: &EventDraft) -> Result<(), Stop>
    requires few { length draft.now.micros ≤ 24 }
    requires each { All HasMicroLimits draft.now.micros }
    ensures { Finds result (event_unknown draft.now event.now) }
{
    known(draft.decls(), &event.decl)?;
    handlers_known(draft, event.handlers.as_slice())
}

#[tactic(auto, using(crate::proofs::Along::along_items), unfolding(crate::specs::Groups::events_unknown))]
fn events_known(draft: &Directory) -> Result<(), Stop>
    requires few { length draft.now.micros ≤ 24 }
    requires each { All HasMicroLimits draft.now.micros }
    ensures { Finds result (events_unknown draft.now) }
{
    for event in draft.draft().events.as_slice() {
        event_part_known(draft, event)?;
    }
    Ok(())
}

fn row_known(draft: &Directory, row: &TableDraft) -> Result<(), Stop>
    requires few { length draft.now.micros ≤ 24 }
    requires each { All HasMicroLimits draft.now.micros }
    ensures { Finds result (table_unknown draft.now row.now) }
{
    known(draft.events(), &row.event)?;
    handlers_known(draft, row.handlers.as_slice())
}

#[tactic(auto, using(crate::proofs::Along::along_items))]
fn table_known(draft: &Directory, table: &[TableDraft]) -> Result<(), Stop>
    requires few { length draft.now.micros ≤ 24 }
    requires each { All HasMicroLimits draft.now.micros }
    ensures { Finds result (first_along (table_unknown draft.now) table.now) }
{
    for row in table {
        row_known(draft, row)?;
    }
    Ok(())
}

fn change_part_known(draft: &Directory, change: &ChangeDraft) -> Result<(), Stop>
    requires few { length draft.now.micros ≤ 24 }
    requires each { All HasMicroLimits draft.now.micros }
    ensures { Finds result (change_unknown draft.now change.now) }
{
    known(draft.events(), &change.event)?;
    table_known(draft, change.table.as_slice())
}

#[tactic(auto, using(crate::proofs::Along::along_items), unfolding(crate::specs::Groups::changes_unknown))]
fn changes_known(draft: &Directory) -> Result<(), Stop>
    requires few { length draft.now.micros ≤ 24 }
    requires each { All HasMicroLimits draft.now.micros }
    ensures { Finds result (changes_unknown draft.now) }
{
    for change in draft.draft().changes.as_slice() {
        change_part_known(draft, change)?;
    }
    Ok(())
}

fn cause_known(draft: &Directory, cause: &CauseDraft) -> Result<(), Stop>
    ensures { Finds result (cause_unknown draft.now cause.now) }
{
    match cause {
        CauseDraft::Event(name) => known(draft.events(), name),
        CauseDraft::Change(name) => known(draft.changes(), name),
    }
}

#[tactic(auto, using(crate::proofs::Along::along_items), unfolding(crate::specs::Groups::causes_unknown))]
fn causes_known(draft: &Directory) -> Result<(), Stop>
    ensures { Finds result (causes_unknown draft.now) }
{
    for item in draft.draft().does.as_slice() {
        cause_known(draft, &item.cause)?;
    }
    Ok(())
}

/// That each name that is used is defined.
#[tactic(auto, using(crate::proofs::Groups::unknown_by_groups))]
pub fn all_defined(draft: &Directory) -> Result<(), Stop>
    requires few { length draft.now.micros ≤ 24 }
    requires each { All HasMicroLimits draft.now.micros }
    ensures { Finds result (unknown_fault draft.now) }
{
    micros_known(draft)?;
    bodies_known(draft)?;
    events_known(draft)?;
    changes_known(draft)?;
    causes_known(draft)
}
