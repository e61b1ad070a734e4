//! Names that stand twice.
ghost use Rattle.std.specs.Prelude.{◌≡◌};
ghost use Rattle.samoa_grammar.specs.declared.draft.TableDraft.{TableDraft as TableValue};
ghost use Rattle.samoa_grammar.specs.Passes.{twice, body_twice, twice_fault};
ghost use Rattle.samoa_grammar.specs.Walks.{first_along};
ghost use Rattle.samoa_naming.specs.Finds.{Finds};
ghost use Rattle.samoa_naming.specs.Groups.{micros_twice, handlers_twice, decls_twice, events_twice, changes_twice, bodies_twice, bound_twice, rebound_twice, tables_twice};

use crate::directory::Directory;
use crate::lookups::each_once;
use crate::named::no_twice;
use samoa_form::Stop;
use samoa_grammar::{BodyDraft, Draft, TableDraft};
use samoa_model::Name;
use samoa_names::NameIndex;

#[tactic(auto, unfolding(crate::specs::Groups::micros_twice))]
fn micros_once(draft: &Directory) -> Result<(), Stop>
    ensures { Finds result (micros_twice draft.now) }
{
    each_once(draft.micros())
}

#[tactic(auto, unfolding(crate::specs::Groups::decls_twice))]
fn decls_once(draft: &Directory) -> Result<(), Stop>
    ensures { Finds result (decls_twice draft.now) }
{
    each_once(draft.decls())
}

#[tactic(auto, unfolding(crate::specs::Groups::events_twice))]
fn events_once(draft: &Directory) -> Result<(), Stop>
    ensures { Finds result (events_twice draft.now) }
{
    each_once(draft.events())
}

#[tactic(auto, unfolding(crate::specs::Groups::changes_twice))]
fn changes_once(draft: &Directory) -> Result<(), Stop>
    ensures { Finds result (changes_twice draft.now) }
{
    each_once(draft.changes())
}

/// That no name of a list of names stands a second time.
#[tactic(auto, using(samoa_names::proofs::Positions::same_names))]
fn names_once(names: &[Name]) -> Result<(), Stop>
    ensures { Finds result (twice names.now) }
{
    no_twice(names)
}

#[tactic(auto, using(crate::proofs::Along::along_items))]
fn lists_once(lists: &[NameIndex]) -> Result<(), Stop>
    ensures { Finds result (first_along twice lists.now) }
{
    for names in lists {
        each_once(names)?;
    }
    Ok(())
}

#[tactic(auto, using(crate::proofs::Groups::handlers_by_lists))]
fn handlers_once(draft: &Directory) -> Result<(), Stop>
    ensures { Finds result (handlers_twice draft.now) }
{
    lists_once(draft.handlers())
}

fn body_once(body: &BodyDraft) -> Result<(), Stop>
    ensures { Finds result (body_twice body.now) }
{
    match body {
        BodyDraft::Set { micros } => names_once(micros.as_slice()),
        BodyDraft::Bound { bounds } => no_twice(bounds.as_slice()),
        BodyDraft::Route { .. } => Ok(()),
    }
}

#[tactic(auto, using(crate::proofs::Along::along_items), unfolding(crate::specs::Groups::bodies_twice))]
fn bodies_once(draft: &Draft) -> Result<(), Stop>
    ensures { Finds result (bodies_twice draft.now) }
{
    for decl in draft.decls.as_slice() {
        body_once(&decl.body)?;
    }
    Ok(())
}

#[tactic(auto, using(crate::proofs::Along::along_items), unfolding(crate::specs::Groups::bound_twice))]
fn bound_once(draft: &Draft) -> Result<(), Stop>
    ensures { Finds result (bound_twice draft.now) }
{
    for event in draft.events.as_slice() {
        names_once(event.handlers.as_slice())?;
    }
    Ok(())
}

#[tactic(auto, using(crate::proofs::Along::along_items), unfolding(crate::specs::Groups::rebound_twice))]
fn rebound_once(draft: &Draft) -> Result<(), Stop>
    ensures { Finds result (rebound_twice draft.now) }
{
    for change in draft.changes.as_slice() {
        no_twice(change.table.as_slice())?;
    }
    Ok(())
}

#[tactic(auto, using(crate::proofs::Along::along_items))]
fn table_once(table: &[TableDraft]) -> Result<(), Stop>
    ensures { Finds result (first_along (λ (t : TableValue). twice t.handlers) table.now) }
{
    for row in table {
        names_once(row.handlers.as_slice())?;
    }
    Ok(())
}

#[tactic(auto, using(crate::proofs::Along::along_items), unfolding(crate::specs::Groups::tables_twice))]
fn tables_once(draft: &Draft) -> Result<(), Stop>
    ensures { Finds result (tables_twice draft.now) }
{
    for change in draft.changes.as_slice() {
        table_once(change.table.as_slice())?;
    }
    Ok(())
}

/// That no name stands twice where names are given, nor in a list that uses names.
#[tactic(auto, using(crate::proofs::Groups::twice_by_groups))]
pub fn no_doubles(draft: &Directory) -> Result<(), Stop>
    ensures { Finds result (twice_fault draft.now) }
{
    micros_once(draft)?;
    handlers_once(draft)?;
    decls_once(draft)?;
    events_once(draft)?;
    changes_once(draft)?;
    let whole = draft.draft();
    bodies_once(whole)?;
    bound_once(whole)?;
    rebound_once(whole)?;
    tables_once(whole)
}
