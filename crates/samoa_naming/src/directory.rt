//! A draft whose names have numbers.
ghost use Rattle.std.specs.Prelude.{◌≡◌, ◌≤◌, length, map, IfOk};
ghost use Rattle.samoa_grammar.specs.Passes.{micro_names, decl_names, event_names, change_names};
ghost use Rattle.samoa_grammar.specs.Meaning.{number_in_names, micros_named, event_named, change_named};
ghost use Rattle.samoa_naming.specs.Groups.{own_names};

use crate::lookups::number;
use crate::named::Named;
use samoa_grammar::{Draft, MicroDraft};
use samoa_model::{ChangeId, EventId, Name, NoMemory};
use samoa_names::NameIndex;
use std::alloc::Global;
use std::marker::Model;

/// A draft with the numbers of its names, each in its list. Contracts see the draft.
#[derive(Drop)]
pub struct Directory<'a> {
    draft: &'a Draft,
    micros: NameIndex,
    handlers: Vec<NameIndex>,
    decls: NameIndex,
    events: NameIndex,
    changes: NameIndex,
}

impl<'a> Model for Directory<'a> {
    ghost use Rattle.std.specs.Prelude.{◌≡◌, map};
    ghost use Rattle.samoa_grammar.specs.declared.draft.Draft.{Draft as DraftValue};
    ghost use Rattle.samoa_grammar.specs.Passes.{micro_names, decl_names, event_names, change_names};
    ghost use Rattle.samoa_naming.specs.Groups.{own_names};

    ghost Value = { DraftValue };

    ghost view = { λ d. d.draft.now };

    ghost invariant = { λ d. (d.micros ≡ micro_names d.draft.now) × (d.handlers.items ≡ map own_names d.draft.now.micros) × (d.decls ≡ decl_names d.draft.now) × (d.events ≡ event_names d.draft.now) × (d.changes ≡ change_names d.draft.now) };
}

impl<'a> Directory<'a> {
    /// Numbers the names of a draft's microprotocols, of their own handlers, and of its declarations, events and changes.
    pub fn new(alloc: Global, draft: &'a Draft) -> Result<Directory<'a>, NoMemory>
        ensures { IfOk result (λ d. d ≡ draft.now) }
    {
        let micros = index_of(alloc, draft.micros.as_slice())?;
        let handlers = handlers_of(alloc, draft.micros.as_slice())?;
        let decls = index_of(alloc, draft.decls.as_slice())?;
        let events = index_of(alloc, draft.events.as_slice())?;
        let changes = index_of(alloc, draft.changes.as_slice())?;
        Ok(Directory {
            draft,
            micros,
            handlers,
            decls,
            events,
            changes,
        })
    }

    /// The draft.
    pub fn draft(&self) -> &Draft
        ensures { result.now ≡ self.now }
    {
        self.draft
    }

    /// The names of microprotocols.
    pub fn micros(&self) -> &NameIndex
        ensures { result.now ≡ micro_names self.now }
    {
        &self.micros
    }

    /// The names of the handlers of each microprotocol's script.
    pub fn handlers(&self) -> &[NameIndex]
        ensures { result.now ≡ map own_names self.now.micros }
    {
        self.handlers.as_slice()
    }

    /// The names of declarations.
    pub fn decls(&self) -> &NameIndex
        ensures { result.now ≡ decl_names self.now }
    {
        &self.decls
    }

    /// The names of events.
    pub fn events(&self) -> &NameIndex
        ensures { result.now ≡ event_names self.now }
    {
        &self.events
    }

    /// The names of changes.
    pub fn changes(&self) -> &NameIndex
        ensures { result.now ≡ change_names self.now }
    {
        &self.changes
    }

    /// The number of a microprotocol.
    #[tactic(auto, using(crate::proofs::Sizes::mapped_lists))]
    pub fn micro(&self, name: &Name) -> u32
        requires { length self.now.micros ≤ 24 }
        ensures { result ≡ number_in_names (micros_named self.now) name.now }
    {
        number(&self.micros, name)
    }

    /// The number of a declaration.
    #[tactic(auto, using(crate::proofs::Sizes::mapped_lists))]
    pub fn decl(&self, name: &Name) -> u32
        requires { length self.now.decls ≤ 64 }
        ensures { result ≡ number_in_names (decl_names self.now) name.now }
    {
        number(&self.decls, name)
    }

    /// The number of an event.
    #[tactic(auto, using(crate::proofs::Sizes::mapped_lists))]
    pub fn event(&self, name: &Name) -> EventId
        requires { length self.now.events ≤ 64 }
        ensures { result ≡ event_named self.now name.now }
    {
        EventId(number(&self.events, name))
    }

    /// The number of a change.
    #[tactic(auto, using(crate::proofs::Sizes::mapped_lists))]
    pub fn change(&self, name: &Name) -> ChangeId
        requires { length self.now.changes ≤ 16 }
        ensures { result ≡ change_named self.now name.now }
    {
        ChangeId(number(&self.changes, name))
    }
}

/// The numbers of the names of a list.
fn index_of<T: Named>(alloc: Global, items: &[T]) -> Result<NameIndex, NoMemory>
    ensures { IfOk result (λ n. n ≡ map T.Named.called items.now) }
{
    let mut names = Vec::new(alloc);
    for item in items {
        names.push(item.name().copied())?;
    }
    NameIndex::new(alloc, names)
}

fn own_handlers(alloc: Global, micro: &MicroDraft) -> Result<NameIndex, NoMemory>
    ensures { IfOk result (λ n. n ≡ own_names micro.now) }
{
    index_of(alloc, micro.handlers.as_slice())
}

/// The numbers of the names of each microprotocol's own handlers.
fn handlers_of(alloc: Global, micros: &[MicroDraft]) -> Result<Vec<NameIndex>, NoMemory>
    ensures { IfOk result (λ v. v.items ≡ map own_names micros.now) }
{
    let mut handlers = Vec::new(alloc);
    for micro in micros {
        handlers.push(own_handlers(alloc, micro)?)?;
    }
    Ok(handlers)
}
