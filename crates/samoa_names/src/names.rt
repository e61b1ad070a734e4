//! The numbers of events, by their names.
ghost use Rattle.std.specs.Prelude.{◌≡◌, ◌≤◌, length, map, IfOk};
ghost use Rattle.samoa_names.specs.Names.{event_names, event_named};

use crate::NameIndex;
use samoa_model::{EventDef, EventId, Name, NoMemory, Script};
use std::alloc::Global;
use std::marker::Model;

/// The numbers of a script's events, by their names. Contracts see the list of the names, in script order.
#[derive(Drop)]
pub struct EventNames {
    index: NameIndex,
}

impl Model for EventNames {
    ghost use Rattle.std.specs.Prelude.{List, ℕ, length, ◌≤◌};

    ghost Value = { List (List ℕ) };

    ghost view = { λ n. n.index };

    ghost invariant = { λ n. length n.index ≤ 64 };
}

impl EventNames {
    /// Numbers the events of a script, at most 64, in script order. Of events with one name the first has it.
    pub fn new(alloc: Global, script: &Script) -> Result<EventNames, NoMemory>
        requires few { length script.now.events ≤ 64 }
        ensures { IfOk result (λ n. n ≡ event_names script.now) }
    {
        let names = names_of(alloc, script.events.as_slice())?;
        let index = NameIndex::new(alloc, names)?;
        Ok(EventNames { index })
    }

    /// The number of the event with this name: none exactly for a name that no event has. It takes no memory.
    pub fn find(&self, name: &str) -> Option<EventId>
        ensures { result ≡ event_named self.now name.now }
    {
        let index = self.index.find(name)?;
        Some(EventId(index as u32))
    }
}

fn names_of(alloc: Global, events: &[EventDef]) -> Result<Vec<Name>, NoMemory>
    ensures { IfOk result (λ v. v.items ≡ map (λ e. e.name) events.now) }
{
    let mut names = Vec::new(alloc);
    for event in events {
        names.push(event.name.copied())?;
    }
    Ok(names)
}
