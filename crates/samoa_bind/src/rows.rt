//! What a change binds.
ghost use Rattle.std.specs.Prelude.{◌≡◌, ◌≤◌, All, IfOk, length, map};

use crate::lists::BoundList;
use samoa_model::{ChangeDef, EventId, HandlerId, Listed, NoMemory, TableDef};
use std::alloc::Global;
use std::marker::Model;

/// New handlers of an event.
#[derive(Drop)]
pub(crate) struct Row {
    event: EventId,
    handlers: BoundList,
}

impl Model for Row {
    ghost use Rattle.samoa_model.specs.declared.script.TableDef.{TableDef};

    ghost Value = { TableDef };

    ghost view = { λ r. record { event = r.event; handlers = r.handlers } };
}

impl Row {
    /// The row of a change, in memory of its own. It takes none from the heap.
    fn of(row: &TableDef) -> Row
        requires { length row.now.handlers ≤ 4 }
        ensures { result ≡ row.now }
    {
        Row {
            event: row.event,
            handlers: BoundList::of(row.handlers.as_slice()),
        }
    }

    pub(crate) fn event(&self) -> EventId
        ensures { result ≡ self.now.event }
    {
        self.event
    }

    pub(crate) fn handlers(&self) -> &[HandlerId]
        ensures list { result.now ≡ self.now.handlers }
        ensures few { length result.now ≤ 4 }
    {
        self.handlers.as_slice()
    }
}

/// The rows of each change, or want of memory.
pub(crate) fn rows_of_each(
    alloc: Global,
    changes: &[ChangeDef],
) -> Result<Vec<Listed<Row>>, NoMemory>
    requires few { All (λ c. All (λ row. length row.handlers ≤ 4) c.table) changes.now }
    ensures { IfOk result (λ rows. rows.items ≡ map (λ c. c.table) changes.now) }
{
    let mut rows = Vec::new(alloc);
    for change in changes {
        rows.push(rows_of(alloc, change.table.as_slice())?)?;
    }
    Ok(rows)
}

fn rows_of(alloc: Global, table: &[TableDef]) -> Result<Listed<Row>, NoMemory>
    requires few { All (λ row. length row.handlers ≤ 4) table.now }
    ensures { IfOk result (λ rows. rows ≡ table.now) }
{
    let mut rows = Vec::new(alloc);
    for row in table {
        rows.push(Row::of(row))?;
    }
    Ok(Listed::from_vec(rows))
}
