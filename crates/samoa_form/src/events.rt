//! Events, and changes of their handlers.
ghost use Rattle.std.specs.Prelude.{◌≡◌, ◌≤◌, ◌<◌, length};

use crate::cells::{required_handlers, required_name, required_objects};
use crate::lists::Part;
use crate::stop::Stop;
use crate::tree::object;
use samoa_grammar::{ChangeDraft, EventDraft, TableDraft};
use serde_json::Value;
use std::alloc::Global;

impl Part for EventDraft {
    ghost use Rattle.samoa_grammar.specs.Forms.{event_fault, event_of};

    ghost fault = { event_fault };

    ghost meaning = { event_of };

    #[tactic(auto, unfolding(samoa_grammar::specs::Forms::event_fault, samoa_grammar::specs::Forms::event_of))]
    fn read(alloc: Global, list: &str, value: &Value) -> Result<EventDraft, Stop> {
        object(value, list, &["name", "decl", "handlers"])?;
        let name = required_name(value, "name")?;
        let decl = required_name(value, "decl")?;
        let handlers = required_handlers(alloc, value, "handlers", 4)?;
        Ok(EventDraft {
            name,
            decl,
            handlers,
        })
    }
}

impl Part for TableDraft {
    ghost use Rattle.samoa_grammar.specs.Forms.{table_fault, table_of};

    ghost fault = { table_fault };

    ghost meaning = { table_of };

    #[tactic(auto, unfolding(samoa_grammar::specs::Forms::table_fault, samoa_grammar::specs::Forms::table_of))]
    fn read(alloc: Global, list: &str, value: &Value) -> Result<TableDraft, Stop> {
        object(value, list, &["event", "handlers"])?;
        let event = required_name(value, "event")?;
        let handlers = required_handlers(alloc, value, "handlers", 4)?;
        Ok(TableDraft { event, handlers })
    }
}

impl Part for ChangeDraft {
    ghost use Rattle.samoa_grammar.specs.Forms.{change_fault, change_of};

    ghost fault = { change_fault };

    ghost meaning = { change_of };

    #[tactic(auto, unfolding(samoa_grammar::specs::Forms::change_fault, samoa_grammar::specs::Forms::change_of))]
    fn read(alloc: Global, list: &str, value: &Value) -> Result<ChangeDraft, Stop> {
        object(value, list, &["name", "event", "table"])?;
        let name = required_name(value, "name")?;
        let event = required_name(value, "event")?;
        let table = required_objects(alloc, value, "table", 16)?;
        Ok(ChangeDraft { name, event, table })
    }
}
