//! Events and changes of bindings, as JSON values.
use crate::listing::{Printed, list};
use crate::names::{decl_name, event_name};
use samoa_model::{ChangeDef, EventDef, NoMemory, Script, TableDef};
use serde_json::{Value, json};
use std::alloc::Global;

impl Printed for EventDef {
    ghost use Rattle.samoa_print.specs.Canonical.{event_tree};

    ghost tree = { event_tree };

    #[tactic(auto, unfolding(crate::specs::Canonical::event_tree))]
    fn value(&self, alloc: Global, script: &Script) -> Result<Value, NoMemory> {
        let handlers = list(alloc, script, self.handlers.as_slice())?;
        let decl = decl_name(script, self.decl);
        Ok(json!(in alloc; {"name": self.name.as_str(), "decl": decl, "handlers": handlers})?)
    }
}

impl Printed for TableDef {
    ghost use Rattle.samoa_print.specs.Canonical.{table_tree};

    ghost tree = { table_tree };

    #[tactic(auto, unfolding(crate::specs::Canonical::table_tree))]
    fn value(&self, alloc: Global, script: &Script) -> Result<Value, NoMemory> {
        let handlers = list(alloc, script, self.handlers.as_slice())?;
        Ok(json!(in alloc; {"event": event_name(script, self.event), "handlers": handlers})?)
    }
}

impl Printed for ChangeDef {
    ghost use Rattle.samoa_print.specs.Canonical.{change_tree};

    ghost tree = { change_tree };

    #[tactic(auto, unfolding(crate::specs::Canonical::change_tree))]
    fn value(&self, alloc: Global, script: &Script) -> Result<Value, NoMemory> {
        let table = list(alloc, script, self.table.as_slice())?;
        let event = event_name(script, self.event);
        Ok(json!(in alloc; {"name": self.name.as_str(), "event": event, "table": table})?)
    }
}
