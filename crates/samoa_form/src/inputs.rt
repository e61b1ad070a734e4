//! Losses and crashes.
use crate::cells::required_number_from;
use crate::lists::Part;
use crate::stop::Stop;
use crate::tree::object;
use samoa_grammar::{CrashDraft, LossDraft};
use serde_json::Value;
use std::alloc::Global;

impl Part for LossDraft {
    ghost use Rattle.samoa_grammar.specs.Forms.{loss_fault, loss_of};

    ghost fault = { loss_fault };

    ghost meaning = { loss_of };

    #[tactic(auto, unfolding(samoa_grammar::specs::Forms::loss_fault, samoa_grammar::specs::Forms::loss_of))]
    fn read(_alloc: Global, list: &str, value: &Value) -> Result<LossDraft, Stop> {
        object(value, list, &["from", "to", "first", "last"])?;
        let from = required_number_from(value, "from", 0)?;
        let to = required_number_from(value, "to", 0)?;
        let first = required_number_from(value, "first", 0)?;
        let last = required_number_from(value, "last", 0)?;
        Ok(LossDraft {
            from,
            to,
            first,
            last,
        })
    }
}

impl Part for CrashDraft {
    ghost use Rattle.samoa_grammar.specs.Forms.{crash_fault, crash_of};

    ghost fault = { crash_fault };

    ghost meaning = { crash_of };

    #[tactic(auto, unfolding(samoa_grammar::specs::Forms::crash_fault, samoa_grammar::specs::Forms::crash_of))]
    fn read(_alloc: Global, list: &str, value: &Value) -> Result<CrashDraft, Stop> {
        object(value, list, &["node", "tick"])?;
        let node = required_number_from(value, "node", 0)?;
        let tick = required_number_from(value, "tick", 0)?;
        Ok(CrashDraft { node, tick })
    }
}
