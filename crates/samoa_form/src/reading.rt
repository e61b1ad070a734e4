//! A whole script's tree.
ghost use Rattle.std.specs.Prelude.{◌≡◌, codes, None};
ghost use Rattle.serde_json.specs.Data.{Data};
ghost use Rattle.serde_json.specs.View.{view};
ghost use Rattle.samoa_grammar.specs.Tests.{object_fault, form_test, required as required_of};
ghost use Rattle.samoa_grammar.specs.Forms.{is_version, script_keys, form_of_all, draft_of};
ghost use Rattle.samoa_form.specs.Reads.{Reads, ReadsForm};
ghost use Rattle.samoa_form.specs.Limits.{HasLimits};

use crate::cells::{optional_objects, required_number, required_objects};
use crate::stop::Stop;
use crate::tree::{object, required, wrong_form};
use samoa_grammar::Draft;
use serde_json::Value;
use std::alloc::Global;

fn script_object(value: &Value) -> Result<(), Stop>
    ensures { Reads result (object_fault (codes "script") script_keys (view value.now)) tt }
{
    let keys = [
        "version", "nodes", "ticks", "micros", "decls", "events", "changes", "do", "lose", "crash",
    ];
    object(value, "script", &keys)
}

/// The version, which is 1.
fn version(value: &Value) -> Result<(), Stop>
    ensures { Reads result (required_of (codes "version") (form_test is_version) (view value.now)) tt }
{
    match required(value, "version")?.as_u64() {
        Some(1) => Ok(()),
        _ => Err(wrong_form("version")),
    }
}

#[tactic(auto, unfolding(samoa_grammar::specs::Forms::form_of_all, samoa_grammar::specs::Forms::draft_of))]
fn draft(alloc: Global, value: &Value) -> Result<Draft, Stop>
    ensures { Reads result (form_of_all (view value.now)) (draft_of (view value.now)) }
{
    script_object(value)?;
    version(value)?;
    let nodes = required_number(value, "nodes", 1, 8)?;
    let ticks = required_number(value, "ticks", 1, 10_000)?;
    let micros = required_objects(alloc, value, "micros", 24)?;
    let decls = required_objects(alloc, value, "decls", 64)?;
    let events = required_objects(alloc, value, "events", 64)?;
    let changes = optional_objects(alloc, value, "changes", 16)?;
    let does = optional_objects(alloc, value, "do", 8192)?;
    let losses = optional_objects(alloc, value, "lose", 256)?;
    let crashes = optional_objects(alloc, value, "crash", 8)?;
    Ok(Draft {
        nodes,
        ticks,
        micros,
        decls,
        events,
        changes,
        does,
        losses,
        crashes,
    })
}

/// The draft of a script's tree, with its names as they stand, or the first fault of its form.
pub fn read_form(alloc: Global, value: &Value) -> Result<Draft, Stop>
    ensures reads { ReadsForm result (form_of_all (view value.now)) (draft_of (view value.now)) }
{
    draft(alloc, value)
}

/// In a draft of a tree without a fault of the form each number and each list is within its limit, and names have their
/// form.
pub fn form_limits()
    ensures { (d : Data) → form_of_all d ≡ None → HasLimits (draft_of d) }
{}
