//! Bytes to a script.
ghost use Rattle.std.specs.Prelude.{◌≡◌, ◌⊎◌, ◌↔◌, ℕ, List, IfOk, IfErr};
ghost use Rattle.serde_json.specs.View.{view};
ghost use Rattle.samoa_model.specs.declared.script.Script.{Script as ScriptValue};
ghost use Rattle.samoa_model.specs.Range.{IsInRange};
ghost use Rattle.samoa_grammar.specs.Walks.{◌then◌};
ghost use Rattle.samoa_grammar.specs.Passes.{twice_fault, unknown_fault, totals_fault};
ghost use Rattle.samoa_grammar.specs.Meaning.{script_of};
ghost use Rattle.samoa_grammar.specs.Held.{walk_fault, script_meant, Holds};
ghost use Rattle.samoa_form.specs.Limits.{HasLimits};
ghost use Rattle.samoa_form.specs.Reads.{Reads};
ghost use Rattle.samoa_model.specs.Valid.{IsValid};
ghost use Rattle.samoa_script.specs.declared.fault.ScriptFault.{ScriptFault as FaultValue};
ghost use Rattle.samoa_script.specs.Meant.{IsMeant};
ghost use Rattle.samoa_script.specs.Fails.{Fails, HasScript, HasFault};

use crate::fault::{ScriptFault, fault_of};
use samoa_form::{Stop, read_form};
use samoa_grammar::Draft;
use samoa_model::Script;
use samoa_naming::{Directory, check_names, resolve};
use serde_json::{Category, Value};
use std::alloc::Global;

const MOST_BYTES: usize = 1_048_576;

/// The script that a draft means, whose names have numbers.
fn resolved(alloc: Global, draft: &Directory) -> Result<Script, Stop>
    requires { HasLimits draft.now }
    ensures { Reads result (twice_fault draft.now then unknown_fault draft.now then totals_fault draft.now) (script_of draft.now) }
{
    check_names(alloc, draft)?;
    Ok(resolve(alloc, draft)?)
}

/// The script that a draft means.
fn named(alloc: Global, draft: &Draft) -> Result<Script, Stop>
    requires { HasLimits draft.now }
    ensures { Reads result (twice_fault draft.now then unknown_fault draft.now then totals_fault draft.now) (script_of draft.now) }
{
    let directory = Directory::new(alloc, draft)?;
    resolved(alloc, &directory)
}

#[tactic(auto, unfolding(samoa_grammar::specs::Held::walk_fault, samoa_grammar::specs::Held::script_meant))]
fn script(alloc: Global, value: &Value) -> Result<Script, Stop>
    ensures { Reads result (walk_fault (view value.now)) (script_meant (view value.now)) }
{
    let draft = read_form(alloc, value)?;
    named(alloc, &draft)
}

/// The script that the bytes hold. A text with a key twice in one object is read by its last.
///
/// `TooLong` comes for more than 1,048,576 bytes, `NotJson` for what is no JSON text, and otherwise the first fault of
/// the walk over the text's tree. `Memory` comes where there was none.
pub fn read_script(alloc: Global, bytes: &[u8]) -> Result<Script, ScriptFault>
    ensures ok { IfOk result (Holds bytes.now) }
    ensures fault { IfErr result (Fails bytes.now) }
    ensures in_range { IfOk result IsInRange }
{
    if bytes.len() > MOST_BYTES {
        return Err(ScriptFault::TooLong);
    }
    match Value::from_slice(alloc, bytes) {
        Ok(value) => match script(alloc, &value) {
            Ok(script) => Ok(script),
            Err(stop) => Err(fault_of(stop)),
        },
        Err(e) => Err(match e.classify() {
            Category::Memory => ScriptFault::Memory,
            _ => ScriptFault::NotJson,
        }),
    }
}

/// Bytes hold at most one script, none beside a fault, and have at most one fault.
pub fn one_answer()
    ensures scripts { (bytes : List ℕ) (s t : ScriptValue) → Holds bytes s → Holds bytes t → s ≡ t }
    ensures apart { (bytes : List ℕ) (s : ScriptValue) (f : FaultValue) → Holds bytes s → Fails bytes f → f ≡ ScriptFault.Memory }
    ensures faults { (bytes : List ℕ) (f g : FaultValue) → Fails bytes f → Fails bytes g → (f ≡ ScriptFault.Memory → ⊥) → (g ≡ ScriptFault.Memory → ⊥) → f ≡ g }
{}

/// Each list of bytes holds a script or has a fault of its own.
pub fn some_answer()
    ensures { (bytes : List ℕ) → HasScript bytes ⊎ HasFault bytes }
{}

/// The valid scripts are those that texts hold. A script is valid exactly where some tree means it that passes the walk,
/// and then its canonical tree is one. So each script that bytes hold is valid: it is in range, its names have their form
/// and stand once, and what a route, a list of handlers or a table has stands there once.
pub fn valid_scripts_are_those_that_texts_hold()
    ensures meant { (script : ScriptValue) → IsValid script ↔ IsMeant script }
    ensures held { (bytes : List ℕ) (script : ScriptValue) → Holds bytes script → IsValid script }
{}
