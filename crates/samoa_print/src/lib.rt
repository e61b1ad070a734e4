//! The canonical text of a script.
#![tactic(auto)]

ghost use Rattle.std.specs.Prelude.{◌≡◌, ◌≤◌, length, None, IfOk};
ghost use Rattle.serde_json.specs.Written.{compact_text};
ghost use Rattle.samoa_grammar.specs.Tree.{IsJson};
ghost use Rattle.samoa_grammar.specs.Held.{walk_fault, script_meant, Holds};
ghost use Rattle.samoa_model.specs.declared.script.Script.{Script as ScriptValue};
ghost use Rattle.samoa_model.specs.Valid.{IsValid};
ghost use Rattle.samoa_print.specs.Canonical.{tree_of};

mod cells;
mod code;
mod decls;
mod events;
mod inputs;
mod listing;
mod micros;
mod names;
mod object;
mod text;
mod whole;

pub use cells::need;
use samoa_model::{NoMemory, Script};
use std::alloc::Global;
use whole::script_text;

/// The canonical text of a script: one JSON object with no space, in which every optional key stands with its value,
/// keys stand in byte order and lists in script order. It can be longer than the text that the script was read
/// from. Where the script is valid, a text of at most 1,048,576 bytes is read as the same script again.
pub fn print_script(alloc: Global, script: &Script) -> Result<Vec<u8>, NoMemory>
    ensures text { IfOk result (λ bytes. bytes.items ≡ compact_text (tree_of script.now)) }
    ensures json { IfOk result (λ bytes. IsJson bytes.items (tree_of script.now)) }
    ensures holds { IfOk result (λ bytes. IsValid script.now → length bytes.items ≤ 1048576 → Holds bytes.items script.now) }
{
    script_text(alloc, script)
}

/// The canonical tree of a valid script passes the walk, and means that script.
#[tactic(auto, using(crate::proofs::Round::valid_passes, crate::proofs::Round::valid_means))]
pub fn printed_again()
    ensures passes { (script : ScriptValue) → IsValid script → walk_fault (tree_of script) ≡ None }
    ensures means { (script : ScriptValue) → IsValid script → script_meant (tree_of script) ≡ script }
{}
