//! The text of the whole script.
ghost use Rattle.std.specs.Prelude.{◌≡◌, ◌≤◌, string_bytes, false, IfOk, OnOk};
ghost use Rattle.serde_json.specs.Data.{depth};
ghost use Rattle.serde_json.specs.Read.{max_depth};
ghost use Rattle.serde_json.specs.Written.{compact_text, has_float};
ghost use Rattle.samoa_grammar.specs.Tree.{IsJson};
ghost use Rattle.samoa_print.specs.Canonical.{list_tree, tree_of};
ghost use Rattle.samoa_print.specs.Sound.{Adds, AddsAfter};

use crate::inputs::push_does;
use crate::listing::{Printed, list};
use crate::text::{push, push_number, push_value};
use samoa_model::{NoMemory, Script};
use std::alloc::Global;

/// Appends a list of parts, by the trees of all of them.
fn push_list<T: Printed>(
    alloc: Global,
    script: &Script,
    begin: &str,
    items: &[T],
    out: &mut String,
) -> Result<(), NoMemory>
    requires plain { has_float (list_tree (T.Printed.tree script.now) items.now) ≡ false }
    requires flat { depth (list_tree (T.Printed.tree script.now) items.now) ≤ max_depth }
    ensures { OnOk result (AddsAfter begin.now (list_tree (T.Printed.tree script.now) items.now) (string_bytes out.old) (string_bytes out.new)) }
{
    let value = list(alloc, script, items)?;
    push_value(alloc, begin, &value, out)
}

#[tactic(auto, using(crate::proofs::Plain::parts_plain))]
fn push_script(alloc: Global, script: &Script, out: &mut String) -> Result<(), NoMemory>
    ensures { OnOk result (Adds (tree_of script.now) (string_bytes out.old) (string_bytes out.new)) }
{
    push_list(
        alloc,
        script,
        "{\"changes\":",
        script.changes.as_slice(),
        out,
    )?;
    push_list(alloc, script, ",\"crash\":", script.crashes.as_slice(), out)?;
    push_list(alloc, script, ",\"decls\":", script.decls.as_slice(), out)?;
    push_does(alloc, script, ",\"do\":", out)?;
    push_list(alloc, script, ",\"events\":", script.events.as_slice(), out)?;
    push_list(alloc, script, ",\"lose\":", script.losses.as_slice(), out)?;
    push_list(alloc, script, ",\"micros\":", script.micros.as_slice(), out)?;
    push_number(",\"nodes\":", u64::from(script.nodes), out)?;
    push_number(",\"ticks\":", u64::from(script.ticks), out)?;
    push_number(",\"version\":", 1, out)?;
    push("}", out)
}

/// The text of a script, which is read as its tree.
pub fn script_text(alloc: Global, script: &Script) -> Result<Vec<u8>, NoMemory>
    ensures text { IfOk result (λ bytes. bytes.items ≡ compact_text (tree_of script.now)) }
    ensures holds { IfOk result (λ bytes. IsJson bytes.items (tree_of script.now)) }
{
    let mut out = String::new(alloc);
    push_script(alloc, script, &mut out)?;
    Ok(out.into_bytes())
}
