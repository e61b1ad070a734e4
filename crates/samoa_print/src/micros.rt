//! Microprotocols, as JSON values.
ghost use Rattle.std.specs.Prelude.{◌≡◌, true, false, IfOk};
ghost use Rattle.serde_json.specs.Data.{object};
ghost use Rattle.serde_json.specs.View.{view};
ghost use Rattle.samoa_grammar.specs.Forms.{is_prog};
ghost use Rattle.samoa_print.specs.Objects.{members_in};
ghost use Rattle.samoa_print.specs.Canonical.{kind_members, micro_members};

use crate::listing::{Printed, list, numbers};
use crate::names::kind_word;
use crate::object::Object;
use samoa_model::{Kind, MicroDef, NoMemory, Script};
use serde_json::Value;
use std::alloc::Global;

/// Whether a microprotocol of this kind has handlers in its table.
fn is_scripted(kind: Kind) -> bool
    ensures { result ≡ is_prog kind }
{
    match kind {
        Kind::Prog => true,
        _ => false,
    }
}

/// The keys of every kind, after its changes and its handlers.
fn kind_object(alloc: Global, script: &Script, micro: &MicroDef) -> Result<Object, NoMemory>
    ensures { IfOk result (λ o. members_in o ≡ kind_members script.now micro.now) }
{
    let ports = list(alloc, script, micro.ports.as_slice())?;
    let nums = numbers(alloc, micro.nums.as_slice())?;
    let object = Object::new(alloc).with(alloc, "ports", ports)?;
    let object = object.with(alloc, "nums", nums)?;
    let object = object.with_text(alloc, "name", micro.name.as_str())?;
    object.with_text(alloc, "kind", kind_word(micro.kind))
}

/// A microprotocol with its handlers.
fn scripted_value(alloc: Global, script: &Script, micro: &MicroDef) -> Result<Value, NoMemory>
    ensures { IfOk result (λ v. view v ≡ object (micro_members true script.now micro.now)) }
{
    let handlers = list(alloc, script, micro.handlers.as_slice())?;
    let changes = list(alloc, script, micro.changes.as_slice())?;
    let object = kind_object(alloc, script, micro)?;
    let object = object.with(alloc, "handlers", handlers)?;
    let object = object.with(alloc, "changes", changes)?;
    Ok(object.done())
}

/// A microprotocol without handlers in its table.
fn stock_value(alloc: Global, script: &Script, micro: &MicroDef) -> Result<Value, NoMemory>
    ensures { IfOk result (λ v. view v ≡ object (micro_members false script.now micro.now)) }
{
    let changes = list(alloc, script, micro.changes.as_slice())?;
    let object = kind_object(alloc, script, micro)?;
    let object = object.with(alloc, "changes", changes)?;
    Ok(object.done())
}

impl Printed for MicroDef {
    ghost use Rattle.samoa_print.specs.Canonical.{micro_tree};

    ghost tree = { micro_tree };

    #[tactic(auto, unfolding(crate::specs::Canonical::micro_tree))]
    fn value(&self, alloc: Global, script: &Script) -> Result<Value, NoMemory> {
        if is_scripted(self.kind) {
            scripted_value(alloc, script, self)
        } else {
            stock_value(alloc, script, self)
        }
    }
}
