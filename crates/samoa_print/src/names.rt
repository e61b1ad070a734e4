//! The names of what a script has as numbers. A number that names nothing has the empty name.
ghost use Rattle.std.specs.Prelude.{◌≡◌, string_bytes, IfOk};
ghost use Rattle.serde_json.specs.View.{view};
ghost use Rattle.samoa_model.specs.Handlers.{handler_text};
ghost use Rattle.samoa_print.specs.Texts.{micro_text, decl_text, event_text, change_text, kind_text};
ghost use Rattle.samoa_print.specs.Canonical.{event_name_tree, change_name_tree, handler_name_tree};

use crate::listing::Printed;
use samoa_model::{ChangeId, EventId, HandlerId, Kind, NoMemory, Script};
use serde_json::Value;
use std::alloc::Global;

pub fn micro_name(script: &Script, micro: u32) -> &str
    ensures { result.now ≡ micro_text script.now micro }
{
    match script.micros.as_slice().get(micro as usize) {
        Some(micro) => micro.name.as_str(),
        None => "",
    }
}

pub fn decl_name(script: &Script, decl: u32) -> &str
    ensures { result.now ≡ decl_text script.now decl }
{
    match script.decls.as_slice().get(decl as usize) {
        Some(decl) => decl.name.as_str(),
        None => "",
    }
}

pub fn event_name(script: &Script, event: EventId) -> &str
    ensures { result.now ≡ event_text script.now event }
{
    match script.events.as_slice().get(event.0 as usize) {
        Some(event) => event.name.as_str(),
        None => "",
    }
}

pub fn change_name(script: &Script, change: ChangeId) -> &str
    ensures { result.now ≡ change_text script.now change }
{
    match script.changes.as_slice().get(change.0 as usize) {
        Some(change) => change.name.as_str(),
        None => "",
    }
}

/// The name of a handler, after that of its microprotocol and a dot.
pub fn handler_name(alloc: Global, script: &Script, handler: HandlerId) -> Result<String, NoMemory>
    ensures { IfOk result (λ s. string_bytes s ≡ handler_text script.now handler) }
{
    let mut text = String::new(alloc);
    text.push_str(micro_name(script, handler.micro.0))?;
    text.push_str(".")?;
    text.push_str(script.handler_name(handler))?;
    Ok(text)
}

pub fn kind_word(kind: Kind) -> &'static str
    ensures { result.now ≡ kind_text kind }
{
    match kind {
        Kind::Prog => "prog",
        Kind::Link => "link",
        Kind::Fd => "fd",
        Kind::Rbcast => "rbcast",
        Kind::Cons => "cons",
        Kind::Abcast => "abcast",
        Kind::Seqcast => "seqcast",
        Kind::Repl => "repl",
        Kind::Views => "views",
    }
}

impl Printed for EventId {
    ghost use Rattle.samoa_print.specs.Canonical.{event_name_tree};

    ghost tree = { event_name_tree };

    fn value(&self, alloc: Global, script: &Script) -> Result<Value, NoMemory> {
        Ok(Value::try_from_str(alloc, event_name(script, *self))?)
    }
}

impl Printed for ChangeId {
    ghost use Rattle.samoa_print.specs.Canonical.{change_name_tree};

    ghost tree = { change_name_tree };

    fn value(&self, alloc: Global, script: &Script) -> Result<Value, NoMemory> {
        Ok(Value::try_from_str(alloc, change_name(script, *self))?)
    }
}

impl Printed for HandlerId {
    ghost use Rattle.samoa_print.specs.Canonical.{handler_name_tree};

    ghost tree = { handler_name_tree };

    fn value(&self, alloc: Global, script: &Script) -> Result<Value, NoMemory> {
        Ok(Value::String(handler_name(alloc, script, *self)?))
    }
}
