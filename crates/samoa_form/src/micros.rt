//! Microprotocols.
ghost use Rattle.std.specs.Prelude.{◌≡◌, ◌≤◌, ◌<◌, length, codes, Some, IfOk};
ghost use Rattle.serde_json.specs.View.{view};
ghost use Rattle.samoa_grammar.specs.Tests.{object_fault, form_test, required as required_of};
ghost use Rattle.samoa_grammar.specs.Forms.{kind_named as named, kind_in as kind_of, is_kind, kind_or_prog, has_handlers as with_handlers, micro_keys, handlers_fault, handlers_of};
ghost use Rattle.samoa_form.specs.Reads.{Reads};

use crate::cells::{
    optional_names, optional_numbers, required_items, required_name, required_objects,
};
use crate::lists::Part;
use crate::stop::Stop;
use crate::tree::{object, required, wrong_form};
use samoa_grammar::MicroDraft;
use samoa_model::{CodeDef, Kind, Listed};
use serde_json::Value;
use std::alloc::Global;

impl Part for CodeDef {
    ghost use Rattle.samoa_grammar.specs.Forms.{code_fault, code_of};

    ghost fault = { code_fault };

    ghost meaning = { code_of };

    #[tactic(auto, unfolding(samoa_grammar::specs::Forms::code_fault, samoa_grammar::specs::Forms::code_of))]
    fn read(alloc: Global, list: &str, value: &Value) -> Result<CodeDef, Stop> {
        object(value, list, &["name", "code"])?;
        let name = required_name(value, "name")?;
        let code = required_items(alloc, value, "code", 32)?;
        Ok(CodeDef { name, code })
    }
}

fn kind_named(text: &str) -> Option<Kind>
    ensures { result ≡ named text.now }
{
    match text {
        "prog" => Some(Kind::Prog),
        "link" => Some(Kind::Link),
        "fd" => Some(Kind::Fd),
        "rbcast" => Some(Kind::Rbcast),
        "cons" => Some(Kind::Cons),
        "abcast" => Some(Kind::Abcast),
        "seqcast" => Some(Kind::Seqcast),
        "repl" => Some(Kind::Repl),
        "views" => Some(Kind::Views),
        _ => None,
    }
}

/// The kind that a microprotocol names, where it names one.
fn kind_in(value: &Value) -> Option<Kind>
    ensures { result ≡ kind_of (view value.now) }
{
    let text = value.get("kind")?.as_str()?;
    kind_named(text)
}

/// Whether the table of a microprotocol has handlers.
fn has_handlers(kind: Option<Kind>) -> bool
    ensures { result ≡ with_handlers kind }
{
    match kind {
        None | Some(Kind::Prog) => true,
        Some(_) => false,
    }
}

fn micro_object(value: &Value, list: &str, handlers: bool) -> Result<(), Stop>
    requires some { 0 < length list.now }
    requires few { length list.now ≤ 33 }
    ensures { Reads result (object_fault list.now (micro_keys handlers) (view value.now)) tt }
{
    if handlers {
        object(
            value,
            list,
            &["name", "kind", "nums", "ports", "changes", "handlers"],
        )
    } else {
        object(value, list, &["name", "kind", "nums", "ports", "changes"])
    }
}

/// The kind, which must be named.
fn kind(value: &Value) -> Result<Kind, Stop>
    ensures { Reads result (required_of (codes "kind") (form_test is_kind) (view value.now)) (kind_or_prog (kind_of (view value.now))) }
{
    let Some(text) = required(value, "kind")?.as_str() else {
        return Err(wrong_form("kind"));
    };
    match kind_named(text) {
        Some(kind) => Ok(kind),
        None => Err(wrong_form("kind")),
    }
}

fn handlers(alloc: Global, value: &Value, handlers: bool) -> Result<Listed<CodeDef>, Stop>
    ensures { Reads result (handlers_fault handlers (view value.now)) (handlers_of handlers (view value.now)) }
{
    if handlers {
        required_objects(alloc, value, "handlers", 16)
    } else {
        Ok(Listed::from_vec(Vec::new(alloc)))
    }
}

impl Part for MicroDraft {
    ghost use Rattle.samoa_grammar.specs.Forms.{micro_fault, micro_of};

    ghost fault = { micro_fault };

    ghost meaning = { micro_of };

    #[tactic(auto, unfolding(samoa_grammar::specs::Forms::micro_fault, samoa_grammar::specs::Forms::micro_of))]
    fn read(alloc: Global, list: &str, value: &Value) -> Result<MicroDraft, Stop> {
        let with_handlers = has_handlers(kind_in(value));
        micro_object(value, list, with_handlers)?;
        let name = required_name(value, "name")?;
        let kind = kind(value)?;
        let nums = optional_numbers(value, "nums")?;
        let ports = optional_names(alloc, value, "ports", 16)?;
        let changes = optional_names(alloc, value, "changes", 16)?;
        let handlers = handlers(alloc, value, with_handlers)?;
        Ok(MicroDraft {
            name,
            kind,
            nums,
            ports,
            changes,
            handlers,
        })
    }
}
