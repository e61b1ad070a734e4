//! Declarations.
ghost use Rattle.std.specs.Prelude.{◌≡◌, ◌≤◌, ◌<◌, length, map, codes, Some, true, false, unwrap_or, IfOk, MatchOption};
ghost use Rattle.serde_json.specs.View.{view};
ghost use Rattle.samoa_grammar.specs.Tests.{object_fault, form_test, required as required_of};
ghost use Rattle.samoa_grammar.specs.Forms.{form_named as named, form_in as form_of, is_form, decl_keys, body_fault, body_of, are_two_handlers, edge_among as among, is_edge, edge_of};
ghost use Rattle.samoa_form.specs.Reads.{Reads, Stops};

use crate::cells::{
    optional_items, optional_number, required_handlers, required_name, required_names,
    required_number, required_objects,
};
use crate::lists::{Item, Part};
use crate::names::handler_name;
use crate::stop::Stop;
use crate::tree::{items, object, required, wrong_form};
use samoa_grammar::{BodyDraft, BoundDraft, DeclDraft, EdgeDraft, Form};
use serde_json::Value;
use std::alloc::Global;

impl Part for BoundDraft {
    ghost use Rattle.samoa_grammar.specs.Forms.{bound_fault, bound_of};

    ghost fault = { bound_fault };

    ghost meaning = { bound_of };

    #[tactic(auto, unfolding(samoa_grammar::specs::Forms::bound_fault, samoa_grammar::specs::Forms::bound_of))]
    fn read(_alloc: Global, list: &str, value: &Value) -> Result<BoundDraft, Stop> {
        object(value, list, &["micro", "calls"])?;
        let micro = required_name(value, "micro")?;
        let calls = required_number(value, "calls", 1, 256)?;
        Ok(BoundDraft { micro, calls })
    }
}

/// Two names of handlers.
fn edge_among(list: &[Value]) -> Option<EdgeDraft>
    ensures { MatchOption result (are_two_handlers (map view list.now) ≡ false)
        (λ e. (are_two_handlers (map view list.now) ≡ true) × (e ≡ among (map view list.now))) }
{
    let (from, rest) = list.split_first()?;
    let (to, rest) = rest.split_first()?;
    if let Some(_) = rest.split_first() {
        return None;
    }
    let from = handler_name(from)?;
    let to = handler_name(to)?;
    Some(EdgeDraft { from, to })
}

/// An edge of a route.
fn edge(value: &Value) -> Option<EdgeDraft>
    ensures { MatchOption result (is_edge (view value.now) ≡ false)
        (λ e. (is_edge (view value.now) ≡ true) × (e ≡ edge_of (view value.now))) }
{
    edge_among(items(value)?)
}

impl Item for EdgeDraft {
    ghost use Rattle.samoa_grammar.specs.Forms.{is_edge, edge_of};

    ghost passes = { is_edge };

    ghost meaning = { edge_of };

    fn read(value: &Value) -> Option<EdgeDraft> {
        edge(value)
    }
}

fn form_named(text: &str) -> Option<Form>
    ensures { result ≡ named text.now }
{
    match text {
        "set" => Some(Form::Set),
        "bound" => Some(Form::Bound),
        "route" => Some(Form::Route),
        _ => None,
    }
}

/// The form that a declaration names, where it names one.
fn form_in(value: &Value) -> Option<Form>
    ensures { result ≡ form_of (view value.now) }
{
    let text = value.get("form")?.as_str()?;
    form_named(text)
}

fn decl_object(value: &Value, list: &str, form: Option<Form>) -> Result<(), Stop>
    requires some { 0 < length list.now }
    requires few { length list.now ≤ 33 }
    ensures { Reads result (object_fault list.now (decl_keys form) (view value.now)) tt }
{
    match form {
        None => object(
            value,
            list,
            &[
                "name", "form", "budget", "micros", "bounds", "roots", "edges",
            ],
        ),
        Some(Form::Set) => object(value, list, &["name", "form", "budget", "micros"]),
        Some(Form::Bound) => object(value, list, &["name", "form", "budget", "bounds"]),
        Some(Form::Route) => object(value, list, &["name", "form", "budget", "roots", "edges"]),
    }
}

/// The form, which must be named.
fn form(value: &Value) -> Result<Form, Stop>
    ensures reads { IfOk result (λ f. form_of (view value.now) ≡ Some f) }
    ensures fault { Reads result (required_of (codes "form") (form_test is_form) (view value.now)) (unwrap_or (form_of (view value.now)) Form.Set) }
{
    let Some(text) = required(value, "form")?.as_str() else {
        return Err(wrong_form("form"));
    };
    match form_named(text) {
        Some(form) => Ok(form),
        None => Err(wrong_form("form")),
    }
}

fn body(alloc: Global, value: &Value, form: Form) -> Result<BodyDraft, Stop>
    ensures { Reads result (body_fault (Some form) (view value.now)) (body_of (Some form) (view value.now)) }
{
    match form {
        Form::Set => {
            let micros = required_names(alloc, value, "micros", 1, 24)?;
            Ok(BodyDraft::Set { micros })
        }
        Form::Bound => {
            let bounds = required_objects(alloc, value, "bounds", 24)?;
            Ok(BodyDraft::Bound { bounds })
        }
        Form::Route => {
            let roots = required_handlers(alloc, value, "roots", 32)?;
            let edges = optional_items(alloc, value, "edges", 256)?;
            Ok(BodyDraft::Route { roots, edges })
        }
    }
}

impl Part for DeclDraft {
    ghost use Rattle.samoa_grammar.specs.Forms.{decl_fault, decl_of};

    ghost fault = { decl_fault };

    ghost meaning = { decl_of };

    #[tactic(auto, unfolding(samoa_grammar::specs::Forms::decl_fault, samoa_grammar::specs::Forms::decl_of))]
    fn read(alloc: Global, list: &str, value: &Value) -> Result<DeclDraft, Stop> {
        decl_object(value, list, form_in(value))?;
        let name = required_name(value, "name")?;
        let form = form(value)?;
        let budget = optional_number(value, "budget", 32, 1, 256)?;
        let body = body(alloc, value, form)?;
        Ok(DeclDraft { name, budget, body })
    }
}
