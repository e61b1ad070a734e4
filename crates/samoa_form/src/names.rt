//! Names in a JSON tree.
ghost use Rattle.std.specs.Prelude.{◌≡◌, ◌≤◌, ◌<◌, length, map, nat_lt, true, false, MatchOption};
ghost use Rattle.serde_json.specs.View.{view};
ghost use Rattle.samoa_grammar.specs.Tree.{list_of, text_of};
ghost use Rattle.samoa_grammar.specs.Tests.{items_fault};
ghost use Rattle.samoa_grammar.specs.Names.{is_name as names, is_handler_name as handlers, has_dot, micro_part, handler_part, is_handler_text as joins};
ghost use Rattle.samoa_form.specs.Reads.{Reads, ReadsVec, all_fault, is_named};

use crate::stop::Stop;
use crate::tree::{items, over, wrong_form};
use samoa_model::{Listed, Name, is_name};
use serde_json::Value;
use std::alloc::Global;

/// The two forms of names.
#[derive(Clone, Copy, Debug, PartialEq, Eq)]
pub enum NameForm {
    /// One name.
    Plain,
    /// Two names joined by a dot.
    OfHandler,
}

/// A name of 1 to 16 bytes.
pub fn plain_name(value: &Value) -> Option<Name>
    ensures { MatchOption result (names (view value.now) ≡ false)
        (λ n. (names (view value.now) ≡ true) × (n ≡ text_of (view value.now))) }
{
    let text = value.as_str()?;
    if !is_name(text) {
        return None;
    }
    Some(Name::new(text))
}

/// The two parts of a handler's name.
fn handler_parts(text: &str) -> Option<(&str, &str)>
    ensures { MatchOption result (has_dot text.now ≡ false)
        (λ p. (has_dot text.now ≡ true) × (p.0.now ≡ micro_part text.now) × (p.1.now ≡ handler_part text.now)) }
{
    text.split_once('.')
}

/// Whether a text is two names joined by a dot.
fn is_handler_text(text: &str) -> bool
    ensures { result ≡ joins text.now }
{
    match handler_parts(text) {
        Some((micro, handler)) => is_name(micro) && is_name(handler),
        None => false,
    }
}

/// A name of a handler.
#[tactic(auto, using(crate::proofs::Texts::some_byte, crate::proofs::Texts::few_bytes))]
pub fn handler_name(value: &Value) -> Option<Name>
    ensures { MatchOption result (handlers (view value.now) ≡ false)
        (λ n. (handlers (view value.now) ≡ true) × (n ≡ text_of (view value.now))) }
{
    let text = value.as_str()?;
    if !is_handler_text(text) {
        return None;
    }
    Some(Name::new(text))
}

/// A name of this form.
fn name_in(value: &Value, form: NameForm) -> Option<Name>
    ensures { MatchOption result (is_named form (view value.now) ≡ false)
        (λ n. (is_named form (view value.now) ≡ true) × (n ≡ text_of (view value.now))) }
{
    match form {
        NameForm::Plain => plain_name(value),
        NameForm::OfHandler => handler_name(value),
    }
}

/// A list of names of this form, from `least` to `most` of them.
pub fn names_in(
    alloc: Global,
    value: &Value,
    key: &str,
    form: NameForm,
    least: usize,
    most: usize,
) -> Result<Listed<Name>, Stop>
    requires some { 0 < length key.now }
    requires few { length key.now ≤ 33 }
    ensures { Reads result (items_fault least most (is_named form) key.now (view value.now)) (map text_of (list_of (view value.now))) }
{
    let Some(list) = items(value) else {
        return Err(wrong_form(key));
    };
    let found = each_name(alloc, key, form, list)?;
    if list.len() < least {
        return Err(wrong_form(key));
    }
    if list.len() > most {
        return Err(over(key, most as u64));
    }
    Ok(Listed::from_vec(found))
}

#[tactic(auto, using(crate::proofs::Refused::refused_at))]
fn each_name(alloc: Global, key: &str, form: NameForm, list: &[Value]) -> Result<Vec<Name>, Stop>
    requires some { 0 < length key.now }
    requires few { length key.now ≤ 33 }
    ensures { ReadsVec result (all_fault (is_named form) key.now (map view list.now)) (map text_of (map view list.now)) }
{
    let mut found = Vec::new(alloc);
    for item in list {
        let Some(name) = name_in(item, form) else {
            return Err(wrong_form(key));
        };
        found.push(name)?;
    }
    Ok(found)
}
