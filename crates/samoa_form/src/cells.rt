//! The values at the keys of an object.
ghost use Rattle.std.specs.Prelude.{◌≡◌, ◌≤◌, ◌<◌, [], length, map, None, MatchOption};
ghost use Rattle.serde_json.specs.View.{view};
ghost use Rattle.samoa_grammar.specs.Tree.{part as part_of, list_of, is_number as numbers, number_of, text_of};
ghost use Rattle.samoa_grammar.specs.Names.{is_name, is_handler_name};
ghost use Rattle.samoa_grammar.specs.Tests.{required as required_of, optional as optional_of, number_fault, number_from_fault, name_fault, items_fault, list_fault};
ghost use Rattle.samoa_grammar.specs.Forms.{number_or, numbers_of, texts_of};
ghost use Rattle.samoa_form.specs.Reads.{Reads};

use crate::lists::{Item, Part, items_in, numbers_in, objects_in};
use crate::names::{NameForm, names_in, plain_name};
use crate::stop::Stop;
use crate::tree::{required, within, wrong_form};
use samoa_model::{Listed, Name, Words};
use serde_json::Value;
use std::alloc::Global;

/// A name, as the value of a key.
pub fn name(value: &Value, key: &str) -> Result<Name, Stop>
    requires some { 0 < length key.now }
    requires few { length key.now ≤ 33 }
    ensures { Reads result (name_fault key.now (view value.now)) (text_of (view value.now)) }
{
    match plain_name(value) {
        Some(name) => Ok(name),
        None => Err(wrong_form(key)),
    }
}

/// The name at a key that must be there.
pub fn required_name(value: &Value, key: &str) -> Result<Name, Stop>
    requires some { 0 < length key.now }
    requires few { length key.now ≤ 33 }
    ensures { Reads result (required_of key.now name_fault (view value.now)) (text_of (part_of key.now (view value.now))) }
{
    name(required(value, key)?, key)
}

fn number(value: &Value, key: &str, least: u32, most: u32) -> Result<u32, Stop>
    requires some { 0 < length key.now }
    requires few { length key.now ≤ 33 }
    ensures { Reads result (number_fault least most key.now (view value.now)) (number_of (view value.now)) }
{
    let Some(found) = value.as_u64() else {
        return Err(wrong_form(key));
    };
    within(found, key, u64::from(least), u64::from(most))?;
    Ok(found as u32)
}

/// The number between bounds at a key that must be there.
pub fn required_number(value: &Value, key: &str, least: u32, most: u32) -> Result<u32, Stop>
    requires some { 0 < length key.now }
    requires few { length key.now ≤ 33 }
    ensures { Reads result (required_of key.now (number_fault least most) (view value.now)) (number_of (part_of key.now (view value.now))) }
{
    number(required(value, key)?, key, least, most)
}

/// The number between bounds at a key that may be left out.
pub fn optional_number(
    value: &Value,
    key: &str,
    missing: u32,
    least: u32,
    most: u32,
) -> Result<u32, Stop>
    requires some { 0 < length key.now }
    requires few { length key.now ≤ 33 }
    ensures { Reads result (optional_of key.now (number_fault least most) (view value.now)) (number_or missing key.now (view value.now)) }
{
    match value.get(key) {
        Some(part) => number(part, key, least, most),
        None => Ok(missing),
    }
}

/// A number without a limit of its own.
pub fn number_from(value: &Value, key: &str, least: u64) -> Result<u64, Stop>
    requires some { 0 < length key.now }
    requires few { length key.now ≤ 33 }
    ensures { Reads result (number_from_fault least key.now (view value.now)) (number_of (view value.now)) }
{
    let Some(found) = value.as_u64() else {
        return Err(wrong_form(key));
    };
    if found < least {
        return Err(wrong_form(key));
    }
    Ok(found)
}

/// The number without a limit of its own at a key that must be there.
pub fn required_number_from(value: &Value, key: &str, least: u64) -> Result<u64, Stop>
    requires some { 0 < length key.now }
    requires few { length key.now ≤ 33 }
    ensures { Reads result (required_of key.now (number_from_fault least) (view value.now)) (number_of (part_of key.now (view value.now))) }
{
    number_from(required(value, key)?, key, least)
}

/// The numbers at a key that may be left out.
pub fn optional_numbers(value: &Value, key: &str) -> Result<Words, Stop>
    requires some { 0 < length key.now }
    requires few { length key.now ≤ 33 }
    ensures { Reads result (optional_of key.now (items_fault 0 12 numbers) (view value.now)) (numbers_of key.now (view value.now)) }
{
    numbers_or_none(value.get(key), key)
}

/// The numbers of a part that may be left out.
pub fn numbers_or_none(part: Option<&Value>, key: &str) -> Result<Words, Stop>
    requires some { 0 < length key.now }
    requires few { length key.now ≤ 33 }
    ensures { MatchOption part.entry (Reads result None []) (λ p. Reads result (items_fault 0 12 numbers key.now (view p.now)) (map number_of (list_of (view p.now)))) }
{
    match part {
        Some(part) => numbers_in(part, key),
        None => Ok(Words::new()),
    }
}

fn names(
    alloc: Global,
    value: &Value,
    key: &str,
    least: usize,
    most: usize,
) -> Result<Listed<Name>, Stop>
    requires some { 0 < length key.now }
    requires few { length key.now ≤ 33 }
    ensures { Reads result (items_fault least most is_name key.now (view value.now)) (map text_of (list_of (view value.now))) }
{
    names_in(alloc, value, key, NameForm::Plain, least, most)
}

fn handlers(alloc: Global, value: &Value, key: &str, most: usize) -> Result<Listed<Name>, Stop>
    requires some { 0 < length key.now }
    requires few { length key.now ≤ 33 }
    ensures { Reads result (items_fault 0 most is_handler_name key.now (view value.now)) (map text_of (list_of (view value.now))) }
{
    names_in(alloc, value, key, NameForm::OfHandler, 0, most)
}

/// The names at a key that must be there.
pub fn required_names(
    alloc: Global,
    value: &Value,
    key: &str,
    least: usize,
    most: usize,
) -> Result<Listed<Name>, Stop>
    requires some { 0 < length key.now }
    requires few { length key.now ≤ 33 }
    ensures { Reads result (required_of key.now (items_fault least most is_name) (view value.now)) (texts_of key.now (view value.now)) }
{
    names(alloc, required(value, key)?, key, least, most)
}

/// The names at a key that may be left out.
pub fn optional_names(
    alloc: Global,
    value: &Value,
    key: &str,
    most: usize,
) -> Result<Listed<Name>, Stop>
    requires some { 0 < length key.now }
    requires few { length key.now ≤ 33 }
    ensures { Reads result (optional_of key.now (items_fault 0 most is_name) (view value.now)) (texts_of key.now (view value.now)) }
{
    match value.get(key) {
        Some(part) => names(alloc, part, key, 0, most),
        None => Ok(Listed::from_vec(Vec::new(alloc))),
    }
}

/// The names of handlers at a key that must be there.
pub fn required_handlers(
    alloc: Global,
    value: &Value,
    key: &str,
    most: usize,
) -> Result<Listed<Name>, Stop>
    requires some { 0 < length key.now }
    requires few { length key.now ≤ 33 }
    ensures { Reads result (required_of key.now (items_fault 0 most is_handler_name) (view value.now)) (texts_of key.now (view value.now)) }
{
    handlers(alloc, required(value, key)?, key, most)
}

/// The items without keys at a key that must be there.
pub fn required_items<T: Item + Drop>(
    alloc: Global,
    value: &Value,
    key: &str,
    most: usize,
) -> Result<Listed<T>, Stop>
    requires some { 0 < length key.now }
    requires few { length key.now ≤ 33 }
    ensures { Reads result (required_of key.now (items_fault 0 most T.Item.passes) (view value.now))
        (map T.Item.meaning (list_of (part_of key.now (view value.now)))) }
{
    items_in(alloc, required(value, key)?, key, 0, most)
}

/// The items without keys at a key that may be left out.
pub fn optional_items<T: Item + Drop>(
    alloc: Global,
    value: &Value,
    key: &str,
    most: usize,
) -> Result<Listed<T>, Stop>
    requires some { 0 < length key.now }
    requires few { length key.now ≤ 33 }
    ensures { Reads result (optional_of key.now (items_fault 0 most T.Item.passes) (view value.now))
        (map T.Item.meaning (list_of (part_of key.now (view value.now)))) }
{
    match value.get(key) {
        Some(part) => items_in(alloc, part, key, 0, most),
        None => Ok(Listed::from_vec(Vec::new(alloc))),
    }
}

/// The objects at a key that must be there: at least one.
pub fn required_objects<T: Part + Drop>(
    alloc: Global,
    value: &Value,
    key: &str,
    most: usize,
) -> Result<Listed<T>, Stop>
    requires some { 0 < length key.now }
    requires few { length key.now ≤ 33 }
    ensures { Reads result (required_of key.now (list_fault 1 most T.Part.fault) (view value.now))
        (map T.Part.meaning (list_of (part_of key.now (view value.now)))) }
{
    objects_in(alloc, required(value, key)?, key, 1, most)
}

/// The objects at a key that may be left out.
pub fn optional_objects<T: Part + Drop>(
    alloc: Global,
    value: &Value,
    key: &str,
    most: usize,
) -> Result<Listed<T>, Stop>
    requires some { 0 < length key.now }
    requires few { length key.now ≤ 33 }
    ensures { Reads result (optional_of key.now (list_fault 0 most T.Part.fault) (view value.now))
        (map T.Part.meaning (list_of (part_of key.now (view value.now)))) }
{
    match value.get(key) {
        Some(part) => objects_in(alloc, part, key, 0, most),
        None => Ok(Listed::from_vec(Vec::new(alloc))),
    }
}
