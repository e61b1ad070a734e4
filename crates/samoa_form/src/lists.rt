//! Lists in a JSON tree.
ghost use Rattle.std.specs.Prelude.{◌≡◌, ◌≤◌, ◌<◌, length, map};
ghost use Rattle.std.specs.List.{list_all};
ghost use Rattle.serde_json.specs.View.{view};
ghost use Rattle.samoa_grammar.specs.Tree.{list_of, is_number as numbers, number_of};
ghost use Rattle.samoa_grammar.specs.Walks.{first_along};
ghost use Rattle.samoa_grammar.specs.Tests.{items_fault, list_fault};
ghost use Rattle.samoa_form.specs.Reads.{Reads, ReadsVec, all_fault};

use crate::stop::Stop;
use crate::tree::{items, over, within, wrong_form};
use samoa_model::{Listed, MOST_WORDS, Words};
use serde_json::Value;
use std::alloc::Global;

/// A list of at most twelve numbers.
pub fn numbers_in(value: &Value, key: &str) -> Result<Words, Stop>
    requires some { 0 < length key.now }
    requires few { length key.now ≤ 33 }
    ensures { Reads result (items_fault 0 12 numbers key.now (view value.now)) (map number_of (list_of (view value.now))) }
{
    let Some(list) = items(value) else {
        return Err(wrong_form(key));
    };
    if !are_numbers(list) {
        return Err(wrong_form(key));
    }
    if list.len() > MOST_WORDS {
        return Err(over(key, 12));
    }
    Ok(words(list))
}

#[tactic(auto, using(crate::proofs::Refused::all_along))]
fn are_numbers(list: &[Value]) -> bool
    ensures { result ≡ list_all numbers (map view list.now) }
{
    is_number_each(list)
}

fn is_number_each(list: &[Value]) -> bool
    ensures { result ≡ list_all (λ item. numbers (view item)) list.now }
{
    list.iter().all(|item| is_number(item))
}

fn is_number(value: &Value) -> bool
    ensures { result ≡ numbers (view value.now) }
{
    value.as_u64().is_some()
}

fn number_or_zero(value: &Value) -> u64
    ensures { result ≡ number_of (view value.now) }
{
    value.as_u64().unwrap_or(0)
}

fn words(list: &[Value]) -> Words
    requires { length list.now ≤ 12 }
    ensures { result ≡ map number_of (map view list.now) }
{
    let mut words = Words::new();
    for item in list {
        words.push(number_or_zero(item)).unwrap();
    }
    words
}

/// A part of a script that is read from one item of a list, and has no keys.
pub trait Item: Sized {
    ghost use Rattle.std.specs.Prelude.{Bool, true, false, MatchOption};
    ghost use Rattle.serde_json.specs.Data.{Data};

    /// Whether an item is such a part.
    ghost passes: { Data → Bool };

    /// What an item that passes means.
    ghost meaning: { Data → Self };

    /// The part that an item means, where it is one.
    fn read(value: &Value) -> Option<Self>
        ensures { MatchOption result (passes (view value.now) ≡ false)
            (λ x. (passes (view value.now) ≡ true) × (x ≡ meaning (view value.now))) };
}

/// A list of items without keys, from `least` to `most` of them. The form of each item belongs to the form of the list.
pub fn items_in<T: Item + Drop>(
    alloc: Global,
    value: &Value,
    key: &str,
    least: usize,
    most: usize,
) -> Result<Listed<T>, Stop>
    requires some { 0 < length key.now }
    requires few { length key.now ≤ 33 }
    ensures { Reads result (items_fault least most T.Item.passes key.now (view value.now)) (map T.Item.meaning (list_of (view value.now))) }
{
    let Some(list) = items(value) else {
        return Err(wrong_form(key));
    };
    let found = each_item(alloc, key, list)?;
    if list.len() < least {
        return Err(wrong_form(key));
    }
    if list.len() > most {
        return Err(over(key, most as u64));
    }
    Ok(Listed::from_vec(found))
}

#[tactic(auto, using(crate::proofs::Refused::refused_at))]
fn each_item<T: Item + Drop>(alloc: Global, key: &str, list: &[Value]) -> Result<Vec<T>, Stop>
    requires some { 0 < length key.now }
    requires few { length key.now ≤ 33 }
    ensures { ReadsVec result (all_fault T.Item.passes key.now (map view list.now)) (map T.Item.meaning (map view list.now)) }
{
    let mut found = Vec::new(alloc);
    for item in list {
        let Some(read) = T::read(item) else {
            return Err(wrong_form(key));
        };
        found.push(read)?;
    }
    Ok(found)
}

/// A part of a script that is read from one object of a list.
pub trait Part: Sized {
    ghost use Rattle.std.specs.Prelude.{Option, List, ℕ};
    ghost use Rattle.serde_json.specs.Data.{Data};
    ghost use Rattle.samoa_grammar.specs.declared.fault.WalkFault.{WalkFault};

    /// The first fault of an object, in a list of this key.
    ghost fault: { List ℕ → Data → Option WalkFault };

    /// What an object without a fault means.
    ghost meaning: { Data → Self };

    /// The part that an object of the list means.
    fn read(alloc: Global, list: &str, value: &Value) -> Result<Self, Stop>
        requires some { 0 < length list.now }
        requires few { length list.now ≤ 33 }
        ensures { Reads result (fault list.now (view value.now)) (meaning (view value.now)) };
}

/// A list of objects, from `least` to `most` of them. Their number is tested first.
pub fn objects_in<T: Part + Drop>(
    alloc: Global,
    value: &Value,
    key: &str,
    least: usize,
    most: usize,
) -> Result<Listed<T>, Stop>
    requires some { 0 < length key.now }
    requires few { length key.now ≤ 33 }
    ensures { Reads result (list_fault least most T.Part.fault key.now (view value.now)) (map T.Part.meaning (list_of (view value.now))) }
{
    let Some(list) = items(value) else {
        return Err(wrong_form(key));
    };
    within(list.len() as u64, key, least as u64, most as u64)?;
    Ok(Listed::from_vec(each_object(alloc, key, list)?))
}

#[tactic(auto, using(crate::proofs::Along::along))]
fn each_object<T: Part + Drop>(alloc: Global, key: &str, list: &[Value]) -> Result<Vec<T>, Stop>
    requires some { 0 < length key.now }
    requires few { length key.now ≤ 33 }
    ensures { ReadsVec result (first_along (T.Part.fault key.now) (map view list.now)) (map T.Part.meaning (map view list.now)) }
{
    let mut found = Vec::with_capacity(alloc, list.len())?;
    for item in list {
        found.push(T::read(alloc, key, item)?)?;
    }
    Ok(found)
}
