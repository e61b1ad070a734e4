//! Parts of a JSON tree.
ghost use Rattle.std.specs.Prelude.{◌≡◌, ◌≤◌, ◌<◌, [], length, map, bytes_eq, string_bytes, false, true, Some, None, MatchOption, MatchResult};
ghost use Rattle.std.specs.List.{list_any, list_all};
ghost use Rattle.std.specs.BTreeMap.{keys as entry_keys};
ghost use Rattle.serde_json.specs.Find.{get};
ghost use Rattle.serde_json.specs.View.{view};
ghost use Rattle.samoa_grammar.specs.declared.fault.WalkFault.TheVariants.{Missing, WrongForm, Over};
ghost use Rattle.samoa_grammar.specs.Tree.{has_only, is_list, list_of};
ghost use Rattle.samoa_grammar.specs.Tests.{object_fault, within_fault};
ghost use Rattle.samoa_form.specs.Reads.{Reads};

use crate::stop::Stop;
use samoa_grammar::WalkFault;
use samoa_model::Name;
use serde_json::{Map, Value};

/// The value of a key has another form. A key has at most 33 bytes.
pub fn wrong_form(key: &str) -> Stop
    requires some { 0 < length key.now }
    requires few { length key.now ≤ 33 }
    ensures { result ≡ Stop.Fault (WrongForm key.now) }
{
    Stop::Fault(WalkFault::WrongForm {
        key: Name::new(key),
    })
}

/// The value of a key is above its limit.
pub fn over(key: &str, limit: u64) -> Stop
    requires some { 0 < length key.now }
    requires few { length key.now ≤ 33 }
    ensures { result ≡ Stop.Fault (Over key.now limit) }
{
    Stop::Fault(WalkFault::Over {
        name: Name::new(key),
        limit,
    })
}

/// Whether a value is an object with keys from this list alone.
fn has_only_keys(value: &Value, keys: &[&str]) -> bool
    ensures { result ≡ has_only (map (λ k. k.now) keys.now) (view value.now) }
{
    match value.as_object() {
        Some(object) => are_among(object, keys),
        None => false,
    }
}

fn are_among(object: &Map<String, Value>, keys: &[&str]) -> bool
    ensures { result ≡ list_all (λ key. list_any (λ name. bytes_eq name.now (string_bytes key)) keys.now) (entry_keys object.now) }
{
    object.keys().all(|key| is_among(key.as_str(), keys))
}

fn is_among(key: &str, keys: &[&str]) -> bool
    ensures { result ≡ list_any (λ name. bytes_eq name.now key.now) keys.now }
{
    keys.iter().any(|name| is_same(*name, key))
}

/// Whether two texts have the same bytes.
fn is_same(a: &str, b: &str) -> bool
    ensures { result ≡ bytes_eq a.now b.now }
{
    a == b
}

/// An object under this name, with keys from its table alone.
pub fn object(value: &Value, name: &str, keys: &[&str]) -> Result<(), Stop>
    requires some { 0 < length name.now }
    requires few { length name.now ≤ 33 }
    ensures { Reads result (object_fault name.now (map (λ k. k.now) keys.now) (view value.now)) tt }
{
    if has_only_keys(value, keys) {
        Ok(())
    } else {
        Err(wrong_form(name))
    }
}

/// The part at a key that must be there.
pub fn required<'v>(value: &'v Value, key: &str) -> Result<&'v Value, Stop>
    requires some { 0 < length key.now }
    requires few { length key.now ≤ 33 }
    ensures { MatchResult result (λ v. get key.now (view value.now) ≡ Some (view v.now))
        (λ e. (get key.now (view value.now) ≡ None) × (e ≡ Stop.Fault (Missing key.now))) }
{
    present(value.get(key), key)
}

/// The part that was found at a key, which must be there.
pub fn present<'v>(part: Option<&'v Value>, key: &str) -> Result<&'v Value, Stop>
    requires some { 0 < length key.now }
    requires few { length key.now ≤ 33 }
    ensures { MatchResult result (λ v. part.entry ≡ Some v) (λ e. (part.entry ≡ None) × (e ≡ Stop.Fault (Missing key.now))) }
{
    match part {
        Some(part) => Ok(part),
        None => Err(Stop::Fault(WalkFault::Missing {
            key: Name::new(key),
        })),
    }
}

/// A number, or a number of items, between its bounds.
pub fn within(found: u64, key: &str, least: u64, most: u64) -> Result<(), Stop>
    requires some { 0 < length key.now }
    requires few { length key.now ≤ 33 }
    ensures { Reads result (within_fault least most found key.now) tt }
{
    if found < least {
        return Err(wrong_form(key));
    }
    if found > most {
        return Err(over(key, most));
    }
    Ok(())
}

/// The items of a list.
#[tactic(auto, using(crate::proofs::Views::items_view_lists))]
pub fn items(value: &Value) -> Option<&[Value]>
    ensures { MatchOption result ((is_list (view value.now) ≡ false) × (list_of (view value.now) ≡ []))
        (λ s. (is_list (view value.now) ≡ true) × (map view s.now ≡ list_of (view value.now))) }
{
    match value.as_array() {
        Some(list) => Some(list.as_slice()),
        None => None,
    }
}
