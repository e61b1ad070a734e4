//! JSON text, appended part by part. Where memory was wanting, what stands there then is no text.
ghost use Rattle.std.specs.Prelude.{◌≡◌, ◌≤◌, ◌++◌, nat_lt, string_bytes, false, OnOk};
ghost use Rattle.serde_json.specs.Data.{depth, string};
ghost use Rattle.serde_json.specs.Read.{max_depth};
ghost use Rattle.serde_json.specs.Written.{has_float, comma_if};
ghost use Rattle.serde_json.specs.View.{view};
ghost use Rattle.samoa_model.specs.NameRule.{IsScriptName};
ghost use Rattle.samoa_print.specs.Canonical.{list_tree, number_tree};
ghost use Rattle.samoa_print.specs.Sound.{AddsAfter};

use itoa::Buffer;
use samoa_model::{NoMemory, is_name};
use serde_json::Value;
use std::alloc::Global;

/// Appends bytes as they are.
pub fn push(text: &str, out: &mut String) -> Result<(), NoMemory>
    ensures { OnOk result (string_bytes out.new ≡ string_bytes out.old ++ text.now) }
{
    out.push_str(text)?;
    Ok(())
}

/// Appends the text of a tree that has no float and isn't deep, after what stands before it.
pub fn push_value(
    alloc: Global,
    begin: &str,
    value: &Value,
    out: &mut String,
) -> Result<(), NoMemory>
    requires plain { has_float (view value.now) ≡ false }
    requires flat { depth (view value.now) ≤ max_depth }
    ensures { OnOk result (AddsAfter begin.now (view value.now) (string_bytes out.old) (string_bytes out.new)) }
{
    let text = value.to_string(alloc)?;
    push(begin, out)?;
    push(text.as_str(), out)
}

/// Appends a number.
pub fn push_number(begin: &str, number: u64, out: &mut String) -> Result<(), NoMemory>
    ensures { OnOk result (AddsAfter begin.now (number_tree number) (string_bytes out.old) (string_bytes out.new)) }
{
    push(begin, out)?;
    push(Buffer::new().format(number), out)
}

/// Appends a text in quotes. A name needs no escape.
pub fn push_string(alloc: Global, begin: &str, text: &str, out: &mut String) -> Result<(), NoMemory>
    ensures { OnOk result (AddsAfter begin.now (string text.now) (string_bytes out.old) (string_bytes out.new)) }
{
    if is_name(text) {
        return push_name(begin, text, out);
    }
    let value = Value::try_from_str(alloc, text)?;
    push_value(alloc, begin, &value, out)
}

fn push_name(begin: &str, name: &str, out: &mut String) -> Result<(), NoMemory>
    requires { IsScriptName name.now }
    ensures { OnOk result (AddsAfter begin.now (string name.now) (string_bytes out.old) (string_bytes out.new)) }
{
    push(begin, out)?;
    push("\"", out)?;
    push(name, out)?;
    push("\"", out)
}

/// Appends a list of numbers.
pub fn push_numbers(begin: &str, numbers: &[u64], out: &mut String) -> Result<(), NoMemory>
    ensures { OnOk result (AddsAfter begin.now (list_tree number_tree numbers.now) (string_bytes out.old) (string_bytes out.new)) }
{
    push(begin, out)?;
    push("[", out)?;
    for (i, number) in numbers.iter().enumerate() {
        push_number(comma(i), *number, out)?;
    }
    push("]", out)
}

/// What stands before an item of a list: a comma, but before the first nothing.
pub fn comma(place: usize) -> &'static str
    ensures { result.now ≡ comma_if (nat_lt 0 place) }
{
    if place == 0 { "" } else { "," }
}
