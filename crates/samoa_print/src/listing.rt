//! Lists of a script, as JSON values.
ghost use Rattle.std.specs.Prelude.{◌≡◌, map, IfOk};
ghost use Rattle.serde_json.specs.View.{view};
ghost use Rattle.samoa_print.specs.Canonical.{list_tree, number_tree};

use samoa_model::{NoMemory, Script};
use serde_json::Value;
use std::alloc::Global;

/// A part of a script that stands in lists.
pub trait Printed {
    ghost use Rattle.serde_json.specs.Data.{Data};
    ghost use Rattle.samoa_model.specs.declared.script.Script.{Script as ScriptValue};

    /// The tree of the part in a script.
    ghost tree: { ScriptValue → Self → Data };

    /// The part as a JSON value, or want of memory.
    fn value(&self, alloc: Global, script: &Script) -> Result<Value, NoMemory>
        ensures { IfOk result (λ v. view v ≡ tree script.now self.now) };
}

/// A list of parts, in their order.
pub fn list<T: Printed>(alloc: Global, script: &Script, items: &[T]) -> Result<Value, NoMemory>
    ensures { IfOk result (λ v. view v ≡ list_tree (T.Printed.tree script.now) items.now) }
{
    Ok(Value::Array(each(alloc, script, items)?))
}

fn each<T: Printed>(alloc: Global, script: &Script, items: &[T]) -> Result<Vec<Value>, NoMemory>
    ensures { IfOk result (λ v. map view v.items ≡ map (T.Printed.tree script.now) items.now) }
{
    let mut values = Vec::new(alloc);
    for item in items {
        values.push(item.value(alloc, script)?)?;
    }
    Ok(values)
}

/// A list of numbers.
pub fn numbers(alloc: Global, numbers: &[u64]) -> Result<Value, NoMemory>
    ensures { IfOk result (λ v. view v ≡ list_tree number_tree numbers.now) }
{
    Ok(Value::Array(each_number(alloc, numbers)?))
}

fn each_number(alloc: Global, numbers: &[u64]) -> Result<Vec<Value>, NoMemory>
    ensures { IfOk result (λ v. map view v.items ≡ map number_tree numbers.now) }
{
    let mut values = Vec::new(alloc);
    for number in numbers {
        values.push(Value::from(*number))?;
    }
    Ok(values)
}
