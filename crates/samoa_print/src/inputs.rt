//! What happens to the stack. A script can have thousands of items of `do`, so their text is appended with no tree.
ghost use Rattle.std.specs.Prelude.{◌≡◌, string_bytes, OnOk};
ghost use Rattle.serde_json.specs.Data.{object};
ghost use Rattle.samoa_model.specs.declared.record.Cause.TheVariants.{Event, Change};
ghost use Rattle.samoa_print.specs.Canonical.{list_tree, do_members, do_tree};
ghost use Rattle.samoa_print.specs.Sound.{AddsAfter};

use crate::listing::Printed;
use crate::names::{change_name, event_name};
use crate::text::{comma, push, push_number, push_numbers, push_string};
use samoa_model::{Cause, ChangeId, CrashDef, DoDef, EventId, LossDef, NoMemory, Script};
use serde_json::{Value, json};
use std::alloc::Global;

/// Appends an item of `do` that is an event.
fn push_event(
    alloc: Global,
    script: &Script,
    begin: &str,
    item: &DoDef,
    event: EventId,
    out: &mut String,
) -> Result<(), NoMemory>
    ensures { OnOk result (AddsAfter begin.now (object (do_members script.now item.now (Event event))) (string_bytes out.old) (string_bytes out.new)) }
{
    push(begin, out)?;
    push_numbers("{\"args\":", item.args.as_slice(), out)?;
    push_string(alloc, ",\"event\":", event_name(script, event), out)?;
    push_number(",\"node\":", u64::from(item.node.0), out)?;
    push_number(",\"tick\":", u64::from(item.tick), out)?;
    push("}", out)
}

/// Appends an item of `do` that is a change of bindings.
fn push_change(
    alloc: Global,
    script: &Script,
    begin: &str,
    item: &DoDef,
    change: ChangeId,
    out: &mut String,
) -> Result<(), NoMemory>
    ensures { OnOk result (AddsAfter begin.now (object (do_members script.now item.now (Change change))) (string_bytes out.old) (string_bytes out.new)) }
{
    push(begin, out)?;
    push_numbers("{\"args\":", item.args.as_slice(), out)?;
    push_string(alloc, ",\"change\":", change_name(script, change), out)?;
    push_number(",\"node\":", u64::from(item.node.0), out)?;
    push_number(",\"tick\":", u64::from(item.tick), out)?;
    push("}", out)
}

#[tactic(auto, unfolding(crate::specs::Canonical::do_tree))]
fn push_do(
    alloc: Global,
    script: &Script,
    begin: &str,
    item: &DoDef,
    out: &mut String,
) -> Result<(), NoMemory>
    ensures { OnOk result (AddsAfter begin.now (do_tree script.now item.now) (string_bytes out.old) (string_bytes out.new)) }
{
    match item.cause {
        Cause::Event(event) => push_event(alloc, script, begin, item, event, out),
        Cause::Change(change) => push_change(alloc, script, begin, item, change, out),
    }
}

/// Appends the items of `do`.
pub fn push_does(
    alloc: Global,
    script: &Script,
    begin: &str,
    out: &mut String,
) -> Result<(), NoMemory>
    ensures { OnOk result (AddsAfter begin.now (list_tree (do_tree script.now) script.now.does) (string_bytes out.old) (string_bytes out.new)) }
{
    push(begin, out)?;
    push("[", out)?;
    for (i, item) in script.does.as_slice().iter().enumerate() {
        push_do(alloc, script, comma(i), item, out)?;
    }
    push("]", out)
}

impl Printed for LossDef {
    ghost use Rattle.samoa_print.specs.Canonical.{loss_tree};

    ghost tree = { λ script l. loss_tree l };

    #[tactic(auto, unfolding(crate::specs::Canonical::loss_tree))]
    fn value(&self, alloc: Global, _script: &Script) -> Result<Value, NoMemory> {
        Ok(
            json!(in alloc; {"from": self.from.0, "to": self.to.0, "first": self.first, "last": self.last})?,
        )
    }
}

impl Printed for CrashDef {
    ghost use Rattle.samoa_print.specs.Canonical.{crash_tree};

    ghost tree = { λ script c. crash_tree c };

    #[tactic(auto, unfolding(crate::specs::Canonical::crash_tree))]
    fn value(&self, alloc: Global, _script: &Script) -> Result<Value, NoMemory> {
        Ok(json!(in alloc; {"node": self.node.0, "tick": self.tick})?)
    }
}
