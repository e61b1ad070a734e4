//! Items of `do`. A script can have thousands of them, so the keys of one are found in one pass.
ghost use Rattle.std.specs.Prelude.{◌≡◌, ◌≤◌, ◌<◌, [], ◌∷◌, length, codes, is_some, true, false, IfSome, MatchOption};
ghost use Rattle.serde_json.specs.Find.{get};
ghost use Rattle.serde_json.specs.View.{view};
ghost use Rattle.samoa_grammar.specs.Tree.{has_only, part as part_of, is_number as numbers, number_of};
ghost use Rattle.samoa_grammar.specs.Tests.{object_fault, required as required_of, optional as optional_of, number_from_fault, items_fault};
ghost use Rattle.samoa_grammar.specs.Forms.{same_test, cause_count_fault, cause_fault, cause_of, numbers_of};
ghost use Rattle.samoa_form.specs.Members.{do_keys};
ghost use Rattle.samoa_form.specs.Reads.{Reads};

use crate::cells::{name, number_from, numbers_or_none};
use crate::lists::Part;
use crate::members::Members;
use crate::stop::Stop;
use crate::tree::{object, present, wrong_form};
use samoa_grammar::{CauseDraft, DoDraft};
use samoa_model::Words;
use serde_json::Value;
use std::alloc::Global;
use std::marker::Model;

/// An object with the parts at the keys of an item of `do`. Contracts see the object.
#[derive(Drop)]
struct DoParts<'v> {
    object: &'v Value,
    tick: Option<&'v Value>,
    node: Option<&'v Value>,
    event: Option<&'v Value>,
    change: Option<&'v Value>,
    args: Option<&'v Value>,
}

impl<'v> Model for DoParts<'v> {
    ghost use Rattle.std.specs.Prelude.{◌≡◌, codes, option_map};
    ghost use Rattle.serde_json.specs.contracts.value.Value as json_value;
    ghost use Rattle.serde_json.specs.declared.value.Value.{Value as JsonValue};
    ghost use Rattle.serde_json.specs.Find.{get};
    ghost use Rattle.serde_json.specs.View.{view};
    ghost use Rattle.std.specs.Coded.{codes as coded_by};
    ghost use Rattle.samoa_form.specs.Members.{IsPart};

    ghost Value = { JsonValue };

    ghost coded = { Prim.hlevel (coded_by, json_value.the_row.coded) };

    ghost view = { λ p. p.object.now };

    ghost invariant = { λ p. IsPart (codes "tick") p.object.now p.tick × IsPart (codes "node") p.object.now p.node × IsPart (codes "event") p.object.now p.event × IsPart (codes "change") p.object.now p.change × IsPart (codes "args") p.object.now p.args };
}

impl<'v> DoParts<'v> {
    /// The parts of an object with keys from the table of `do` alone, under the list's name.
    fn of(value: &'v Value, list: &str) -> Result<DoParts<'v>, Stop>
        requires some { 0 < length list.now }
        requires few { length list.now ≤ 33 }
        ensures { Reads result (object_fault list.now do_keys (view value.now)) value.now }
    {
        if let Some(parts) = DoParts::in_order(value) {
            return Ok(parts);
        }
        // No object of a table's keys comes here, since its members stand in byte order. What comes has a fault.
        object(value, list, &["tick", "node", "event", "change", "args"])?;
        Ok(DoParts {
            object: value,
            tick: value.get("tick"),
            node: value.get("node"),
            event: value.get("event"),
            change: value.get("change"),
            args: value.get("args"),
        })
    }

    /// The parts, where the members are some of the table's, in byte order of their keys.
    fn in_order(value: &'v Value) -> Option<DoParts<'v>>
        ensures same { IfSome result (λ p. p ≡ value.now) }
        ensures known { IfSome result (λ p. has_only do_keys (view value.now) ≡ true) }
    {
        let mut members = Members::of(value)?;
        let args = members.take("args");
        let change = members.take("change");
        let event = members.take("event");
        let node = members.take("node");
        let tick = members.take("tick");
        if !members.is_done() {
            return None;
        }
        Some(DoParts {
            object: value,
            tick,
            node,
            event,
            change,
            args,
        })
    }

    fn tick(&self) -> Result<u64, Stop>
        ensures { Reads result (required_of (codes "tick") (number_from_fault 1) (view self.now)) (number_of (part_of (codes "tick") (view self.now))) }
    {
        number_from(present(self.tick, "tick")?, "tick", 1)
    }

    fn node(&self) -> Result<u64, Stop>
        ensures { Reads result (required_of (codes "node") (number_from_fault 0) (view self.now)) (number_of (part_of (codes "node") (view self.now))) }
    {
        number_from(present(self.node, "node")?, "node", 0)
    }

    /// Exactly one of `event` and `change`.
    fn one_cause(&self, list: &str) -> Result<(), Stop>
        requires some { 0 < length list.now }
        requires few { length list.now ≤ 33 }
        ensures { Reads result (cause_count_fault list.now (view self.now)) tt }
    {
        if self.event.is_some() == self.change.is_some() {
            return Err(wrong_form(list));
        }
        Ok(())
    }

    fn cause(&self) -> Result<CauseDraft, Stop>
        requires { same_test (is_some (get (codes "event") (view self.now))) (is_some (get (codes "change") (view self.now))) ≡ false }
        ensures { Reads result (cause_fault (view self.now)) (cause_of (view self.now)) }
    {
        if let Some(event) = self.event {
            return Ok(CauseDraft::Event(name(event, "event")?));
        }
        let change = present(self.change, "change")?;
        Ok(CauseDraft::Change(name(change, "change")?))
    }

    fn args(&self) -> Result<Words, Stop>
        ensures { Reads result (optional_of (codes "args") (items_fault 0 12 numbers) (view self.now)) (numbers_of (codes "args") (view self.now)) }
    {
        numbers_or_none(self.args, "args")
    }
}

impl Part for DoDraft {
    ghost use Rattle.samoa_grammar.specs.Forms.{do_fault, do_of};

    ghost fault = { do_fault };

    ghost meaning = { do_of };

    #[tactic(auto, unfolding(samoa_grammar::specs::Forms::do_fault, samoa_grammar::specs::Forms::do_of))]
    fn read(_alloc: Global, list: &str, value: &Value) -> Result<DoDraft, Stop> {
        let parts = DoParts::of(value, list)?;
        parts.one_cause(list)?;
        let tick = parts.tick()?;
        let node = parts.node()?;
        let cause = parts.cause()?;
        let args = parts.args()?;
        Ok(DoDraft {
            tick,
            node,
            cause,
            args,
        })
    }
}
