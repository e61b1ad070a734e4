//! The members of an object, one after another.
ghost use Rattle.std.specs.Prelude.{◌≡◌, option_map, None, Some, MatchOption};
ghost use Rattle.serde_json.specs.Find.{as_object};
ghost use Rattle.serde_json.specs.View.{view, members_view};
ghost use Rattle.samoa_form.specs.Members.{with_member, IsDoneOf};

use serde_json::Value;
use std::collections::btree_map::Iter;
use std::marker::Model;

/// The members of an object that are left, in byte order of their keys.
#[derive(Drop)]
pub struct Members<'v> {
    next: Option<(&'v String, &'v Value)>,
    rest: Iter<'v, String, Value>,
}

impl<'v> Model for Members<'v> {
    ghost use Rattle.std.specs.Prelude.{List, String};
    ghost use Rattle.std.specs.declared.alloc.Global.{Global};
    ghost use Rattle.serde_json.specs.declared.value.Value.{Value as JsonValue};
    ghost use Rattle.serde_json.specs.contracts.value.Value as json_value;
    ghost use Rattle.std.specs.Coded.{codes};
    ghost use Rattle.samoa_form.specs.Members.{left_of, EndsWith};

    ghost Value = { List (String Global × JsonValue) };

    ghost coded = { Prim.hlevel (codes, json_value.the_row.coded) };

    ghost view = { λ m. left_of m.next m.rest };

    ghost invariant = { λ m. EndsWith m.next m.rest };
}

impl<'v> Members<'v> {
    /// The members of a value that is an object.
    pub fn of(value: &'v Value) -> Option<Members<'v>>
        ensures { MatchOption result (as_object (view value.now) ≡ None) (λ m. as_object (view value.now) ≡ Some (members_view m)) }
    {
        let mut rest = value.as_object()?.iter();
        let next = rest.next();
        Some(Members { next, rest })
    }

    /// The value of the next member, where it has this key. That member is then left no longer.
    pub fn take(&mut self, key: &str) -> Option<&'v Value>
        ensures { members_view self.old ≡ with_member key.now (option_map (λ v. view v.now) result) (members_view self.new) }
    {
        let (name, value) = self.next?;
        if name.as_str() != key {
            return None;
        }
        self.next = self.rest.next();
        Some(value)
    }

    /// Whether no member is left.
    pub fn is_done(&self) -> bool
        ensures { IsDoneOf result (members_view self.now) }
    {
        self.next.is_none()
    }
}
