//! Objects that are put together key by key.
ghost use Rattle.std.specs.Prelude.{◌≡◌, IfOk};
ghost use Rattle.serde_json.specs.Data.{object, string, no_members, put as put_member};
ghost use Rattle.samoa_print.specs.Canonical.{number_tree};
ghost use Rattle.serde_json.specs.View.{view};
ghost use Rattle.samoa_print.specs.Objects.{members_in};

use samoa_model::NoMemory;
use serde_json::{Map, Value, put};
use std::alloc::Global;

/// The members of an object, in byte order of their keys.
#[derive(Drop)]
pub struct Object {
    map: Map<String, Value>,
}

impl Object {
    #[tactic(auto, unfolding(crate::specs::Objects::members_in))]
    pub fn new(alloc: Global) -> Object
        ensures { members_in result ≡ no_members }
    {
        Object {
            map: Map::new(alloc),
        }
    }

    /// The members with one more. It is cheapest where keys come from the last to the first in byte order.
    #[tactic(auto, unfolding(crate::specs::Objects::members_in))]
    pub fn with(self, alloc: Global, key: &str, value: Value) -> Result<Object, NoMemory>
        ensures { IfOk result (λ object. members_in object ≡ put_member key.now (view value) (members_in self)) }
    {
        let mut map = self.map;
        put(&mut map, alloc, key, value)?;
        Ok(Object { map })
    }

    /// The members with one more, a text.
    pub fn with_text(self, alloc: Global, key: &str, text: &str) -> Result<Object, NoMemory>
        ensures { IfOk result (λ object. members_in object ≡ put_member key.now (string text.now) (members_in self)) }
    {
        let value = Value::try_from_str(alloc, text)?;
        self.with(alloc, key, value)
    }

    /// The members with one more, a number.
    pub fn with_number(self, alloc: Global, key: &str, number: u64) -> Result<Object, NoMemory>
        ensures { IfOk result (λ object. members_in object ≡ put_member key.now (number_tree number) (members_in self)) }
    {
        self.with(alloc, key, Value::from(number))
    }

    /// The object of these members.
    #[tactic(auto, unfolding(crate::specs::Objects::members_in))]
    pub fn done(self) -> Value
        ensures { view result ≡ object (members_in self) }
    {
        Value::Object(self.map)
    }
}
