//! The handlers that are bound to one event.
ghost use Rattle.std.specs.Prelude.{◌≡◌, ◌≤◌, length};

use arrayvec::ArrayVec;
use samoa_model::HandlerId;
use std::marker::Model;

/// At most four handlers, in the order of their binding. They lie in the value itself.
#[derive(Drop)]
pub(crate) struct BoundList {
    handlers: ArrayVec<HandlerId, 4>,
}

impl Model for BoundList {
    ghost use Rattle.std.specs.Prelude.{◌≤◌, List, length};
    ghost use Rattle.samoa_model.specs.declared.ids.HandlerId.{HandlerId};

    ghost Value = { List HandlerId };

    ghost view = { λ b. b.handlers.items };

    ghost invariant = { λ b. length b.handlers.items ≤ 4 };
}

impl BoundList {
    /// The list of these handlers. It takes no memory.
    pub(crate) fn of(handlers: &[HandlerId]) -> BoundList
        requires { length handlers.now ≤ 4 }
        ensures { result ≡ handlers.now }
    {
        let mut bound = ArrayVec::new();
        bound.try_extend_from_slice(handlers).unwrap();
        BoundList { handlers: bound }
    }

    pub(crate) fn as_slice(&self) -> &[HandlerId]
        ensures list { result.now ≡ self.now }
        ensures few { length result.now ≤ 4 }
    {
        self.handlers.as_slice()
    }
}
