//! The calls of a computation that are still to come.
ghost use Rattle.std.specs.Prelude.{◌≡◌, ◌<◌, ◌^◌, ◌↔◌, IsTrue, List, length, slice_get};
ghost use Rattle.samoa_model.specs.declared.ids.HandlerId.{HandlerId};
ghost use Rattle.samoa_model.specs.Paths.{NothingLeft};

use samoa_model::HandlerId;

/// What has active and waiting calls, fewer than 4,294,967,296 of them.
pub trait Standing {
    /// The handlers of the active calls.
    ghost active_handlers: { Self → List HandlerId };

    /// The handlers of the waiting calls.
    ghost waiting_handlers: { Self → List HandlerId };

    /// The handler of an active call, None exactly past the last of them.
    fn active(&self, at: usize) -> Option<HandlerId>
        ensures listed { result ≡ slice_get (active_handlers self.now) at }
        ensures few { length (active_handlers self.now) < 2 ^ 32 };

    /// A handler of a waiting call, None exactly past the last of them.
    fn waiting(&self, at: usize) -> Option<HandlerId>
        ensures listed { result ≡ slice_get (waiting_handlers self.now) at }
        ensures few { length (waiting_handlers self.now) < 2 ^ 32 };
}

/// Whether no call is active and none is waiting. It takes no memory.
#[tactic(auto, using(crate::proofs::Emptied::none_empty))]
pub fn nothing_left<T: Standing>(standing: &T) -> bool
    ensures { IsTrue result ↔ NothingLeft (T.active_handlers standing.now) (T.waiting_handlers standing.now) }
{
    match standing.active(0) {
        Some(_) => false,
        None => match standing.waiting(0) {
            Some(_) => false,
            None => true,
        },
    }
}
