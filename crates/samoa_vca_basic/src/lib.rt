//! When a computation under a set may be done with a microprotocol.
#![tactic(auto)]

ghost use Rattle.std.specs.Prelude.{◌≡◌, ◌↔◌, IsTrue, false};
ghost use Rattle.samoa_model.specs.Range.{IsSet};
ghost use Rattle.samoa_model.specs.Paths.{NothingLeft};

use samoa_declare::{Standing, nothing_left};
use samoa_model::{Decl, MicroId};

#[cfg(test)]
mod tests;

/// Whether a computation that has its turn at a microprotocol of its set may be done with it: exactly where nothing is
/// left of its calls, whichever microprotocol it is. It takes no memory.
pub fn may_release<T: Standing>(_decl: &Decl, standing: &T, _micro: MicroId) -> bool
    requires set { IsSet _decl.now }
    ensures { IsTrue result ↔ NothingLeft (T.active_handlers standing.now) (T.waiting_handlers standing.now) }
{
    nothing_left(standing)
}

/// Whether a completed call raises the local version at once: under a set it never does. It takes no memory.
pub fn raises(_decl: &Decl, _micro: MicroId) -> bool
    requires set { IsSet _decl.now }
    ensures { result ≡ false }
{
    false
}
