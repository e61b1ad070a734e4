//! When a computation under a bound may be done with a microprotocol, and where it gives a part of it up at once.
#![tactic(auto)]

ghost use Rattle.std.specs.Prelude.{◌≡◌, ◌↔◌, ◌==◌, IsTrue};
ghost use Rattle.std.specs.List.{list_any};
ghost use Rattle.samoa_model.specs.Allowed.{declares};
ghost use Rattle.samoa_model.specs.Paths.{NothingLeft};
ghost use Rattle.samoa_vca_bound.specs.Bounds.{IsBound};

use samoa_declare::{Standing, nothing_left};
use samoa_model::{Decl, MicroId};

#[cfg(test)]
mod tests;

/// Whether a computation that has its turn at a microprotocol of its bound may be done with it: exactly where nothing
/// is left of its calls, whichever microprotocol it is. It takes no memory.
pub fn may_release<T: Standing>(_decl: &Decl, standing: &T, _micro: MicroId) -> bool
    requires bound { IsBound _decl.now }
    ensures { IsTrue result ↔ NothingLeft (T.active_handlers standing.now) (T.waiting_handlers standing.now) }
{
    nothing_left(standing)
}

/// Whether a completed call at a microprotocol raises its local version at once: exactly where the bound names it. It
/// takes no memory.
pub fn raises(decl: &Decl, micro: MicroId) -> bool
    requires bound { IsBound decl.now }
    ensures { result ≡ declares decl.now micro.0 }
{
    match decl {
        Decl::Bound { bounds } => names(bounds.as_slice(), micro.0),
        _ => unreachable!(),
    }
}

/// Whether a bound names the microprotocol.
fn names(bounds: &[(u32, u32)], micro: u32) -> bool
    ensures { result ≡ list_any (λ b. b.0 == micro) bounds.now }
{
    bounds.iter().any(|bound| bound.0 == micro)
}
