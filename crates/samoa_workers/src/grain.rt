//! How many workers a part is worth.
ghost use Rattle.std.specs.Prelude.{◌≡◌, ◌≤◌, ◌⊎◌, true};

use crate::gate::Gate;

/// For so many computations of a part one worker more is started.
const GRAIN: usize = 128;

/// How many of these workers a part of so many computations gets: one for each grain of them, but one at least, which is
/// the calling thread. To start a worker takes as long as some tens of computations of a few short handler steps, and
/// workers take turns at the core; so a part of few computations is done before others would be of use. Behind a gate that
/// may hold a handler step until another was made, a part gets a worker for each computation, as far as there are so many.
pub fn crew_for<G: Gate>(comps: usize, workers: u32, gate: &G) -> u32
    requires some { 1 ≤ workers }
    ensures some { 1 ≤ result }
    ensures most { result ≤ workers }
    ensures few { (result ≡ 1) ⊎ (result ≤ comps) }
    ensures held { G.may_hold gate.now ≡ true → (workers ≤ result) ⊎ (comps ≤ result) }
{
    let worth = if gate.holds() { comps } else { comps / GRAIN };
    worth.min(workers as usize).max(1) as u32
}
