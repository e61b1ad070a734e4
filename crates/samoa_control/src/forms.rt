//! What depends on the form of a declaration: what it weighs and names, when a microprotocol is released, and where a
//! completed call raises a version.
ghost use Rattle.std.specs.Prelude.{◌≡◌, ◌↔◌, ◌<◌, ◌≤◌, ◌+◌, ◌*◌, ℕ, length, IfSome, IsTrue};
ghost use Rattle.std.specs.Int.{bit_at};
ghost use Rattle.samoa_model.specs.Allowed.{weight};
ghost use Rattle.samoa_model.specs.Paths.{MayRelease};
ghost use Rattle.samoa_invariant.specs.State.{named};
ghost use Rattle.samoa_versions.specs.Counters.{gv_at, lv_at};
ghost use Rattle.samoa_control.specs.Forms.{IsMasked, IsTestable, raises, risen, waits_for_rest};

use crate::grid::place;
use samoa_declare::{Standing, nothing_left, weight as weight_of};
use samoa_model::{Decl, MicroId, NodeId};
use samoa_vca_route::{Masks, may_release_masked};
use samoa_versions::Versions;

/// How much a declaration allows of a microprotocol.
pub(crate) fn weight(decl: &Decl, micro: u32) -> u32
    ensures { result ≡ weight decl.now micro }
{
    weight_of(decl, MicroId(micro))
}

/// How many microprotocols a declaration names, those that it names again counted again.
pub(crate) fn named_count(decl: &Decl) -> usize
    ensures { result ≡ length (named decl.now) }
{
    match decl {
        Decl::Set { micros } => micros.len(),
        Decl::Bound { bounds } => bounds.len(),
        Decl::Route {
            vertices,
            roots: _,
            edges: _,
        } => vertices.len(),
    }
}

/// Whether a computation that has its turn at a microprotocol may be done with it.
pub(crate) fn may_release<T: Standing>(
    decl: &Decl,
    masks: &Option<Masks>,
    standing: &T,
    micro: u32,
) -> bool
    requires testable { IsTestable decl.now }
    requires masked { IsMasked decl.now masks.now }
    ensures { IsTrue result ↔ MayRelease decl.now (T.active_handlers standing.now) (T.waiting_handlers standing.now) micro }
{
    let micro = MicroId(micro);
    match decl {
        Decl::Set { .. } => samoa_vca_basic::may_release(decl, standing, micro),
        Decl::Bound { .. } => samoa_vca_bound::may_release(decl, standing, micro),
        Decl::Route { .. } => match masks {
            Some(masks) => may_release_masked(decl, masks, standing, micro),
            None => unreachable!(),
        },
    }
}

/// The microprotocols that a computation may not be done with yet, as the bits of a word, whether it has its turn there or
/// not.
pub(crate) fn still_needed<T: Standing>(decl: &Decl, masks: &Option<Masks>, standing: &T) -> u32
    requires testable { IsTestable decl.now }
    requires masked { IsMasked decl.now masks.now }
    ensures { (p : ℕ) → p < 32 → (bit_at result p ≡ 0) ↔ MayRelease decl.now (T.active_handlers standing.now) (T.waiting_handlers standing.now) p }
{
    match decl {
        Decl::Set { .. } | Decl::Bound { .. } => all_unless(nothing_left(standing)),
        Decl::Route { .. } => match masks {
            Some(masks) => masks.still_needed(decl, standing),
            None => unreachable!(),
        },
    }
}

/// All microprotocols, or none of them.
fn all_unless(done: bool) -> u32
    ensures { (p : ℕ) → p < 32 → (bit_at result p ≡ 0) ↔ IsTrue done }
{
    if done { 0 } else { u32::MAX }
}

/// Whether a computation is done with no microprotocol as long as anything is left of its calls.
pub(crate) fn waits_for_rest(decl: &Decl) -> bool
    ensures { result ≡ waits_for_rest decl.now }
{
    match decl {
        Decl::Set { .. } | Decl::Bound { .. } => true,
        Decl::Route { .. } => false,
    }
}

/// Raises the local version of the microprotocol at which a computation completed a call, if it completed one and its
/// declaration does so. That version is below the global one.
pub(crate) fn raise(
    decl: &Decl,
    columns: usize,
    node: NodeId,
    completed: Option<MicroId>,
    versions: &mut Versions,
)
    requires testable { IsTestable decl.now }
    requires few { columns ≤ 24 }
    requires there { IfSome completed (λ micro. node.0 * columns + micro.0 < length versions.old.gv) }
    requires below { IfSome completed (λ micro. lv_at versions.old (node.0 * columns + micro.0) < gv_at versions.old (node.0 * columns + micro.0)) }
    ensures lv { versions.new.lv ≡ risen decl.now columns node.0 completed versions.old.lv }
    ensures gv { versions.new.gv ≡ versions.old.gv }
{
    if let Some(micro) = completed {
        if raises(decl, micro) {
            versions.raise(place(columns, node.0, micro.0));
        }
    }
}

/// Whether a call that is completed at a microprotocol raises its local version.
fn raises(decl: &Decl, micro: MicroId) -> bool
    requires { IsTestable decl.now }
    ensures { result ≡ raises decl.now micro.0 }
{
    match decl {
        Decl::Set { .. } => samoa_vca_basic::raises(decl, micro),
        Decl::Bound { .. } => samoa_vca_bound::raises(decl, micro),
        Decl::Route { .. } => samoa_vca_route::raises(decl, micro),
    }
}
