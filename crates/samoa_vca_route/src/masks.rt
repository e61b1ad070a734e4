//! Where a route leads from each handler, found once: words whose bits are microprotocols.
ghost use Rattle.std.specs.Prelude.{◌≡◌, ◌<◌, ◌≤◌, ◌↔◌, ℕ, IfOk, IsTrue, slice_get};
ghost use Rattle.std.specs.Int.{bit_at};
ghost use Rattle.std.specs.List.{All};
ghost use Rattle.samoa_model.specs.Paths.{IsQuiet, IsSafe};
ghost use Rattle.samoa_vca_route.specs.Masks.{AreMasksOf, IsMaskOf, handler_at};
ghost use Rattle.samoa_vca_route.specs.Routes.{IsGraph, IsRoute, edges_of, vertices_of};

use crate::release::may_release;
use crate::words::mask_from;
use samoa_declare::Standing;
use samoa_model::{Decl, HandlerId, MicroId, NoMemory};
use std::alloc::Global;
use std::marker::Model;

/// Of each handler the microprotocols that a route leads to from it, its own among them. Contracts see the words, one for
/// each handler, whose bits are the microprotocols below 32.
///
/// The handlers are those of the first 24 microprotocols with an index up to the greatest of a vertex, and below 16; for
/// others the route is walked when they are asked for.
#[derive(Drop)]
pub struct Masks {
    words: Vec<u32>,
}

impl Model for Masks {
    ghost use Rattle.std.specs.Prelude.{ℕ, List};

    ghost Value = { List ℕ };

    ghost view = { λ m. m.words.items };
}

impl Masks {
    /// The masks of a route, or want of memory.
    pub fn new(alloc: Global, decl: &Decl) -> Result<Masks, NoMemory>
        requires route { IsRoute decl.now }
        ensures { IfOk result (λ masks. AreMasksOf (vertices_of decl.now) (edges_of decl.now) masks) }
    {
        match decl {
            Decl::Route {
                vertices,
                roots: _,
                edges,
            } => masks_of(alloc, vertices.as_slice(), edges.as_slice()),
            _ => unreachable!(),
        }
    }

    /// The microprotocols that a computation still needs: of those below 32 the bit is a zero exactly where `may_release`
    /// says so. The masks are those of its declaration. It takes no memory.
    pub fn still_needed<T: Standing>(&self, decl: &Decl, standing: &T) -> u32
        requires route { IsRoute decl.now }
        requires masks { AreMasksOf (vertices_of decl.now) (edges_of decl.now) self.now }
        ensures { (p : ℕ) → p < 32 → (bit_at result p ≡ 0)
            ↔ IsQuiet (vertices_of decl.now) (edges_of decl.now) p (T.active_handlers standing.now) (T.waiting_handlers standing.now) }
    {
        match decl {
            Decl::Route {
                vertices,
                roots: _,
                edges,
            } => {
                let (vertices, edges) = (vertices.as_slice(), edges.as_slice());
                self.active_need(vertices, edges, standing)
                    | self.waiting_need(vertices, edges, standing)
            }
            _ => unreachable!(),
        }
    }

    /// What the handlers of the active calls need.
    fn active_need<T: Standing>(
        &self,
        vertices: &[HandlerId],
        edges: &[(u32, u32)],
        standing: &T,
    ) -> u32
        requires graph { IsGraph vertices.now edges.now }
        requires masks { AreMasksOf vertices.now edges.now self.now }
        ensures { (p : ℕ) → p < 32 → (bit_at result p ≡ 0) ↔ All (IsSafe vertices.now edges.now p) (T.active_handlers standing.now) }
    {
        let mut needed = 0;
        let mut at = 0;
        while let Some(handler) = standing.active(at) {
            needed |= self.mask(vertices, edges, handler);
            at += 1;
        }
        needed
    }

    /// What the handlers of the waiting calls need.
    fn waiting_need<T: Standing>(
        &self,
        vertices: &[HandlerId],
        edges: &[(u32, u32)],
        standing: &T,
    ) -> u32
        requires graph { IsGraph vertices.now edges.now }
        requires masks { AreMasksOf vertices.now edges.now self.now }
        ensures { (p : ℕ) → p < 32 → (bit_at result p ≡ 0) ↔ All (IsSafe vertices.now edges.now p) (T.waiting_handlers standing.now) }
    {
        let mut needed = 0;
        let mut at = 0;
        while let Some(handler) = standing.waiting(at) {
            needed |= self.mask(vertices, edges, handler);
            at += 1;
        }
        needed
    }

    /// The mask of a handler.
    fn mask(&self, vertices: &[HandlerId], edges: &[(u32, u32)], handler: HandlerId) -> u32
        requires graph { IsGraph vertices.now edges.now }
        requires masks { AreMasksOf vertices.now edges.now self.now }
        ensures { IsMaskOf vertices.now edges.now handler result }
    {
        if handler.micro.0 < 24 {
            let place = handler.index as usize * 24 + handler.micro.0 as usize;
            if let Some(mask) = self.word(place) {
                return mask;
            }
        }
        mask_from(vertices, edges, handler)
    }

    /// The word at a place, None exactly past the last of them.
    fn word(&self, place: usize) -> Option<u32>
        ensures { result ≡ slice_get self.now place }
    {
        self.words.get(place).copied()
    }
}

fn masks_of(alloc: Global, vertices: &[HandlerId], edges: &[(u32, u32)]) -> Result<Masks, NoMemory>
    requires { IsGraph vertices.now edges.now }
    ensures { IfOk result (λ masks. AreMasksOf vertices.now edges.now masks) }
{
    let mut words = Vec::new(alloc);
    for place in 0..24 * rows(vertices) {
        words.push(mask_from(vertices, edges, listed(place)))?;
    }
    Ok(Masks { words })
}

/// How many indices are listed.
fn rows(vertices: &[HandlerId]) -> u32
    ensures { result ≤ 16 }
{
    let mut rows = 0;
    for vertex in vertices {
        if rows <= vertex.index && vertex.index < 16 {
            rows = vertex.index + 1;
        }
    }
    rows
}

/// The handler whose mask stands at a place.
fn listed(place: u32) -> HandlerId
    ensures { result ≡ handler_at place }
{
    HandlerId {
        micro: MicroId(place % 24),
        index: place / 24,
    }
}

/// Whether a microprotocol's bit in a word is a zero. It takes no memory.
pub fn is_clear(word: u32, micro: u32) -> bool
    requires { micro < 32 }
    ensures { IsTrue result ↔ (bit_at word micro ≡ 0) }
{
    (word >> micro) & 1 == 0
}

/// The same as `may_release`, by the masks of the declaration. A microprotocol that has no bit, as its number is 32 or
/// more, is looked for along the edges. It takes no memory.
pub fn may_release_masked<T: Standing>(
    decl: &Decl,
    masks: &Masks,
    standing: &T,
    micro: MicroId,
) -> bool
    requires route { IsRoute decl.now }
    requires masks { AreMasksOf (vertices_of decl.now) (edges_of decl.now) masks.now }
    ensures { IsTrue result ↔ IsQuiet (vertices_of decl.now) (edges_of decl.now) micro.0 (T.active_handlers standing.now) (T.waiting_handlers standing.now) }
{
    if micro.0 < 32 {
        is_clear(masks.still_needed(decl, standing), micro.0)
    } else {
        may_release(decl, standing, micro)
    }
}
