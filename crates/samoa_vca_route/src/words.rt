//! The microprotocols that a route leads to from a handler, as the bits of a word.
ghost use Rattle.std.specs.Prelude.{◌≡◌, ◌≢◌, ◌<◌, ◌≤◌, ◌↔◌, ℕ, length, true, false};
ghost use Rattle.std.specs.Int.{bit_at};
ghost use Rattle.samoa_vca_route.specs.Marks.{AreElsewhere};
ghost use Rattle.samoa_vca_route.specs.Masks.{IsMaskOf};
ghost use Rattle.samoa_vca_route.specs.Routes.{IsGraph, IsVertex};

use crate::walk::walk;
use samoa_model::HandlerId;

/// The mask of a handler. One that is no vertex leads nowhere, and is at its own microprotocol.
pub(crate) fn mask_from(vertices: &[HandlerId], edges: &[(u32, u32)], start: HandlerId) -> u32
    requires { IsGraph vertices.now edges.now }
    ensures { IsMaskOf vertices.now edges.now start result }
{
    if !is_vertex(vertices, start) {
        return bit(start.micro.0);
    }
    let mut marks = [false; 32];
    walk(vertices, edges, start, &mut marks);
    marked(vertices, &marks)
}

fn is_vertex(vertices: &[HandlerId], handler: HandlerId) -> bool
    ensures vertex { result ≡ true → IsVertex vertices.now handler }
    ensures none { result ≡ false → IsVertex vertices.now handler → ⊥ }
{
    for vertex in vertices {
        if vertex.micro.0 == handler.micro.0 && vertex.index == handler.index {
            return true;
        }
    }
    false
}

/// The microprotocols of the marked vertices.
fn marked(vertices: &[HandlerId], marks: &[bool]) -> u32
    requires { length vertices.now ≤ length marks.now }
    ensures { (p : ℕ) → p < 32 → (bit_at result p ≡ 0) ↔ AreElsewhere vertices.now marks.now (length vertices.now) p }
{
    let mut word = 0;
    for (place, vertex) in vertices.iter().enumerate() {
        if marks[place] {
            word |= bit(vertex.micro.0);
        }
    }
    word
}

/// A word with one microprotocol, or with none where it has no bit.
fn bit(micro: u32) -> u32
    ensures { (p : ℕ) → p < 32 → (bit_at result p ≡ 0) ↔ (micro ≢ p) }
{
    if micro < 32 { 1 << micro } else { 0 }
}
