//! The weight of a microprotocol in a declaration.
ghost use Rattle.std.specs.Prelude.{◌≡◌, ◌==◌};
ghost use Rattle.std.specs.List.{list_any};
ghost use Rattle.samoa_model.specs.Allowed.{weight, bound_in};

use samoa_model::{Decl, HandlerId, MicroId};

/// The bound of a microprotocol, 0 where it has none.
pub(crate) fn bound_of(bounds: &[(u32, u32)], micro: u32) -> u32
    ensures { result ≡ bound_in bounds.now micro }
{
    for bound in bounds {
        if bound.0 == micro {
            return bound.1;
        }
    }
    0
}

/// Whether a bound names the microprotocol.
pub(crate) fn has_bound(bounds: &[(u32, u32)], micro: u32) -> bool
    ensures { result ≡ list_any (λ b. b.0 == micro) bounds.now }
{
    bounds.iter().any(|bound| bound.0 == micro)
}

/// Whether one of these handlers is at the microprotocol.
pub(crate) fn has_vertex(vertices: &[HandlerId], micro: u32) -> bool
    ensures { result ≡ list_any (λ v. v.micro.0 == micro) vertices.now }
{
    vertices.iter().any(|vertex| vertex.micro.0 == micro)
}

/// Whether a set names the microprotocol.
pub(crate) fn names(micros: &[u32], micro: u32) -> bool
    ensures { result ≡ list_any (λ q. q == micro) micros.now }
{
    micros.iter().any(|named| *named == micro)
}

/// The weight of a microprotocol: its bound in a bound, 1 where another declaration has it, and 0 exactly where it
/// isn't declared.
pub fn weight(decl: &Decl, micro: MicroId) -> u32
    ensures { result ≡ weight decl.now micro.0 }
{
    match decl {
        Decl::Set { micros } => names(micros.as_slice(), micro.0) as u32,
        Decl::Bound { bounds } => bound_of(bounds.as_slice(), micro.0),
        Decl::Route {
            vertices,
            roots: _,
            edges: _,
        } => has_vertex(vertices.as_slice(), micro.0) as u32,
    }
}
