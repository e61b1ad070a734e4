//! Where a route leads in one call.
ghost use Rattle.std.specs.Prelude.{◌≡◌, ◌&&◌, get_or};
ghost use Rattle.std.specs.List.{list_any};
ghost use Rattle.samoa_model.specs.Allowed.{leads, no_handler, same_handler};

use samoa_model::{HandlerId, MicroId};

/// The vertex at a position, or handler 0 of microprotocol 0 where there is none.
fn vertex_at(vertices: &[HandlerId], at: u32) -> HandlerId
    ensures { result ≡ get_or vertices.now at no_handler }
{
    match vertices.get(at as usize) {
        Some(vertex) => *vertex,
        None => HandlerId {
            micro: MicroId(0),
            index: 0,
        },
    }
}

fn is_same(a: HandlerId, b: HandlerId) -> bool
    ensures { result ≡ same_handler a b }
{
    a.micro.0 == b.micro.0 && a.index == b.index
}

fn is_root(vertices: &[HandlerId], roots: &[u32], callee: HandlerId) -> bool
    ensures { result ≡ list_any (λ r. same_handler (get_or vertices.now r no_handler) callee) roots.now }
{
    roots
        .iter()
        .any(|root| is_same(vertex_at(vertices, *root), callee))
}

fn is_edge(
    vertices: &[HandlerId],
    edges: &[(u32, u32)],
    caller: HandlerId,
    callee: HandlerId,
) -> bool
    ensures { result ≡ list_any (λ e. same_handler (get_or vertices.now e.0 no_handler) caller && same_handler (get_or vertices.now e.1 no_handler) callee) edges.now }
{
    edges.iter().any(|edge| {
        is_same(vertex_at(vertices, edge.0), caller) && is_same(vertex_at(vertices, edge.1), callee)
    })
}

/// Whether the callee is a root, where there is no caller, or at the end of an edge that begins at the caller.
pub(crate) fn leads(
    vertices: &[HandlerId],
    roots: &[u32],
    edges: &[(u32, u32)],
    caller: Option<HandlerId>,
    callee: HandlerId,
) -> bool
    ensures { result ≡ leads vertices.now roots.now edges.now caller callee }
{
    match caller {
        None => is_root(vertices, roots, callee),
        Some(caller) => is_edge(vertices, edges, caller, callee),
    }
}
