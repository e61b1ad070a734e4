//! The handlers and edges of routes, each once.
ghost use Rattle.std.specs.Prelude.{◌≡◌, ◌<◌, ◌≤◌, [], length, map, IfSome, OnOk, IfOk};
ghost use Rattle.std.specs.List.{All, list_any, position};
ghost use Rattle.samoa_model.specs.Allowed.{same_handler};
ghost use Rattle.samoa_model.specs.Routes.{once};
ghost use Rattle.samoa_grammar.specs.Meaning.{handler_of, vertices_of, vertex_of, same_edge, edge_numbers, edges_after};
ghost use Rattle.samoa_form.specs.Limits.{HasMicroLimits};
ghost use Rattle.samoa_naming.specs.Routes.{with_handler, with_edge};

use crate::directory::Directory;
use crate::handlers::handler;
use samoa_grammar::EdgeDraft;
use samoa_model::{HandlerId, Name, NoMemory};
use std::alloc::Global;

fn is_same_handler(a: &HandlerId, b: &HandlerId) -> bool
    ensures { result ≡ same_handler a.now b.now }
{
    a.micro.0 == b.micro.0 && a.index == b.index
}

fn has_handler(handlers: &[HandlerId], handler: &HandlerId) -> bool
    ensures { result ≡ list_any (same_handler handler.now) handlers.now }
{
    handlers.iter().any(|other| is_same_handler(handler, other))
}

/// Adds a handler at the end, if it isn't there.
fn add_handler(found: &mut Vec<HandlerId>, handler: HandlerId) -> Result<(), NoMemory>
    ensures { OnOk result (found.new.items ≡ with_handler found.old.items handler) }
{
    if !has_handler(found.as_slice(), &handler) {
        found.push(handler)?;
    }
    Ok(())
}

/// The handlers that roots name, each once.
pub fn roots_once(
    alloc: Global,
    draft: &Directory,
    roots: &[Name],
) -> Result<Vec<HandlerId>, NoMemory>
    requires few { length draft.now.micros ≤ 24 }
    requires each { All HasMicroLimits draft.now.micros }
    ensures { IfOk result (λ v. v.items ≡ once (map (handler_of draft.now.micros) roots.now)) }
{
    let mut found = Vec::new(alloc);
    for root in roots {
        add_handler(&mut found, handler(draft, root))?;
    }
    Ok(found)
}

fn add_ends(found: &mut Vec<HandlerId>, draft: &Directory, edge: &EdgeDraft) -> Result<(), NoMemory>
    requires few { length draft.now.micros ≤ 24 }
    requires each { All HasMicroLimits draft.now.micros }
    ensures { OnOk result (found.new.items ≡ with_handler (with_handler found.old.items (handler_of draft.now.micros edge.now.from)) (handler_of draft.now.micros edge.now.to)) }
{
    add_handler(found, handler(draft, &edge.from))?;
    add_handler(found, handler(draft, &edge.to))
}

/// The handlers of a route, each once.
#[tactic(auto, using(crate::proofs::Once::ends_more))]
pub fn vertices(
    alloc: Global,
    draft: &Directory,
    roots: &[Name],
    edges: &[EdgeDraft],
) -> Result<Vec<HandlerId>, NoMemory>
    requires few { length draft.now.micros ≤ 24 }
    requires each { All HasMicroLimits draft.now.micros }
    ensures { IfOk result (λ v. v.items ≡ vertices_of draft.now.micros roots.now edges.now) }
{
    let mut found = roots_once(alloc, draft, roots)?;
    for edge in edges {
        add_ends(&mut found, draft, edge)?;
    }
    Ok(found)
}

fn place(vertices: &[HandlerId], handler: &HandlerId) -> Option<usize>
    ensures value { result ≡ position (same_handler handler.now) vertices.now }
    ensures below { IfSome result (λ i. i < length vertices.now) }
{
    vertices
        .iter()
        .position(|other| is_same_handler(handler, other))
}

/// The number of a handler among the vertices of a route.
pub fn vertex(vertices: &[HandlerId], handler: &HandlerId) -> u32
    requires { length vertices.now ≤ 32 }
    ensures { result ≡ vertex_of vertices.now handler.now }
{
    match place(vertices, handler) {
        Some(place) => place as u32,
        None => 0,
    }
}

fn is_same_edge(a: &(u32, u32), b: &(u32, u32)) -> bool
    ensures { result ≡ same_edge a.now b.now }
{
    a.0 == b.0 && a.1 == b.1
}

fn has_edge(edges: &[(u32, u32)], edge: &(u32, u32)) -> bool
    ensures { result ≡ list_any (same_edge edge.now) edges.now }
{
    edges.iter().any(|other| is_same_edge(edge, other))
}

/// Adds an edge at the end, if it isn't there.
fn add_edge(found: &mut Vec<(u32, u32)>, edge: (u32, u32)) -> Result<(), NoMemory>
    ensures { OnOk result (found.new.items ≡ with_edge found.old.items edge) }
{
    if !has_edge(found.as_slice(), &edge) {
        found.push(edge)?;
    }
    Ok(())
}

fn numbers_of(draft: &Directory, vertices: &[HandlerId], edge: &EdgeDraft) -> (u32, u32)
    requires few { length draft.now.micros ≤ 24 }
    requires each { All HasMicroLimits draft.now.micros }
    requires vertices { length vertices.now ≤ 32 }
    ensures { result ≡ edge_numbers draft.now.micros vertices.now edge.now }
{
    let from = vertex(vertices, &handler(draft, &edge.from));
    let to = vertex(vertices, &handler(draft, &edge.to));
    (from, to)
}

/// The edges of a route by the numbers of their ends, each once.
pub fn edges_once(
    alloc: Global,
    draft: &Directory,
    vertices: &[HandlerId],
    edges: &[EdgeDraft],
) -> Result<Vec<(u32, u32)>, NoMemory>
    requires few { length draft.now.micros ≤ 24 }
    requires each { All HasMicroLimits draft.now.micros }
    requires vertices { length vertices.now ≤ 32 }
    ensures { IfOk result (λ v. v.items ≡ edges_after [] (map (edge_numbers draft.now.micros vertices.now) edges.now)) }
{
    let mut found = Vec::new(alloc);
    for edge in edges {
        add_edge(&mut found, numbers_of(draft, vertices, edge))?;
    }
    Ok(found)
}
