//! Declarations, as JSON values.
ghost use Rattle.std.specs.Prelude.{◌≡◌, map, get_or, IfOk};
ghost use Rattle.samoa_model.specs.Allowed.{no_handler};
ghost use Rattle.serde_json.specs.Data.{object};
ghost use Rattle.serde_json.specs.View.{view};
ghost use Rattle.samoa_model.specs.declared.script.Decl.{Decl as DeclValue};
ghost use Rattle.samoa_print.specs.Canonical.{list_tree, micro_name_tree, bound_tree, vertex_tree, edge_tree, decl_members};

use crate::listing::Printed;
use crate::names::{handler_name, micro_name};
use crate::object::Object;
use samoa_model::{Decl, DeclDef, HandlerId, MicroId, NoMemory, Script};
use serde_json::{Value, json};
use std::alloc::Global;

/// The microprotocols of a set.
fn micros_value(alloc: Global, script: &Script, micros: &[u32]) -> Result<Value, NoMemory>
    ensures { IfOk result (λ v. view v ≡ list_tree (micro_name_tree script.now) micros.now) }
{
    Ok(Value::Array(each_micro(alloc, script, micros)?))
}

fn each_micro(alloc: Global, script: &Script, micros: &[u32]) -> Result<Vec<Value>, NoMemory>
    ensures { IfOk result (λ v. map view v.items ≡ map (micro_name_tree script.now) micros.now) }
{
    let mut values = Vec::new(alloc);
    for micro in micros {
        values.push(Value::try_from_str(alloc, micro_name(script, *micro))?)?;
    }
    Ok(values)
}

/// The bounds of microprotocols.
fn bounds_value(alloc: Global, script: &Script, bounds: &[(u32, u32)]) -> Result<Value, NoMemory>
    ensures { IfOk result (λ v. view v ≡ list_tree (bound_tree script.now) bounds.now) }
{
    Ok(Value::Array(each_bound(alloc, script, bounds)?))
}

fn each_bound(alloc: Global, script: &Script, bounds: &[(u32, u32)]) -> Result<Vec<Value>, NoMemory>
    ensures { IfOk result (λ v. map view v.items ≡ map (bound_tree script.now) bounds.now) }
{
    let mut values = Vec::new(alloc);
    for bound in bounds {
        values.push(bound_value(alloc, script, *bound)?)?;
    }
    Ok(values)
}

#[tactic(auto, unfolding(crate::specs::Canonical::bound_tree))]
fn bound_value(alloc: Global, script: &Script, bound: (u32, u32)) -> Result<Value, NoMemory>
    ensures { IfOk result (λ v. view v ≡ bound_tree script.now bound) }
{
    Ok(json!(in alloc; {"micro": micro_name(script, bound.0), "calls": bound.1})?)
}

/// The roots of a route.
fn roots_value(
    alloc: Global,
    script: &Script,
    vertices: &[HandlerId],
    roots: &[u32],
) -> Result<Value, NoMemory>
    ensures { IfOk result (λ v. view v ≡ list_tree (vertex_tree script.now vertices.now) roots.now) }
{
    Ok(Value::Array(each_root(alloc, script, vertices, roots)?))
}

fn each_root(
    alloc: Global,
    script: &Script,
    vertices: &[HandlerId],
    roots: &[u32],
) -> Result<Vec<Value>, NoMemory>
    ensures { IfOk result (λ v. map view v.items ≡ map (vertex_tree script.now vertices.now) roots.now) }
{
    let mut values = Vec::new(alloc);
    for root in roots {
        values.push(vertex_value(alloc, script, vertices, *root)?)?;
    }
    Ok(values)
}

/// The edges of a route.
fn edges_value(
    alloc: Global,
    script: &Script,
    vertices: &[HandlerId],
    edges: &[(u32, u32)],
) -> Result<Value, NoMemory>
    ensures { IfOk result (λ v. view v ≡ list_tree (edge_tree script.now vertices.now) edges.now) }
{
    Ok(Value::Array(each_edge(alloc, script, vertices, edges)?))
}

fn each_edge(
    alloc: Global,
    script: &Script,
    vertices: &[HandlerId],
    edges: &[(u32, u32)],
) -> Result<Vec<Value>, NoMemory>
    ensures { IfOk result (λ v. map view v.items ≡ map (edge_tree script.now vertices.now) edges.now) }
{
    let mut values = Vec::new(alloc);
    for edge in edges {
        values.push(edge_value(alloc, script, vertices, *edge)?)?;
    }
    Ok(values)
}

#[tactic(auto, unfolding(crate::specs::Canonical::edge_tree))]
fn edge_value(
    alloc: Global,
    script: &Script,
    vertices: &[HandlerId],
    edge: (u32, u32),
) -> Result<Value, NoMemory>
    ensures { IfOk result (λ v. view v ≡ edge_tree script.now vertices.now edge) }
{
    let from = vertex_value(alloc, script, vertices, edge.0)?;
    let to = vertex_value(alloc, script, vertices, edge.1)?;
    Ok(json!(in alloc; [from, to])?)
}

/// A vertex by its number. A number that is no vertex has the name of the first handler.
fn vertex_value(
    alloc: Global,
    script: &Script,
    vertices: &[HandlerId],
    vertex: u32,
) -> Result<Value, NoMemory>
    ensures { IfOk result (λ v. view v ≡ vertex_tree script.now vertices.now vertex) }
{
    let handler = vertex_handler(vertices, vertex);
    Ok(Value::String(handler_name(alloc, script, handler)?))
}

fn vertex_handler(vertices: &[HandlerId], vertex: u32) -> HandlerId
    ensures { result ≡ get_or vertices.now vertex no_handler }
{
    match vertices.get(vertex as usize) {
        Some(handler) => *handler,
        None => HandlerId {
            micro: MicroId(0),
            index: 0,
        },
    }
}

/// A declaration of a set.
fn set_value(
    alloc: Global,
    script: &Script,
    name: &str,
    budget: u32,
    micros: &[u32],
) -> Result<Value, NoMemory>
    ensures { IfOk result (λ v. view v ≡ object (decl_members script.now name.now budget (DeclValue.Set micros.now))) }
{
    let micros = micros_value(alloc, script, micros)?;
    Ok(json!(in alloc; {"name": name, "form": "set", "budget": budget, "micros": micros})?)
}

/// A declaration of bounds.
fn bound_decl_value(
    alloc: Global,
    script: &Script,
    name: &str,
    budget: u32,
    bounds: &[(u32, u32)],
) -> Result<Value, NoMemory>
    ensures { IfOk result (λ v. view v ≡ object (decl_members script.now name.now budget (DeclValue.Bound bounds.now))) }
{
    let bounds = bounds_value(alloc, script, bounds)?;
    Ok(json!(in alloc; {"name": name, "form": "bound", "budget": budget, "bounds": bounds})?)
}

/// A declaration of a route.
fn route_value(
    alloc: Global,
    script: &Script,
    decl: &DeclDef,
    vertices: &[HandlerId],
    roots: &[u32],
    edges: &[(u32, u32)],
) -> Result<Value, NoMemory>
    ensures { IfOk result (λ v. view v ≡ object (decl_members script.now decl.now.name decl.now.budget (DeclValue.Route vertices.now roots.now edges.now))) }
{
    let roots = roots_value(alloc, script, vertices, roots)?;
    let edges = edges_value(alloc, script, vertices, edges)?;
    let object = Object::new(alloc);
    let object = object.with(alloc, "roots", roots)?;
    let object = object.with_text(alloc, "name", decl.name.as_str())?;
    let object = object.with_text(alloc, "form", "route")?;
    let object = object.with(alloc, "edges", edges)?;
    let object = object.with_number(alloc, "budget", u64::from(decl.budget))?;
    Ok(object.done())
}

impl Printed for DeclDef {
    ghost use Rattle.samoa_print.specs.Canonical.{decl_tree};

    ghost tree = { decl_tree };

    #[tactic(auto, unfolding(crate::specs::Canonical::decl_tree))]
    fn value(&self, alloc: Global, script: &Script) -> Result<Value, NoMemory> {
        let name = self.name.as_str();
        match &self.decl {
            Decl::Set { micros } => set_value(alloc, script, name, self.budget, micros.as_slice()),
            Decl::Bound { bounds } => {
                bound_decl_value(alloc, script, name, self.budget, bounds.as_slice())
            }
            Decl::Route {
                vertices,
                roots,
                edges,
            } => route_value(
                alloc,
                script,
                self,
                vertices.as_slice(),
                roots.as_slice(),
                edges.as_slice(),
            ),
        }
    }
}
