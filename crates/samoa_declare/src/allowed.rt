//! Which calls a declaration allows.
ghost use Rattle.std.specs.Prelude.{◌≡◌, ◌+◌, List, slice_index};
ghost use Rattle.std.specs.Result.{result_err};
ghost use Rattle.samoa_model.specs.declared.ids.HandlerId.{HandlerId};
ghost use Rattle.samoa_model.specs.declared.record.Entry.{Entry};
ghost use Rattle.samoa_model.specs.Allowed.{handlers_at, refusal_of};
ghost use Rattle.samoa_model.specs.Entries.{calls_at};
ghost use Rattle.samoa_model.specs.Range.{IsSet};
ghost use Rattle.samoa_declare.specs.Judged.{bound_answer, route_answer};

use crate::Visits;
use crate::routes::leads;
use crate::weights::{bound_of, has_bound, has_vertex, names};
use samoa_model::{Decl, HandlerId, Refusal};

/// Whether a declaration allows a call. `Undeclared` comes exactly where it doesn't name the callee's microprotocol;
/// else `OverBound` exactly where a bound has no call left there, and `OffRoute` exactly where no edge of a route leads
/// from the caller to the callee, or, for the external event (no caller), the callee is no root.
///
/// `visits` counts the calls made and the handlers tested before in this attempt; only a bound looks at them. It takes
/// no memory.
pub fn allows(
    decl: &Decl,
    visits: &Visits,
    caller: Option<HandlerId>,
    callee: HandlerId,
) -> Result<(), Refusal>
    ensures counted { (entries : List Entry) (before : List HandlerId)
        → slice_index visits.now callee.micro.0 ≡ calls_at entries callee.micro.0 + handlers_at before callee.micro.0
        → result_err result ≡ refusal_of decl.now entries before caller callee }
    // A set asks for no count.
    ensures set { IsSet decl.now → (entries : List Entry) (before : List HandlerId)
        → result_err result ≡ refusal_of decl.now entries before caller callee }
{
    match decl {
        Decl::Set { micros } => {
            if names(micros.as_slice(), callee.micro.0) {
                Ok(())
            } else {
                Err(Refusal::Undeclared)
            }
        }
        Decl::Bound { bounds } => in_bound(
            bounds.as_slice(),
            visits.count(callee.micro.0),
            callee.micro.0,
        ),
        Decl::Route {
            vertices,
            roots,
            edges,
        } => in_route(
            vertices.as_slice(),
            roots.as_slice(),
            edges.as_slice(),
            caller,
            callee,
        ),
    }
}

/// Whether a bound allows one more call at a microprotocol after so many.
fn in_bound(bounds: &[(u32, u32)], made: u32, micro: u32) -> Result<(), Refusal>
    ensures { result_err result ≡ bound_answer bounds.now made micro }
{
    if !has_bound(bounds, micro) {
        Err(Refusal::Undeclared)
    } else if bound_of(bounds, micro) <= made {
        Err(Refusal::OverBound)
    } else {
        Ok(())
    }
}

/// Whether a route allows a call.
fn in_route(
    vertices: &[HandlerId],
    roots: &[u32],
    edges: &[(u32, u32)],
    caller: Option<HandlerId>,
    callee: HandlerId,
) -> Result<(), Refusal>
    ensures { result_err result ≡ route_answer vertices.now roots.now edges.now caller callee }
{
    if !has_vertex(vertices, callee.micro.0) {
        Err(Refusal::Undeclared)
    } else if !leads(vertices, roots, edges, caller, callee) {
        Err(Refusal::OffRoute)
    } else {
        Ok(())
    }
}
