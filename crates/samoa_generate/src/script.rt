//! The generated script.
ghost use Rattle.std.specs.Prelude.{◌≡◌, ◌≤◌, ◌++◌, IfOk, OnOk};
ghost use Rattle.samoa_model.specs.Valid.{IsValid};
ghost use Rattle.samoa_laws.specs.trace.Group.{IsGroup};
ghost use Rattle.samoa_generate.specs.Generated.{cast_at, casts_after as those_after, casts_before as those_before, generated_does as the_does, generated_script};

use crate::group::{group_changes, group_decls, group_events, group_micros};
use samoa_model::{Cause, DoDef, EventId, Listed, NoMemory, NodeId, Script, Words};
use std::alloc::Global;

/// The greatest number for which a script is generated.
pub const MOST_GENERATED: u32 = 600;

/// The script that is generated for a number from 1 to 600: the group stack on eight nodes. They cast `n` messages, one each
/// eighth tick; then node 0 casts the change of the broadcast to the sequencer; and they cast `n` messages more, one each
/// tick. There are no losses and no crashes.
pub fn generate(alloc: Global, n: u32) -> Result<Script, NoMemory>
    requires some { 1 ≤ n }
    requires most { n ≤ MOST_GENERATED }
    ensures exact { IfOk result (λ script. script ≡ generated_script n) }
    ensures valid { IfOk result IsValid }
    ensures group { IfOk result IsGroup }
{
    let micros = group_micros(alloc)?;
    let decls = group_decls(alloc)?;
    let events = group_events(alloc)?;
    let changes = group_changes(alloc)?;
    let does = generated_does(alloc, n)?;
    Ok(Script {
        nodes: 8,
        ticks: 10 + 9 * n,
        micros,
        decls,
        events,
        changes,
        does,
        losses: Listed::from_vec(Vec::new(alloc)),
        crashes: Listed::from_vec(Vec::new(alloc)),
    })
}

/// All casts, in their order.
fn generated_does(alloc: Global, n: u32) -> Result<Listed<DoDef>, NoMemory>
    requires { n ≤ MOST_GENERATED }
    ensures { IfOk result (λ does. does ≡ the_does n) }
{
    let mut does = Vec::new(alloc);
    push_before(n, &mut does)?;
    does.push(cast(1 + 8 * n, 0, 1, 0))?;
    push_after(n, &mut does)?;
    Ok(Listed::from_vec(does))
}

/// Puts the casts before the change last.
fn push_before(n: u32, does: &mut Vec<DoDef>) -> Result<(), NoMemory>
    requires { n ≤ MOST_GENERATED }
    ensures { OnOk result (does.new.items ≡ does.old.items ++ those_before n) }
{
    for j in 0..n {
        does.push(cast(1 + 8 * j, j % 8, 0, u64::from(j)))?;
    }
    Ok(())
}

/// Puts the casts after the change last.
fn push_after(n: u32, does: &mut Vec<DoDef>) -> Result<(), NoMemory>
    requires { n ≤ MOST_GENERATED }
    ensures { OnOk result (does.new.items ≡ does.old.items ++ those_after n) }
{
    for j in 0..n {
        does.push(cast(9 + 8 * n + j, j % 8, 0, u64::from(n + j)))?;
    }
    Ok(())
}

/// A cast in a tick, at a node.
fn cast(tick: u32, node: u32, kind: u64, value: u64) -> DoDef
    ensures { result ≡ cast_at tick node kind value }
{
    DoDef {
        tick,
        node: NodeId(node),
        cause: Cause::Event(EventId(14)),
        args: Words::from_slice(&[kind, value]).unwrap(),
    }
}
