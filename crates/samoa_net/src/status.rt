//! What the script says of a node or of a message in a tick.
ghost use Rattle.std.specs.Prelude.{◌≡◌, ◌==◌, ◌&&◌, nat_le, not};
ghost use Rattle.samoa_serial.specs.Batch.{has_crashed as crashed, is_lost as lost, is_up as up};

use samoa_model::{CrashDef, Ext, LossDef, NodeId, Script};

/// Whether a message is lost that is sent from a node to another in this tick.
pub fn is_lost(script: &Script, from: NodeId, to: NodeId, sent: u32) -> bool
    ensures { result ≡ lost script.now from.0 to.0 sent }
{
    let losses = script.losses.as_slice();
    losses.iter().any(|loss| loses(loss, from, to, sent))
}

fn loses(loss: &LossDef, from: NodeId, to: NodeId, sent: u32) -> bool
    ensures { result ≡ loss.now.from.0 == from.0 && (loss.now.to.0 == to.0 && (nat_le loss.now.first sent && nat_le sent loss.now.last)) }
{
    let sent = u64::from(sent);
    loss.from.0 == from.0 && (loss.to.0 == to.0 && (loss.first <= sent && sent <= loss.last))
}

/// Whether a node has crashed by this tick.
fn has_crashed(script: &Script, node: NodeId, tick: u32) -> bool
    ensures { result ≡ crashed script.now node.0 tick }
{
    let crashes = script.crashes.as_slice();
    crashes.iter().any(|crash| crashes_by(crash, node, tick))
}

fn crashes_by(crash: &CrashDef, node: NodeId, tick: u32) -> bool
    ensures { result ≡ crash.now.node.0 == node.0 && nat_le crash.now.tick tick }
{
    crash.node.0 == node.0 && crash.tick <= u64::from(tick)
}

/// Whether the node of an admission is up in its tick.
pub fn is_up(script: &Script, ext: &Ext, tick: u32) -> bool
    ensures { result ≡ up script.now tick ext.now }
{
    !has_crashed(script, ext.node, tick)
}
