//! The messages of the next tick.
ghost use Rattle.std.specs.Prelude.{◌≡◌, ◌+◌, ◌-◌, ◌^◌, ◌<◌, ◌≤◌, ◌&&◌, [], ◌∷◌, ◌++◌, OnOk, OnErr, filter, length, take, vec_capacity};
ghost use Rattle.std.specs.List.{range_with_len};
ghost use Rattle.samoa_serial.specs.Batch.{is_up as up, message_due, receivers as receivers_of};
ghost use Rattle.samoa_net.specs.Gathered.{most_kept};
ghost use Rattle.samoa_net.specs.Messages.{admission_at, reaches, sender_of};

use crate::asked::MOST_KEPT;
use crate::status::{is_lost, is_up};
use samoa_model::{Cause, Dest, EventId, Ext, NoMemory, NodeId, Script, Words};

/// A message on its way.
#[derive(Clone, Copy)]
pub struct Message {
    pub from: NodeId,
    /// The tick of its sending.
    pub tick: u32,
    pub event: EventId,
    pub args: Words,
}

/// Keeps a message for each of its receivers that it reaches and that is up then, while fewer than the limit are kept.
pub fn keep_message(
    sent: &mut Vec<Ext>,
    script: &Script,
    to: Dest,
    message: &Message,
) -> Result<(), NoMemory>
    requires few { length sent.old.items ≤ most_kept }
    requires tick { message.now.tick + 1 < 2 ^ 32 }
    ensures few { length sent.new.items ≤ most_kept }
    ensures kept { OnOk result (sent.new.items ≡ take most_kept (sent.old.items ++ filter (up script.now (message.now.tick + 1)) (message_due script.now (message.now.tick + 1) (sender_of message.now) to message.now.event message.now.args))) }
    ensures err { OnErr result (sent.new.items ≡ sent.old.items) }
{
    let (first, count) = receivers(script, to);
    sent.reserve(count as usize)?;
    for offset in 0..count {
        let arrival = arrival(NodeId(first + offset), message);
        keep_arrival(sent, script, message, arrival);
    }
    Ok(())
}

/// The nodes to which a message goes: the number of the first, and how many there are.
fn receivers(script: &Script, to: Dest) -> (u32, u32)
    ensures within { result.0 + result.1 ≤ 2 ^ 32 }
    ensures are { range_with_len result.0 result.1 ≡ receivers_of script.now to }
{
    match to {
        Dest::One(node) => (node.0, 1),
        Dest::All => (0, nodes_of(script)),
    }
}

/// How many nodes there are.
fn nodes_of(script: &Script) -> u32
    ensures { result ≡ script.now.nodes }
{
    script.nodes
}

/// Keeps a message at one receiver, in room that was made before.
fn keep_arrival(sent: &mut Vec<Ext>, script: &Script, message: &Message, arrival: Ext)
    requires few { length sent.old.items ≤ most_kept }
    requires room { length sent.old.items < vec_capacity sent.old }
    requires tick { arrival.tick ≡ message.now.tick + 1 }
    ensures few { length sent.new.items ≤ most_kept }
    ensures room { vec_capacity sent.new ≡ vec_capacity sent.old }
    ensures one { length sent.new.items ≤ length sent.old.items + 1 }
    ensures kept { sent.new.items ≡ take most_kept (sent.old.items ++ filter (reaches script.now message.now) (arrival ∷ [])) }
{
    if sent.len() < MOST_KEPT && arrives(script, message, &arrival) {
        sent.push_reserved(arrival);
    }
}

/// The admission by a message at a node.
fn arrival(node: NodeId, message: &Message) -> Ext
    requires { message.now.tick + 1 < 2 ^ 32 }
    ensures { result ≡ admission_at message.now node.0 }
{
    Ext {
        node,
        tick: message.tick + 1,
        cause: Cause::Event(message.event),
        args: message.args,
    }
}

/// Whether a message isn't lost on its way to an admission by it, and the node is up then.
fn arrives(script: &Script, message: &Message, ext: &Ext) -> bool
    requires { ext.now.tick ≡ message.now.tick + 1 }
    ensures { result ≡ reaches script.now message.now ext.now }
{
    !is_lost(script, message.from, ext.node, message.tick) && is_up(script, ext, ext.tick)
}
