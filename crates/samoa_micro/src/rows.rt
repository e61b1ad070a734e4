//! The words in which the tables of the kinds are written.
ghost use Rattle.std.specs.Prelude.{◌≡◌, ◌≤◌, [], length};
ghost use Rattle.samoa_serial.specs.Rows.{V, change_at_place, dest_of as node_dest, me as this_node, message_at, message_key, message_words, port_at, same_key};

use samoa_model::{ChangeId, Dest, EventId, NodeId, Outcome, Setup, Words};
use samoa_serial::{Key, Message};

/// This node.
pub fn me(setup: &Setup) -> u64
    ensures { result ≡ this_node setup.now }
{
    u64::from(setup.node.0)
}

/// The number of nodes.
pub fn nodes(setup: &Setup) -> u64
    ensures { result ≡ setup.now.nodes }
{
    u64::from(setup.nodes)
}

/// A number of the setup, 0 past the end.
pub fn number(setup: &Setup, at: usize) -> u64
    ensures { result ≡ V setup.now at }
{
    setup.nums.word_or_zero(at)
}

/// The event at a port, event 0 past the last one.
pub fn event_at(setup: &Setup, port: usize) -> EventId
    ensures { result ≡ port_at setup.now port }
{
    let ports = setup.ports.as_slice();
    if port < ports.len() {
        ports[port]
    } else {
        EventId(0)
    }
}

/// The change at a place, change 0 past the last one.
pub fn change_at(setup: &Setup, place: usize) -> ChangeId
    ensures { result ≡ change_at_place setup.now place }
{
    let changes = setup.changes.as_slice();
    if place < changes.len() {
        changes[place]
    } else {
        ChangeId(0)
    }
}

/// Where a message to this node goes: to all where there is no such node.
pub fn dest_of(setup: &Setup, node: u64) -> Dest
    ensures { result ≡ node_dest setup.now node }
{
    if node < u64::from(setup.nodes) {
        Dest::One(NodeId(node as u32))
    } else {
        Dest::All
    }
}

/// The end of a handler call, with no word.
pub fn nothing() -> Outcome
    ensures { result ≡ Outcome.Done [] }
{
    Outcome::Done {
        reply: Words::new(),
    }
}

/// The end of a handler call, with these words.
pub fn done(words: &[u64]) -> Outcome
    requires { length words.now ≤ 12 }
    ensures { result ≡ Outcome.Done words.now }
{
    Outcome::Done {
        reply: Words::from_slice(words).unwrap(),
    }
}

/// A call of the event at a port.
pub fn call(setup: &Setup, port: usize, arg: Words, frame: Words) -> Outcome
    ensures { result ≡ Outcome.Call (port_at setup.now port) arg frame }
{
    Outcome::Call {
        event: event_at(setup, port),
        arg,
        frame,
    }
}

/// The message of five words from a place on, 0 past the end.
pub fn read_message(words: &Words, at: usize) -> Message
    requires { at ≤ 12 }
    ensures { result ≡ message_at words.now at }
{
    Message {
        epoch: words.word_or_zero(at),
        origin: words.word_or_zero(at + 1),
        number: words.word_or_zero(at + 2),
        kind: words.word_or_zero(at + 3),
        value: words.word_or_zero(at + 4),
    }
}

/// The words of a message.
pub fn words_of(message: Message) -> [u64; 5]
    ensures { result ≡ message_words message }
{
    let Message {
        epoch,
        origin,
        number,
        kind,
        value,
    } = message;
    [epoch, origin, number, kind, value]
}

/// What a message goes by.
pub fn key_of(message: Message) -> Key
    ensures { result ≡ message_key message }
{
    Key {
        epoch: message.epoch,
        origin: message.origin,
        number: message.number,
    }
}

/// Whether two keys are one.
pub fn is_same(a: Key, b: Key) -> bool
    ensures { result ≡ same_key a b }
{
    a.epoch == b.epoch && a.origin == b.origin && a.number == b.number
}
