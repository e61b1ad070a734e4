//! What is admitted, what is entered of a computation, and the steps of the core.
use crate::{ChangeId, Dest, EventId, HandlerId, MicroId, NodeId, Refusal, Reply, Words};

/// What begins a computation: an event of the outside, or a change of bindings.
#[derive(Clone, Copy, Debug, PartialEq, Eq)]
pub enum Cause {
    Event(EventId),
    Change(ChangeId),
}

/// An admission: where and in which tick, from 1, a computation begins, with what and with which arguments.
#[derive(Clone, Copy, Debug, PartialEq, Eq)]
pub struct Ext {
    pub node: NodeId,
    pub tick: u32,
    pub cause: Cause,
    pub args: Words,
}

/// What is entered of a computation. Calls are numbered from 1; caller 0 is the external event.
#[derive(Clone, Copy, Debug, PartialEq, Eq)]
pub enum Entry {
    /// A handler call was accepted.
    Accepted {
        call: u32,
        caller: u32,
        handler: HandlerId,
        arg: Words,
    },
    /// A handler call has ended with this reply.
    Finished {
        call: u32,
        reply: Words,
    },
    /// A call was refused, or the computation was cut: `event` is None exactly for `OverBudget`.
    Refused {
        caller: u32,
        event: Option<EventId>,
        refusal: Refusal,
    },
    /// A handler call asked for a call that waits.
    Waiting {
        call: u32,
        event: EventId,
        arg: Words,
    },
    /// A handler call sent a message.
    Sent {
        call: u32,
        to: Dest,
        event: EventId,
        arg: Words,
    },
    /// A handler call gave words to the outside.
    Delivered {
        call: u32,
        micro: MicroId,
        arg: Words,
    },
    /// A handler call asked for a change of bindings.
    Asked {
        call: u32,
        change: ChangeId,
        arg: Words,
    },
}

/// How a computation ended: cut exactly where `OverBudget` came, else with the root event's reply.
#[derive(Clone, Copy, Debug, PartialEq, Eq)]
pub enum Ending {
    Replied(Reply),
    Cut,
}

/// A step of the core. Computations are numbered from 1 in the order of their admission, microprotocols from 0.
#[derive(Clone, Copy, Debug, PartialEq, Eq)]
pub enum Step {
    Admit { comp: u32 },
    Enter { comp: u32, micro: u32 },
    Leave { comp: u32 },
    Abandon { comp: u32 },
    Release { comp: u32, micro: u32 },
    End { comp: u32 },
}
