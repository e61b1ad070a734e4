//! Microprotocols behind one trait, and the stock that they are drawn from.
#![tactic(auto)]

pub mod kept;
mod machine;
mod micro;
pub mod rows;
mod stock;

pub use machine::{StateMachine, Stateful};
pub use micro::{Held, Micro, MicroBox};
pub use samoa_model::{Instr, Kind, Place, Setup};
pub use stock::Stock;
