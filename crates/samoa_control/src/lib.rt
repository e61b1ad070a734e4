//! The single steps of several computations that are open at once, and which of them are enabled.
#![tactic(auto)]

mod admission;
mod answers;
mod control;
mod due;
mod forms;
mod grid;
mod journal;
mod moves;
mod parts;
mod routes;
mod running;
mod single;
mod slots;
mod tray;
mod turn;

pub use control::Control;
pub use turn::{Ran, Turn};
