//! The core on the turnstile: a board that any number of threads share, each with a seat of its own.
#![tactic(auto)]

mod basis;
mod board;
mod kernel;
mod sent;
#[cfg(test)]
mod tests;

pub use basis::Basis;
pub use board::{Board, Entered, Seat};
pub use kernel::Kernel;
pub use sent::{sent_seat, shared_board};
