//! A lock of one word and one slot: who takes the value finds it with all that the seat has seen of it.
#![tactic(auto)]

mod kept;
#[cfg(test)]
mod tests;
mod turnstile;
mod view;

pub use kept::Kept;
pub use turnstile::{Seat, Turnstile};
pub use view::View;
