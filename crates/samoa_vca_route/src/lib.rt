//! When a computation under a route may be done with a microprotocol.
#![tactic(auto)]

mod laws;
mod masks;
mod reaching;
mod release;
mod walk;
mod words;

pub use laws::away_is_elsewhere;
pub use masks::{Masks, is_clear, may_release_masked};
pub use reaching::reach;
pub use release::{may_release, raises};

#[cfg(test)]
mod tests;
