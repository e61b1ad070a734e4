//! Declarations: what a computation may call, the weight of a microprotocol, and the counts that they are judged by.
#![tactic(auto)]

mod allowed;
mod routes;
mod standing;
mod visits;
mod weights;

pub use allowed::allows;
pub use standing::{Standing, nothing_left};
pub use visits::Visits;
pub use weights::weight;

#[cfg(test)]
mod tests;
