//! The versions by which computations take turns at a slot, and sets of numbers whose least member is found at once.
#![tactic(auto)]

mod ready;
mod rows;
mod steps;
mod versions;

pub use ready::Ready;
pub use steps::Steps;
pub use versions::Versions;

#[cfg(test)]
mod tests;
