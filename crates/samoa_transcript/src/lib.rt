//! The entries of a computation, in the order in which they were made.
#![tactic(auto)]

mod transcript;

pub use transcript::Transcript;
