//! The generated script: the group stack on eight nodes, and messages before and after a change of its broadcast.
#![tactic(auto)]

mod group;
mod script;
#[cfg(test)]
mod tests;

pub use script::{MOST_GENERATED, generate};
