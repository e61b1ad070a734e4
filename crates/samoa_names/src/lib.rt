//! The numbers of names, and of a script's events by their names.
#![tactic(auto)]

mod index;
mod names;
#[cfg(test)]
mod tests;

pub use index::NameIndex;
pub use names::EventNames;
