//! Reads the form of a script's tree: each object key by key, to a draft with the names as they stand, or to the first
//! fault.
#![tactic(auto)]

mod cells;
mod code;
mod decls;
mod does;
mod events;
mod inputs;
mod lists;
mod members;
mod micros;
mod names;
mod reading;
mod stop;
#[cfg(test)]
mod tests;
mod tree;

pub use reading::{form_limits, read_form};
pub use stop::Stop;
