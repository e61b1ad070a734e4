//! The kind `cons`: the nodes agree on one message for each instance.
#![tactic(auto)]

mod cons;
mod instances;
mod letter;
mod round;

pub use cons::{Agreement, Cons};
