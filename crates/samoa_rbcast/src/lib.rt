//! The kind `rbcast`: what is cast is passed on to all before it is handed up.
#![tactic(auto)]

mod rbcast;

pub use rbcast::{Casts, Rbcast};
