//! The kind of microprotocol whose handlers are written in the script.
#![tactic(auto)]

mod code;
mod numbers;
mod prog;
#[cfg(test)]
mod tests;

pub use prog::Prog;
