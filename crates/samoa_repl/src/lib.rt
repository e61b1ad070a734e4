//! The kind `repl`: one stream of deliveries over broadcasts that replace each other.
#![tactic(auto)]

mod early;
mod repl;
#[cfg(test)]
mod tests;

pub use repl::{Repl, Stream};
