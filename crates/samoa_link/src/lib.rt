//! The kind `link`: it sends messages to other nodes, and hands on what comes from them.
#![tactic(auto)]

mod link;

pub use link::{Counts, Link};
