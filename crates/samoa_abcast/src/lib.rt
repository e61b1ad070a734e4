//! The kind `abcast`: atomic broadcast by consensus.
#![tactic(auto)]

mod abcast;

pub use abcast::{Abcast, Order};
