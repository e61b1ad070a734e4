//! The nine kinds of microprotocols together, and a stock of all.
#![tactic(auto)]

mod any;
mod full;

pub use any::AnyKind;
pub use full::{full_boxes, full_stock};
