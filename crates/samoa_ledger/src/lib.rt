//! What is written of computations that have ended, and what they bring the next tick.
#![tactic(auto)]

mod text;
mod totals;

pub use text::{push_closing, push_comps};
pub use totals::Totals;
