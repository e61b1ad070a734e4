//! A core: it has several computations open at once, and an index over them, so that no step looks at a computation that it
//! can't have changed.
#![tactic(auto)]

mod index;
mod joining;
mod keeping;
mod kernel;
mod sent;
mod settling;
mod steps;

pub use kernel::Core;
pub use samoa_control::{Ran, Turn};
pub use sent::sent_core;
