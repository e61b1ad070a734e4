//! Batches: what was admitted is run to its end.
#![tactic(auto)]

mod batch;
mod crew;
mod gate;
mod grain;

pub use batch::{Batch, drain, drain_behind};
pub use crew::run_batch;
pub use gate::{Gate, NoGate};
pub use grain::crew_for;
