//! The top call: from the words of the command line and the bytes of the input to the report and the status.
#![tactic(auto)]

mod answer;
mod fault;
mod laws;
mod making;
mod obey;
mod reading;
mod replaying;
mod status;
mod ticks;
mod top;
mod words;

pub use laws::{journals_of_runs_are_accepted, one_reply_is_due};
pub use reading::{LIMIT, REPLAY_LIMIT, read_input};
pub use samoa_workers::{Gate, NoGate};
pub use ticks::run_ticks;
pub use top::{check_only, serve, serve_serial};
pub use words::CELLS;
