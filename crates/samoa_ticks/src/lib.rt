//! Runs of scripts, tick by tick and part by part: the report, and the journal after it.
#![tactic(auto)]

mod journal;
mod report;
mod running;
mod stop;
mod ticks;
mod writing;

pub use journal::write_journal;
pub use samoa_ledger::Totals;
pub use stop::Stop;
pub use ticks::{Ended, run_on_workers, run_one_by_one};
pub use writing::write_lines;
