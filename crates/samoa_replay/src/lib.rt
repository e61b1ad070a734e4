//! The checker of journals: makes the steps of a journal one by one, each tested before it is made.
#![tactic(auto)]

mod checking;
mod course;
mod fault;
mod laws;
mod moves;
mod replay;

pub use checking::check;
pub use fault::ReplayFault;
pub use laws::{
    complete_journals_have_no_fault, finished_journals_have_lines, journals_begin, one_fault,
};
