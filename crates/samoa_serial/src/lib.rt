//! What a script means: the tables of the kinds, a computation run whole and turn by turn, the serial run, and the
//! report. All of it is definitions, in `specs/`, and laws about them, in `laws`; the types here are the plain data that
//! they speak of.
#![tactic(auto)]

mod call;
mod keys;
pub mod laws;
mod message;

pub use call::{Active, Call, Due, Waiting};
pub use keys::{Ballot, Key, Pair};
pub use message::{Estimate, Instance, Letter, Message, Own, Watch};
