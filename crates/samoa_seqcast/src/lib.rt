//! The kind `seqcast`: atomic broadcast by a sequencer.
#![tactic(auto)]

mod seqcast;

pub use seqcast::{Numbering, Seqcast};
