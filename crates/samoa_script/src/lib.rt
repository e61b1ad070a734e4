//! Scripts and their texts: bytes to the one script that they hold, or to their one fault, and a script to its canonical
//! text; and the script that is generated for a number.
#![tactic(auto)]

mod fault;
mod reading;
#[cfg(test)]
mod tests;

pub use fault::ScriptFault;
pub use reading::{one_answer, read_script, some_answer, valid_scripts_are_those_that_texts_hold};
pub use samoa_generate::{MOST_GENERATED, generate};
pub use samoa_model::Script;
pub use samoa_names::EventNames;
pub use samoa_print::{need, print_script, printed_again};
