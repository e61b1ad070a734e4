//! The values that every layer speaks of: words, names, numbers that name things, what a handler is given and
//! answers, entries, steps of the core, and the script. The first definitions over them stand in `specs/`.
#![tactic(auto)]

mod handler;
mod handler_names;
mod ids;
mod listed;
mod name;
mod record;
mod script;
mod setup;
mod words;

pub use handler::{Dest, Moment, Outcome, Refusal, Reply};
pub use ids::{ChangeId, EventId, HandlerId, MicroId, NodeId};
pub use listed::{Copied, Listed, NoMemory};
pub use name::{Name, is_name};
pub use record::{Cause, Ending, Entry, Ext, Step};
pub use script::{
    ChangeDef, CodeDef, CrashDef, Decl, DeclDef, DoDef, EventDef, LossDef, MicroDef, Script,
    TableDef,
};
pub use setup::{Instr, Kind, Place, Setup};
pub use words::{MOST_WORDS, Words, WordsFull, first_words};
