//! The meaning of a script's text: which JSON tree is a script, what the script is, and else its first fault. All of it
//! is definitions, in `specs/`; the types here are the plain data that they speak of.
#![tactic(auto)]

mod draft;
mod fault;

pub use draft::{
    BodyDraft, BoundDraft, CauseDraft, ChangeDraft, CrashDraft, DeclDraft, DoDraft, Draft,
    EdgeDraft, EventDraft, Form, LossDraft, MicroDraft, TableDraft,
};
pub use fault::WalkFault;
