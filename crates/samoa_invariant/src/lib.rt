//! Several computations open at once: the state of a core, its steps, which of them are enabled, and the invariant that
//! they keep, for declarations of all three forms. All of it is definitions, in `specs/`. Each function here is a law: it
//! has an empty body, and its contract says what is proved.
#![tactic(auto)]

pub mod laws;
pub mod runs;
