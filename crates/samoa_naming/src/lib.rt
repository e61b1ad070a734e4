//! The passes over a script's names and totals, and the script that its names mean.
#![tactic(auto)]

mod checking;
mod directory;
mod doubles;
mod faults;
mod handlers;
mod laws;
mod lookups;
mod named;
mod resolving;
mod routes;
mod totals;
mod undefined;

pub use checking::check_names;
pub use directory::Directory;
pub use laws::passed_is_valid;
pub use resolving::resolve;
