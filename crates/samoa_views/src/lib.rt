//! The kind `views`: the number and the members of the group's view.
#![tactic(auto)]

#[cfg(test)]
mod tests;
mod views;

pub use views::{View, Views};
