//! One computation: its active and its waiting calls, the units that are left, and its entries.
#![tactic(auto)]

mod attempt;
mod calls;
mod comp;
mod stack;

pub use comp::Comp;

#[cfg(test)]
mod tests;
