//! Binding tables: the handlers that each event has, by node and by epoch.
#![tactic(auto)]

mod epochs;
mod history;
mod lists;
mod rows;
mod tables;

pub use tables::Tables;

#[cfg(test)]
mod tests;
