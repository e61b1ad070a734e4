//! The kind `fd`: a failure detector. A node that was quiet for long is suspected.
#![tactic(auto)]

mod detector;
#[cfg(test)]
mod tests;
mod watches;

pub use detector::Fd;
pub use watches::Watches;
