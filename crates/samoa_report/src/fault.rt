//! Why a text holds no steps.
use thiserror::Error;

/// Why a text is read as no steps: its first bad line, or want of memory.
#[derive(Clone, Copy, Debug, PartialEq, Eq, Error)]
pub enum StepsFault {
    /// The line of this number, counted from 1, is the first that is the line of no step.
    #[error("BadLine {line}")]
    BadLine { line: u32 },
    /// There was no memory.
    #[error("Memory")]
    Memory,
}
