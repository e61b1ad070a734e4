//! Why a journal isn't accepted.
use thiserror::Error;

/// Why a journal isn't accepted: its first faulty line, what it leaves unended, or want of memory. Lines are counted
/// from 1.
#[derive(Clone, Copy, Debug, PartialEq, Eq, Error)]
pub enum ReplayFault {
    /// The step of this line isn't enabled where it stands.
    #[error("NotEnabled {line}")]
    NotEnabled { line: u32 },
    /// No line is at fault, and this computation is the least that hasn't ended.
    #[error("Unfinished {comp}")]
    Unfinished { comp: u32 },
    /// This line stands where all that is admitted has ended.
    #[error("Trailing {line}")]
    Trailing { line: u32 },
    /// There was no memory.
    #[error("Memory")]
    Memory,
}
