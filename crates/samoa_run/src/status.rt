//! How an order ends.
ghost use Rattle.std.specs.Prelude.{◌≡◌};
ghost use Rattle.samoa_run.specs.Statuses.{number as number_of};

/// How an order ends.
#[derive(Clone, Copy, Debug, PartialEq, Eq)]
pub enum Status {
    /// All was done and written.
    Done,
    /// The words are others.
    Usage,
    /// The input has a fault, or can't run yet, or the cells are too few for it.
    Refused,
    /// A read failed.
    SourceFailed,
    /// A write failed.
    SinkFailed,
    /// There was no memory.
    Memory,
    /// A journal has a bad line, or isn't a complete run of its script.
    NotReplayed,
    /// The limit of computations ended a run, and all of it was written.
    Limited,
}

impl Status {
    /// The status as a number.
    pub fn number(self) -> u8
        ensures { result ≡ number_of self }
    {
        match self {
            Status::Done => 0,
            Status::Usage => 2,
            Status::Refused => 3,
            Status::SourceFailed => 4,
            Status::SinkFailed => 5,
            Status::Memory => 6,
            Status::NotReplayed => 7,
            Status::Limited => 8,
        }
    }
}
