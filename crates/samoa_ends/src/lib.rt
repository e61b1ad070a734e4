//! Where bytes come from and where they go: a source and a sink, each with a count of its faults.
#![tactic(auto)]

ghost use Rattle.std.specs.Prelude.{◌≡◌, ◌<◌, ℕ, List, Option, length};
ghost use Rattle.std.specs.Io.{ReadsAtMost};
ghost use Rattle.std.specs.Io.KnownBytes.{ReadConsumes, WriteAppends};
ghost use Rattle.samoa_ends.specs.Causes.{HasCause};
ghost use Rattle.samoa_ends.specs.Pieces.{TakesSome};

mod memory;
mod streams;
#[cfg(test)]
mod tests;

pub use memory::{MemSink, MemSource, NoSink};
pub use streams::{StdSink, StdSource};

/// A read or a write failed.
#[derive(Clone, Copy, Debug, PartialEq, Eq)]
pub struct Failed;

/// What bytes are read from.
pub trait Source {
    /// The bytes still to come, where the source tells them.
    ghost left: { Self → Option (List ℕ) };

    /// A count of the reads that failed. It never falls, and stands still at 18,446,744,073,709,551,615.
    ghost faults: { Self → ℕ };

    /// Moves some of the bytes still to come to the front of `buf`, and answers how many: at most as many as
    /// `buf` has, and none only at the end of the input.
    ///
    /// `Failed` comes only where the count of faults rose, or stands at its last value, and moves nothing.
    fn read(&mut self, buf: &mut [u8]) -> Result<usize, Failed>
        requires { 0 < length buf.old }
        ensures bound { ReadsAtMost result buf.new }
        ensures bytes { ReadConsumes (left self.old) (left self.new) result buf.new }
        ensures cause { HasCause (faults self.old) (faults self.new) result };
}

/// What bytes are written to.
pub trait Sink {
    /// The bytes taken so far, where the sink tells them.
    ghost written: { Self → Option (List ℕ) };

    /// A count of the writes that failed. It never falls, and stands still at 18,446,744,073,709,551,615.
    ghost faults: { Self → ℕ };

    /// Takes some of the first bytes of `piece`, and answers how many: from 1 to as many as there are.
    ///
    /// `Failed` comes only where the count of faults rose, or stands at its last value, and takes nothing.
    fn write(&mut self, piece: &[u8]) -> Result<usize, Failed>
        requires { 0 < length piece.now }
        ensures bound { TakesSome result piece.now }
        ensures bytes { WriteAppends (written self.old) (written self.new) result piece.now }
        ensures cause { HasCause (faults self.old) (faults self.new) result };
}
