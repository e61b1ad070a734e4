//! Counts of the calls made, by microprotocol.
ghost use Rattle.std.specs.Prelude.{◌≡◌, ◌+◌, ◌<◌, ◌^◌, set, replicate, length, slice_index};

use samoa_model::MicroId;
use std::marker::Model;

/// How many calls were made at each of the microprotocols 0 to 23.
#[derive(Clone, Copy, Debug, PartialEq, Eq)]
pub struct Visits {
    counts: [u32; 24],
}

impl Model for Visits {
    ghost use Rattle.std.specs.Prelude.{ℕ, List};

    ghost Value = { List ℕ };

    ghost view = { λ v. v.counts };

    ghost inverse = { λ xs. record { counts = xs } };
}

impl Visits {
    /// 24 counts of 0.
    pub fn new() -> Visits
        ensures { result ≡ replicate 24 0 }
    {
        Visits { counts: [0; 24] }
    }

    /// Adds one call at a microprotocol, whose number is below 24 and whose count is below 4,294,967,295.
    pub fn add(&mut self, micro: MicroId)
        requires known { micro.0 < 24 }
        requires room { slice_index self.old micro.0 + 1 < 2 ^ 32 }
        ensures counts { self.new ≡ set self.old micro.0 (slice_index self.old micro.0 + 1) }
        ensures len { length self.new ≡ 24 }
    {
        self.counts[micro.0 as usize] += 1;
    }

    /// The count of a microprotocol, whose number is below 24.
    pub fn at(&self, micro: MicroId) -> u32
        requires { micro.0 < 24 }
        ensures { result ≡ slice_index self.now micro.0 }
    {
        self.counts[micro.0 as usize]
    }

    /// The count of a microprotocol, 0 where its number isn't below 24.
    pub(crate) fn count(&self, micro: u32) -> u32
        ensures { result ≡ slice_index self.now micro }
    {
        match self.counts.get(micro as usize) {
            Some(count) => *count,
            None => 0,
        }
    }
}
