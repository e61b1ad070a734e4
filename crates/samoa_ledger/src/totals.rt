//! How many computations, deliveries and refusals there were.
ghost use Rattle.std.specs.Prelude.{◌≡◌, ◌+◌, ◌<◌, ◌^◌, if◌then◌else◌};
ghost use Rattle.samoa_serial.specs.Report.{is_delivery, is_refusal};

use samoa_model::Entry;

/// How many computations have ended, and how many deliveries and refusals they have.
#[derive(Clone, Copy, Debug, PartialEq, Eq)]
pub struct Totals {
    pub comps: u32,
    pub deliveries: u64,
    pub refusals: u64,
}

impl Totals {
    /// Counts one entry more.
    pub fn count(&mut self, entry: &Entry)
        requires deliveries { self.old.deliveries + 1 < 2 ^ 64 }
        requires refusals { self.old.refusals + 1 < 2 ^ 64 }
        ensures comps { self.new.comps ≡ self.old.comps }
        ensures deliveries { self.new.deliveries ≡ self.old.deliveries + (if is_delivery entry.now then 1 else 0) }
        ensures refusals { self.new.refusals ≡ self.old.refusals + (if is_refusal entry.now then 1 else 0) }
    {
        match entry {
            Entry::Delivered { .. } => self.deliveries += 1,
            Entry::Refused { .. } => self.refusals += 1,
            _ => {}
        }
    }
}
