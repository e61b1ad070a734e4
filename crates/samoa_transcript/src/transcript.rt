//! A list of entries in room that was made before.
ghost use Rattle.std.specs.Prelude.{◌≡◌, ◌<◌, ◌≤◌, ◌+◌, [], ◌∷◌, ◌++◌, IfOk, length, slice_get};
ghost use Rattle.samoa_transcript.specs.Written.{Written};

use samoa_model::{Entry, NoMemory};
use std::alloc::Global;
use std::marker::Model;

/// Entries, and room for more.
#[derive(Drop)]
pub struct Transcript {
    entries: Vec<Entry>,
}

impl Model for Transcript {
    ghost use Rattle.samoa_transcript.specs.Written.{Written};
    ghost use Rattle.std.specs.Prelude.{◌-◌, length, vec_capacity};

    ghost Value = { Written };

    ghost view = { λ t. record { entries = t.entries.items; room = vec_capacity t.entries - length t.entries.items } };
}

impl Transcript {
    /// No entry, and room for so many, or want of memory.
    pub fn new(alloc: Global, spare: usize) -> Result<Transcript, NoMemory>
        ensures { IfOk result (λ made. made ≡ record { entries = []; room = spare }) }
    {
        let entries = Vec::with_capacity(alloc, spare)?;
        Ok(Transcript { entries })
    }

    /// No entry, and room for so many or more, or want of memory. What memory this one has is used again.
    pub fn renewed(self, spare: usize) -> Result<Transcript, NoMemory>
        ensures entries { IfOk result (λ made. made.entries ≡ []) }
        ensures room { IfOk result (λ made. spare ≤ made.room) }
    {
        let mut entries = self.entries;
        entries.clear();
        entries.reserve(spare)?;
        Ok(Transcript { entries })
    }

    /// Adds an entry, where room is left. It takes no memory.
    pub fn push(&mut self, entry: Entry)
        requires room { 0 < self.old.room }
        ensures entries { self.new.entries ≡ self.old.entries ++ entry ∷ [] }
        ensures len { length self.new.entries ≡ length self.old.entries + 1 }
        ensures room { self.new.room + 1 ≡ self.old.room }
    {
        self.entries.push_reserved(entry);
    }

    /// An entry, None exactly past the last of them. It takes no memory.
    pub fn at(&self, at: usize) -> Option<Entry>
        ensures { result ≡ slice_get self.now.entries at }
    {
        self.entries.get(at).copied()
    }
}
