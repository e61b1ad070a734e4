//! What a core answers of what has ended, and the clear.
ghost use Rattle.std.specs.Prelude.{◌≡◌, ℕ, ◌<◌, ◌≤◌, ◌-◌, length, Some, None, true, nat_lt, slice_get, if◌then◌else◌};
ghost use Rattle.samoa_model.specs.Scripts.{micro_at};
ghost use Rattle.samoa_serial.specs.Kinds.{shown};
ghost use Rattle.samoa_serial.specs.SerialRun.{serial};
ghost use Rattle.samoa_invariant.specs.State.{AllEnded};
ghost use Rattle.samoa_invariant.specs.Runs.{Trace, served_at, state, with_clear};
ghost use Rattle.samoa_control.specs.Later.{IsStill};
ghost use Rattle.samoa_control.specs.Since.{cleared_comps};

use crate::control::Control;
use samoa_micro::Micro;
use samoa_model::{Ending, Entry, Ext, MicroId, NodeId, Words};
use std::mem::swap;

/// How many steps are counted as still to come of a computation that has ended.
const COUNTED_OF_ENDED: u64 = 3;

impl<B: Micro> Control<B> {
    /// What began a computation.
    pub fn ext(&self, comp: u32) -> Ext
        requires first { 0 < comp }
        requires admitted { comp ≤ length self.now.exts }
        ensures { slice_get self.now.exts (comp - 1) ≡ Some result }
    {
        self.exts[comp as usize - 1]
    }

    /// An entry of a computation that has ended, since the last `clear`, None exactly past the last of them. It is that of
    /// the serial run, whether or not others have ended.
    pub fn entry(&self, comp: u32, at: usize) -> Option<Entry>
        requires kept { cleared_comps self.now < comp }
        requires admitted { comp ≤ length self.now.exts }
        requires ended { (state self.now).ended (comp - 1) ≡ true }
        ensures { result ≡ slice_get (served_at self.now comp).world.entries at }
    {
        self.recall();
        self.running(comp).calls.entry(at)
    }

    /// How a computation ended, since the last `clear`: as in the serial run, whether or not others have ended.
    pub fn ending(&self, comp: u32) -> Ending
        requires kept { cleared_comps self.now < comp }
        requires admitted { comp ≤ length self.now.exts }
        requires ended { (state self.now).ended (comp - 1) ≡ true }
        ensures { result ≡ (served_at self.now comp).value }
    {
        self.recall();
        self.running(comp).calls.ending().unwrap()
    }

    /// Gives the cells back and drops the entries, where all have ended. Where no cells were held, nothing has changed.
    pub fn clear(&mut self)
        requires { AllEnded (state self.old) }
        ensures clear { self.new ≡ (if nat_lt 0 (state self.old).cells then with_clear self.old else self.old) }
        ensures still { IsStill (state self.old) self.new }
        ensures cells { (state self.new).cells ≡ 0 }
    {
        if 0 < self.held {
            self.clear_held();
        }
    }

    fn clear_held(&mut self)
        requires all { AllEnded (state self.old) }
        requires held { 0 < (state self.old).cells }
        ensures { self.new ≡ with_clear self.old }
    {
        self.clears.push_reserved(self.journal.len());
        self.held = 0;
        self.first = self.exts.len() as u32;
        self.journal.keep(COUNTED_OF_ENDED * u64::from(self.first));
        swap(&mut self.running, &mut self.spare);
        self.running.clear();
    }

    /// What a microprotocol of a node shows, which is in its slot. Where all have ended, it is what the serial run leaves.
    pub fn shown(&self, node: NodeId, micro: MicroId) -> Words
        requires node { node.0 < self.now.script.nodes }
        requires micro { micro.0 < length self.now.script.micros }
        requires home { (state self.now).out node.0 micro.0 ≡ None }
        ensures shown { result ≡ shown (micro_at self.now.script micro.0).kind ((state self.now).boxes node.0 micro.0) }
        ensures serial { AllEnded (state self.now)
            → result ≡ shown (micro_at self.now.script micro.0).kind ((serial self.now.script self.now.exts).states node.0 micro.0) }
    {
        self.recall();
        self.shown_now(node, micro)
    }

    fn shown_now(&self, node: NodeId, micro: MicroId) -> Words
        requires node { node.0 < self.now.script.nodes }
        requires micro { micro.0 < length self.now.script.micros }
        requires home { (state self.now).out node.0 micro.0 ≡ None }
        ensures { result ≡ shown (micro_at self.now.script micro.0).kind ((state self.now).boxes node.0 micro.0) }
    {
        self.slots.show(node, micro.0)
    }
}
