//! A set of numbers, whose least member is found in three probes.
ghost use Rattle.std.specs.Prelude.{◌≡◌, ◌+◌, ◌<◌, ◌≤◌, ℕ, true, false, length, replicate, set, IfOk, IfNone, IfSome};
ghost use Rattle.samoa_versions.specs.Ready.{IsSummed, is_member, members_of};

use crate::rows::Row;
use crate::steps::Steps;
use samoa_model::NoMemory;
use std::alloc::Global;
use std::marker::Model;
use std::sync::ledger::Ledger;

/// A set of numbers below a size, which is at most 262,144. Contracts see the size, and of each number whether it is a
/// member.
///
/// Each bit of a row says whether a word of the row below has a one, up to a row of one word.
#[derive(Drop)]
pub struct Ready {
    size: u32,
    members: Row,
    groups: Row,
    blocks: Row,
}

impl Model for Ready {
    ghost use Rattle.std.specs.Prelude.{List, Bool};
    ghost use Rattle.samoa_versions.specs.Ready.{IsSummed, members_of};

    ghost Value = { List Bool };

    ghost view = { λ r. members_of r.size r.members };

    ghost invariant = { λ r. IsSummed r.size r.members r.groups r.blocks };
}

impl Ready {
    /// No member below a size of 1 to 262,144, or want of memory.
    pub fn new(alloc: Global, size: u32) -> Result<Ready, NoMemory>
        requires some { 0 < size }
        requires most { size ≤ 262144 }
        ensures none { IfOk result (λ ready. ready ≡ replicate size false) }
        ensures size { IfOk result (λ ready. length ready ≡ size) }
    {
        let words = (size as usize - 1) / 64 + 1;
        let members = Row::new(alloc, words)?;
        let groups = Row::new(alloc, (words - 1) / 64 + 1)?;
        let blocks = Row::new(alloc, 1)?;
        Ok(Ready::over(size, members, groups, blocks))
    }

    /// The set that these three rows are.
    fn over(size: u32, members: Row, groups: Row, blocks: Row) -> Ready
        requires { IsSummed size members groups blocks }
        ensures { result ≡ members_of size members }
    {
        Ready {
            size,
            members,
            groups,
            blocks,
        }
    }

    /// Makes a number below the size a member. It takes no memory.
    pub fn set(&mut self, at: u32)
        requires { at < length self.old }
        ensures members { self.new ≡ set self.old at true }
        ensures size { length self.new ≡ length self.old }
    {
        let at = at as usize;
        self.members.set(at);
        self.groups.set(at / 64);
        self.blocks.set(at / 64 / 64);
    }

    /// Makes a number below the size no member. It takes no memory.
    pub fn unset(&mut self, at: u32)
        requires { at < length self.old }
        ensures members { self.new ≡ set self.old at false }
        ensures size { length self.new ≡ length self.old }
    {
        let at = at as usize;
        if !self.members.unset(at) {
            return;
        }
        if !self.groups.unset(at / 64) {
            return;
        }
        let _none = self.blocks.unset(at / 64 / 64);
    }

    /// The least member, None exactly where there is none, by at most three probes.
    pub fn least<L: Ledger>(&self, steps: &mut Steps<L>) -> Option<u32>
        ensures within { IfSome result (λ at. at < length self.now) }
        ensures member { IfSome result (λ at. is_member self.now at ≡ true) }
        ensures below { IfSome result (λ at. (k : ℕ) → k < at → is_member self.now k ≡ false) }
        ensures none { IfNone result ((k : ℕ) → is_member self.now k ≡ false) }
        ensures cost { steps.new ≤ steps.old + 3 }
    {
        let Some(block) = self.blocks.first_of(0, steps) else {
            return None;
        };
        let Some(group) = self.groups.first_of(block, steps) else {
            unreachable!()
        };
        let Some(at) = self.members.first_of(group, steps) else {
            unreachable!()
        };
        Some(at as u32)
    }
}
