//! The script's own items, tick by tick.
ghost use Rattle.std.specs.Prelude.{ℕ, ◌≡◌, ◌≢◌, ◌+◌, ◌≤◌, ◌++◌, IfOk, IfSome, OnOk, OnErr, nat_lt, length, map, filter, take, All, slice_get};
ghost use Rattle.samoa_serial.specs.Batch.{is_up as up};
ghost use Rattle.samoa_serial.specs.History.{batch as batch_of, ext_of as as_ext};

use crate::status::is_up;
use samoa_model::{DoDef, Ext, NoMemory, Script};
use std::alloc::Global;
use std::marker::Model;

/// The items that are still to come. Contracts see it as the list of them.
#[derive(Drop)]
pub struct Plan {
    items: Vec<Ext>,
    /// The place of the first that is still to come.
    next: usize,
}

impl Model for Plan {
    ghost use Rattle.std.specs.Prelude.{List, ◌≤◌, drop, length};
    ghost use Rattle.samoa_model.specs.declared.record.Ext.{Ext};

    ghost Value = { List Ext };

    ghost view = { λ plan. drop plan.next plan.items.items };

    ghost invariant = { λ plan. plan.next ≤ length plan.items.items };
}

impl Plan {
    ghost use Rattle.samoa_net.specs.Gathered.{IsPlan};

    /// The script's items of the ticks after this one.
    pub fn new(alloc: Global, script: &Script, before: u32) -> Result<Plan, NoMemory>
        ensures { IfOk result (IsPlan script.now before) }
    {
        let mut items = items_after(alloc, script.does.as_slice(), before)?;
        items.sort_by_key(|ext| ext.tick)?;
        Ok(Plan { items, next: 0 })
    }

    /// The admissions of the next tick: the changes, the script's items at nodes that are up, and the messages.
    pub fn batch(
        &mut self,
        alloc: Global,
        script: &Script,
        tick: u32,
        asked: &[Ext],
        sent: &[Ext],
    ) -> Result<Vec<Ext>, NoMemory>
        ensures items { IfOk result (λ exts. (before : ℕ) → tick ≡ before + 1 → IsPlan script.now before self.old → exts.items ≡ asked.now ++ filter (up script.now tick) (batch_of script.now tick) ++ sent.now) }
        ensures plan { OnOk result ((before : ℕ) → tick ≡ before + 1 → IsPlan script.now before self.old → IsPlan script.now tick self.new) }
        ensures err { OnErr result (self.new ≡ self.old) }
    {
        let rest = &self.items[self.next..];
        let count = count_of_tick(rest, tick);
        let exts = joined(alloc, script, tick, asked, &rest[..count], sent)?;
        self.next += count;
        Ok(exts)
    }
}

/// The items of the ticks after this one, as admissions.
fn items_after(alloc: Global, does: &[DoDef], before: u32) -> Result<Vec<Ext>, NoMemory>
    ensures { IfOk result (λ exts. exts.items ≡ filter (λ ext. nat_lt before ext.tick) (map as_ext does.now)) }
{
    let mut exts = Vec::with_capacity(alloc, does.len())?;
    for item in does {
        if before < item.tick {
            exts.push(ext_of(item))?;
        }
    }
    Ok(exts)
}

/// An item of the script's list as an admission.
fn ext_of(item: &DoDef) -> Ext
    ensures { result ≡ as_ext item.now }
{
    Ext {
        node: item.node,
        tick: item.tick,
        cause: item.cause,
        args: item.args,
    }
}

/// How many of the first admissions are of a tick.
fn count_of_tick(exts: &[Ext], tick: u32) -> usize
    ensures within { result ≤ length exts.now }
    ensures before { All (λ ext. ext.tick ≡ tick) (take result exts.now) }
    ensures next { IfSome (slice_get exts.now result) (λ ext. ext.tick ≢ tick) }
{
    let other = exts.iter().position(|ext| ext.tick != tick);
    other.unwrap_or(exts.len())
}

/// Changes, the items at nodes that are up, and messages, in one list.
fn joined(
    alloc: Global,
    script: &Script,
    tick: u32,
    asked: &[Ext],
    own: &[Ext],
    sent: &[Ext],
) -> Result<Vec<Ext>, NoMemory>
    ensures { IfOk result (λ exts. exts.items ≡ asked.now ++ filter (up script.now tick) own.now ++ sent.now) }
{
    let mut exts = Vec::with_capacity(alloc, asked.len() + own.len() + sent.len())?;
    exts.extend_from_slice(asked)?;
    for item in own {
        if is_up(script, item, tick) {
            exts.push(*item)?;
        }
    }
    exts.extend_from_slice(sent)?;
    Ok(exts)
}
