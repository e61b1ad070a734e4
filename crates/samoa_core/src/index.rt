//! The index: the queue of each slot, and the sets of those that may begin a handler step, or have a release or an end due.
ghost use Rattle.std.specs.Prelude.{◌≡◌, ℕ, ◌<◌, ◌≤◌, ◌*◌, ◌+◌, ◌-◌, ◌++◌, ◌||◌, List, Option, length, set, slice_get, replicate, Some, None, true, false, IfOk, IfSome, IfNone, OnOk};
ghost use Rattle.samoa_control.specs.Admission.{most_admitted};
ghost use Rattle.samoa_versions.specs.Ready.{is_member};
ghost use Rattle.samoa_invariant.specs.Index.{or_else};
ghost use Rattle.samoa_core.specs.Rows.{IsBlank, emptied, linked, no_rows};

use samoa_model::NoMemory;
use samoa_versions::{Ready, Steps};
use std::alloc::Global;
use std::marker::{Brand, Model};
use std::sync::ledger::{Blank, Ledger};

/// How many computations may be admitted.
const MOST_ADMITTED: u32 = 100_000;

/// The index of a core. Computations are numbered from 0 here. By slot it has the first and the last computation of the
/// queue; by computation since the last clear, and microprotocol, who comes next in the queue; and three sets of places of
/// computations since the last clear.
#[derive(Drop)]
pub(crate) struct Index {
    micros: usize,
    heads: Vec<Option<u32>>,
    tails: Vec<Option<u32>>,
    nexts: Vec<Option<u32>>,
    ready: Ready,
    restless: Ready,
    closing: Ready,
}

impl Model for Index {
    ghost use Rattle.samoa_core.specs.Rows.{Rows};

    ghost Value = { Rows };

    ghost view = { λ x. record { micros = x.micros; heads = x.heads.items; tails = x.tails.items; nexts = x.nexts.items; ready = x.ready; restless = x.restless; closing = x.closing } };
}

impl Index {
    /// An index of no computation, for so many slots, or want of memory.
    pub(crate) fn new(alloc: Global, slots: usize, micros: usize) -> Result<Index, NoMemory>
        ensures { IfOk result (λ index. index ≡ no_rows slots micros) }
    {
        let heads = nones(alloc, slots)?;
        let tails = nones(alloc, slots)?;
        let ready = Ready::new(alloc, MOST_ADMITTED)?;
        let restless = Ready::new(alloc, MOST_ADMITTED)?;
        let closing = Ready::new(alloc, MOST_ADMITTED)?;
        Ok(Index {
            micros,
            heads,
            tails,
            nexts: Vec::new(alloc),
            ready,
            restless,
            closing,
        })
    }

    /// Makes room for so many computations since the last clear, or answers want of memory.
    pub(crate) fn grow(&mut self, rows: u32) -> Result<(), NoMemory>
        requires micros { self.old.micros ≤ 24 }
        ensures more { (more : List (Option ℕ)) × (self.new ≡ record self.old { nexts = self.old.nexts ++ more }) }
        ensures long { OnOk result (rows * self.old.micros ≤ length self.new.nexts) }
    {
        grow_by(&mut self.nexts, rows as usize * self.micros)
    }

    /// Makes the row of a new computation: no one comes next.
    pub(crate) fn blank(&mut self, place: u32)
        requires micros { self.old.micros ≤ 24 }
        requires row { (place + 1) * self.old.micros ≤ length self.old.nexts }
        ensures { (nexts : List (Option ℕ)) × (self.new ≡ record self.old { nexts = nexts }) × IsBlank self.old.micros place self.old.nexts nexts }
    {
        blank_row(&mut self.nexts, place as usize * self.micros, self.micros);
    }

    /// Puts a computation at the end of the queue of a slot.
    pub(crate) fn link(&mut self, slot: usize, micro: u32, number: u32, first: u32)
        requires micros { self.old.micros ≤ 24 }
        requires micro { micro < self.old.micros }
        requires head { slot < length self.old.heads }
        requires tail { slot < length self.old.tails }
        requires last { (last : ℕ) → slice_get self.old.tails slot ≡ Some (Some last) → (first ≤ last) × ((last - first) * self.old.micros + micro < length self.old.nexts) }
        ensures { (head last : Option ℕ) → slice_get self.old.heads slot ≡ Some head → slice_get self.old.tails slot ≡ Some last
            → self.new ≡ record (linked self.old first last micro number) { heads = set self.old.heads slot (or_else head number); tails = set self.old.tails slot (Some number) } }
    {
        let last = self.tail(slot);
        self.link_next(last, first, micro, number);
        let head = self.head(slot);
        self.set_head(slot, or_else(head, number));
        self.set_tail(slot, Some(number));
    }

    /// The last one of a queue, if there is one, has another that comes next.
    fn link_next(&mut self, last: Option<u32>, first: u32, micro: u32, number: u32)
        requires micros { self.old.micros ≤ 24 }
        requires last { (at : ℕ) → last ≡ Some at → (first ≤ at) × ((at - first) * self.old.micros + micro < length self.old.nexts) }
        ensures { self.new ≡ linked self.old first last micro number }
    {
        match last {
            None => {}
            Some(last) => self.set_next(last - first, micro, Some(number)),
        }
    }

    /// The first computation of a slot's queue.
    fn head(&self, slot: usize) -> Option<u32>
        requires { slot < length self.now.heads }
        ensures { slice_get self.now.heads slot ≡ Some result }
    {
        self.heads[slot]
    }

    pub(crate) fn set_head(&mut self, slot: usize, head: Option<u32>)
        requires { slot < length self.old.heads }
        ensures { self.new ≡ record self.old { heads = set self.old.heads slot head } }
    {
        self.heads[slot] = head;
    }

    /// The last computation of a slot's queue.
    fn tail(&self, slot: usize) -> Option<u32>
        requires { slot < length self.now.tails }
        ensures { slice_get self.now.tails slot ≡ Some result }
    {
        self.tails[slot]
    }

    fn set_tail(&mut self, slot: usize, tail: Option<u32>)
        requires { slot < length self.old.tails }
        ensures { self.new ≡ record self.old { tails = set self.old.tails slot tail } }
    {
        self.tails[slot] = tail;
    }

    /// Who comes next after the computation at a place.
    pub(crate) fn next(&self, place: u32, micro: u32) -> Option<u32>
        requires micros { self.now.micros ≤ 24 }
        requires row { place * self.now.micros + micro < length self.now.nexts }
        ensures { slice_get self.now.nexts (place * self.now.micros + micro) ≡ Some result }
    {
        self.nexts[place as usize * self.micros + micro as usize]
    }

    fn set_next(&mut self, place: u32, micro: u32, next: Option<u32>)
        requires micros { self.old.micros ≤ 24 }
        requires row { place * self.old.micros + micro < length self.old.nexts }
        ensures { self.new ≡ record self.old { nexts = set self.old.nexts (place * self.old.micros + micro) next } }
    {
        let at = place as usize * self.micros + micro as usize;
        self.nexts[at] = next;
    }

    /// Notes whether the computation at a place may begin its next handler step.
    pub(crate) fn mark_ready(&mut self, place: u32, enters: bool)
        requires { place < length self.old.ready }
        ensures { self.new ≡ record self.old { ready = set self.old.ready place enters } }
    {
        mark(&mut self.ready, place, enters);
    }

    /// Notes whether a release of the computation at a place may be due.
    pub(crate) fn mark_restless(&mut self, place: u32, restless: bool)
        requires { place < length self.old.restless }
        ensures { self.new ≡ record self.old { restless = set self.old.restless place restless } }
    {
        mark(&mut self.restless, place, restless);
    }

    /// Notes that a release of the computation at a place may be due, if it may; else what was noted stays.
    pub(crate) fn add_restless(&mut self, place: u32, restless: bool)
        requires { place < length self.old.restless }
        ensures { self.new ≡ record self.old { restless = set self.old.restless place (restless || is_member self.old.restless place) } }
    {
        add(&mut self.restless, place, restless);
    }

    /// The same of its end.
    pub(crate) fn add_closing(&mut self, place: u32, closing: bool)
        requires { place < length self.old.closing }
        ensures { self.new ≡ record self.old { closing = set self.old.closing place (closing || is_member self.old.closing place) } }
    {
        add(&mut self.closing, place, closing);
    }

    /// Notes whether the end of the computation at a place may be due.
    pub(crate) fn mark_closing(&mut self, place: u32, closing: bool)
        requires { place < length self.old.closing }
        ensures { self.new ≡ record self.old { closing = set self.old.closing place closing } }
    {
        mark(&mut self.closing, place, closing);
    }

    /// The least place of a computation that may begin its next handler step.
    pub(crate) fn least_ready<L: Ledger>(&self, steps: &mut Steps<L>) -> Option<u32>
        ensures within { IfSome result (λ place. place < length self.now.ready) }
        ensures member { IfSome result (λ place. is_member self.now.ready place ≡ true) }
        ensures below { IfSome result (λ place. (k : ℕ) → k < place → is_member self.now.ready k ≡ false) }
        ensures none { IfNone result ((k : ℕ) → is_member self.now.ready k ≡ false) }
        ensures cost { steps.new ≤ steps.old + 3 }
    {
        self.ready.least(steps)
    }

    /// The least place of a computation of which a release may be due.
    pub(crate) fn least_restless(&self) -> Option<u32>
        ensures within { IfSome result (λ place. place < length self.now.restless) }
        ensures below { IfSome result (λ place. (k : ℕ) → k < place → is_member self.now.restless k ≡ false) }
        ensures member { IfSome result (λ place. is_member self.now.restless place ≡ true) }
        ensures none { IfNone result ((k : ℕ) → is_member self.now.restless k ≡ false) }
    {
        least(&self.restless)
    }

    /// The least place of a computation whose end may be due.
    pub(crate) fn least_closing(&self) -> Option<u32>
        ensures within { IfSome result (λ place. place < length self.now.closing) }
        ensures below { IfSome result (λ place. (k : ℕ) → k < place → is_member self.now.closing k ≡ false) }
        ensures member { IfSome result (λ place. is_member self.now.closing place ≡ true) }
        ensures none { IfNone result ((k : ℕ) → is_member self.now.closing k ≡ false) }
    {
        least(&self.closing)
    }

    /// Empties the queues and the sets. The room for who comes next stays.
    pub(crate) fn clear(&mut self)
        ensures { self.new ≡ emptied self.old }
    {
        self.heads.fill(None);
        self.tails.fill(None);
        empty(&mut self.ready);
        empty(&mut self.restless);
        empty(&mut self.closing);
    }
}

/// The place of a computation, where so many were cleared away before it.
pub(crate) fn place(comp: u32, first: u32) -> u32
    requires { first < comp }
    ensures { result ≡ comp - 1 - first }
{
    comp - 1 - first
}

/// The number of the computation at a place.
pub(crate) fn comp_at(place: u32, first: u32) -> u32
    requires { first + place < 4294967295 }
    ensures { result ≡ first + place + 1 }
{
    first + place + 1
}

/// So many items that are None, or want of memory.
fn nones(alloc: Global, count: usize) -> Result<Vec<Option<u32>>, NoMemory>
    ensures { IfOk result (λ list. list.items ≡ replicate count None) }
{
    let mut list = Vec::new(alloc);
    while list.len() < count {
        list.push(None)?;
    }
    Ok(list)
}

/// Makes a list at least so long, or answers want of memory.
fn grow_by(list: &mut Vec<Option<u32>>, long: usize) -> Result<(), NoMemory>
    ensures more { (more : List (Option ℕ)) × (list.new.items ≡ list.old.items ++ more) }
    ensures long { OnOk result (long ≤ length list.new.items) }
{
    while list.len() < long {
        list.push(None)?;
    }
    Ok(())
}

/// Makes so many items None, from a place on.
fn blank_row(list: &mut Vec<Option<u32>>, from: usize, count: usize)
    requires { from + count ≤ length list.old.items }
    ensures size { length list.new.items ≡ length list.old.items }
    ensures blank { (p : ℕ) → p < count → slice_get list.new.items (from + p) ≡ Some None }
    ensures before { (i : ℕ) → i < from → slice_get list.new.items i ≡ slice_get list.old.items i }
{
    let mut at = 0;
    while at < count {
        list[from + at] = None;
        at += 1;
    }
}

/// The first one of a queue that another joins.
fn or_else(head: Option<u32>, number: u32) -> Option<u32>
    ensures { result ≡ or_else head number }
{
    match head {
        None => Some(number),
        Some(first) => Some(first),
    }
}

/// Makes a number a member of a set, or none.
fn mark(members: &mut Ready, at: u32, member: bool)
    requires { at < length members.old }
    ensures { members.new ≡ set members.old at member }
{
    if member {
        members.set(at);
    } else {
        members.unset(at);
    }
}

/// Makes a number a member of a set, if that is said; else the set stays as it is.
fn add(members: &mut Ready, at: u32, member: bool)
    requires { at < length members.old }
    ensures { members.new ≡ set members.old at (member || is_member members.old at) }
{
    if member {
        members.set(at);
    }
}

/// Takes all members of a set out.
fn empty(members: &mut Ready)
    ensures { members.new ≡ replicate (length members.old) false }
{
    let mut past: usize = 0;
    while let Some(at) = least(members) {
        members.unset(at);
        past = at as usize + 1;
    }
}

/// The least member of a set, by a counter that no one reads.
fn least(members: &Ready) -> Option<u32>
    ensures within { IfSome result (λ at. at < length members.now) }
    ensures member { IfSome result (λ at. is_member members.now at ≡ true) }
    ensures below { IfSome result (λ at. (k : ℕ) → k < at → is_member members.now k ≡ false) }
    ensures none { IfNone result ((k : ℕ) → is_member members.now k ≡ false) }
{
    least_by::<Brand>(members, Blank::new(1))
}

fn least_by<L: Ledger>(members: &Ready, blank: Blank) -> Option<u32>
    requires name { blank.name ≡ L.name }
    requires parts { blank.parts ≡ L.parts }
    requires some { 0 < blank.parts }
    ensures within { IfSome result (λ at. at < length members.now) }
    ensures member { IfSome result (λ at. is_member members.now at ≡ true) }
    ensures below { IfSome result (λ at. (k : ℕ) → k < at → is_member members.now k ≡ false) }
    ensures none { IfNone result ((k : ℕ) → is_member members.now k ≡ false) }
{
    let mut steps = Steps::<L>::new(blank);
    members.least(&mut steps)
}
