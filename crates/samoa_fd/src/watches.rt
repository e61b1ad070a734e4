//! What is known of each node, and a method for each row of the table.
ghost use Rattle.std.specs.Prelude.{◌≡◌, ◌+◌, ◌<◌, ◌≤◌, ◌∷◌, List, IfOk, IfSome, length, slice_set};
ghost use Rattle.samoa_serial.specs.declared.message.Watch.{Watch};
ghost use Rattle.samoa_serial.specs.FdTable.{fd_beat, fd_beaten, fd_due, fd_heard, fd_is_due, fd_mask, fd_opening, fd_suspect, unwatched};

use samoa_micro::rows::{call, done, me, nodes, number};
use samoa_model::{NoMemory, Outcome, Setup, Words};
use samoa_serial::Watch;
use std::alloc::Global;
use std::marker::Model;

/// The most nodes that are watched: a mask has a bit for each.
const MOST_NODES: usize = 64;

/// What is known of each node: for how many beats it was quiet, and whether it is suspected.
#[derive(Drop)]
pub struct Watches {
    items: Vec<Watch>,
}

impl Model for Watches {
    ghost use Rattle.std.specs.Prelude.{◌≤◌, List, length};
    ghost use Rattle.samoa_serial.specs.declared.message.Watch.{Watch};

    ghost Value = { List Watch };

    ghost view = { λ it. it.items.items };

    ghost invariant = { λ it. length it.items.items ≤ 64 };
}

impl Watches {
    /// None yet.
    pub(crate) fn empty(alloc: Global) -> Watches {
        Watches {
            items: Vec::new(alloc),
        }
    }

    /// One for each node, not suspected.
    pub(crate) fn opening(alloc: Global, setup: &Setup) -> Result<Watches, NoMemory>
        ensures { IfOk result (λ watches. watches ≡ fd_opening setup.now) }
    {
        let count = (setup.nodes as usize).min(MOST_NODES);
        let items = vec![in alloc; unwatched_node(); count]?;
        Ok(Watches { items })
    }

    /// The suspected nodes, as bits.
    pub(crate) fn mask(&self) -> u64
        ensures { result ≡ fd_mask self.now }
    {
        mask_of(self.items.as_slice())
    }

    /// `beat`: each node but this one was quiet for one beat more, and all are told that this one is there.
    pub(crate) fn beat(&mut self, setup: &Setup) -> Outcome
        ensures outcome { result ≡ (fd_beat setup.now self.old).1 }
        ensures state { self.new ≡ (fd_beat setup.now self.old).0 }
    {
        beat_all(self.items.as_mut_slice(), me(setup));
        let arg = Words::cut(&[nodes(setup), number(setup, 0)]);
        call(setup, 0, arg, Words::cut(&[0]))
    }

    /// `heard`: a node is there, and is suspected no more.
    pub(crate) fn heard(&mut self, from: u64) -> Outcome
        ensures outcome { result ≡ (fd_heard self.old from).1 }
        ensures state { self.new ≡ (fd_heard self.old from).0 }
    {
        put(self.items.as_mut_slice(), from, unwatched_node());
        done(&[])
    }

    /// `beat` goes on: the least node from one on that was quiet for too long is suspected, and that is told.
    pub(crate) fn suspect(&mut self, setup: &Setup, from: u64) -> Outcome
        ensures outcome { result ≡ (fd_suspect setup.now self.old (fd_due setup.now from 0 self.old)).1 }
        ensures state { self.new ≡ (fd_suspect setup.now self.old (fd_due setup.now from 0 self.old)).0 }
    {
        let Some(at) = due(setup, from, self.items.as_slice()) else {
            return done(&[self.mask()]);
        };
        let quiet = self.items[at].quiet;
        self.items[at] = Watch {
            quiet,
            suspected: true,
        };
        let at = at as u64;
        call(setup, 1, Words::cut(&[at]), Words::cut(&[at + 1]))
    }
}

fn unwatched_node() -> Watch
    ensures { result ≡ unwatched }
{
    Watch {
        quiet: 0,
        suspected: false,
    }
}

/// Writes at an index, and does nothing past the end.
fn put(watches: &mut [Watch], at: u64, watch: Watch)
    ensures { watches.new ≡ slice_set watches.old at watch }
{
    let at = at as usize;
    if at < watches.len() {
        watches[at] = watch;
    }
}

/// The suspected nodes, as bits.
fn mask_of(watches: &[Watch]) -> u64
    requires { length watches.now ≤ 64 }
    ensures { result ≡ fd_mask watches.now }
{
    let mut mask = 0u64;
    let mut at = watches.len();
    while at > 0 {
        at -= 1;
        let bit = if watches[at].suspected { 1 } else { 0 };
        mask = bit + 2 * mask;
    }
    mask
}

/// Each node but this one was quiet for one beat more.
fn beat_all(watches: &mut [Watch], node: u64)
    ensures { watches.new ≡ fd_beaten node 0 watches.old }
{
    for at in 0..watches.len() {
        let watch = watches[at];
        watches[at] = beaten(watch, at as u64, node);
    }
}

/// What is known of a node after a beat.
fn beaten(watch: Watch, at: u64, node: u64) -> Watch
    ensures { (rest : List Watch) → fd_beaten node at (watch ∷ rest) ≡ result ∷ fd_beaten node (at + 1) rest }
{
    if at == node {
        return watch;
    }
    Watch {
        quiet: watch.quiet.saturating_add(1),
        suspected: watch.suspected,
    }
}

/// Whether a node is to be suspected now.
fn is_due(setup: &Setup, from: u64, at: u64, watch: Watch) -> bool
    ensures { result ≡ fd_is_due setup.now from at watch }
{
    from <= at && at != me(setup) && !watch.suspected && number(setup, 1) < watch.quiet
}

/// The least node from one on that is to be suspected now.
fn due(setup: &Setup, from: u64, watches: &[Watch]) -> Option<usize>
    ensures due { result ≡ fd_due setup.now from 0 watches.now }
    ensures within { IfSome result (λ at. at < length watches.now) }
{
    for at in 0..watches.len() {
        if is_due(setup, from, at as u64, watches[at]) {
            return Some(at);
        }
    }
    None
}
