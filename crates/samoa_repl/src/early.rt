//! The early messages, in order of arrival, and what was delivered before them.
ghost use Rattle.std.specs.Prelude.{◌≡◌, ◌≤◌, ◌++◌, ◌∷◌, OnOk, OnErr, true, not, [], filter, length};
ghost use Rattle.std.specs.List.{list_any};
ghost use Rattle.samoa_serial.specs.Rows.{with_pair, up};
ghost use Rattle.samoa_serial.specs.ReplTable.{pair_of, first_of, without_first};
ghost use Rattle.samoa_repl.specs.Arrived.{comes, is_over, is_copy, is_other, place_of, pushed, marked, IsAtMost};

use samoa_micro::kept::PairSet;
use samoa_model::NoMemory;
use samoa_serial::{Message, Pair};
use std::alloc::Global;
use std::marker::Model;

/// Which of the early messages may be over, that is of an earlier epoch or delivered: none, those of one pair, or any.
#[derive(Clone, Copy)]
pub enum Over {
    Nothing,
    Copies(Pair),
    Anything,
}

/// The early messages, beside the epoch and what was delivered. What may be over among them is known, so that a sweep
/// after a delivery only compares them with the pair that was delivered, and looks none of them up. None of the first
/// `passed` is of the epoch, so that a search for the first of the epoch starts after them.
#[derive(Drop)]
pub struct Early {
    epoch: u64,
    delivered: PairSet,
    messages: Vec<Message>,
    passed: usize,
    over: Over,
}

impl Model for Early {
    ghost use Rattle.std.specs.Prelude.{◌≤◌};
    ghost use Rattle.samoa_repl.specs.Arrived.{Arrived, place_of, IsAtMost};

    ghost Value = { Arrived };

    ghost view = { λ s. record { epoch = s.epoch; delivered = s.delivered; early = s.messages.items } };

    ghost invariant = { λ s. IsAtMost s.over s.epoch s.delivered s.messages.items × (s.passed ≤ place_of s.epoch s.messages.items) };
}

impl Early {
    /// Nothing yet. It takes no memory.
    pub fn new(alloc: Global) -> Early
        ensures { result ≡ record { epoch = 0; delivered = []; early = [] } }
    {
        Early {
            epoch: 0,
            delivered: PairSet::new(alloc),
            messages: Vec::new(alloc),
            passed: 0,
            over: Over::Anything,
        }
    }

    pub fn epoch(&self) -> u64
        ensures { result ≡ self.now.epoch }
    {
        self.epoch
    }

    /// How many were delivered.
    pub fn delivered(&self) -> usize
        ensures { result ≡ length self.now.delivered }
    {
        self.delivered.len()
    }

    /// Whether a message may still be delivered.
    pub fn comes(&self, message: Message) -> bool
        ensures { result ≡ comes self.now.epoch self.now.delivered message }
    {
        !is_over(message, self.epoch, &self.delivered)
    }

    /// The first message of the epoch.
    pub fn first(&self) -> Option<Message>
        ensures { result ≡ first_of self.now.epoch self.now.early }
    {
        first_in(&self.messages, self.epoch, self.passed)
    }

    /// Keeps a message that may still be delivered.
    pub fn push(&mut self, message: Message) -> Result<(), NoMemory>
        requires { comes self.old.epoch self.old.delivered message ≡ true }
        ensures ok { OnOk result (self.new ≡ record self.old { early = self.old.early ++ message ∷ [] }) }
        ensures err { OnErr result (self.new ≡ self.old) }
    {
        self.messages.push(message)?;
        self.over = after_push(self.over);
        Ok(())
    }

    /// Takes out the messages of earlier epochs, and those that were delivered.
    pub fn sweep(&mut self)
        ensures { self.new ≡ record self.old { early = filter (comes self.old.epoch self.old.delivered) self.old.early } }
    {
        let passed = drop_over(
            &mut self.messages,
            self.over,
            self.epoch,
            &self.delivered,
            self.passed,
        );
        self.over = Over::Nothing;
        self.passed = first_from(&self.messages, self.epoch, passed);
    }

    /// Takes the first message of the epoch out, where this one was delivered.
    pub fn mark(&mut self, message: Message) -> Result<(), NoMemory>
        ensures ok { OnOk result (self.new ≡ record self.old { delivered = with_pair self.old.delivered (pair_of message); early = without_first self.old.epoch self.old.early }) }
        ensures err { OnErr result (self.new ≡ self.old) }
    {
        self.delivered.add(pair(message))?;
        self.over = after_mark(self.over, pair(message));
        self.passed = take_first(&mut self.messages, self.epoch, self.passed);
        Ok(())
    }

    /// The next epoch begins.
    pub fn begin_next(&mut self)
        ensures { self.new ≡ record self.old { epoch = up self.old.epoch } }
    {
        self.epoch = self.epoch.saturating_add(1);
        self.passed = 0;
        self.over = Over::Anything;
    }
}

/// What a message is delivered by.
fn pair(message: Message) -> Pair
    ensures { result ≡ pair_of message }
{
    Pair {
        origin: message.origin,
        number: message.number,
    }
}

/// Whether a message is of an earlier epoch, or was delivered.
fn is_over(message: Message, epoch: u64, delivered: &PairSet) -> bool
    ensures { result ≡ is_over epoch delivered.now message }
{
    message.epoch < epoch || delivered.has(pair(message))
}

/// Whether this message goes by this pair.
fn is_copy(message: Message, pair: Pair) -> bool
    ensures { result ≡ is_copy pair message }
{
    message.number == pair.number && message.origin == pair.origin
}

/// What may be over, once a message came that isn't.
fn after_push(over: Over) -> Over
    ensures { result ≡ pushed over }
{
    match over {
        Over::Nothing => Over::Nothing,
        _ => Over::Anything,
    }
}

/// What may be over, once a pair was delivered.
fn after_mark(over: Over, pair: Pair) -> Over
    ensures { result ≡ marked over pair }
{
    match over {
        Over::Nothing => Over::Copies(pair),
        _ => Over::Anything,
    }
}

/// Takes out what is over, and says how many of the rest are passed.
fn drop_over(
    early: &mut Vec<Message>,
    over: Over,
    epoch: u64,
    delivered: &PairSet,
    passed: usize,
) -> usize
    requires over { IsAtMost over epoch delivered.now early.old.items }
    requires passed { passed ≤ place_of epoch early.old.items }
    ensures kept { early.new.items ≡ filter (comes epoch delivered.now) early.old.items }
    ensures passed { result ≤ place_of epoch early.new.items }
{
    match over {
        Over::Nothing => passed,
        Over::Copies(pair) => drop_copies(early, pair, epoch, passed),
        Over::Anything => {
            early.retain(|m| !is_over(*m, epoch, delivered));
            0
        }
    }
}

/// Whether a message goes by this pair.
fn has_copy(early: &Vec<Message>, pair: Pair) -> bool
    ensures { result ≡ list_any (is_copy pair) early.now.items }
{
    early.iter().any(|m| is_copy(*m, pair))
}

/// Takes out the copies of one message, and says how many of the rest are passed. Mostly there are none.
fn drop_copies(early: &mut Vec<Message>, pair: Pair, epoch: u64, passed: usize) -> usize
    requires { passed ≤ place_of epoch early.old.items }
    ensures kept { early.new.items ≡ filter (is_other pair) early.old.items }
    ensures passed { result ≤ place_of epoch early.new.items }
{
    if !has_copy(early, pair) {
        return passed;
    }
    early.retain(|m| !is_copy(*m, pair));
    0
}

/// The place of the first message of an epoch, where the first `passed` are of others. The length where there is none.
#[tactic(auto, using(crate::proofs::Placed::here, crate::proofs::Placed::further, crate::proofs::Placed::place_within))]
fn first_from(early: &Vec<Message>, epoch: u64, passed: usize) -> usize
    requires { passed ≤ place_of epoch early.now.items }
    ensures { result ≡ place_of epoch early.now.items }
{
    for at in passed..early.len() {
        if early[at].epoch == epoch {
            return at;
        }
    }
    early.len()
}

/// The first message of an epoch, where the first `passed` are of others.
fn first_in(early: &Vec<Message>, epoch: u64, passed: usize) -> Option<Message>
    requires { passed ≤ place_of epoch early.now.items }
    ensures { result ≡ first_of epoch early.now.items }
{
    early.get(first_from(early, epoch, passed)).copied()
}

/// Takes the first message of an epoch out, and says how many of the rest are passed.
#[tactic(auto, using(crate::proofs::Placed::taken_out, crate::proofs::Placed::none_there, crate::proofs::Placed::place_after))]
fn take_first(early: &mut Vec<Message>, epoch: u64, passed: usize) -> usize
    requires { passed ≤ place_of epoch early.old.items }
    ensures rest { early.new.items ≡ without_first epoch early.old.items }
    ensures passed { result ≤ place_of epoch early.new.items }
{
    let at = first_from(early, epoch, passed);
    if at < early.len() {
        early.remove(at);
    }
    at
}
