//! Atomic broadcast by consensus: what waits and what was decided, and a method for each row of its table.
ghost use Rattle.std.specs.Prelude.{◌≡◌, ◌+◌, ◌-◌, ◌<◌, ◌≤◌, ◌^◌, ◌++◌, ◌∷◌, OnOk, OnErr, IfOk, [], length};
ghost use Rattle.samoa_serial.specs.AbcastTable.{abcast_offer, abcast_skip, abcast_drain, abcast_heard, abcast_decided, abcast_marked, abcast_decided_on, has_message, without_message};
ghost use Rattle.samoa_abcast.specs.Indexed.{IsIndexed};

use samoa_micro::kept::{KeySet, MessageMap};
use samoa_micro::rows::{call, is_same, key_of, nothing, read_message, words_of};
use samoa_micro::{StateMachine, Stateful};
use samoa_model::{Kind, Moment, NoMemory, Outcome, Setup, Words};
use samoa_serial::{Key, Message};
use std::alloc::Global;
use std::collections::BTreeSet;
use std::marker::Model;

/// An atomic broadcast: the group agrees on the message that comes next, one instance of consensus after another.
pub type Abcast = Stateful<Order>;

/// What waits, what was decided and what was handed on. Beside what waits stand its keys, so that a message that is new
/// is looked for in no list. A key stays there where memory failed as its message was to be kept.
#[derive(Drop)]
pub struct Order {
    next: u64,
    proposed: u64,
    pending: Vec<Message>,
    keys: BTreeSet<Key>,
    done: KeySet,
    decisions: MessageMap,
}

impl Model for Order {
    ghost use Rattle.samoa_serial.specs.State.{AbcastState};
    ghost use Rattle.samoa_abcast.specs.Indexed.{IsIndexed};

    ghost Value = { AbcastState };

    ghost view = { λ s. record { next = s.next; proposed = s.proposed; pending = s.pending.items; done = s.done; decisions = s.decisions } };

    ghost invariant = { λ s. IsIndexed s.pending.items s.keys.keys };
}

impl Order {
    /// Nothing yet. It takes no memory.
    fn none(alloc: Global) -> Order
        ensures { result ≡ record { next = 1; proposed = 0; pending = []; done = []; decisions = [] } }
    {
        Order {
            next: 1,
            proposed: 0,
            pending: Vec::new(alloc),
            keys: BTreeSet::new(alloc),
            done: KeySet::new(alloc),
            decisions: MessageMap::new(alloc),
        }
    }

    /// The first message that waits is proposed, once for each instance.
    fn offer(&mut self, setup: &Setup) -> Outcome
        ensures outcome { result ≡ (abcast_offer setup.now self.old self.old.pending).1 }
        ensures state { self.new ≡ (abcast_offer setup.now self.old self.old.pending).0 }
    {
        let Some(first) = self.pending.first().copied() else {
            return nothing();
        };
        if self.proposed >= self.next {
            return nothing();
        }
        self.proposed = self.next;
        let arg = Words::joined(&[self.next], &words_of(first));
        call(setup, 1, arg, Words::cut(&[0]))
    }

    /// What was decided next is handed on, past what was handed on before.
    fn drain(&mut self, setup: &Setup) -> Outcome
        ensures outcome { result ≡ (abcast_drain setup.now self.old).1 }
        ensures state { self.new ≡ (abcast_drain setup.now self.old).0 }
    {
        self.next = past_done(&self.done, &self.decisions, self.next);
        match self.decisions.get(self.next) {
            None => self.offer(setup),
            Some(message) => call(
                setup,
                2,
                Words::cut(&words_of(message)),
                Words::cut(&[1, self.next]),
            ),
        }
    }

    /// Whether a message of this key waits.
    fn waits(&self, key: Key) -> bool
        ensures { result ≡ has_message self.now.pending key }
    {
        waits_in(&self.pending, &self.keys, key)
    }

    /// A message waits from now on.
    fn keep(&mut self, message: Message) -> Result<(), NoMemory>
        ensures ok { OnOk result (self.new ≡ record self.old { pending = self.old.pending ++ message ∷ [] }) }
        ensures err { OnErr result (self.new ≡ self.old) }
    {
        self.keys.insert(key_of(message))?;
        self.pending.push(message)?;
        Ok(())
    }

    /// `heard` with tag 0: a message came by reliable broadcast, and waits unless it is known.
    fn heard(&mut self, setup: &Setup, message: Message) -> Result<Outcome, NoMemory>
        ensures outcome { IfOk result (λ outcome. outcome ≡ (abcast_heard setup.now self.old message).1) }
        ensures ok { OnOk result (self.new ≡ (abcast_heard setup.now self.old message).0) }
        ensures err { OnErr result (self.new ≡ self.old) }
    {
        let key = key_of(message);
        if !self.waits(key) && !self.done.has(key) {
            self.keep(message)?;
        }
        Ok(self.offer(setup))
    }

    /// `decided`: an instance has its decision.
    fn decided(&mut self, setup: &Setup, at: u64, message: Message) -> Result<Outcome, NoMemory>
        ensures outcome { IfOk result (λ outcome. outcome ≡ (abcast_decided setup.now self.old at message).1) }
        ensures ok { OnOk result (self.new ≡ (abcast_decided setup.now self.old at message).0) }
        ensures err { OnErr result (self.new ≡ self.old) }
    {
        self.decisions.add(at, message)?;
        Ok(self.drain(setup))
    }

    /// The decision that comes next was handed on.
    fn mark(&mut self, message: Message) -> Result<(), NoMemory>
        ensures ok { OnOk result (self.new ≡ abcast_marked self.old message) }
        ensures err { OnErr result (self.new ≡ self.old) }
    {
        let key = key_of(message);
        self.done.add(key)?;
        take_out(&mut self.pending, key);
        self.keys.remove(&key);
        self.next = self.next.saturating_add(1);
        Ok(())
    }

    /// `decided` goes on, once a decision was handed on.
    fn decided_on(&mut self, setup: &Setup, at: u64) -> Result<Outcome, NoMemory>
        ensures outcome { IfOk result (λ outcome. outcome ≡ (abcast_decided_on setup.now self.old at).1) }
        ensures ok { OnOk result (self.new ≡ (abcast_decided_on setup.now self.old at).0) }
        ensures err { OnErr result (self.new ≡ self.old) }
    {
        if self.next != at {
            return Ok(self.drain(setup));
        }
        let Some(message) = self.decisions.get(self.next) else {
            return Ok(nothing());
        };
        self.mark(message)?;
        Ok(self.drain(setup))
    }
}

/// The first instance from one on whose decision was not handed on before.
fn past_done(done: &KeySet, decisions: &MessageMap, from: u64) -> u64
    ensures { result ≡ abcast_skip done.now decisions.now (length decisions.now) from }
{
    let mut next = from;
    let mut more = decisions.len();
    while more > 0 {
        let Some(message) = decisions.get(next) else {
            return next;
        };
        if !done.has(key_of(message)) {
            return next;
        }
        more -= 1;
        next = next.saturating_add(1);
    }
    next
}

/// Whether a message of this key is among these, whose keys are there.
fn waits_in(messages: &Vec<Message>, keys: &BTreeSet<Key>, key: Key) -> bool
    requires { IsIndexed messages.now.items keys.now.keys }
    ensures { result ≡ has_message messages.now.items key }
{
    if !keys.contains(&key) {
        return false;
    }
    has_key_of(messages, key)
}

/// Whether a message of this key is among these.
fn has_key_of(messages: &Vec<Message>, key: Key) -> bool
    ensures { result ≡ has_message messages.now.items key }
{
    messages.iter().any(|m| is_same(key_of(*m), key))
}

/// Takes the messages of this key out.
fn take_out(messages: &mut Vec<Message>, key: Key)
    ensures { messages.new.items ≡ without_message messages.old.items key }
{
    messages.retain(|m| !is_same(key_of(*m), key));
}

impl StateMachine for Order {
    ghost use Rattle.samoa_model.specs.declared.setup.Kind.TheVariants as kinds;
    ghost use Rattle.samoa_serial.specs.State.{OfAbcast};

    ghost kind_of = { kinds.Abcast };

    ghost state = { λ s. OfAbcast s };

    fn kind() -> Kind {
        Kind::Abcast
    }

    fn new(alloc: Global) -> Order {
        Order::none(alloc)
    }

    fn open(&mut self, alloc: Global, _setup: &Setup) -> Result<(), NoMemory> {
        *self = Order::none(alloc);
        Ok(())
    }

    fn step(
        &mut self,
        _alloc: Global,
        setup: &Setup,
        moment: &Moment,
    ) -> Result<Outcome, NoMemory> {
        match moment {
            Moment::Begin { handler, arg } => match (*handler, arg.word_or_zero(2)) {
                (0, _) => {
                    let words = words_of(read_message(arg, 0));
                    let arg = Words::joined(&[0], &words);
                    Ok(call(setup, 0, arg, Words::cut(&[0])))
                }
                (1, 0) => self.heard(setup, read_message(arg, 3)),
                (2, _) => {
                    let at = arg.word_or_zero(0);
                    self.decided(setup, at, read_message(arg, 1))
                }
                _ => Ok(nothing()),
            },
            Moment::Resume {
                handler,
                frame,
                reply: _,
            } => {
                if *handler == 2 && frame.word_or_zero(0) == 1 {
                    return self.decided_on(setup, frame.word_or_zero(1));
                }
                Ok(nothing())
            }
        }
    }

    fn show(&self) -> Words {
        Words::cut(&[self.next, self.pending.len() as u64])
    }
}
