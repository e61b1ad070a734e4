//! Atomic broadcast by a sequencer: what was numbered and got, and a method for each row of its table.
ghost use Rattle.std.specs.Prelude.{◌≡◌, ◌+◌, ◌<◌, ◌≤◌, ◌^◌, OnOk, OnErr, IfOk, []};
ghost use Rattle.samoa_serial.specs.SeqcastTable.{seqcast_drain, seqcast_number, seqcast_get, seqcast_got_on, seqcast_cast};

use samoa_micro::kept::{KeySet, MessageMap};
use samoa_micro::rows::{call, key_of, me, nodes, nothing, number, read_message, words_of};
use samoa_micro::{StateMachine, Stateful};
use samoa_model::{Kind, Moment, NoMemory, Outcome, Setup, Words};
use samoa_serial::Message;
use std::alloc::Global;
use std::marker::Model;

/// An atomic broadcast: one node, the sequencer, numbers what is cast, and all hand it on by number.
pub type Seqcast = Stateful<Numbering>;

/// What was numbered and got.
#[derive(Drop)]
pub struct Numbering {
    numbered: u64,
    keys: KeySet,
    got: MessageMap,
    next: u64,
}

impl Model for Numbering {
    ghost use Rattle.samoa_serial.specs.State.{SeqcastState};

    ghost Value = { SeqcastState };

    ghost view = { λ s. record { numbered = s.numbered; keys = s.keys; got = s.got; next = s.next } };
}

impl Numbering {
    /// Nothing yet. It takes no memory.
    fn none(alloc: Global) -> Numbering
        ensures { result ≡ record { numbered = 0; keys = []; got = []; next = 1 } }
    {
        Numbering {
            numbered: 0,
            keys: KeySet::new(alloc),
            got: MessageMap::new(alloc),
            next: 1,
        }
    }

    /// The message that comes next is handed on.
    fn drain(&self, setup: &Setup) -> Outcome
        ensures outcome { result ≡ (seqcast_drain setup.now self.now).1 }
        ensures state { self.now ≡ (seqcast_drain setup.now self.now).0 }
    {
        match self.got.get(self.next) {
            None => nothing(),
            Some(message) => call(
                setup,
                1,
                Words::cut(&words_of(message)),
                Words::cut(&[1, self.next]),
            ),
        }
    }

    /// `recv` with tag 0: the sequencer numbers what it has not numbered.
    fn number(&mut self, setup: &Setup, message: Message) -> Result<Outcome, NoMemory>
        ensures outcome { IfOk result (λ outcome. outcome ≡ (seqcast_number setup.now self.old message).1) }
        ensures ok { OnOk result (self.new ≡ (seqcast_number setup.now self.old message).0) }
        ensures err { OnErr result (self.new ≡ self.old) }
    {
        let key = key_of(message);
        if me(setup) != number(setup, 1) || self.keys.has(key) {
            return Ok(nothing());
        }
        self.keys.add(key)?;
        self.numbered = self.numbered.saturating_add(1);
        let head = [nodes(setup), number(setup, 0), 1, self.numbered];
        let arg = Words::joined(&head, &words_of(message));
        Ok(call(setup, 0, arg, Words::cut(&[0])))
    }

    /// `recv` with tag 1: a numbered message came.
    fn get(&mut self, setup: &Setup, at: u64, message: Message) -> Result<Outcome, NoMemory>
        ensures outcome { IfOk result (λ outcome. outcome ≡ (seqcast_get setup.now self.old at message).1) }
        ensures ok { OnOk result (self.new ≡ (seqcast_get setup.now self.old at message).0) }
        ensures err { OnErr result (self.new ≡ self.old) }
    {
        self.got.add(at, message)?;
        Ok(self.drain(setup))
    }

    /// `recv` goes on, once a message was handed on.
    fn got_on(&mut self, setup: &Setup, at: u64) -> Outcome
        ensures outcome { result ≡ (seqcast_got_on setup.now self.old at).1 }
        ensures state { self.new ≡ (seqcast_got_on setup.now self.old at).0 }
    {
        if self.next == at {
            self.next = self.next.saturating_add(1);
        }
        self.drain(setup)
    }
}

/// `cast`: a message goes to the sequencer.
fn cast(setup: &Setup, message: Message) -> Outcome
    ensures { result ≡ seqcast_cast setup.now message }
{
    let head = [number(setup, 1), number(setup, 0), 0];
    let arg = Words::joined(&head, &words_of(message));
    call(setup, 0, arg, Words::cut(&[0]))
}

impl StateMachine for Numbering {
    ghost use Rattle.samoa_model.specs.declared.setup.Kind.TheVariants as kinds;
    ghost use Rattle.samoa_serial.specs.State.{OfSeqcast};

    ghost kind_of = { kinds.Seqcast };

    ghost state = { λ s. OfSeqcast s };

    fn kind() -> Kind {
        Kind::Seqcast
    }

    fn new(alloc: Global) -> Numbering {
        Numbering::none(alloc)
    }

    fn open(&mut self, alloc: Global, _setup: &Setup) -> Result<(), NoMemory> {
        *self = Numbering::none(alloc);
        Ok(())
    }

    fn step(
        &mut self,
        _alloc: Global,
        setup: &Setup,
        moment: &Moment,
    ) -> Result<Outcome, NoMemory> {
        match moment {
            Moment::Begin { handler, arg } => match (*handler, arg.word_or_zero(1)) {
                (0, _) => Ok(cast(setup, read_message(arg, 0))),
                (1, 0) => self.number(setup, read_message(arg, 2)),
                (1, 1) => {
                    let at = arg.word_or_zero(2);
                    self.get(setup, at, read_message(arg, 3))
                }
                _ => Ok(nothing()),
            },
            Moment::Resume {
                handler,
                frame,
                reply: _,
            } => {
                if *handler == 1 && frame.word_or_zero(0) == 1 {
                    let at = frame.word_or_zero(1);
                    return Ok(self.got_on(setup, at));
                }
                Ok(nothing())
            }
        }
    }

    fn show(&self) -> Words {
        Words::cut(&[self.numbered, self.next])
    }
}
