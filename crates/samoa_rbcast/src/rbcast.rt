//! Reliable broadcast: what was cast and seen, and a method for each row of its table.
ghost use Rattle.std.specs.Prelude.{◌≡◌, IfOk, OnErr, OnOk, slice_index};
ghost use Rattle.samoa_serial.specs.RbcastTable.{rbcast_cast, rbcast_cast_on, rbcast_pass_on, rbcast_recv, rbcast_recv_on};

use samoa_micro::kept::PairSet;
use samoa_micro::rows::{call, done, me, nodes, nothing, number};
use samoa_micro::{StateMachine, Stateful};
use samoa_model::{Kind, Moment, NoMemory, Outcome, Setup, Words, first_words};
use samoa_serial::Pair;
use std::alloc::Global;
use std::marker::Model;

/// A reliable broadcast: each node passes on what it sees for the first time before it hands it up, so that what one
/// node hands up goes to all.
pub type Rbcast = Stateful<Casts>;

/// The number of the last own cast, which goes on from 0 after the last number, and all that was seen.
#[derive(Drop)]
pub struct Casts {
    seq: u64,
    seen: PairSet,
}

impl Model for Casts {
    ghost use Rattle.samoa_serial.specs.State.{RbcastState};

    ghost Value = { RbcastState };

    ghost view = { λ s. record { seq = s.seq; seen = s.seen } };
}

impl Casts {
    /// `cast`: words of this node's own.
    fn cast(&mut self, setup: &Setup, words: &[u64]) -> Result<Outcome, NoMemory>
        ensures outcome { IfOk result (λ outcome. outcome ≡ (rbcast_cast setup.now self.old words.now).1) }
        ensures ok { OnOk result (self.new ≡ (rbcast_cast setup.now self.old words.now).0) }
        ensures err { OnErr result (self.new ≡ self.old) }
    {
        let pair = Pair {
            origin: me(setup),
            number: self.seq.wrapping_add(1),
        };
        self.seen.add(pair)?;
        self.seq = pair.number;
        Ok(pass_on(setup, pair, words))
    }

    /// `recv`: what comes for the first time is passed on.
    fn recv(&mut self, setup: &Setup, pair: Pair, words: &[u64]) -> Result<Outcome, NoMemory>
        ensures outcome { IfOk result (λ outcome. outcome ≡ (rbcast_recv setup.now self.old pair words.now).1) }
        ensures ok { OnOk result (self.new ≡ (rbcast_recv setup.now self.old pair words.now).0) }
        ensures err { OnErr result (self.new ≡ self.old) }
    {
        if self.seen.has(pair) {
            return Ok(nothing());
        }
        self.seen.add(pair)?;
        Ok(pass_on(setup, pair, words))
    }
}

/// What was seen goes to all.
fn pass_on(setup: &Setup, pair: Pair, words: &[u64]) -> Outcome
    ensures { result ≡ rbcast_pass_on setup.now pair.origin pair.number words.now }
{
    let Pair {
        origin,
        number: seq,
    } = pair;
    let arg = Words::joined(&[nodes(setup), number(setup, 0), origin, seq], words);
    let frame = Words::joined(&[1, origin, seq], words);
    call(setup, 0, arg, frame)
}

/// `cast` goes on: once passed on it is handed up, and then it is done.
fn cast_on(setup: &Setup, at: u64, pair: Pair, words: &[u64]) -> Outcome
    ensures { result ≡ rbcast_cast_on setup.now at pair.origin pair.number words.now }
{
    let Pair {
        origin,
        number: seq,
    } = pair;
    match at {
        1 => {
            let arg = Words::joined(&[origin, seq], words);
            call(setup, 1, arg, Words::cut(&[2, origin, seq]))
        }
        2 => done(&[origin, seq]),
        _ => nothing(),
    }
}

/// `recv` goes on: once passed on it is handed up.
fn recv_on(setup: &Setup, at: u64, pair: Pair, words: &[u64]) -> Outcome
    ensures { result ≡ rbcast_recv_on setup.now at pair.origin pair.number words.now }
{
    if at != 1 {
        return nothing();
    }
    let arg = Words::joined(&[pair.origin, pair.number], words);
    call(setup, 1, arg, Words::cut(&[2]))
}

/// The pair that stands second among words.
fn pair_in(words: &Words) -> Pair
    ensures { result ≡ record { origin = slice_index words.now 1; number = slice_index words.now 2 } }
{
    Pair {
        origin: words.word_or_zero(1),
        number: words.word_or_zero(2),
    }
}

impl StateMachine for Casts {
    ghost use Rattle.samoa_model.specs.declared.setup.Kind.TheVariants as kinds;
    ghost use Rattle.samoa_serial.specs.State.{OfRbcast};

    ghost kind_of = { kinds.Rbcast };

    ghost state = { λ s. OfRbcast s };

    fn kind() -> Kind {
        Kind::Rbcast
    }

    fn new(alloc: Global) -> Casts {
        Casts {
            seq: 0,
            seen: PairSet::new(alloc),
        }
    }

    fn open(&mut self, alloc: Global, _setup: &Setup) -> Result<(), NoMemory> {
        *self = Casts {
            seq: 0,
            seen: PairSet::new(alloc),
        };
        Ok(())
    }

    fn step(
        &mut self,
        _alloc: Global,
        setup: &Setup,
        moment: &Moment,
    ) -> Result<Outcome, NoMemory> {
        match moment {
            Moment::Begin { handler, arg } => match *handler {
                0 => self.cast(setup, first_words(arg.as_slice(), 8)),
                1 => {
                    let words = first_words(arg.rest(3), 8);
                    self.recv(setup, pair_in(arg), words)
                }
                _ => Ok(nothing()),
            },
            Moment::Resume {
                handler,
                frame,
                reply: _,
            } => {
                let at = frame.word_or_zero(0);
                let words = frame.rest(3);
                match *handler {
                    0 => Ok(cast_on(setup, at, pair_in(frame), words)),
                    1 => Ok(recv_on(setup, at, pair_in(frame), words)),
                    _ => Ok(nothing()),
                }
            }
        }
    }

    fn show(&self) -> Words {
        Words::cut(&[self.seq, self.seen.len() as u64])
    }
}
