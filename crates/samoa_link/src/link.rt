//! The link: how many messages it sent and got, and a method for each row of its table.
ghost use Rattle.std.specs.Prelude.{◌≡◌};
ghost use Rattle.samoa_serial.specs.LinkTable.{link_recv, link_send};

use samoa_micro::rows::{call, dest_of, event_at, me, nothing};
use samoa_micro::{StateMachine, Stateful};
use samoa_model::{Kind, Moment, NoMemory, Outcome, Setup, Words};
use std::alloc::Global;
use std::marker::Model;

/// A link to the other nodes. It numbers nothing and keeps nothing: what is lost is lost.
pub type Link = Stateful<Counts>;

/// How many messages a link sent, and how many it got. Each count stands still at the last number.
#[derive(Drop)]
pub struct Counts {
    sent: u64,
    got: u64,
}

impl Model for Counts {
    ghost use Rattle.samoa_serial.specs.State.{LinkState};

    ghost Value = { LinkState };

    ghost view = { λ c. record { sent = c.sent; got = c.got } };
}

impl Counts {
    /// `send`: the words go to a node, or to all where there is no such node, for a channel there.
    fn send(&mut self, setup: &Setup, to: u64, channel: u64, words: &[u64]) -> Outcome
        ensures outcome { result ≡ (link_send setup.now self.old to channel words.now).1 }
        ensures state { self.new ≡ (link_send setup.now self.old to channel words.now).0 }
    {
        self.sent = self.sent.saturating_add(1);
        Outcome::Send {
            to: dest_of(setup, to),
            event: event_at(setup, 0),
            arg: Words::joined(&[me(setup), channel], words),
            frame: Words::new(),
        }
    }

    /// `recv`: the words go on to the port of their channel, with the node that they come from.
    fn recv(&mut self, setup: &Setup, from: u64, channel: u64, words: &[u64]) -> Outcome
        ensures outcome { result ≡ (link_recv setup.now self.old from channel words.now).1 }
        ensures state { self.new ≡ (link_recv setup.now self.old from channel words.now).0 }
    {
        self.got = self.got.saturating_add(1);
        let ports = setup.ports.as_slice().len() as u64;
        if ports == 0 || channel >= ports - 1 {
            return nothing();
        }
        let port = channel as usize + 1;
        call(setup, port, Words::joined(&[from], words), Words::new())
    }
}

impl StateMachine for Counts {
    ghost use Rattle.samoa_model.specs.declared.setup.Kind.TheVariants as kinds;
    ghost use Rattle.samoa_serial.specs.State.{OfLink};

    ghost kind_of = { kinds.Link };

    ghost state = { λ c. OfLink c };

    fn kind() -> Kind {
        Kind::Link
    }

    fn new(_alloc: Global) -> Counts {
        Counts { sent: 0, got: 0 }
    }

    fn open(&mut self, _alloc: Global, _setup: &Setup) -> Result<(), NoMemory> {
        *self = Counts { sent: 0, got: 0 };
        Ok(())
    }

    fn step(
        &mut self,
        _alloc: Global,
        setup: &Setup,
        moment: &Moment,
    ) -> Result<Outcome, NoMemory> {
        let Moment::Begin { handler, arg } = moment else {
            return Ok(nothing());
        };
        let node = arg.word_or_zero(0);
        let channel = arg.word_or_zero(1);
        let words = arg.rest(2);
        Ok(match *handler {
            0 => self.send(setup, node, channel, words),
            1 => self.recv(setup, node, channel, words),
            _ => nothing(),
        })
    }

    fn show(&self) -> Words {
        Words::cut(&[self.sent, self.got])
    }
}
