//! Trays: a microprotocol lies on the heap, beside the moment that it is given and the outcome that it gives, so that a
//! handler step that goes out and comes back moves an address and none of these.
ghost use Rattle.std.specs.Prelude.{◌≡◌, true, false, IfOk, OnOk, OnErr};
ghost use Rattle.samoa_serial.specs.Kinds.{after_step, outcome_of, set_up_as, shown};

use samoa_micro::{Held, Micro};
use samoa_model::{Moment, NoMemory, Outcome, Setup, Words};
use std::alloc::Global;
use std::marker::Model;

/// A microprotocol, the last moment that it was given, and the last outcome that it gave.
#[derive(Drop)]
pub(crate) struct Load<B: Micro> {
    pub(crate) held: Held<B>,
    pub(crate) moment: Moment,
    pub(crate) outcome: Outcome,
}

impl<B: Micro> Load<B> {
    /// Gives it a moment.
    pub(crate) fn give(&mut self, moment: Moment)
        ensures { self.new ≡ record self.old { moment = moment } }
    {
        self.moment = moment;
    }

    /// Makes the step of the moment that it was given. Where there was no memory, the microprotocol is as it was.
    pub(crate) fn step(&mut self, alloc: Global) -> Result<(), NoMemory>
        requires { self.old.held.fresh ≡ false }
        ensures moment { self.new.moment ≡ self.old.moment }
        ensures held { OnOk result (self.new.held ≡ after_step self.old.held self.old.moment) }
        ensures outcome { OnOk result (self.new.outcome ≡ outcome_of self.old.held self.old.moment) }
        ensures err { OnErr result (self.new.held ≡ self.old.held) }
    {
        self.outcome = self.held.step(alloc, &self.moment)?;
        Ok(())
    }
}

/// A microprotocol on the heap. Contracts see the microprotocol.
#[derive(Drop)]
pub(crate) struct Tray<B: Micro> {
    load: Box<Load<B>>,
}

impl<B: Micro> Model for Tray<B> {
    ghost use Rattle.samoa_serial.specs.Kinds.{Seen};

    ghost Value = { Seen };

    ghost view = { λ h. h.load.value.held };
}

impl<B: Micro> Tray<B> {
    /// Puts a microprotocol on the heap, or answers want of memory.
    pub(crate) fn new(alloc: Global, inside: B) -> Result<Tray<B>, NoMemory>
        ensures { IfOk result (λ tray. tray ≡ B.seen inside) }
    {
        let load = Load {
            held: Held::new(inside),
            moment: Moment::Begin {
                handler: 0,
                arg: Words::new(),
            },
            outcome: Outcome::Done {
                reply: Words::new(),
            },
        };
        match Box::new(alloc, load) {
            Ok(load) => Ok(Tray { load }),
            Err(_failed) => Err(NoMemory),
        }
    }

    pub(crate) fn of(load: Box<Load<B>>) -> Tray<B>
        ensures { result ≡ load.value.held }
    {
        Tray { load }
    }

    pub(crate) fn into_load(self) -> Box<Load<B>>
        ensures { result.value.held ≡ self }
    {
        let Tray { load } = self;
        load
    }

    /// Sets up a fresh microprotocol. Where there was no memory, it is as it was.
    pub(crate) fn set_up(&mut self, alloc: Global, setup: &Setup) -> Result<(), NoMemory>
        requires { self.old.fresh ≡ true }
        ensures ok { OnOk result (self.new ≡ set_up_as self.old.kind setup.now) }
        ensures err { OnErr result (self.new ≡ self.old) }
    {
        self.load.held.set_up(alloc, setup)
    }

    /// The words that it shows of its state.
    pub(crate) fn show(&self) -> Words
        requires { self.now.fresh ≡ false }
        ensures { result ≡ shown self.now.kind self.now.state }
    {
        self.load.held.show()
    }
}
