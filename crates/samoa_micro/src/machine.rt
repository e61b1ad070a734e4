//! Microprotocols that are a state and the table of their kind.
ghost use Rattle.std.specs.Prelude.{◌≡◌, true, IfOk, OnOk, OnErr};
ghost use Rattle.samoa_serial.specs.Kinds.{kind_step, opening, shown};

use crate::Micro;
use samoa_model::{Kind, Moment, NoMemory, Outcome, Setup, Words};
use std::alloc::Global;

/// What a kind remembers between steps, with the table by which it changes.
///
/// It is the part of a microprotocol that differs from kind to kind; [`Stateful`] adds what all kinds share.
pub trait StateMachine: Drop {
    ghost use Rattle.samoa_model.specs.declared.setup.Kind.{Kind as KindValue};
    ghost use Rattle.samoa_serial.specs.State.{State};

    /// The kind whose table it goes by.
    ghost kind_of: { KindValue };

    /// What it remembers.
    ghost state: { Self → State };

    /// The kind whose table it goes by.
    fn kind() -> Kind
        ensures { result ≡ kind_of };

    /// One that is still to be opened. It takes no memory.
    fn new(alloc: Global) -> Self;

    /// Makes it what a microprotocol of this setup begins with. Where there was no memory, it is as it was.
    fn open(&mut self, alloc: Global, setup: &Setup) -> Result<(), NoMemory>
        ensures ok { OnOk result (state self.new ≡ opening kind_of setup.now) }
        ensures err { OnErr result (state self.new ≡ state self.old) };

    /// Makes one step of a handler, by the table of its kind, and answers the outcome. Where there was no memory, it is
    /// as it was.
    fn step(&mut self, alloc: Global, setup: &Setup, moment: &Moment) -> Result<Outcome, NoMemory>
        ensures outcome { IfOk result (λ outcome. outcome ≡ (kind_step kind_of setup.now (state self.old) moment.now).1) }
        ensures ok { OnOk result (state self.new ≡ (kind_step kind_of setup.now (state self.old) moment.now).0) }
        ensures err { OnErr result (state self.new ≡ state self.old) };

    /// The words that it shows. It takes no memory.
    fn show(&self) -> Words
        ensures { result ≡ shown kind_of (state self.now) };
}

/// A microprotocol of the kind of a state machine, with its setup.
#[derive(Drop)]
pub struct Stateful<S: StateMachine> {
    fresh: bool,
    setup: Setup,
    state: S,
}

impl<S: StateMachine> Stateful<S> {
    /// A microprotocol that is still to be set up. It takes no memory.
    pub fn new(alloc: Global) -> Stateful<S>
        ensures kind { (⟦<Stateful<S> as Micro>⟧.seen result).kind ≡ S.kind_of }
        ensures fresh { (⟦<Stateful<S> as Micro>⟧.seen result).fresh ≡ true }
    {
        Stateful {
            fresh: true,
            setup: Setup::empty(alloc),
            state: S::new(alloc),
        }
    }
}

impl<S: StateMachine> Micro for Stateful<S> {
    ghost seen = { λ m. record { kind = S.kind_of; fresh = m.fresh; setup = m.setup; state = S.state m.state } };

    fn kind(&self) -> Kind {
        S::kind()
    }

    fn set_up(&mut self, alloc: Global, setup: &Setup) -> Result<(), NoMemory> {
        let copy = setup.copied(alloc)?;
        self.state.open(alloc, setup)?;
        self.setup = copy;
        self.fresh = false;
        Ok(())
    }

    fn step(&mut self, alloc: Global, moment: &Moment) -> Result<Outcome, NoMemory> {
        self.state.step(alloc, &self.setup, moment)
    }

    fn show(&self) -> Words {
        self.state.show()
    }
}
