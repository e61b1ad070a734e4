//! The trait of microprotocols.
ghost use Rattle.std.specs.Prelude.{◌≡◌, true, false, IfOk, OnOk, OnErr};
ghost use Rattle.samoa_serial.specs.Kinds.{Seen, set_up_as, after_step, outcome_of, shown};

use samoa_model::{Kind, Moment, NoMemory, Outcome, Setup, Words};
use std::alloc::Global;
use std::marker::{Model, Send};

/// A microprotocol of any kind, in a box of its own.
pub type MicroBox = Box<dyn Micro + Send>;

/// A microprotocol of one kind. It is set up once, and then makes one step for each moment that it is given.
///
/// No call changes its kind. A step leaves what it was set up with as it was, and changes only what it remembers.
pub trait Micro: Drop {
    /// Its kind, whether it is still to be set up, what it was set up with, and what it remembers between steps.
    ghost seen: { Self → Seen };

    /// Its kind, the same before and after it is set up. It takes no memory.
    fn kind(&self) -> Kind
        ensures { result ≡ (seen self.now).kind };

    /// Sets up a fresh microprotocol, which keeps a copy of the setup. Where there was no memory for it, the
    /// microprotocol is as it was, still to be set up.
    fn set_up(&mut self, alloc: Global, setup: &Setup) -> Result<(), NoMemory>
        requires { (seen self.old).fresh ≡ true }
        ensures ok { OnOk result (seen self.new ≡ set_up_as (seen self.old).kind setup.now) }
        ensures err { OnErr result (seen self.new ≡ seen self.old) };

    /// Makes one step of a handler, by the table of its kind, and answers the outcome. Where there was no memory,
    /// no step was made: the microprotocol is as it was, and the same step may be tried again.
    fn step(&mut self, alloc: Global, moment: &Moment) -> Result<Outcome, NoMemory>
        requires { (seen self.old).fresh ≡ false }
        ensures outcome { IfOk result (λ outcome. outcome ≡ outcome_of (seen self.old) moment.now) }
        ensures ok { OnOk result (seen self.new ≡ after_step (seen self.old) moment.now) }
        ensures err { OnErr result (seen self.new ≡ seen self.old) };

    /// The words that it shows of its state. It takes no memory.
    fn show(&self) -> Words
        requires { (seen self.now).fresh ≡ false }
        ensures { result ≡ shown (seen self.now).kind (seen self.now).state };
}

/// A box with a microprotocol in it is one, of the same kind.
impl Micro for MicroBox {
    ghost seen = { λ b. (Micro-box b).seen b.value };

    fn kind(&self) -> Kind {
        (**self).kind()
    }

    fn set_up(&mut self, alloc: Global, setup: &Setup) -> Result<(), NoMemory> {
        (**self).set_up(alloc, setup)
    }

    fn step(&mut self, alloc: Global, moment: &Moment) -> Result<Outcome, NoMemory> {
        (**self).step(alloc, moment)
    }

    fn show(&self) -> Words {
        (**self).show()
    }
}

/// A microprotocol that contracts see as plain data: its kind, whether it is fresh, its setup and its state.
#[derive(Drop)]
pub struct Held<B: Micro> {
    inside: B,
}

impl<B: Micro> Model for Held<B> {
    ghost use Rattle.samoa_serial.specs.Kinds.{Seen};

    ghost Value = { Seen };

    ghost view = { λ h. B.seen h.inside };
}

impl<B: Micro> Held<B> {
    /// Holds a microprotocol. It takes no memory.
    pub fn new(inside: B) -> Held<B>
        ensures { result ≡ B.seen inside }
    {
        Held { inside }
    }

    /// Gives the microprotocol back.
    pub fn into_inner(self) -> B
        ensures { B.seen result ≡ self }
    {
        let Held { inside } = self;
        inside
    }

    /// Its kind. It takes no memory.
    pub fn kind(&self) -> Kind
        ensures { result ≡ self.now.kind }
    {
        self.inside.kind()
    }

    /// Sets up a fresh microprotocol. Where there was no memory for it, it is as it was.
    pub fn set_up(&mut self, alloc: Global, setup: &Setup) -> Result<(), NoMemory>
        requires { self.old.fresh ≡ true }
        ensures ok { OnOk result (self.new ≡ set_up_as self.old.kind setup.now) }
        ensures err { OnErr result (self.new ≡ self.old) }
    {
        self.inside.set_up(alloc, setup)
    }

    /// Makes one step of a handler, and answers the outcome. Where there was no memory, it is as it was.
    pub fn step(&mut self, alloc: Global, moment: &Moment) -> Result<Outcome, NoMemory>
        requires { self.old.fresh ≡ false }
        ensures outcome { IfOk result (λ outcome. outcome ≡ outcome_of self.old moment.now) }
        ensures ok { OnOk result (self.new ≡ after_step self.old moment.now) }
        ensures err { OnErr result (self.new ≡ self.old) }
    {
        self.inside.step(alloc, moment)
    }

    /// The words that it shows of its state. It takes no memory.
    pub fn show(&self) -> Words
        requires { self.now.fresh ≡ false }
        ensures { result ≡ shown self.now.kind self.now.state }
    {
        self.inside.show()
    }
}
