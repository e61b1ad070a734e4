//! One handler step, outside the control.
ghost use Rattle.std.specs.Prelude.{◌≡◌, false, IfOk, IfErr};
ghost use Rattle.samoa_serial.specs.Kinds.{after_step, outcome_of};

use crate::tray::{Load, Tray};
use samoa_micro::{Held, Micro};
use samoa_model::{Moment, NoMemory, Outcome};
use std::alloc::Global;
use std::marker::Model;
use std::snapshot::Snapshot;

/// A handler step that has begun: its microprotocol is out of its slot. It can't be dropped, so that it comes back: by
/// `Control::leave` once it was made, or by `Control::abandon`.
pub struct Turn<B: Micro> {
    comp: u32,
    micro: u32,
    load: Box<Load<B>>,
}

impl<B: Micro> Model for Turn<B> {
    ghost use Rattle.std.specs.Prelude.{◌≡◌, false};
    ghost use Rattle.samoa_control.specs.Turns.{Going};

    ghost Value = { Going };

    ghost view = { λ t. record { comp = t.comp; micro = t.micro; moment = t.load.value.moment; before = t.load.value.held } };

    ghost invariant = { λ t. t.load.value.held.fresh ≡ false };
}

/// A handler step that was made: its microprotocol is still out, and holds its outcome. It can't be dropped, so that it
/// comes back by `Control::leave`.
pub struct Ran<B: Micro> {
    comp: u32,
    micro: u32,
    before: Snapshot<Held<B>>,
    load: Box<Load<B>>,
}

impl<B: Micro> Model for Ran<B> {
    ghost use Rattle.std.specs.Prelude.{◌≡◌, false};
    ghost use Rattle.samoa_serial.specs.Kinds.{after_step, outcome_of};
    ghost use Rattle.samoa_control.specs.Turns.{Going};

    ghost Value = { Going };

    ghost view = { λ r. record { comp = r.comp; micro = r.micro; moment = r.load.value.moment; before = r.before.value } };

    ghost invariant = { λ r. (r.load.value.held ≡ after_step r.before.value r.load.value.moment) × (r.load.value.outcome ≡ outcome_of r.before.value r.load.value.moment) };
}

impl<B: Micro> Turn<B> {
    pub(crate) fn new(comp: u32, micro: u32, moment: Moment, held: Tray<B>) -> Turn<B>
        requires { held.fresh ≡ false }
        ensures { result ≡ record { comp = comp; micro = micro; moment = moment; before = held } }
    {
        let mut load = held.into_load();
        load.give(moment);
        Turn { comp, micro, load }
    }

    /// The number of its computation.
    pub fn comp(&self) -> u32
        ensures { result ≡ self.now.comp }
    {
        self.comp
    }

    /// The number of its microprotocol.
    pub fn micro(&self) -> u32
        ensures { result ≡ self.now.micro }
    {
        self.micro
    }

    pub(crate) fn into_held(self) -> Tray<B>
        ensures { result ≡ self.before }
    {
        let Turn {
            comp: _,
            micro: _,
            load,
        } = self;
        Tray::of(load)
    }

    /// Makes one step of the microprotocol. Where there was no memory, the turn comes back as it was.
    pub fn run(self, alloc: Global) -> Result<Ran<B>, (Turn<B>, NoMemory)>
        ensures ok { IfOk result (λ ran. ran ≡ self) }
        ensures err { IfErr result (λ e. e.0 ≡ self) }
    {
        let Turn {
            comp,
            micro,
            mut load,
        } = self;
        let before = Snapshot::of(&load.held);
        match load.step(alloc) {
            Ok(()) => Ok(Ran {
                comp,
                micro,
                before,
                load,
            }),
            Err(fault) => Err((Turn { comp, micro, load }, fault)),
        }
    }
}

impl<B: Micro> Ran<B> {
    /// The number of its computation.
    pub fn comp(&self) -> u32
        ensures { result ≡ self.now.comp }
    {
        self.comp
    }

    /// The number of its microprotocol.
    pub fn micro(&self) -> u32
        ensures { result ≡ self.now.micro }
    {
        self.micro
    }

    pub(crate) fn into_parts(self) -> (Tray<B>, Outcome)
        ensures held { result.0 ≡ after_step self.before self.moment }
        ensures outcome { result.1 ≡ outcome_of self.before self.moment }
    {
        let Ran {
            comp: _,
            micro: _,
            before: _before,
            load,
        } = self;
        let outcome = load.outcome;
        (Tray::of(load), outcome)
    }
}
