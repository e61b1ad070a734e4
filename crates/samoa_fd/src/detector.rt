//! The failure detector.
use crate::watches::Watches;
use samoa_micro::rows::nothing;
use samoa_micro::{StateMachine, Stateful};
use samoa_model::{Kind, Moment, NoMemory, Outcome, Setup, Words};
use std::alloc::Global;

/// A failure detector: it counts its own beats, and suspects a node from which it heard nothing for more of them than
/// its setup says. It may be wrong: nothing is claimed of its accuracy.
pub type Fd = Stateful<Watches>;

impl StateMachine for Watches {
    ghost use Rattle.samoa_model.specs.declared.setup.Kind.TheVariants as kinds;
    ghost use Rattle.samoa_serial.specs.State.{OfFd};

    ghost kind_of = { kinds.Fd };

    ghost state = { λ s. OfFd s };

    fn kind() -> Kind {
        Kind::Fd
    }

    fn new(alloc: Global) -> Watches {
        Watches::empty(alloc)
    }

    fn open(&mut self, alloc: Global, setup: &Setup) -> Result<(), NoMemory> {
        *self = Watches::opening(alloc, setup)?;
        Ok(())
    }

    fn step(
        &mut self,
        _alloc: Global,
        setup: &Setup,
        moment: &Moment,
    ) -> Result<Outcome, NoMemory> {
        Ok(match moment {
            Moment::Begin { handler, arg } => match *handler {
                0 => self.beat(setup),
                1 => self.heard(arg.word_or_zero(0)),
                _ => nothing(),
            },
            Moment::Resume {
                handler,
                frame,
                reply: _,
            } => match *handler {
                0 => self.suspect(setup, frame.word_or_zero(0)),
                _ => nothing(),
            },
        })
    }

    fn show(&self) -> Words {
        Words::cut(&[self.mask()])
    }
}
