//! The scripted kind.
ghost use Rattle.std.specs.Prelude.{◌≡◌, true, false};
ghost use Rattle.samoa_serial.specs.Kinds.{outcome_of, after_step};

use crate::code::{resumed_locals, run, waited};
use crate::numbers::{Numbers, four_words, locals_of};
use samoa_micro::Micro;
use samoa_model::{Kind, Moment, NoMemory, Outcome, Setup, Words};
use std::alloc::Global;

/// A microprotocol whose handlers are written in the script. It remembers four registers, which begin as the first
/// four numbers of its setup and which it shows. Beside them lie the locals of the step that was made last.
#[derive(Drop)]
pub struct Prog {
    fresh: bool,
    setup: Setup,
    numbers: Numbers,
}

impl Prog {
    /// A microprotocol that is still to be set up. It takes no memory.
    pub fn new(alloc: Global) -> Prog
        ensures kind { (⟦<Prog as Micro>⟧.seen result).kind ≡ Kind.Prog }
        ensures fresh { (⟦<Prog as Micro>⟧.seen result).fresh ≡ true }
    {
        Prog {
            fresh: true,
            setup: Setup::empty(alloc),
            numbers: Numbers::new([0; 4]),
        }
    }
}

impl Micro for Prog {
    ghost use Rattle.samoa_serial.specs.State.{Registers};
    ghost use Rattle.samoa_model.specs.declared.setup.Kind.TheVariants as kinds;

    ghost seen = { λ p. record { kind = kinds.Prog; fresh = p.fresh; setup = p.setup; state = Registers p.numbers.registers } };

    fn kind(&self) -> Kind {
        Kind::Prog
    }

    fn set_up(&mut self, alloc: Global, setup: &Setup) -> Result<(), NoMemory> {
        self.setup = setup.copied(alloc)?;
        self.numbers = Numbers::new(four_words(&setup.nums));
        self.fresh = false;
        Ok(())
    }

    /// It takes no memory, so the step is made each time.
    fn step(&mut self, _alloc: Global, moment: &Moment) -> Result<Outcome, NoMemory>
        requires { (⟦<Prog as Micro>⟧.seen self.old).fresh ≡ false }
        ensures outcome { result ≡ Ok (outcome_of (⟦<Prog as Micro>⟧.seen self.old) moment.now) }
        ensures state { ⟦<Prog as Micro>⟧.seen self.new
            ≡ after_step (⟦<Prog as Micro>⟧.seen self.old) moment.now }
    {
        let (handler, at) = match moment {
            Moment::Begin { handler, arg } => {
                self.numbers.set_locals(four_words(arg));
                (*handler, 0)
            }
            Moment::Resume {
                handler,
                frame,
                reply,
            } => {
                let at = frame.word_or_zero(0);
                let waited = waited(self.setup.code(*handler), at);
                let locals = resumed_locals(waited, locals_of(frame), reply);
                self.numbers.set_locals(locals);
                (*handler, at)
            }
        };
        let code = self.setup.code(handler);
        Ok(run(&self.setup, code, at, &mut self.numbers))
    }

    fn show(&self) -> Words {
        self.numbers.shown()
    }
}
