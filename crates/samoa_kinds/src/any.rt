//! A microprotocol of any kind.
ghost use Rattle.std.specs.Prelude.{◌≡◌, true};

use samoa_abcast::Abcast;
use samoa_cons::Cons;
use samoa_fd::Fd;
use samoa_link::Link;
use samoa_micro::Micro;
use samoa_model::{Kind, Moment, NoMemory, Outcome, Setup, Words};
use samoa_prog::Prog;
use samoa_rbcast::Rbcast;
use samoa_repl::Repl;
use samoa_seqcast::Seqcast;
use samoa_views::Views;
use std::alloc::Global;

/// A microprotocol of any kind.
#[derive(Drop)]
pub enum AnyKind {
    /// Handlers of the script.
    Prog(Prog),
    /// Links between nodes.
    Link(Link),
    /// The failure detector.
    Fd(Fd),
    /// Reliable broadcast.
    Rbcast(Rbcast),
    /// Consensus.
    Cons(Cons),
    /// Atomic broadcast by consensus.
    Abcast(Abcast),
    /// Atomic broadcast by a sequencer.
    Seqcast(Seqcast),
    /// Replacement of the broadcast below.
    Repl(Repl),
    /// Group views.
    Views(Views),
}

impl AnyKind {
    /// A microprotocol of a kind that is still to be set up. It takes no memory.
    pub fn new(alloc: Global, kind: Kind) -> AnyKind
        ensures kind { (⟦<AnyKind as Micro>⟧.seen result).kind ≡ kind }
        ensures fresh { (⟦<AnyKind as Micro>⟧.seen result).fresh ≡ true }
    {
        match kind {
            Kind::Prog => AnyKind::Prog(Prog::new(alloc)),
            Kind::Link => AnyKind::Link(Link::new(alloc)),
            Kind::Fd => AnyKind::Fd(Fd::new(alloc)),
            Kind::Rbcast => AnyKind::Rbcast(Rbcast::new(alloc)),
            Kind::Cons => AnyKind::Cons(Cons::new(alloc)),
            Kind::Abcast => AnyKind::Abcast(Abcast::new(alloc)),
            Kind::Seqcast => AnyKind::Seqcast(Seqcast::new(alloc)),
            Kind::Repl => AnyKind::Repl(Repl::new(alloc)),
            Kind::Views => AnyKind::Views(Views::new(alloc)),
        }
    }
}

impl Micro for AnyKind {
    ghost use Rattle.samoa_kinds.specs.declared.any.AnyKind.TheVariants as any;

    ghost seen = { elim [ any.Prog m ↦ ⟦<Prog as Micro>⟧.seen m | any.Link m ↦ ⟦<Link as Micro>⟧.seen m | any.Fd m ↦ ⟦<Fd as Micro>⟧.seen m | any.Rbcast m ↦ ⟦<Rbcast as Micro>⟧.seen m | any.Cons m ↦ ⟦<Cons as Micro>⟧.seen m | any.Abcast m ↦ ⟦<Abcast as Micro>⟧.seen m | any.Seqcast m ↦ ⟦<Seqcast as Micro>⟧.seen m | any.Repl m ↦ ⟦<Repl as Micro>⟧.seen m | any.Views m ↦ ⟦<Views as Micro>⟧.seen m ] };

    fn kind(&self) -> Kind {
        match self {
            AnyKind::Prog(micro) => micro.kind(),
            AnyKind::Link(micro) => micro.kind(),
            AnyKind::Fd(micro) => micro.kind(),
            AnyKind::Rbcast(micro) => micro.kind(),
            AnyKind::Cons(micro) => micro.kind(),
            AnyKind::Abcast(micro) => micro.kind(),
            AnyKind::Seqcast(micro) => micro.kind(),
            AnyKind::Repl(micro) => micro.kind(),
            AnyKind::Views(micro) => micro.kind(),
        }
    }

    fn set_up(&mut self, alloc: Global, setup: &Setup) -> Result<(), NoMemory> {
        match self {
            AnyKind::Prog(micro) => micro.set_up(alloc, setup),
            AnyKind::Link(micro) => micro.set_up(alloc, setup),
            AnyKind::Fd(micro) => micro.set_up(alloc, setup),
            AnyKind::Rbcast(micro) => micro.set_up(alloc, setup),
            AnyKind::Cons(micro) => micro.set_up(alloc, setup),
            AnyKind::Abcast(micro) => micro.set_up(alloc, setup),
            AnyKind::Seqcast(micro) => micro.set_up(alloc, setup),
            AnyKind::Repl(micro) => micro.set_up(alloc, setup),
            AnyKind::Views(micro) => micro.set_up(alloc, setup),
        }
    }

    fn step(&mut self, alloc: Global, moment: &Moment) -> Result<Outcome, NoMemory> {
        match self {
            AnyKind::Prog(micro) => micro.step(alloc, moment),
            AnyKind::Link(micro) => micro.step(alloc, moment),
            AnyKind::Fd(micro) => micro.step(alloc, moment),
            AnyKind::Rbcast(micro) => micro.step(alloc, moment),
            AnyKind::Cons(micro) => micro.step(alloc, moment),
            AnyKind::Abcast(micro) => micro.step(alloc, moment),
            AnyKind::Seqcast(micro) => micro.step(alloc, moment),
            AnyKind::Repl(micro) => micro.step(alloc, moment),
            AnyKind::Views(micro) => micro.step(alloc, moment),
        }
    }

    fn show(&self) -> Words {
        match self {
            AnyKind::Prog(micro) => micro.show(),
            AnyKind::Link(micro) => micro.show(),
            AnyKind::Fd(micro) => micro.show(),
            AnyKind::Rbcast(micro) => micro.show(),
            AnyKind::Cons(micro) => micro.show(),
            AnyKind::Abcast(micro) => micro.show(),
            AnyKind::Seqcast(micro) => micro.show(),
            AnyKind::Repl(micro) => micro.show(),
            AnyKind::Views(micro) => micro.show(),
        }
    }
}
