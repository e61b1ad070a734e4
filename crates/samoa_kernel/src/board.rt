//! The board, and the calls of a seat.
ghost use Rattle.std.specs.Prelude.{◌≡◌, ◌+◌, ◌-◌, ◌<◌, ◌≤◌, ℕ, Some, None, IfOk, IfErr};
ghost use mathlib.Core.List.{IsPrefix};
ghost use Rattle.samoa_invariant.specs.State as model;
ghost use Rattle.samoa_invariant.specs.Runs.{IsDue, IsRun, Trace, play, state, with_step};
ghost use Rattle.samoa_invariant.specs.Settling.{Settles};
ghost use Rattle.samoa_model.specs.declared.record.Step.{Step};
ghost use Rattle.samoa_control.specs.Turns.{Going, IsAway};
ghost use Rattle.samoa_kernel.specs.Boards.{IsAtPoint, begun};
ghost use Rattle.samoa_kernel.specs.Answers.{IsAnswer, after};
ghost use Rattle.samoa_turnstile.specs.Turning.{longer};

use crate::kernel::Kernel;
use samoa_core::{Core, Ran, Turn};
use samoa_micro::Micro;
use samoa_model::NoMemory;
use samoa_turnstile::Turnstile;
use std::alloc::Global;
use std::marker::Send;
use std::sync::Wait;

/// What one thread knows of a board, and its right to make steps of the core. It has no bytes.
///
/// A seat belongs to the board that it came from, by `new` or by `split`.
pub type Seat<B> = samoa_turnstile::Seat<Kernel<B>>;

/// A core that any number of threads share, each with a seat of its own.
///
/// No call changes the script, the cells, what was admitted, or the clears. Each call makes its steps at one point of the
/// one journal: what its seat had seen stands before them, and afterwards the seat has seen them. No call takes memory
/// but `new`.
#[derive(Drop)]
pub struct Board<B: Micro> {
    turnstile: Turnstile<Kernel<B>>,
}

/// What `enter` answers. It can't be dropped, so that a handler step that has begun comes back.
pub enum Entered<B: Micro> {
    /// A handler step that has begun, and is the seat's to give back.
    Work(Turn<B>),
    /// None may begin, while so many are out.
    Busy { away: u32 },
    /// All that was admitted has ended.
    AllEnded,
    /// Not all have ended, and one was abandoned, so that none begins any more.
    Stopped,
}

impl<B: Micro + Send> Board<B> {
    ghost use Rattle.samoa_turnstile.specs.Seats.{IsIdle, IsSameSeat, IsSeatOf, fixed_of, hand_of, misses_of, parts_of, seats_of, seen_by, view};
    ghost use Rattle.samoa_kernel.specs.Boards.{Finds, HasAbandoned, HasLeft, IsInHand, IsSameShare, KeepsHand, Shows};
    ghost use Rattle.samoa_kernel.specs.Answers.{HasEntered, IfWork};

    /// A board with this core, and the seat that has all parts of it. Where memory is wanting the core comes back.
    pub fn new(
        alloc: Global,
        core: Core<B>,
        seats: u32,
    ) -> Result<(Board<B>, Seat<B>), (Core<B>, NoMemory)>
        requires some { 0 < seats }
        requires settled { model.IsSettled (play core) (state core) }
        requires home { model.NothingOut (state core) }
        ensures own { IfOk result (λ made. IsSeatOf made.0.turnstile made.1) }
        ensures idle { IfOk result (λ made. IsIdle made.1) }
        ensures parts { IfOk result (λ made. (parts_of made.1 ≡ seats) × (seats_of made.1 ≡ seats)) }
        ensures shows { IfOk result (λ made. Shows made.1 core None) }
        ensures err { IfErr result (λ back. back.0 ≡ core) }
    {
        let _admitted = core.admitted();
        match Kernel::boxed(alloc, core) {
            Err(back) => Err(back),
            Ok(kernel) => match Turnstile::new(alloc, kernel, seats) {
                Ok((turnstile, seat)) => Ok((Board { turnstile }, seat)),
                Err((kernel, fault)) => Err((kernel.into_core(), fault)),
            },
        }
    }

    /// Begins the handler step of the least computation for which one is due. It waits until no other call is at the
    /// core.
    pub fn enter<R: Wait>(&self, seat: &mut Seat<B>, rt: &R) -> Entered<B>
        requires own { IsSeatOf self.now.turnstile seat.old }
        requires idle { IsIdle seat.old }
        requires hand { hand_of seat.old ≡ None }
        ensures own { IsSameSeat seat.old seat.new }
        ensures idle { IsIdle seat.new }
        ensures share { IsSameShare seat.old seat.new }
        ensures since { IsPrefix (seen_by seat.old) (seen_by seat.new) }
        ensures step { HasEntered seat.old result seat.new }
        ensures turn { IfWork result (IsInHand seat.new) }
    {
        let core = self.turnstile.take(seat, rt).into_box();
        let (kernel, entered) = answered(core);
        self.turnstile.put(seat, kernel);
        entered
    }

    /// Gives back a handler step that was made, and makes the releases and the ends that are due then. It waits until no
    /// other call is at the core.
    pub fn leave<R: Wait>(&self, seat: &mut Seat<B>, ran: Ran<B>, rt: &R)
        requires own { IsSeatOf self.now.turnstile seat.old }
        requires idle { IsIdle seat.old }
        requires hand { IsInHand seat.old ran }
        ensures own { IsSameSeat seat.old seat.new }
        ensures idle { IsIdle seat.new }
        ensures share { IsSameShare seat.old seat.new }
        ensures since { IsPrefix (seen_by seat.old) (seen_by seat.new) }
        ensures hand { hand_of seat.new ≡ None }
        ensures step { HasLeft seat.old ran seat.new }
    {
        let core = self.turnstile.take(seat, rt).into_box();
        self.turnstile.put(seat, left(core, ran));
    }

    /// Takes back a handler step that wasn't made. It waits until no other call is at the core.
    pub fn abandon<R: Wait>(&self, seat: &mut Seat<B>, turn: Turn<B>, rt: &R)
        requires own { IsSeatOf self.now.turnstile seat.old }
        requires idle { IsIdle seat.old }
        requires hand { IsInHand seat.old turn }
        ensures own { IsSameSeat seat.old seat.new }
        ensures idle { IsIdle seat.new }
        ensures share { IsSameShare seat.old seat.new }
        ensures since { IsPrefix (seen_by seat.old) (seen_by seat.new) }
        ensures hand { hand_of seat.new ≡ None }
        ensures step { HasAbandoned seat.old turn seat.new }
    {
        let core = self.turnstile.take(seat, rt).into_box();
        self.turnstile.put(seat, taken_back(core, turn));
    }

    /// A new seat with one of this seat's parts. It has seen what this one had, and its hand is empty.
    pub fn split(&self, seat: &mut Seat<B>) -> Seat<B>
        requires own { IsSeatOf self.now.turnstile seat.old }
        requires idle { IsIdle seat.old }
        requires parts { 2 ≤ parts_of seat.old }
        ensures own { IsSameSeat seat.old seat.new × IsSeatOf self.now.turnstile result }
        ensures idle { IsIdle seat.new × IsIdle result }
        ensures kept { view seat.new ≡ record (view seat.old) { parts = parts_of seat.old - 1 } }
        ensures given { view result ≡ record (view seat.old) { parts = 1; hand = None; missed = 0 } }
        ensures in_hand { KeepsHand seat.old seat.new }
    {
        self.turnstile.split(seat)
    }

    /// The other seat's parts become this one's. Afterwards this seat has seen the longer of both journals, of which both
    /// are prefixes. It keeps its own hand; the other's is empty.
    pub fn join(&self, seat: &mut Seat<B>, other: Seat<B>)
        requires own { IsSeatOf self.now.turnstile seat.old × IsSeatOf self.now.turnstile other }
        requires idle { IsIdle seat.old × IsIdle other }
        requires hand { hand_of other ≡ None }
        ensures own { IsSameSeat seat.old seat.new }
        ensures idle { IsIdle seat.new }
        ensures parts { parts_of seat.new ≡ parts_of seat.old + parts_of other }
        ensures seats { seats_of seat.new ≡ seats_of seat.old }
        ensures fixed { fixed_of seat.new ≡ fixed_of seat.old }
        ensures seen { seen_by seat.new ≡ longer (seen_by seat.old) (seen_by other) }
        ensures seen_before { IsPrefix (seen_by seat.old) (seen_by seat.new) }
        ensures seen_by_other { IsPrefix (seen_by other) (seen_by seat.new) }
        ensures hand { hand_of seat.new ≡ hand_of seat.old }
        ensures in_hand { KeepsHand seat.old seat.new }
    {
        self.turnstile.join(seat, other);
    }

    /// The core, of a board whose other seats were all joined into this one. Its journal begins with all that the seat had
    /// seen. Where the seat's hand is empty, nothing is out.
    pub fn close(self, seat: Seat<B>) -> Core<B>
        requires own { IsSeatOf self.turnstile seat }
        requires idle { IsIdle seat }
        requires all { parts_of seat ≡ seats_of seat }
        ensures found { Finds seat result }
        ensures settled { model.IsSettled (play result) (state result) }
        ensures home { hand_of seat ≡ None → model.NothingOut (state result) }
    {
        let Board { turnstile } = self;
        let core = turnstile.close(seat).into_core();
        let _admitted = core.admitted();
        core
    }
}

/// The steps of `enter` in a core.
fn answered<B: Micro>(core: Box<Core<B>>) -> (Kernel<B>, Entered<B>)
    requires settled { model.IsSettled (play core.value) (state core.value) }
    ensures right { IsAnswer core.value result.1 }
    ensures after { result.0 ≡ after core.value result.1 }
    ensures run { IsRun core.value × IsRun result.0 }
{
    let mut core = core;
    let entered = answer(&mut core);
    (Kernel::new(core), entered)
}

fn answer<B: Micro>(core: &mut Core<B>) -> Entered<B>
    requires settled { model.IsSettled (play core.old) (state core.old) }
    ensures right { IsAnswer core.old result }
    ensures after { core.new ≡ after core.old result }
    ensures run { IsRun core.old × IsRun core.new }
    ensures settled { model.IsSettled (play core.new) (state core.new) }
{
    let _found = core.admitted();
    if core.all_ended() {
        return Entered::AllEnded;
    }
    if core.stopped() {
        return Entered::Stopped;
    }
    match core.pick() {
        Some(comp) => Entered::Work(begin(core, comp)),
        None => Entered::Busy { away: core.away() },
    }
}

fn begin<B: Micro>(core: &mut Core<B>, comp: u32) -> Turn<B>
    requires due { (micro : ℕ) × IsDue core.old (Step.Enter comp micro) }
    requires settled { model.IsSettled (play core.old) (state core.old) }
    ensures comp { result.comp ≡ comp }
    ensures away { IsAway (begun core.old result) result }
    ensures serial { IsAtPoint core.old result }
    ensures step { core.new ≡ begun core.old result }
    ensures due { IsDue core.old (Step.Enter comp result.micro) }
    ensures run { IsRun core.new }
    ensures settled { model.IsSettled (play core.new) (state core.new) }
{
    let _found = core.admitted();
    let turn = core.enter(comp);
    let _begun = core.admitted();
    turn
}

/// The steps of `leave` in a core.
fn left<B: Micro>(core: Box<Core<B>>, ran: Ran<B>) -> Kernel<B>
    requires away { IsAway core.value ran }
    ensures settles { Settles (with_step core.value (Step.Leave ran.comp)) result }
    ensures run { IsRun result }
{
    let mut core = core;
    core.leave(ran);
    core.settle();
    let _left = core.admitted();
    Kernel::new(core)
}

/// The steps of `abandon` in a core.
fn taken_back<B: Micro>(core: Box<Core<B>>, turn: Turn<B>) -> Kernel<B>
    requires away { IsAway core.value turn }
    requires settled { model.IsSettled (play core.value) (state core.value) }
    ensures step { result ≡ with_step core.value (Step.Abandon turn.comp) }
    ensures run { IsRun result }
{
    let mut core = core;
    take_back(&mut core, turn);
    Kernel::new(core)
}

fn take_back<B: Micro>(core: &mut Core<B>, turn: Turn<B>)
    requires away { IsAway core.old turn }
    requires settled { model.IsSettled (play core.old) (state core.old) }
    ensures step { core.new ≡ with_step core.old (Step.Abandon turn.comp) }
    ensures run { IsRun core.new }
    ensures settled { model.IsSettled (play core.new) (state core.new) }
{
    let _found = core.admitted();
    core.abandon(turn);
    let _taken_back = core.admitted();
}
