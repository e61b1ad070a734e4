//! A board with one small computation, by each public call once.
ghost use Rattle.std.specs.Prelude.{◌≡◌, ◌≤◌, IfOk, None, OnOk, length};
ghost use Rattle.samoa_model.specs.Cells.{need};
ghost use Rattle.samoa_model.specs.Range.{IsInRange};
ghost use Rattle.samoa_invariant.specs.State as model;
ghost use Rattle.samoa_invariant.specs.Runs.{play, state};
ghost use Rattle.samoa_control.specs.Later.{IsStill};
ghost use Rattle.samoa_turnstile.specs.Seats.{IsIdle, IsSameSeat, IsSeatOf, hand_of};
ghost use Rattle.samoa_kernel.specs.Boards.{IsInHand, IsSameShare};

use crate::{Board, Entered, Seat};
use samoa_core::{Core, Turn};
use samoa_micro::Stock;
use samoa_model::{
    Cause, CodeDef, Decl, DeclDef, EventDef, EventId, Ext, HandlerId, Kind, Listed, MicroDef,
    MicroId, Name, NoMemory, NodeId, Script, Words,
};
use samoa_prog::Prog;
use std::alloc::Global;
use std::process::Abort;
use std::sync::Wait;
use std::test::Fail;

const CELLS: u32 = 100;

const ONLY: HandlerId = HandlerId {
    micro: MicroId(0),
    index: 0,
};

/// One node, one microprotocol with one handler, which is done at once, and one event that it is bound to.
fn small_script(alloc: Global) -> Result<Script, NoMemory>
    ensures range { IfOk result IsInRange }
    ensures nodes { IfOk result (λ script. script.nodes ≡ 1) }
    ensures events { IfOk result (λ script. length script.events ≡ 1) }
    ensures cells { IfOk result (λ script. need script ≤ CELLS) }
{
    let code = CodeDef {
        name: Name::new("h"),
        code: Listed::from_vec(Vec::new(alloc)),
    };
    let micro = MicroDef {
        name: Name::new("m"),
        kind: Kind::Prog,
        nums: Words::new(),
        ports: Listed::from_vec(Vec::new(alloc)),
        changes: Listed::from_vec(Vec::new(alloc)),
        handlers: Listed::from_vec(Vec::from_array(alloc, [code])?),
    };
    let decl = Decl::Set {
        micros: Listed::from_vec(Vec::from_array(alloc, [0])?),
    };
    let decl = DeclDef {
        name: Name::new("d"),
        budget: 2,
        decl,
    };
    let event = EventDef {
        name: Name::new("e"),
        decl: 0,
        handlers: Listed::from_vec(Vec::from_array(alloc, [ONLY])?),
    };
    Ok(Script {
        nodes: 1,
        ticks: 1,
        micros: Listed::from_vec(Vec::from_array(alloc, [micro])?),
        decls: Listed::from_vec(Vec::from_array(alloc, [decl])?),
        events: Listed::from_vec(Vec::from_array(alloc, [event])?),
        changes: Listed::from_vec(Vec::new(alloc)),
        does: Listed::from_vec(Vec::new(alloc)),
        losses: Listed::from_vec(Vec::new(alloc)),
        crashes: Listed::from_vec(Vec::new(alloc)),
    })
}

/// A core with one computation, of one handler step.
fn small_core(rt: &impl Abort, alloc: Global) -> Result<Core<Prog>, Fail>
    ensures settled { IfOk result (λ core. model.IsSettled (play core) (state core)) }
    ensures home { IfOk result (λ core. model.NothingOut (state core)) }
{
    let script = small_script(alloc)?;
    let mut boxes = Vec::new(alloc);
    boxes.push(Prog::new(alloc))?;
    let stock = Stock::new(boxes);
    if !stock.covers(&script) {
        panic!(rt; "the stock has one");
    }
    let mut core = Core::new(alloc, &script, stock, CELLS)?;
    admit(alloc, &mut core)?;
    core.settle();
    Ok(core)
}

/// Admits the one event, where its cells are free.
fn admit(alloc: Global, core: &mut Core<Prog>) -> Result<(), NoMemory>
    requires nodes { core.old.script.nodes ≡ 1 }
    requires events { length core.old.script.events ≡ 1 }
    ensures still { OnOk result (IsStill (state core.old) core.new) }
{
    let ext = Ext {
        node: NodeId(0),
        tick: 1,
        cause: Cause::Event(EventId(0)),
        args: Words::new(),
    };
    if !core.fits(&ext) || core.admitted() >= 100_000 {
        return Err(NoMemory);
    }
    match core.admit(alloc, ext) {
        Ok(_) => Ok(()),
        Err((_ext, fault)) => Err(fault),
    }
}

/// Gives a handler step back: it is made, or taken back where it finds no memory.
fn give_back<R: Wait>(
    rt: &R,
    alloc: Global,
    board: &Board<Prog>,
    seat: &mut Seat<Prog>,
    turn: Turn<Prog>,
)
    requires own { IsSeatOf board.now.turnstile seat.old }
    requires idle { IsIdle seat.old }
    requires hand { IsInHand seat.old turn }
    ensures own { IsSameSeat seat.old seat.new }
    ensures idle { IsIdle seat.new }
    ensures share { IsSameShare seat.old seat.new }
    ensures hand { hand_of seat.new ≡ None }
{
    match turn.run(alloc) {
        Ok(ran) => board.leave(seat, ran, rt),
        Err((turn, _)) => board.abandon(seat, turn, rt),
    }
}

/// What `enter` answers, in one letter. A step that it begins is taken back.
fn answer_of<R: Wait>(rt: &R, board: &Board<Prog>, seat: &mut Seat<Prog>) -> char
    requires own { IsSeatOf board.now.turnstile seat.old }
    requires idle { IsIdle seat.old }
    requires hand { hand_of seat.old ≡ None }
    ensures own { IsSameSeat seat.old seat.new }
    ensures idle { IsIdle seat.new }
    ensures share { IsSameShare seat.old seat.new }
    ensures hand { hand_of seat.new ≡ None }
{
    match board.enter(seat, rt) {
        Entered::Work(turn) => {
            board.abandon(seat, turn, rt);
            'w'
        }
        Entered::Busy { away: _ } => 'b',
        Entered::AllEnded => 'e',
        Entered::Stopped => 's',
    }
}

/// Makes the step that may begin, and answers whether there was one.
fn makes_step<R: Wait>(rt: &R, alloc: Global, board: &Board<Prog>, seat: &mut Seat<Prog>) -> bool
    requires own { IsSeatOf board.now.turnstile seat.old }
    requires idle { IsIdle seat.old }
    requires hand { hand_of seat.old ≡ None }
    ensures own { IsSameSeat seat.old seat.new }
    ensures idle { IsIdle seat.new }
    ensures share { IsSameShare seat.old seat.new }
    ensures hand { hand_of seat.new ≡ None }
{
    match board.enter(seat, rt) {
        Entered::Work(turn) => {
            give_back(rt, alloc, board, seat, turn);
            true
        }
        Entered::Busy { away: _ } => false,
        Entered::AllEnded => false,
        Entered::Stopped => false,
    }
}

#[test]
fn a_step_is_made(rt: HostRuntime) -> Result<(), Fail> {
    let core = small_core(&rt, rt.alloc())?;
    let Ok((board, mut seat)) = Board::new(rt.alloc(), core, 1) else {
        panic!(rt; "there is ample memory")
    };
    assert!(rt; makes_step(&rt, rt.alloc(), &board, &mut seat));
    assert_eq!(rt; answer_of(&rt, &board, &mut seat), 'e');
    let core = board.close(seat);
    assert!(rt; core.all_ended());
    assert_eq!(rt; core.journal().len(), 5);
    Ok(())
}

#[test]
fn a_step_is_taken_back(rt: HostRuntime) -> Result<(), Fail> {
    let core = small_core(&rt, rt.alloc())?;
    let Ok((board, mut seat)) = Board::new(rt.alloc(), core, 1) else {
        panic!(rt; "there is ample memory")
    };
    assert_eq!(rt; answer_of(&rt, &board, &mut seat), 'w');
    assert_eq!(rt; answer_of(&rt, &board, &mut seat), 's');
    let core = board.close(seat);
    assert!(rt; core.stopped());
    assert_eq!(rt; core.away(), 0);
    assert_eq!(rt; core.journal().len(), 3);
    Ok(())
}

/// What `enter` answers to another seat, in one letter, while the step that may begin is out with this one.
fn answer_meanwhile<R: Wait>(
    rt: &R,
    alloc: Global,
    board: &Board<Prog>,
    seat: &mut Seat<Prog>,
    other: &mut Seat<Prog>,
) -> char
    requires own { IsSeatOf board.now.turnstile seat.old × IsSeatOf board.now.turnstile other.old }
    requires idle { IsIdle seat.old × IsIdle other.old }
    requires hand { (hand_of seat.old ≡ None) × (hand_of other.old ≡ None) }
    ensures own { IsSameSeat seat.old seat.new × IsSameSeat other.old other.new }
    ensures idle { IsIdle seat.new × IsIdle other.new }
    ensures share { IsSameShare seat.old seat.new × IsSameShare other.old other.new }
    ensures hand { (hand_of seat.new ≡ None) × (hand_of other.new ≡ None) }
{
    match board.enter(seat, rt) {
        Entered::Work(turn) => {
            let answer = answer_of(rt, board, other);
            give_back(rt, alloc, board, seat, turn);
            answer
        }
        Entered::Busy { away: _ } => '-',
        Entered::AllEnded => '-',
        Entered::Stopped => '-',
    }
}

#[test]
fn a_second_seat_finds_it_out(rt: HostRuntime) -> Result<(), Fail> {
    let core = small_core(&rt, rt.alloc())?;
    let Ok((board, mut first)) = Board::new(rt.alloc(), core, 2) else {
        panic!(rt; "there is ample memory")
    };
    let mut second = board.split(&mut first);
    let answer = answer_meanwhile(&rt, rt.alloc(), &board, &mut first, &mut second);
    assert_eq!(rt; answer, 'b');
    assert_eq!(rt; answer_of(&rt, &board, &mut second), 'e');
    board.join(&mut first, second);
    let core = board.close(first);
    assert!(rt; core.all_ended());
    Ok(())
}
