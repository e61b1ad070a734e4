//! Batches on several threads.
ghost use Rattle.std.specs.Prelude.{◌≡◌, ℕ, ◌<◌, ◌≤◌, ◌↔◌, ◌+◌, ◌-◌, All, List, Option, length, slice_index_or, vec_capacity, vec_len};
ghost use Rattle.samoa_invariant.specs.State as model;
ghost use Rattle.samoa_invariant.specs.Runs.{play, state};
ghost use Rattle.samoa_control.specs.Later.{IsLater};
ghost use Rattle.samoa_model.specs.declared.record.Step.{Step};
ghost use Rattle.samoa_turnstile.specs.Seats.{IsIdle, IsSeatOf, fixed_of, parts_of, seats_of, seen_by};
ghost use Rattle.samoa_kernel.specs.declared.basis.Basis.{Basis};
ghost use Rattle.samoa_kernel.specs.Boards.{IsInHand};
ghost use Rattle.samoa_workers.specs.Seats.{HasWorked, IsReady};
ghost use Rattle.samoa_workers.specs.Members.{GoesOn, IsMember};

use crate::batch::Batch;
use crate::gate::Gate;
use samoa_core::{Core, Turn};
use samoa_kernel::{Board, Entered, Seat};
use samoa_micro::Micro;
use std::alloc::Global;
use std::marker::Send;
use std::sync::Wait;
use std::thread;
use std::thread::Threads;

/// Runs what was admitted to its end, on so many threads. Done comes exactly where all have ended then. Memory comes only
/// where memory was wanting, for the start of the workers or in a handler step. In either case nothing is out. The gate is
/// called around each handler step. It may wait.
pub fn run_batch<B: Micro + Send, G: Gate + Sync, R: Threads + Wait + Sync>(
    rt: &R,
    alloc: Global,
    core: Core<B>,
    workers: u32,
    gate: &G,
) -> (Core<B>, Batch)
    requires some { 1 ≤ workers }
    requires few { workers ≤ 64 }
    requires settled { model.IsSettled (play core) (state core) }
    requires home { model.NothingOut (state core) }
    ensures done { (result.1 ≡ Batch.Done) ↔ model.AllEnded (state result.0) }
    ensures settled { model.IsSettled (play result.0) (state result.0) }
    ensures home { model.NothingOut (state result.0) }
    ensures later { IsLater core result.0 }
{
    let core = with_crew(rt, alloc, core, workers, gate);
    let batch = ended(&core);
    (core, batch)
}

/// How a batch came to its end.
fn ended<B: Micro>(core: &Core<B>) -> Batch
    ensures { (result ≡ Batch.Done) ↔ model.AllEnded (state core.now) }
{
    if core.all_ended() {
        Batch::Done
    } else {
        Batch::Memory
    }
}

/// The core after the batch, or as it was where memory was wanting for the start.
fn with_crew<B: Micro + Send, G: Gate + Sync, R: Threads + Wait + Sync>(
    rt: &R,
    alloc: Global,
    core: Core<B>,
    workers: u32,
    gate: &G,
) -> Core<B>
    requires some { 1 ≤ workers }
    requires few { workers ≤ 64 }
    requires settled { model.IsSettled (play core) (state core) }
    requires home { model.NothingOut (state core) }
    ensures settled { model.IsSettled (play result) (state result) }
    ensures home { model.NothingOut (state result) }
    ensures later { IsLater core result }
{
    let _before = core.admitted();
    let Ok(seats) = Vec::with_capacity(alloc, workers as usize) else {
        return core;
    };
    match Board::new(alloc, core, workers) {
        Ok((board, first)) => by_crew(rt, alloc, board, first, seats, workers, gate),
        Err((core, _)) => core,
    }
}

/// The core of a board, after each worker has done its share.
fn by_crew<B: Micro + Send, G: Gate + Sync, R: Threads + Wait + Sync>(
    rt: &R,
    alloc: Global,
    board: Board<B>,
    first: Seat<B>,
    seats: Vec<Seat<B>>,
    workers: u32,
    gate: &G,
) -> Core<B>
    requires some { 1 ≤ workers }
    requires room { (vec_len seats ≡ 0) × (workers ≤ vec_capacity seats) }
    requires ready { IsReady board first }
    requires parts { (parts_of first ≡ workers) × (seats_of first ≡ workers) }
    ensures settled { model.IsSettled (play result) (state result) }
    ensures home { model.NothingOut (state result) }
    ensures goes_on { GoesOn first result }
{
    let last = crew(rt, alloc, &board, first, seats, workers, gate);
    board.close(last)
}

/// The seat with all parts, after each worker has done its share.
fn crew<B: Micro + Send, G: Gate + Sync, R: Threads + Wait + Sync>(
    rt: &R,
    alloc: Global,
    board: &Board<B>,
    first: Seat<B>,
    seats: Vec<Seat<B>>,
    workers: u32,
    gate: &G,
) -> Seat<B>
    requires some { 1 ≤ workers }
    requires room { (vec_len seats ≡ 0) × (workers ≤ vec_capacity seats) }
    requires first { IsMember board.now (fixed_of first) (seen_by first) workers workers first }
    ensures { IsMember board.now (fixed_of first) (seen_by first) workers workers result }
{
    let mut seats = seats;
    deal(board, first, &mut seats, workers);
    work_all(rt, alloc, board, seats.as_mut_slice(), workers, gate);
    gather(board, seats)
}

/// A seat for each worker.
fn deal<B: Micro + Send>(board: &Board<B>, first: Seat<B>, seats: &mut Vec<Seat<B>>, workers: u32)
    requires some { 1 ≤ workers }
    requires room { (vec_len seats.old ≡ 0) × (workers ≤ vec_capacity seats.old) }
    requires first { IsMember board.now (fixed_of first) (seen_by first) workers workers first }
    ensures length { vec_len seats.new ≡ workers }
    ensures members { All (IsMember board.now (fixed_of first) (seen_by first) workers 1) seats.new.items }
{
    let mut first = first;
    for made in 1..workers {
        prove!(made <= workers);
        let seat = board.split(&mut first);
        seats.push_reserved(seat);
    }
    seats.push_reserved(first);
}

/// Each seat's worker takes handler steps until none may begin any more.
fn work_all<B: Micro + Send, G: Gate + Sync, R: Threads + Wait + Sync>(
    rt: &R,
    alloc: Global,
    board: &Board<B>,
    seats: &mut [Seat<B>],
    workers: u32,
    gate: &G,
)
    requires some { 1 ≤ workers }
    requires ready { All (IsReady board.now) seats.old }
    ensures { (i : ℕ) (d : _) → i < length seats.old → HasWorked (slice_index_or seats.old i d) (slice_index_or seats.new i d) }
{
    thread::for_each_mut(
        rt,
        seats,
        workers as usize,
        &|_, seat: &mut Seat<B>|
            requires { IsReady board.now seat.old }
            ensures { HasWorked seat.old seat.new }
        { work(rt, alloc, board, seat, gate) },
    );
}

/// One worker: takes handler steps until none may begin any more.
fn work<B: Micro + Send, G: Gate, R: Wait>(
    rt: &R,
    alloc: Global,
    board: &Board<B>,
    seat: &mut Seat<B>,
    gate: &G,
)
    requires { IsReady board.now seat.old }
    ensures { HasWorked seat.old seat.new }
{
    for _ in rt.forever() {
        let entered = board.enter(seat, rt);
        match entered {
            Entered::Work(turn) => make(rt, alloc, board, seat, gate, turn),
            Entered::Busy { away: _ } => thread::yield_now(),
            Entered::AllEnded => return,
            Entered::Stopped => return,
        }
    }
    unreachable!()
}

/// Makes the handler step in the seat's hand and gives it back, or takes it back where it finds no memory.
fn make<B: Micro + Send, G: Gate, R: Wait>(
    rt: &R,
    alloc: Global,
    board: &Board<B>,
    seat: &mut Seat<B>,
    gate: &G,
    turn: Turn<B>,
)
    requires own { IsSeatOf board.now.turnstile seat.old }
    requires idle { IsIdle seat.old }
    requires hand { IsInHand seat.old turn }
    ensures { HasWorked seat.old seat.new }
{
    let comp = turn.comp();
    let micro = turn.micro();
    gate.before(comp, micro);
    let ran = turn.run(alloc);
    gate.after(comp, micro);
    match ran {
        Ok(ran) => board.leave(seat, ran, rt),
        Err((turn, _)) => board.abandon(seat, turn, rt),
    }
}

/// One seat of all.
fn gather<B: Micro + Send>(board: &Board<B>, seats: Vec<Seat<B>>) -> Seat<B>
    requires some { 0 < vec_len seats }
    requires ready { All (IsReady board.now) seats.items }
    ensures { (kept : Option Basis) (start : List Step) (all : ℕ)
        → All (IsMember board.now kept start all 1) seats.items → IsMember board.now kept start all (vec_len seats) result }
{
    let mut seats = seats;
    let mut last = seats.pop().unwrap();
    while let Some(seat) = seats.pop() {
        board.join(&mut last, seat);
    }
    last
}
