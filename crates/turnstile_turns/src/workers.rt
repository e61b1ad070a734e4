//! Workers on one counter, each with a seat of its own.
ghost use Rattle.std.specs.Prelude.{slice_index_or, vec_len, vec_capacity, Option, ◌≡◌, ◌≤◌, ◌<◌, ℕ, All, IfOk, MatchBool, length};
ghost use Rattle.samoa_turnstile.specs.Seats.{fixed_of};
ghost use Rattle.turnstile_turns.specs.Workers.{IsReady, HasWorked, HasReached, HasSeenMore, IsMember};

use crate::counter::Counter;
use samoa_model::NoMemory;
use samoa_turnstile::{Seat, Turnstile};
use std::alloc::Global;
use std::sync::Wait;
use std::thread;
use std::thread::Threads;

/// The most workers at a time.
pub const MOST_WORKERS: u32 = 64;

/// One turn. Whether the goal is reached; where it isn't, the seat has seen more turns than before.
fn turn<R: Wait>(rt: &R, turnstile: &Turnstile<Counter>, seat: &mut Seat<Counter>) -> bool
    requires ready { IsReady turnstile.now seat.old }
    ensures worked { HasWorked seat.old seat.new }
    ensures reached { MatchBool result (HasReached seat.new) (HasSeenMore seat.old seat.new) }
{
    let mut counter = turnstile.take(seat, rt);
    let is_reached = counter.count_one();
    turnstile.put(seat, counter);
    is_reached
}

/// One worker's turns, until the goal is reached.
fn work<R: Wait>(rt: &R, turnstile: &Turnstile<Counter>, seat: &mut Seat<Counter>)
    requires ready { IsReady turnstile.now seat.old }
    ensures worked { HasWorked seat.old seat.new }
    ensures reached { HasReached seat.new }
{
    for _ in rt.forever() {
        if turn(rt, turnstile, seat) {
            return;
        }
    }
    unreachable!()
}

/// A seat for each worker.
fn deal(
    turnstile: &Turnstile<Counter>,
    first: Seat<Counter>,
    seats: &mut Vec<Seat<Counter>>,
    workers: u32,
)
    requires first { IsMember turnstile.now workers workers (fixed_of first) first }
    requires room { (vec_len seats.old ≡ 0) × (workers ≤ vec_capacity seats.old) × (0 < workers) }
    ensures count { vec_len seats.new ≡ workers }
    ensures members { All (IsMember turnstile.now workers 1 (fixed_of first)) seats.new.items }
{
    let mut first = first;
    for made in 1..workers {
        prove!(made <= workers);
        let seat = turnstile.split(&mut first);
        seats.push_reserved(seat);
    }
    seats.push_reserved(first);
}

/// Each worker in a thread of its own.
fn work_all<R: Threads + Wait + Sync>(
    rt: &R,
    turnstile: &Turnstile<Counter>,
    seats: &mut [Seat<Counter>],
)
    requires some { 0 < length seats.old }
    requires ready { All (IsReady turnstile.now) seats.old }
    ensures { (i : ℕ) (d : _) → i < length seats.old
        → HasWorked (slice_index_or seats.old i d) (slice_index_or seats.new i d)
        × HasReached (slice_index_or seats.new i d) }
{
    let threads = seats.len();
    thread::for_each_mut(
        rt,
        seats,
        threads,
        &|_, seat: &mut Seat<Counter>|
            requires { IsReady turnstile.now seat.old }
            ensures { HasWorked seat.old seat.new × HasReached seat.new }
        { work(rt, turnstile, seat) },
    );
}

/// All seats joined into one.
fn gather(turnstile: &Turnstile<Counter>, seats: Vec<Seat<Counter>>) -> Seat<Counter>
    requires some { 0 < vec_len seats }
    requires ready { All (IsReady turnstile.now) seats.items }
    ensures { (workers : ℕ) (goal : Option ℕ)
        → All (λ s. IsMember turnstile.now workers 1 goal s × HasReached s) seats.items
        → IsMember turnstile.now workers (vec_len seats) goal result × HasReached result }
{
    let mut seats = seats;
    let mut last = seats.pop().unwrap();
    while let Some(seat) = seats.pop() {
        turnstile.join(&mut last, seat);
    }
    last
}

/// The seat of all parts, after each worker's turns.
fn run_all<R: Threads + Wait + Sync>(
    rt: &R,
    turnstile: &Turnstile<Counter>,
    first: Seat<Counter>,
    seats: Vec<Seat<Counter>>,
    workers: u32,
) -> Seat<Counter>
    requires first { IsMember turnstile.now workers workers (fixed_of first) first }
    requires room { (vec_len seats ≡ 0) × (workers ≤ vec_capacity seats) × (0 < workers) }
    ensures { IsMember turnstile.now workers workers (fixed_of first) result × HasReached result }
{
    let mut seats = seats;
    deal(turnstile, first, &mut seats, workers);
    work_all(rt, turnstile, seats.as_mut_slice());
    gather(turnstile, seats)
}

/// So many workers take turns at one counter, until it is at its goal. The count afterwards, or want of memory.
pub fn count_turns<R: Threads + Wait + Sync>(
    rt: &R,
    alloc: Global,
    workers: u32,
    goal: u32,
) -> Result<u32, NoMemory>
    requires workers { (1 ≤ workers) × (workers ≤ MOST_WORKERS) }
    ensures { IfOk result (λ count. count ≡ goal) }
{
    let seats = Vec::with_capacity(alloc, workers as usize)?;
    let (turnstile, first) = match Turnstile::new(alloc, Counter::new(goal), workers) {
        Ok(made) => made,
        Err((_counter, NoMemory)) => return Err(NoMemory),
    };
    let last = run_all(rt, &turnstile, first, seats, workers);
    let counter = turnstile.close(last);
    Ok(counter.count)
}
