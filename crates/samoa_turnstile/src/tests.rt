//! A lock whose value is at home or away, and seats that cross threads.
ghost use Rattle.std.specs.Prelude.{◌≡◌, ◌++◌, ◌∷◌, [], All, OnOk, OnErr};
ghost use mathlib.Core.List.{IsPrefix};
ghost use Rattle.samoa_turnstile.specs.Seats.{IsSeatOf, IsIdle};

use crate::{Kept, Seat, Turnstile};
use std::alloc::{AllocError, Global};
use std::sync::Wait;
use std::test::Fail;
use std::thread;
use std::thread::Threads;

/// A list of marks, and the place where it is kept. No mark is open.
#[derive(Drop)]
struct Marks {
    place: u32,
    marks: Vec<u32>,
}

impl Kept for Marks {
    type Fixed = u32;

    type Item = u32;

    ghost use Rattle.samoa_turnstile.specs.Closed.{none_open, none_open_below, none_open_before};

    ghost fixed = { λ it. it.place };

    ghost items = { λ it. it.marks.items };

    ghost is_open = { none_open };

    ghost open_below = { none_open_below };

    ghost open_before = { none_open_before };
}

impl Marks {
    fn new(alloc: Global, place: u32) -> Marks
        ensures { (result.place ≡ place) × (result.marks.items ≡ []) }
    {
        Marks {
            place,
            marks: Vec::new(alloc),
        }
    }

    fn mark(&mut self, mark: u32) -> Result<(), AllocError>
        ensures place { self.new.place ≡ self.old.place }
        ensures ok { OnOk result (self.new.marks.items ≡ self.old.marks.items ++ mark ∷ []) }
        ensures err { OnErr result (self.new.marks.items ≡ self.old.marks.items) }
        ensures grown { IsPrefix self.old.marks.items self.new.marks.items }
    {
        self.marks.push(mark)?;
        Ok(())
    }
}

#[test]
fn a_second_seat_finds_the_value_away(rt: HostRuntime) -> Result<(), Fail> {
    let Ok((turnstile, mut one)) = Turnstile::new(rt.alloc(), Marks::new(rt.alloc(), 7), 2) else {
        panic!(rt; "there is ample memory")
    };
    let mut two = turnstile.split(&mut one);
    let mut marks = turnstile.take(&mut one, &rt);
    let found = turnstile.try_take(&mut two);
    assert!(rt; found.is_none());
    marks.mark(5)?;
    turnstile.put(&mut one, marks);
    let Some(marks) = turnstile.try_take(&mut two) else {
        panic!(rt; "the value is at home")
    };
    assert!(rt; marks.place == 7 && marks.marks.as_slice() == [5].as_slice());
    turnstile.put(&mut two, marks);
    turnstile.join(&mut one, two);
    let marks = turnstile.close(one);
    assert!(rt; marks.marks.as_slice() == [5].as_slice());
    Ok(())
}

/// Takes the value and puts it back as it was.
fn pass<V: Kept + Send, R: Wait>(rt: &R, turnstile: &Turnstile<V>, seat: &mut Seat<V>)
    requires { IsSeatOf turnstile.now seat.old × IsIdle seat.old }
{
    let value = turnstile.take(seat, rt);
    turnstile.put(seat, value);
}

/// The same by each seat, in as many threads.
fn pass_all<V: Kept + Send, R: Threads + Wait + Sync>(
    rt: &R,
    turnstile: &Turnstile<V>,
    seats: &mut [Seat<V>],
)
    requires { All (λ seat. IsSeatOf turnstile.now seat × IsIdle seat) seats.old }
{
    if seats.is_empty() {
        return;
    }
    let threads = seats.len();
    thread::for_each_mut(
        rt,
        seats,
        threads,
        &|_, seat: &mut Seat<V>|
            requires { IsSeatOf turnstile.now seat.old × IsIdle seat.old }
        { pass(rt, turnstile, seat) },
    );
}

#[test]
fn seats_cross_threads(rt: HostRuntime) -> Result<(), Fail> {
    let Ok((turnstile, mut one)) = Turnstile::new(rt.alloc(), Marks::new(rt.alloc(), 7), 2) else {
        panic!(rt; "there is ample memory")
    };
    let two = turnstile.split(&mut one);
    pass_all(&rt, &turnstile, &mut [one, two]);
    Ok(())
}
