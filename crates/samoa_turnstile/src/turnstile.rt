//! The lock, and the calls of a seat.
ghost use Rattle.std.specs.Prelude.{◌≡◌, ◌+◌, ◌-◌, ◌<◌, ◌≤◌, ℕ, IfOk, IfErr, IfSome, IfNone, Some, None, true, false, ◌↔◌, [], length};
ghost use mathlib.Core.List.{IsPrefix};
ghost use Rattle.samoa_turnstile.specs.Turning.{HandIsOpen, IsGrown, IsHandAfter, longer, fresh, first_view};

use crate::kept::Kept;
use crate::view::{Begin, Look, Open, Parts, Put, Take, Turning, View};
use atomic_table::Table;
use samoa_model::NoMemory;
use std::alloc::Global;
use std::sync::Wait;
use std::thread::yield_now;

/// The value is in the slot.
const FREE: u64 = 0;

/// A seat has the value.
const HELD: u64 = 1;

/// No value was put yet.
const EMPTY: u64 = 2;

/// What one thread knows of a turnstile, and its right to take the value. It has no bytes.
///
/// A seat belongs to the turnstile that it came from, by `new` or by `split`. It has one part of the turnstile or
/// more. It holds the value from a take that gave one until the `put`, and is idle at every other time.
pub type Seat<V> = atomic_table::Seat<Option<V>, View<<V as Kept>::Fixed, <V as Kept>::Item>>;

/// A lock round one value, which any number of threads share, each with a seat of its own.
///
/// No call changes the value's fixed part or the number of parts of all seats together, and only `split` and `join`
/// change the parts of a seat.
#[derive(Drop)]
pub struct Turnstile<V: Kept> {
    table: Table<Option<V>, View<V::Fixed, V::Item>, u64, Turning<V>, Global>,
    ghost sized: { (table.shared.table_id.words ≡ 1) × (table.shared.table_id.slots ≡ 1) },
}

impl<V: Kept + Send> Turnstile<V> {
    ghost use Rattle.samoa_turnstile.specs.Seats.{IsSeatOf, IsSameSeat, IsIdle, IsHolding, Holds, HasSeen};
    ghost use Rattle.samoa_turnstile.specs.Seats.{view, fixed_of, seats_of, parts_of, seen_by, hand_of, list_at_take, misses_of};

    /// A turnstile with the value at home, and the seat that has all `seats` parts of it.
    ///
    /// The seat has seen the value's list, and its hand is empty. Where memory is wanting the value comes back.
    pub fn new(
        alloc: Global,
        value: V,
        seats: u32,
    ) -> Result<(Turnstile<V>, Seat<V>), (V, NoMemory)>
        requires some { 0 < seats }
        requires settled { (k : ℕ) → V.is_open (V.items value) k ≡ false }
        ensures own { IfOk result (λ made. IsSeatOf made.0 made.1) }
        ensures idle { IfOk result (λ made. IsIdle made.1) }
        ensures parts { IfOk result (λ made. (parts_of made.1 ≡ seats) × (seats_of made.1 ≡ seats)) }
        ensures fixed { IfOk result (λ made. fixed_of made.1 ≡ Some (V.fixed value)) }
        ensures seen { IfOk result (λ made. HasSeen made.1 (V.items value)) }
        ensures hand { IfOk result (λ made. hand_of made.1 ≡ None) }
        ensures missed { IfOk result (λ made. misses_of made.1 ≡ 0) }
        ensures err { IfErr result (λ back. back.0 ≡ value) }
    {
        let Ok((table, mut seat)) = Table::vacant(alloc, &[EMPTY], 1, &(seats as u64)) else {
            return Err((value, NoMemory));
        };
        let turnstile = Turnstile { table };
        turnstile.fill(&mut seat, value);
        Ok((turnstile, seat))
    }

    /// The first put, into the slot while it is empty.
    fn fill(&self, seat: &mut Seat<V>, value: V)
        requires own { (seat.old.table_id ≡ self.now.table.shared.table_id) × (seat.old.id ≡ 0) }
        requires first { seat.old.me ≡ (fresh self.now.table.shared.key, []) }
        requires some { 0 < self.now.table.shared.key }
        requires settled { (k : ℕ) → V.is_open (V.items value) k ≡ false }
        ensures own { seat.new.table_id ≡ seat.old.table_id }
        ensures opened { seat.new.me
            ≡ (first_view self.now.table.shared.key (V.fixed value) (V.items value), []) }
    {
        let shared = &self.table.shared;
        shared.store::<Begin>(seat, 0, HELD);
        let vacant = shared.exchange(seat, 0, Some(value));
        let None = vacant else { unreachable!() };
        shared.store::<Open<V>>(seat, 0, FREE);
    }

    /// Takes the value where it is at home. It waits for nobody, and answers `None` only where this call found the
    /// value away, which the seat then counts.
    pub fn try_take(&self, seat: &mut Seat<V>) -> Option<V>
        requires own { IsSeatOf self.now seat.old }
        requires idle { IsIdle seat.old }
        ensures own { IsSameSeat seat.old seat.new }

        ensures holds { IfSome result (λ value. Holds seat.new (V.items value)) }
        ensures fixed { IfSome result (λ value. fixed_of seat.old ≡ Some (V.fixed value)) }
        ensures grown { IfSome result (λ value. IsPrefix (seen_by seat.old) (V.items value)) }
        ensures hand { IfSome result (λ value.
            HandIsOpen V.is_open (hand_of seat.old) (V.items value)) }
        ensures kept { IfSome result (λ value.
            view seat.new ≡ record (view seat.old) { noted = Some (V.items value) }) }

        ensures idle { IfNone result (IsIdle seat.new) }
        ensures missed { IfNone result (
            view seat.new ≡ record (view seat.old) { missed = misses_of seat.old + 1 }) }
    {
        let shared = &self.table.shared;
        if shared.compare_exchange::<Take<V>>(seat, 0, FREE, HELD) == FREE {
            Some(shared.exchange(seat, 0, None).unwrap())
        } else {
            None
        }
    }

    /// Takes the value, and waits until it is at home. The seat counts how often it wasn't.
    pub fn take<R: Wait>(&self, seat: &mut Seat<V>, rt: &R) -> V
        requires own { IsSeatOf self.now seat.old }
        requires idle { IsIdle seat.old }
        ensures own { IsSameSeat seat.old seat.new }
        ensures holds { Holds seat.new (V.items result) }
        ensures fixed { fixed_of seat.old ≡ Some (V.fixed result) }
        ensures grown { IsPrefix (seen_by seat.old) (V.items result) }
        ensures hand { HandIsOpen V.is_open (hand_of seat.old) (V.items result) }
        ensures kept { view seat.new
            ≡ record (view seat.old) { noted = Some (V.items result); missed = misses_of seat.new } }
        ensures missed { misses_of seat.old ≤ misses_of seat.new }
    {
        for _ in rt.forever() {
            if let Some(value) = self.try_take(seat) {
                return value;
            }
            yield_now();
        }
        unreachable!()
    }

    /// Puts the value back. Its list has the list at the take as a prefix.
    ///
    /// Each place that was open at the take and isn't in the seat's hand is still open. Of the place in the hand and
    /// the places that came since the take at most one is open, and that one is the seat's hand afterwards.
    pub fn put(&self, seat: &mut Seat<V>, value: V)
        requires own { IsSeatOf self.now seat.old }
        requires holds { IsHolding seat.old }
        requires fixed { fixed_of seat.old ≡ Some (V.fixed value) }
        requires grown { IsGrown V.is_open (hand_of seat.old) (list_at_take seat.old) (V.items value) }
        ensures own { IsSameSeat seat.old seat.new }
        ensures idle { IsIdle seat.new }
        ensures seen { HasSeen seat.new (V.items value) }
        ensures hand { IsHandAfter V.is_open (hand_of seat.old) (list_at_take seat.old) (V.items value)
            (hand_of seat.new) }
        ensures kept { view seat.new
            ≡ record (view seat.old) { seen = V.items value; noted = None; hand = hand_of seat.new } }
    {
        let shared = &self.table.shared;
        let was = shared.exchange(seat, 0, Some(value));
        let None = was else { unreachable!() };
        shared.store::<Put<V>>(seat, 0, FREE);
    }

    /// A new seat with one of this seat's parts. It has seen what this one had, and its hand is empty. It takes no
    /// memory.
    pub fn split(&self, seat: &mut Seat<V>) -> Seat<V>
        requires own { IsSeatOf self.now seat.old }
        requires idle { IsIdle seat.old }
        requires parts { 2 ≤ parts_of seat.old }
        ensures own { IsSameSeat seat.old seat.new × IsSeatOf self.now result }
        ensures idle { IsIdle seat.new × IsIdle result }
        ensures kept { view seat.new ≡ record (view seat.old) { parts = parts_of seat.old - 1 } }
        ensures given { view result ≡ record (view seat.old) { parts = 1; hand = None; missed = 0 } }
    {
        self.table.shared.split_seat::<Parts>(seat)
    }

    /// The other seat's parts become this one's. Afterwards this seat has seen the longer of both lists, of which
    /// both are prefixes. It keeps its own hand; the other's is empty.
    pub fn join(&self, seat: &mut Seat<V>, other: Seat<V>)
        requires own { IsSeatOf self.now seat.old × IsSeatOf self.now other }
        requires idle { IsIdle seat.old × IsIdle other }
        requires hand { hand_of other ≡ None }
        ensures own { IsSameSeat seat.old seat.new }
        ensures idle { IsIdle seat.new }
        ensures parts { parts_of seat.new ≡ parts_of seat.old + parts_of other }
        ensures seen { HasSeen seat.new (longer (seen_by seat.old) (seen_by other)) }
        ensures seen_before { IsPrefix (seen_by seat.old) (seen_by seat.new) }
        ensures seen_by_other { IsPrefix (seen_by other) (seen_by seat.new) }
        ensures hand { hand_of seat.new ≡ hand_of seat.old }
        ensures fixed { fixed_of seat.new ≡ fixed_of seat.old }
        ensures seats { seats_of seat.new ≡ seats_of seat.old }
        ensures missed { misses_of seat.new ≡ misses_of seat.old }
    {
        self.table.shared.join_seat::<Parts>(seat, other);
        self.table.shared.load::<Look>(seat, 0);
    }

    /// The value, of a turnstile whose other seats were all joined into this one. Its list has what the seat had seen
    /// as a prefix, and its open places are those in the seat's hand.
    pub fn close(self, seat: Seat<V>) -> V
        requires own { IsSeatOf self seat }
        requires idle { IsIdle seat }
        requires all { parts_of seat ≡ seats_of seat }
        ensures fixed { fixed_of seat ≡ Some (V.fixed result) }
        ensures grown { IsPrefix (seen_by seat) (V.items result) }
        ensures hand { (k : ℕ) → (V.is_open (V.items result) k ≡ true) ↔ (hand_of seat ≡ Some k) }
    {
        let Turnstile { table } = self;
        let mut closed = table.close_with(seat);
        let value = closed.take(0).unwrap();
        closed.free();
        value
    }
}
