//! What a seat knows, the rule over what all seats know, and what each step tells.
use crate::kept::Kept;
use atomic_table::{Join, Play, Split, TableRule};
use std::collections::LinkedList;
use std::marker::PhantomData;

/// What a seat knows. Contracts speak of it, and no value of it is made.
pub struct View<F, I> {
    /// The value's fixed part; `None` until the first put, and once the seat was joined into another.
    pub fixed: Option<F>,
    /// The parts of all seats together.
    pub seats: u64,
    /// This seat's parts.
    pub parts: u64,
    /// The longest list that this seat, or one that was joined into it, has put back.
    pub seen: LinkedList<I>,
    /// The list at the take, while the seat holds the value.
    pub noted: Option<LinkedList<I>>,
    /// The open place that is this seat's own.
    pub hand: Option<u64>,
    /// How many takes of this seat found the value away.
    pub missed: u64,
    /// What the seat itself had seen before its last join.
    pub one: LinkedList<I>,
    /// What the other seat had seen before that join.
    pub two: LinkedList<I>,
}

/// The rule of the table. Its key is the number of seats.
pub(crate) struct Turning<V> {
    marker: PhantomData<V>,
}

impl<V: Kept> TableRule<Option<V>, View<V::Fixed, V::Item>, u64> for Turning<V> {
    ghost use Rattle.samoa_turnstile.specs.Turning.{Turns, fresh};

    ghost holds = { Turns V.fixed V.items V.is_open };

    ghost first = { fresh };
}

/// The take from an empty slot, in `new`.
pub(crate) struct Begin;

impl<V, F, I> Play<Option<V>, View<F, I>> for Begin {
    ghost use Rattle.samoa_turnstile.specs.Turning.{begun};

    ghost then = { begun };
}

/// The first put, in `new`.
pub(crate) struct Open<V> {
    marker: PhantomData<V>,
}

impl<V: Kept> Play<Option<V>, View<V::Fixed, V::Item>> for Open<V> {
    ghost use Rattle.samoa_turnstile.specs.Turning.{opened};

    ghost then = { opened V.fixed V.items };
}

/// A take, which may find the value away.
pub(crate) struct Take<V> {
    marker: PhantomData<V>,
}

impl<V: Kept> Play<Option<V>, View<V::Fixed, V::Item>> for Take<V> {
    ghost use Rattle.samoa_turnstile.specs.Turning.{taken};

    ghost then = { taken V.fixed V.items V.is_open };
}

/// A put.
pub(crate) struct Put<V> {
    marker: PhantomData<V>,
}

impl<V: Kept> Play<Option<V>, View<V::Fixed, V::Item>> for Put<V> {
    ghost use Rattle.samoa_turnstile.specs.Turning.{put_back};

    ghost then = { put_back V.items V.is_open };
}

/// A look at the word, after a join.
pub(crate) struct Look;

impl<V, F, I> Play<Option<V>, View<F, I>> for Look {
    ghost use Rattle.samoa_turnstile.specs.Turning.{looked};

    ghost then = { looked };
}

/// How parts go from seat to seat.
pub(crate) struct Parts;

impl<F, I> Split<View<F, I>> for Parts {
    ghost use Rattle.samoa_turnstile.specs.Turning.{one_less, one_part};

    ghost left = { one_less };

    ghost right = { one_part };
}

impl<F, I> Join<View<F, I>> for Parts {
    ghost use Rattle.samoa_turnstile.specs.Turning.{both, spent};

    ghost both = { both };

    ghost spent = { spent };
}
