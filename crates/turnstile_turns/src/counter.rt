//! A count of turns.
ghost use Rattle.std.specs.Prelude.{◌≡◌, ◌+◌, ◌≤◌, ◌↔◌, IsTrue, min};

use samoa_turnstile::Kept;

/// Counts turns up to its goal.
#[derive(Drop)]
pub struct Counter {
    /// The most that is counted.
    pub goal: u32,
    /// The turns so far.
    pub count: u32,
    ghost within: { count ≤ goal },
}

/// The list has one item for each turn, and none is open.
impl Kept for Counter {
    type Fixed = u32;

    type Item = ();

    ghost use Rattle.turnstile_turns.specs.Turns.{turns};
    ghost use Rattle.samoa_turnstile.specs.Closed.{none_open, none_open_below, none_open_before};

    ghost fixed = { λ counter. counter.goal };

    ghost items = { λ counter. turns counter.count };

    ghost is_open = { none_open };

    ghost open_below = { none_open_below };

    ghost open_before = { none_open_before };
}

impl Counter {
    /// A counter at 0.
    pub fn new(goal: u32) -> Counter
        ensures { (result.goal ≡ goal) × (result.count ≡ 0) }
    {
        Counter { goal, count: 0 }
    }

    /// Counts one turn more, unless the goal is reached. Whether it is reached now.
    pub fn count_one(&mut self) -> bool
        ensures goal { self.new.goal ≡ self.old.goal }
        ensures count { self.new.count ≡ min (self.old.count + 1) self.old.goal }
        ensures reached { IsTrue result ↔ (self.new.count ≡ self.new.goal) }
    {
        if self.count < self.goal {
            self.count += 1;
        }
        self.count == self.goal
    }
}
