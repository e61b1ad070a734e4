//! What contracts see of a value at a turnstile.
ghost use Rattle.std.specs.Prelude.{◌≡◌, ◌<◌, ◌++◌, ℕ, List, Bool, true, length};

/// A value that contracts see as a fixed part and a list that only grows.
///
/// Some places of the list are open. That is told from the list alone, and a place that is closed stays closed.
pub trait Kept {
    /// What never changes of a value.
    type Fixed;

    /// An item of the list.
    type Item;

    ghost fixed: { Self → Self.Fixed };

    ghost items: { Self → List Self.Item };

    // whether a place of the list is open
    ghost is_open: { List Self.Item → ℕ → Bool };

    // an open place is below the list's length
    ghost open_below: { (xs : List Self.Item) (k : ℕ) → is_open xs k ≡ true → k < length xs };

    // a place of a prefix that is open in the whole list is open in the prefix
    ghost open_before: { (xs ys : List Self.Item) (k : ℕ)
        → k < length xs → is_open (xs ++ ys) k ≡ true → is_open xs k ≡ true };
}
