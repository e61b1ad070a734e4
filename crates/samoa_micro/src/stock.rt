//! The stock that a core draws its microprotocols from.
ghost use Rattle.std.specs.Prelude.{◌≡◌, ◌+◌, ◌<◌, ◌↔◌, IsTrue, nat_le, map, length, true, All, slice_get, Some, OnSome, IfSome, IfNone, count_by, if◌then◌else◌};
ghost use Rattle.samoa_model.specs.declared.setup.Kind.{Kind};
ghost use Rattle.samoa_micro.specs.Covers.{Covers, count_of, wanted};

use crate::Micro;
use samoa_model::{Kind, Script};
use std::marker::Model;

/// Fresh microprotocols, which contracts see as the list of their kinds.
#[derive(Drop)]
pub struct Stock<B: Micro> {
    boxes: Vec<B>,
}

impl<B: Micro> Model for Stock<B> {
    ghost use Rattle.std.specs.Prelude.{◌≡◌, List, map, true, All};
    ghost use Rattle.samoa_model.specs.declared.setup.Kind.{Kind};

    ghost Value = { List Kind };

    ghost view = { λ s. map (λ b. (B.seen b).kind) s.boxes.items };

    ghost invariant = { λ s. All (λ b. (B.seen b).fresh ≡ true) s.boxes.items };
}

impl<B: Micro> Stock<B> {
    /// A stock of these microprotocols, each of which is still to be set up. It takes no memory.
    pub fn new(boxes: Vec<B>) -> Stock<B>
        requires { All (λ b. (B.seen b).fresh ≡ true) boxes.items }
        ensures { result ≡ map (λ b. (B.seen b).kind) boxes.items }
    {
        Stock { boxes }
    }

    /// How many of a kind are left. It takes no memory.
    pub fn count(&self, kind: Kind) -> usize
        ensures { result ≡ count_of self.now kind }
    {
        count_in(self.boxes.as_slice(), kind)
    }

    /// Whether there are enough for a script: of each kind at least as many as its nodes times its microprotocols
    /// of that kind. It takes no memory.
    pub fn covers(&self, script: &Script) -> bool
        ensures { IsTrue result ↔ Covers script.now self.now }
    {
        let micros = script.micros.as_slice();
        micros.iter().all(|micro| is_enough(script, micro.kind, self.count(micro.kind)))
    }

    /// Takes one of a kind out, still to be set up. It answers None exactly where none of that kind is left, and
    /// then the stock is as it was. It takes no memory.
    pub fn draw(&mut self, kind: Kind) -> Option<B>
        ensures none { IfNone result (count_of self.old kind ≡ 0) }
        ensures kept { IfNone result (self.new ≡ self.old) }
        ensures kind { IfSome result (λ b. (B.seen b).kind ≡ kind) }
        ensures fresh { IfSome result (λ b. (B.seen b).fresh ≡ true) }

        // of that kind there is one fewer, and of each other kind as many as before
        ensures counts { OnSome result ((other : Kind) → count_of self.old other
            ≡ count_of self.new other + (if ⟦<Kind as PartialEq>⟧.eq kind other then 1 else 0)) }
    {
        let at = place_in(self.boxes.as_slice(), kind)?;
        Some(self.boxes.remove(at))
    }
}

/// Whether so many of a kind are as many as a script takes.
fn is_enough(script: &Script, kind: Kind, count: usize) -> bool
    ensures { result ≡ nat_le (wanted script.now kind) count }
{
    let micros = script.micros.as_slice();
    let of_kind = micros.iter().filter(|micro| micro.kind == kind).count();
    let wanted = u64::from(script.nodes).checked_mul(of_kind as u64);
    wanted.is_some_and(|wanted| wanted <= count as u64)
}

/// How many of a kind there are.
fn count_in<B: Micro>(boxes: &[B], kind: Kind) -> usize
    ensures { result ≡ count_by (λ b. ⟦<Kind as PartialEq>⟧.eq (B.seen b).kind kind) boxes.now }
{
    boxes.iter().filter(|b| b.kind() == kind).count()
}

/// The place of the first of a kind.
fn place_in<B: Micro>(boxes: &[B], kind: Kind) -> Option<usize>
    ensures none { IfNone result
        (count_by (λ b. ⟦<Kind as PartialEq>⟧.eq (B.seen b).kind kind) boxes.now ≡ 0) }
    ensures within { IfSome result (λ at. at < length boxes.now) }
    ensures kind { IfSome result
        (λ at. (b : B) → slice_get boxes.now at ≡ Some b → (B.seen b).kind ≡ kind) }
{
    for (at, b) in boxes.iter().enumerate() {
        if b.kind() == kind {
            return Some(at);
        }
    }
    None
}
