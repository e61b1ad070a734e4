//! Single steps, each with what it changes of the index.
ghost use Rattle.std.specs.Prelude.{◌≡◌, ℕ, ◌<◌, ◌≤◌, ◌-◌, length, nat_lt, if◌then◌else◌};
ghost use Rattle.samoa_model.specs.declared.record.Step.{Step};
ghost use Rattle.samoa_versions.specs.Ready.{is_member};
ghost use Rattle.samoa_invariant.specs.Index as queues;
ghost use Rattle.samoa_invariant.specs.State as model;
ghost use Rattle.samoa_invariant.specs.Runs.{IsDue, play, state, with_clear, with_step};
ghost use Rattle.samoa_control.specs.Later.{IsLater, IsStill};
ghost use Rattle.samoa_control.specs.Since.{cleared_comps};
ghost use Rattle.samoa_control.specs.Turns.{IsAway};
ghost use Rattle.samoa_core.specs.Rows.{IsSized};
ghost use Rattle.samoa_core.specs.Indexed.{IsIndexedBy, IsKeptAt};
ghost use Rattle.samoa_core.specs.Passing.{CanPass, HasLeft, HasReleased, IsGreeted, MarksEntry, Passes, place as place_of};

use crate::index::{Index, place};
use samoa_control::{Control, Ran, Turn};
use samoa_micro::Micro;

/// Begins the next handler step of a computation, which is due: it may not begin another one.
pub(crate) fn enter<B: Micro>(control: &mut Control<B>, index: &mut Index, comp: u32) -> Turn<B>
    requires indexed { IsIndexedBy control.old index.old }
    requires due { (micro : ℕ) × IsDue control.old (Step.Enter comp micro) }
    ensures comp { result.comp ≡ comp }
    ensures step { control.new ≡ with_step control.old (Step.Enter comp result.micro) }
    ensures later { IsLater control.old control.new }
    ensures away { IsAway control.new result }
    ensures fewer { model.left (play control.new) (state control.new) < model.left (play control.old) (state control.old) }
    ensures indexed { IsIndexedBy control.new index.new }
{
    control.recall();
    let first = control.cleared();
    let turn = control.enter(comp);
    index.mark_ready(place(comp, first), false);
    turn
}

/// Ends a handler step that is out and was made. Where its computation is past the microprotocol then, the queue there goes
/// on.
pub(crate) fn leave<B: Micro>(control: &mut Control<B>, index: &mut Index, ran: Ran<B>)
    requires indexed { IsIndexedBy control.old index.old }
    requires away { IsAway control.old ran }
    ensures step { control.new ≡ with_step control.old (Step.Leave ran.comp) }
    ensures later { IsLater control.old control.new }
    ensures fewer { model.left (play control.new) (state control.new) < model.left (play control.old) (state control.old) }
    ensures indexed { IsIndexedBy control.new index.new }
{
    let comp = ran.comp();
    let micro = ran.micro();
    control.recall();
    control.leave(ran);
    take_note(control, index, comp);
    if !control.holds(comp, micro) {
        pass_on(control, index, comp, micro);
    }
}

/// Takes a handler step back that is out.
pub(crate) fn abandon<B: Micro>(control: &mut Control<B>, index: &mut Index, turn: Turn<B>)
    requires indexed { IsIndexedBy control.old index.old }
    requires away { IsAway control.old turn }
    ensures step { control.new ≡ with_step control.old (Step.Abandon turn.comp) }
    ensures later { IsLater control.old control.new }
    ensures indexed { IsIndexedBy control.new index.new }
{
    let comp = turn.comp();
    control.recall();
    control.abandon(turn);
    mark_entry(control, index, comp);
}

/// Makes a release, which is due: the queue there goes on. Of no computation up to this one it says anew whether a release
/// may be due.
pub(crate) fn release<B: Micro>(control: &mut Control<B>, index: &mut Index, comp: u32, micro: u32)
    requires indexed { IsIndexedBy control.old index.old }
    requires due { IsDue control.old (Step.Release comp micro) }
    ensures step { control.new ≡ with_step control.old (Step.Release comp micro) }
    ensures later { IsLater control.old control.new }
    ensures fewer { model.left (play control.new) (state control.new) < model.left (play control.old) (state control.old) }
    ensures indexed { IsIndexedBy control.new index.new }
    ensures calm { (i : ℕ) → i ≤ place_of control.old comp → is_member index.new.restless i ≡ is_member index.old.restless i }
{
    control.recall();
    control.release(comp, micro);
    hand_on(control, index, comp, micro);
}

/// Makes an end, which is due.
pub(crate) fn end<B: Micro>(control: &mut Control<B>, index: &Index, comp: u32)
    requires indexed { IsIndexedBy control.old index.now }
    requires due { IsDue control.old (Step.End comp) }
    ensures step { control.new ≡ with_step control.old (Step.End comp) }
    ensures later { IsLater control.old control.new }
    ensures fewer { model.left (play control.new) (state control.new) < model.left (play control.old) (state control.old) }
    ensures indexed { IsIndexedBy control.new index.now }
{
    let _index = index;
    control.recall();
    control.end(comp);
}

/// Clears a control in which all have ended, and the index where anything was cleared.
pub(crate) fn clear<B: Micro>(control: &mut Control<B>, index: &mut Index)
    requires indexed { IsIndexedBy control.old index.old }
    requires all { model.AllEnded (state control.old) }
    ensures clear { control.new ≡ (if nat_lt 0 (state control.old).cells then with_clear control.old else control.old) }
    ensures still { IsStill (state control.old) control.new }
    ensures cells { (state control.new).cells ≡ 0 }
    ensures indexed { IsIndexedBy control.new index.new }
{
    control.recall();
    let held = control.holds_cells();
    control.clear();
    if held {
        index.clear();
    }
}

/// Notes of a computation that came back or was just admitted whether it may begin its next handler step, and whether a
/// release or its end may be due.
pub(crate) fn take_note<B: Micro>(control: &Control<B>, index: &mut Index, comp: u32)
    requires sized { IsSized index.old }
    requires kept { cleared_comps control.now < comp }
    requires admitted { comp ≤ length control.now.exts }
    ensures { (g : queues.Index) → IsKeptAt control.now index.old g → HasLeft control.now index.new g comp }
{
    control.recall();
    let at = place(comp, control.cleared());
    mark_entry(control, index, comp);
    index.add_restless(at, control.may_have_releases(comp));
    index.add_closing(at, control.may_end(comp));
}

/// Notes whether a computation may begin its next handler step.
pub(crate) fn mark_entry<B: Micro>(control: &Control<B>, index: &mut Index, comp: u32)
    requires sized { IsSized index.old }
    requires kept { cleared_comps control.now < comp }
    requires admitted { comp ≤ length control.now.exts }
    ensures entry { (g : queues.Index) → IsKeptAt control.now index.old g → MarksEntry control.now index.new g comp }
    ensures sized { IsSized index.new }
{
    control.recall();
    let enters = control.may_enter(comp);
    index.mark_ready(place(comp, control.cleared()), enters);
}

/// A computation that is done with a microprotocol may have its end due, and the queue there goes on.
fn hand_on<B: Micro>(control: &Control<B>, index: &mut Index, comp: u32, micro: u32)
    requires can { CanPass control.now index.old comp micro }
    ensures { (g : queues.Index) → IsKeptAt control.now index.old g → HasReleased control.now index.new g comp micro }
{
    control.recall();
    index.mark_closing(place(comp, control.cleared()), true);
    pass_on(control, index, comp, micro);
}

/// The queue of a microprotocol goes on after a computation.
fn pass_on<B: Micro>(control: &Control<B>, index: &mut Index, comp: u32, micro: u32)
    requires can { CanPass control.now index.old comp micro }
    ensures { (g : queues.Index) → IsKeptAt control.now index.old g → Passes control.now index.new g comp micro }
{
    control.recall();
    let next = index.next(place(comp, control.cleared()), micro);
    index.set_head(control.slot(comp, micro), next);
    match next {
        None => {}
        Some(number) => greet(control, index, number),
    }
}

/// Who comes first in a queue now, computations being numbered from 0, may begin its next handler step there, and may have
/// a release due.
fn greet<B: Micro>(control: &Control<B>, index: &mut Index, number: u32)
    requires sized { IsSized index.old }
    requires kept { cleared_comps control.now ≤ number }
    requires admitted { number < length control.now.exts }
    ensures { (g : queues.Index) → IsKeptAt control.now index.old g → IsGreeted control.now index.new g number }
{
    control.recall();
    let admitted = control.admitted();
    prove!(number < admitted);
    let comp = number + 1;
    mark_entry(control, index, comp);
    index.mark_restless(place(comp, control.cleared()), true);
}
