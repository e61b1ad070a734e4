//! Settling: the releases and the ends that are due are made, of the computations of which one may be due.
ghost use Rattle.std.specs.Prelude.{◌≡◌, ℕ, ◌<◌, ◌≤◌, ◌+◌, ◌-◌, length, IfSome, IfNone};
ghost use Rattle.samoa_model.specs.declared.record.Step.{Step};
ghost use Rattle.samoa_versions.specs.Ready.{is_member};
ghost use Rattle.samoa_invariant.specs.State as model;
ghost use Rattle.samoa_invariant.specs.Runs.{IsDue, IsRun, Trace, play, state};
ghost use Rattle.samoa_invariant.specs.Settling.{EndsAll, EndsBefore, ReleasesAll, ReleasesOf, Settles};
ghost use Rattle.samoa_control.specs.Later.{IsLater, IsStill};
ghost use Rattle.samoa_control.specs.Since.{cleared_comps};
ghost use Rattle.samoa_control.specs.Sound.{StillNeeds};
ghost use Rattle.samoa_core.specs.Indexed.{IsIndexedBy};
ghost use Rattle.samoa_core.specs.Passing.{place as place_of};
ghost use Rattle.samoa_core.specs.Settling.{EndsPast, ReleasesPast};

use crate::index::{Index, comp_at, place};
use crate::keeping::{end, release};
use samoa_control::Control;
use samoa_micro::Micro;
use samoa_vca_route::is_clear;

/// Makes the releases that are due, by rising computation, then rising microprotocol, until none is.
pub(crate) fn release_all<B: Micro>(control: &mut Control<B>, index: &mut Index)
    requires indexed { IsIndexedBy control.old index.old }
    ensures releases { ReleasesAll control.old control.new }
    ensures still { IsStill (state control.old) control.new }
    ensures later { IsLater control.old control.new }
    ensures not_more { model.left (play control.new) (state control.new) ≤ model.left (play control.old) (state control.old) }
    ensures indexed { IsIndexedBy control.new index.new }
{
    control.recall();
    let admitted = control.admitted();
    let mut past = control.cleared();
    while let Some(comp) = next_restless(control, index) {
        release_next(control, index, comp);
        past = comp;
    }
}

/// The least computation of which a release may be due.
fn next_restless<B: Micro>(control: &Control<B>, index: &Index) -> Option<u32>
    requires indexed { IsIndexedBy control.now index.now }
    ensures kept { IfSome result (λ comp. cleared_comps control.now < comp) }
    ensures admitted { IfSome result (λ comp. comp ≤ length control.now.exts) }
    ensures past { IfSome result (λ comp. (before : Trace) (past : ℕ) → ReleasesPast before control.now index.now past → past < comp) }
    ensures made { IfSome result (λ comp. (before : Trace) (past : ℕ) → ReleasesPast before control.now index.now past → ReleasesPast before control.now index.now (comp - 1)) }
    ensures all { IfNone result ((before : Trace) (past : ℕ) → ReleasesPast before control.now index.now past → ReleasesAll before control.now) }
{
    control.recall();
    match index.least_restless() {
        Some(at) => Some(comp_at(at, control.cleared())),
        None => None,
    }
}

/// Makes the releases of a computation that are due, where those of all before it were made. None of it is due then.
fn release_next<B: Micro>(control: &mut Control<B>, index: &mut Index, comp: u32)
    requires indexed { IsIndexedBy control.old index.old }
    requires kept { cleared_comps control.old < comp }
    requires admitted { comp ≤ length control.old.exts }
    ensures past { (before : Trace) → IsRun before → ReleasesPast before control.old index.old (comp - 1) → ReleasesPast before control.new index.new comp }
    ensures later { IsLater control.old control.new }
    ensures indexed { IsIndexedBy control.new index.new }
{
    control.recall();
    let at = place(comp, control.cleared());
    release_of(control, index, comp);
    control.recall();
    index.mark_restless(at, false);
}

/// Makes the releases of a computation that are due, by rising microprotocol. Of no computation up to it the index says
/// anew whether a release may be due.
fn release_of<B: Micro>(control: &mut Control<B>, index: &mut Index, comp: u32)
    requires indexed { IsIndexedBy control.old index.old }
    requires kept { cleared_comps control.old < comp }
    requires admitted { comp ≤ length control.old.exts }
    ensures releases { ReleasesOf control.old control.new comp (length control.old.script.micros) }
    ensures indexed { IsIndexedBy control.new index.new }
    ensures calm { (i : ℕ) → i ≤ place_of control.old comp → is_member index.new.restless i ≡ is_member index.old.restless i }
{
    control.recall();
    if !control.may_have_releases(comp) {
        return;
    }
    // No release changes what it needs.
    let needed = control.still_needed(comp);
    let micros = control.micros();
    let mut micro = 0;
    while micro < micros {
        try_release(control, index, comp, micro, needed);
        micro += 1;
    }
}

/// Makes a release, if it is due.
fn try_release<B: Micro>(
    control: &mut Control<B>,
    index: &mut Index,
    comp: u32,
    micro: u32,
    needed: u32,
)
    requires indexed { IsIndexedBy control.old index.old }
    requires kept { cleared_comps control.old < comp }
    requires admitted { comp ≤ length control.old.exts }
    requires micro { micro < length control.old.script.micros }
    requires needed { StillNeeds control.old comp needed }
    ensures releases { (before : Trace) → IsRun before → ReleasesOf before control.old comp micro → ReleasesOf before control.new comp (micro + 1) }
    ensures needed { StillNeeds control.new comp needed }
    ensures indexed { IsIndexedBy control.new index.new }
    ensures calm { (i : ℕ) → i ≤ place_of control.old comp → is_member index.new.restless i ≡ is_member index.old.restless i }
{
    control.recall();
    if is_clear(needed, micro) && control.has_turn(comp, micro) {
        release(control, index, comp, micro);
    }
}

/// Makes the ends that are due, by rising computation, until none is.
pub(crate) fn end_all<B: Micro>(control: &mut Control<B>, index: &mut Index)
    requires indexed { IsIndexedBy control.old index.old }
    ensures ends { EndsAll control.old control.new }
    ensures still { IsStill (state control.old) control.new }
    ensures later { IsLater control.old control.new }
    ensures not_more { model.left (play control.new) (state control.new) ≤ model.left (play control.old) (state control.old) }
    ensures indexed { IsIndexedBy control.new index.new }
{
    control.recall();
    let admitted = control.admitted();
    let mut past = control.cleared();
    while let Some(comp) = next_closing(control, index) {
        end_next(control, index, comp);
        past = comp;
    }
}

/// The least computation whose end may be due.
fn next_closing<B: Micro>(control: &Control<B>, index: &Index) -> Option<u32>
    requires indexed { IsIndexedBy control.now index.now }
    ensures kept { IfSome result (λ comp. cleared_comps control.now < comp) }
    ensures admitted { IfSome result (λ comp. comp ≤ length control.now.exts) }
    ensures past { IfSome result (λ comp. (before : Trace) (past : ℕ) → EndsPast before control.now index.now past → past < comp) }
    ensures made { IfSome result (λ comp. (before : Trace) (past : ℕ) → EndsPast before control.now index.now past → EndsPast before control.now index.now (comp - 1)) }
    ensures all { IfNone result ((before : Trace) (past : ℕ) → EndsPast before control.now index.now past → EndsAll before control.now) }
{
    control.recall();
    match index.least_closing() {
        Some(at) => Some(comp_at(at, control.cleared())),
        None => None,
    }
}

/// Makes the end of a computation if it is due, where those of all before it were made.
fn end_next<B: Micro>(control: &mut Control<B>, index: &mut Index, comp: u32)
    requires indexed { IsIndexedBy control.old index.old }
    requires kept { cleared_comps control.old < comp }
    requires admitted { comp ≤ length control.old.exts }
    ensures past { (before : Trace) → IsRun before → EndsPast before control.old index.old (comp - 1) → EndsPast before control.new index.new comp }
    ensures later { IsLater control.old control.new }
    ensures indexed { IsIndexedBy control.new index.new }
{
    control.recall();
    let at = place(comp, control.cleared());
    try_end(control, index, comp);
    control.recall();
    index.mark_closing(at, false);
}

/// Makes the end of a computation, if it is due. It isn't due then.
fn try_end<B: Micro>(control: &mut Control<B>, index: &Index, comp: u32)
    requires indexed { IsIndexedBy control.old index.now }
    requires kept { cleared_comps control.old < comp }
    requires admitted { comp ≤ length control.old.exts }
    ensures ends { (before : Trace) → IsRun before → EndsBefore before control.old comp → EndsBefore before control.new (comp + 1) }
    ensures over { IsDue control.new (Step.End comp) → ⊥ }
    ensures later { IsLater control.old control.new }
    ensures indexed { IsIndexedBy control.new index.now }
{
    control.recall();
    if control.can_end(comp) {
        end(control, index, comp);
    }
}

/// Makes all releases and then all ends that are due. None of either is due afterwards.
pub(crate) fn settle<B: Micro>(control: &mut Control<B>, index: &mut Index)
    requires indexed { IsIndexedBy control.old index.old }
    ensures settles { Settles control.old control.new }
    ensures settled { model.IsSettled (play control.new) (state control.new) }
    ensures still { IsStill (state control.old) control.new }
    ensures later { IsLater control.old control.new }
    ensures not_more { model.left (play control.new) (state control.new) ≤ model.left (play control.old) (state control.old) }
    ensures indexed { IsIndexedBy control.new index.new }
{
    control.recall();
    release_all(control, index);
    end_all(control, index);
}
