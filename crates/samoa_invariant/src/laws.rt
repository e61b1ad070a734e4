//! The laws of the model, computations numbered from 0.
ghost use Rattle.std.specs.Prelude.{◌≡◌, ◌≢◌, ℕ, ◌<◌, ◌≤◌, ◌⊎◌, ◌↔◌, List, length, slice_get, Bool, Option, Some, None, true, false};
ghost use Rattle.samoa_model.specs.declared.record.Ext.{Ext};
ghost use Rattle.samoa_model.specs.declared.script.Script.{Script};
ghost use Rattle.samoa_model.specs.Allowed.{weight};
ghost use Rattle.samoa_serial.specs.SerialRun.{serial};
ghost use Rattle.samoa_invariant.specs.Play.{Agree, Never, Play, attempts, is_bound, stood};
ghost use Rattle.samoa_invariant.specs.Within.{IsWithin};
ghost use Rattle.samoa_invariant.specs.State.{AllEnded, CanEnd, CanEnter, CanRelease, Core, GoesOnTo, HasTurn, IsEnabled, IsForward, IsNextAt, IsOut, NothingOut, Reached, Step, WholeRun, admit, cells_to, empty, enter, finish, left as steps_left, made_by, release};
ghost use Rattle.samoa_invariant.specs.Index.{Index, IsHead, IsHeadOf, IsIndexed, IsNextOf, MayEnter, Notes, TellsEntry, TellsNamed, TellsNext, TellsNotes, abandoned, admitted, entered, left, none_indexed, passed_on, released};
ghost use Rattle.samoa_invariant.specs.Inv.{AnswersSerially, HasSerialAnswer, Invariant, Meets, PlaysScript};

/// Every declaration, of any form, meets what the core asks of it.
pub fn declarations_meet_the_interface()
    ensures meets { (play : Play) (k : ℕ) → Meets play k }
{}

/// Under a bound the completed and the active calls of a computation at a microprotocol are never more than the bound.
pub fn bounds_are_kept()
    ensures within { (play : Play) (core : Core) (k p : ℕ) → Reached play core → k < core.count → is_bound (play.decl k) ≡ true → IsWithin play core k p }
{}

/// A computation that may release a microprotocol, or is past it, makes no handler step there any more, whatever its
/// handlers answer from then on.
pub fn what_is_handed_on_stays_so()
    ensures released { (play : Play) (core : Core) (k p : ℕ) → Reached play core → CanRelease play core k p → Never (attempts play k) (core.comp k) p }
    ensures past { (play : Play) (core : Core) (k p : ℕ) → Reached play core → k < core.count → 0 < weight (play.decl k) p
        → core.private k (play.node k) p ≤ core.local (play.node k) p → Never (attempts play k) (core.comp k) p }
{}

/// Whatever order the enabled steps come in, the invariant is kept.
pub fn each_step_keeps_the_invariant()
    ensures kept { (play : Play) (core : Core) (step : Step) → Invariant play core → IsEnabled play core step → Invariant play (made_by play core step) }
    ensures reached { (play : Play) (core : Core) → Reached play core → Invariant play core }
{}

/// A computation that has ended has the entries and the ending of its event run whole, alone, in its place, also while others are open.
pub fn ended_computations_have_serial_answers()
    ensures serial { (play : Play) (core : Core) (k : ℕ) → Reached play core → k < core.count → core.ended k ≡ true → HasSerialAnswer play core k }
{}

/// Where all have ended, each box is home with the state that the computations leave one after another.
pub fn final_states_are_serial()
    ensures states { (play : Play) (core : Core) → Reached play core → AllEnded core → (v p : ℕ) → core.boxes v p ≡ stood play core.count v p }
    ensures home { (play : Play) (core : Core) → Reached play core → AllEnded core → NothingOut core }
{}

/// Where no step was abandoned, all have ended or some step goes on.
pub fn something_goes_on()
    ensures goes_on { (play : Play) (core : Core) → Reached play core → core.stopped ≡ false → AllEnded core ⊎ ((step : Step) × IsForward step × IsEnabled play core step) }
{}

/// Each step that goes on lowers what is left, so that a run of them ends; and where no step was abandoned, such a run leads to the end of all.
pub fn what_goes_on_ends()
    ensures fewer { (play : Play) (core : Core) (step : Step) → Reached play core → IsForward step → IsEnabled play core step → steps_left play (made_by play core step) < steps_left play core }
    ensures ends { (play : Play) (core : Core) → Reached play core → core.stopped ≡ false → (new : Core) × GoesOnTo play core new × AllEnded new }
{}

/// Every play that has room has a whole run, so that no law here is empty.
pub fn every_play_has_a_whole_run()
    ensures run { (play : Play) (n : ℕ) → n ≤ play.most → cells_to play n ≤ play.most_cells → WholeRun play n }
{}

/// The invariant speaks only of what was admitted: it holds of any play with the same first external events.
pub fn later_events_do_not_matter()
    ensures kept { (play : Play) (other : Play) (core : Core) → Agree play other core.count → Invariant play core → Invariant other core }
{}

/// What the core keeps is the serial run of the script.
pub fn the_serial_run_is_that_of_the_script()
    ensures answers { (play : Play) (script : Script) (xs : List Ext) (core : Core) → PlaysScript play script xs → Reached play core → core.count ≤ length xs → (k : ℕ) (x : Ext) → k < core.count → slice_get xs k ≡ Some x → core.ended k ≡ true → AnswersSerially script xs core k x }
    ensures states { (play : Play) (script : Script) (xs : List Ext) (core : Core) → PlaysScript play script xs → Reached play core → core.count ≡ length xs → AllEnded core → (v : ℕ) (p : ℕ) → core.boxes v p ≡ (serial script xs).states v p }
{}

/// The turn at a slot is with the head of its queue, and a release hands it to who comes next.
pub fn queues_give_the_turn()
    ensures head { (play : Play) (core : Core) (k p : ℕ) → Reached play core → (HasTurn play core k p ↔ IsHead play core (play.node k) p k) }
    ensures next { (play : Play) (core : Core) (k p : ℕ) (next : Option ℕ) → Reached play core → CanRelease play core k p → IsNextOf play core.count k p next
        → IsHeadOf play (release play core k p) (play.node k) p next }
{}

/// An index goes on with each step: but for an admission, no more of it changes than what is noted of the step's own
/// computation and of who comes next at the slot. A release marks no computation restless but a later one.
pub fn an_index_goes_on()
    ensures opening { (play : Play) → IsIndexed play 0 (empty play) none_indexed }
    ensures admitted { (play : Play) (first : ℕ) (core : Core) (index : Index) (named : ℕ → Bool) (notes : Notes) → Reached play core → IsIndexed play first core index → TellsNamed play core.count named
        → TellsNotes play (admit play core) core.count notes → IsIndexed play first (admit play core) (admitted index core.count (play.node core.count) named notes) }
    ensures entered { (play : Play) (first : ℕ) (core : Core) (index : Index) (k p : ℕ) → Reached play core → IsIndexed play first core index → CanEnter play core k p
        → IsIndexed play first (enter play core k p) (entered index k) }
    ensures left { (play : Play) (first : ℕ) (core : Core) (index : Index) (k p : ℕ) (notes : Notes) → Reached play core → IsIndexed play first core index → IsOut play core k p
        → (made_by play core (Step.Leave k)).local (play.node k) p < core.private k (play.node k) p → TellsNotes play (made_by play core (Step.Leave k)) k notes
        → IsIndexed play first (made_by play core (Step.Leave k)) (left index k notes) }
    ensures passed_on { (play : Play) (first : ℕ) (core : Core) (index : Index) (k p : ℕ) (notes : Notes) (next_enters : Bool) → Reached play core → IsIndexed play first core index → IsOut play core k p
        → core.private k (play.node k) p ≤ (made_by play core (Step.Leave k)).local (play.node k) p → TellsNotes play (made_by play core (Step.Leave k)) k notes
        → TellsNext play (made_by play core (Step.Leave k)) (index.next k p) next_enters
        → IsIndexed play first (made_by play core (Step.Leave k)) (passed_on (left index k notes) (play.node k) p (index.next k p) next_enters) }
    ensures abandoned { (play : Play) (first : ℕ) (core : Core) (index : Index) (k p : ℕ) (enters : Bool) → Reached play core → IsIndexed play first core index → IsOut play core k p
        → TellsEntry play (made_by play core (Step.Abandon k)) k enters → IsIndexed play first (made_by play core (Step.Abandon k)) (abandoned index k enters) }
    ensures released { (play : Play) (first : ℕ) (core : Core) (index : Index) (k p : ℕ) (enters : Bool) → Reached play core → IsIndexed play first core index → CanRelease play core k p
        → TellsNext play (release play core k p) (index.next k p) enters → IsIndexed play first (release play core k p) (released index k (play.node k) p enters) }
    ensures later { (play : Play) (first : ℕ) (core : Core) (index : Index) (k p j : ℕ) (enters : Bool) → Reached play core → IsIndexed play first core index → CanRelease play core k p → j ≤ k
        → (released index k (play.node k) p enters).restless j ≡ index.restless j }
    ensures ended { (play : Play) (first : ℕ) (core : Core) (index : Index) (k : ℕ) → IsIndexed play first core index → CanEnd play core k → IsIndexed play first (finish core k) index }
    ensures cleared { (play : Play) (core : Core) → Reached play core → AllEnded core → IsIndexed play core.count (made_by play core Step.Clear) none_indexed }
{}

/// What an index tells. One look at a head tells the turn there, and whether a computation may enter whose next handler
/// step is there; an abandoned step takes that from all. Where all have ended there is no head, and none may enter.
pub fn an_index_tells()
    ensures turn { (play : Play) (first : ℕ) (core : Core) (index : Index) (k p : ℕ) → Reached play core → IsIndexed play first core index
        → ((index.head (play.node k) p ≡ Some k) ↔ HasTurn play core k p) }
    ensures enters { (play : Play) (first : ℕ) (core : Core) (index : Index) (k p : ℕ) → Reached play core → IsIndexed play first core index → IsNextAt (core.comp k) p
        → ((v q : ℕ) → core.out v q ≢ Some k) → ((index.head (play.node k) p ≡ Some k) ↔ MayEnter play core k) }
    ensures running { (play : Play) (core : Core) (k : ℕ) → core.stopped ≡ false → (MayEnter play core k ↔ ((p : ℕ) × CanEnter play core k p)) }
    ensures ended { (play : Play) (first : ℕ) (core : Core) (index : Index) → Reached play core → AllEnded core → IsIndexed play first core index
        → ((v p : ℕ) → index.head v p ≡ None) × ((k : ℕ) → first ≤ k → index.ready k ≡ false) }
{}
