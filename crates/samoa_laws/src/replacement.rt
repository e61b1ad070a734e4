//! The replacement layer: its table, and the laws of every history of the box of one node; then of a group of such boxes over
//! protocols that keep their order (`IsOrdered`). That the boxes of a group history are such is said in `streams` and `stack`.
//! Each function is a law: its body is empty, and its contract says what is proved.
ghost use Rattle.std.specs.Prelude.{◌≡◌, ◌⊎◌, ℕ, ◌<◌, ◌≤◌, ◌^◌, ◌++◌, ◌∷◌, [], List, Option, Some, None, length, map, false};
ghost use Rattle.std.specs.List.{list_any};
ghost use Rattle.samoa_model.specs.declared.handler.Moment.{Moment};
ghost use Rattle.samoa_model.specs.declared.handler.Moment.TheVariants.{Resume};
ghost use Rattle.samoa_model.specs.declared.handler.Outcome.TheVariants.{Call};
ghost use Rattle.samoa_model.specs.declared.handler.Reply.{Reply};
ghost use Rattle.samoa_model.specs.declared.ids.EventId.{EventId};
ghost use Rattle.samoa_model.specs.declared.setup.Setup.{Setup};
ghost use Rattle.samoa_serial.specs.declared.message.Message.{Message};
ghost use Rattle.samoa_laws.specs.lists.Lists.{Begins, Comparable, EndsOnlyIn, IsApart};
ghost use Rattle.samoa_laws.specs.lists.Messages.{first_places};
ghost use Rattle.samoa_serial.specs.State.{ReplState};
ghost use Rattle.samoa_serial.specs.Rows.{word};
ghost use Rattle.samoa_serial.specs.ReplTable.{repl_step};
ghost use Rattle.samoa_laws.specs.replacement.History.{Step, left_by, frame_of, given, IsHistory, GoesOn, Ready, HandedOn, begun, marked_in, marks, stream, asked, asked_by, asked_at, of_epoch, below, is_turn, turns_of, up_to, fresh, said_of, begin_alike};
ghost use Rattle.samoa_laws.specs.replacement.Casts.{handler_of, switches, IsRebound, IsCast};
ghost use Rattle.samoa_laws.specs.replacement.Trace.{Item, box_of, awaited, IsTrace, AllSwitched};
ghost use Rattle.samoa_laws.specs.replacement.Group.{Up, IsGroup, IsOrdered};

/// What a step delivers, or asks to change, is the first message of the present epoch that its new state holds, and the
/// state holds none that is old or delivered.
pub fn hands_on()
    ensures ready { (setup : Setup) (s : ReplState) (moment : Moment) (frame : List ℕ) → frame_of (repl_step setup s moment).1 ≡ Some frame → Ready setup (repl_step setup s moment).0 (repl_step setup s moment).1 }
{}

/// What a step marks is the message that the step before it handed on.
pub fn marks_what_was_handed_on()
    ensures marked { (setup : Setup) (s : Step) (earlier : List Step) → IsHistory setup (s ∷ earlier) → (frame : List ℕ) (reply : Reply) → s.moment ≡ Resume 1 frame reply → word frame 0 < 3 → (x : Message) × (marked_in s.old s.moment ≡ x ∷ []) × HandedOn setup earlier x }
{}

/// Of each epoch up to the present one, the marked messages begin those that `deliver` began with: those whose pair was
/// not marked in an earlier epoch, each at its first place.
pub fn marks_what_began()
    ensures began { (setup : Setup) (steps : List Step) → IsHistory setup steps → length steps < 2 ^ 64 → (e : ℕ) → e ≤ (left_by steps).epoch → Begins (of_epoch e (marks steps)) (fresh (below e (marks steps)) (of_epoch e (begun steps))) }
{}

/// Two boxes that reached an epoch with the same marks below it, and whose messages of the epoch began with comparable
/// first places, mark comparable messages of it.
pub fn marks_of_one_epoch()
    ensures comparable { (setup other : Setup) (steps others : List Step) → IsHistory setup steps → IsHistory other others → length steps < 2 ^ 64 → length others < 2 ^ 64 → (e : ℕ) → e ≤ (left_by steps).epoch → e ≤ (left_by others).epoch → below e (marks steps) ≡ below e (marks others) → Comparable (first_places (of_epoch e (begun steps))) (first_places (of_epoch e (begun others))) → Comparable (of_epoch e (marks steps)) (of_epoch e (marks others)) }
{}

/// The marks of an epoch that was left end with its one change message, and those of the present epoch have none.
pub fn change_messages()
    ensures left { (setup : Setup) (steps : List Step) → IsHistory setup steps → length steps < 2 ^ 64 → (e : ℕ) → e < (left_by steps).epoch → EndsOnlyIn (is_turn (length setup.changes)) (of_epoch e (marks steps)) }
    ensures present { (setup : Setup) (steps : List Step) → IsHistory setup steps → length steps < 2 ^ 64 → list_any (is_turn (length setup.changes)) (of_epoch (left_by steps).epoch (marks steps)) ≡ false }
{}

/// Where nothing waits for its resume, the stream is the marked messages without the change messages, in order. No two
/// of it have the same origin and number, at any time. It only grows.
pub fn stream_of_a_box()
    ensures words { (setup : Setup) (steps : List Step) → IsHistory setup steps → GoesOn steps → given steps ≡ None → stream steps ≡ said_of (length setup.changes) (marks steps) }
    ensures apart { (setup : Setup) (steps : List Step) → IsHistory setup steps → GoesOn steps → length steps < 2 ^ 64 → IsApart begin_alike (stream steps) }
    ensures grows { (later earlier : List Step) → Begins (stream earlier) (stream (later ++ earlier)) }
{}

/// Where nothing waits for its resume, what was asked for is what the marked change messages ask for, in order; and
/// these are one of each epoch that was left: the last mark of epoch e asks with e + 1.
pub fn changes_of_a_box()
    ensures asked { (setup : Setup) (steps : List Step) → IsHistory setup steps → GoesOn steps → given steps ≡ None → asked steps ≡ map (asked_by setup) (turns_of (length setup.changes) (marks steps)) }
    ensures each { (setup : Setup) (steps : List Step) → IsHistory setup steps → GoesOn steps → length steps < 2 ^ 64 → given steps ≡ None → asked steps ≡ map (asked_at setup (marks steps)) (up_to (left_by steps).epoch) }
    ensures epochs { (setup : Setup) (steps : List Step) → IsHistory setup steps → length steps < 2 ^ 64 → map (λ (m : Message). m.epoch) (turns_of (length setup.changes) (marks steps)) ≡ up_to (left_by steps).epoch }
{}

/// While casts are not held, as many rebindings began as epochs were left; and what `cast` and `switched` send down is a
/// message of the present epoch, while casts are not held.
pub fn casts_of_a_box()
    ensures rebound { (setup : Setup) (steps : List Step) → IsHistory setup steps → GoesOn steps → IsRebound steps → length steps < 2 ^ 64 → (left_by steps).hold ≡ 0 → switches steps ≡ (left_by steps).epoch }
    ensures down { (setup : Setup) (s : Step) (earlier : List Step) → IsHistory setup (s ∷ earlier) → IsRebound (s ∷ earlier) → (handler_of s.moment ≡ 0) ⊎ (handler_of s.moment ≡ 2) → (event : EventId) (arg frame : List ℕ) → s.outcome ≡ Call event arg frame → IsCast setup s.new event arg }
{}

/// A box never falls below an epoch that it reached, and what it marked of earlier epochs stays.
pub fn settled_marks()
    ensures settled { (setup : Setup) (later earlier : List Step) → IsHistory setup (later ++ earlier) → length (later ++ earlier) < 2 ^ 64 → (e : ℕ) → e ≤ (left_by earlier).epoch → (e ≤ (left_by (later ++ earlier)).epoch) × (below e (marks (later ++ earlier)) ≡ below e (marks earlier)) }
{}

/// The steps of a box within a trace are a history of it, in which what is given is resumed at once; and where the trace
/// waits for no resume of the box, nor does the history.
pub fn box_of_a_trace()
    ensures history { (setup : Setup) (items : List Item) → IsTrace setup items → IsHistory setup (box_of items) }
    ensures goes_on { (setup : Setup) (items : List Item) → IsTrace setup items → GoesOn (box_of items) }
    ensures rests { (setup : Setup) (items : List Item) → IsTrace setup items → awaited items ≡ None → given (box_of items) ≡ None }
{}

/// Where no step of the box lies within a call of `switched`, and its begins have the arguments that were asked for, the
/// history is one of a box that is rebound so.
pub fn rebound_in_a_trace()
    ensures rebound { (setup : Setup) (items : List Item) → IsTrace setup items → AllSwitched items → IsRebound (box_of items) }
{}

/// In a group over protocols that keep their order, all boxes that reached an epoch have the same marks below it; of the
/// marks of any two boxes one list begins the other; and so it is with their streams, where nothing waits for its resume.
pub fn prefix_law()
    ensures agree { (count : ℕ) (setup : ℕ → Setup) (steps : ℕ → List Step) (ups : ℕ → List Up) (protocol : ℕ → List Message → ℕ) → IsGroup count setup steps → IsOrdered steps ups protocol → (e v u : ℕ) → e ≤ (left_by (steps v)).epoch → e ≤ (left_by (steps u)).epoch → below e (marks (steps v)) ≡ below e (marks (steps u)) }
    ensures marks { (count : ℕ) (setup : ℕ → Setup) (steps : ℕ → List Step) (ups : ℕ → List Up) (protocol : ℕ → List Message → ℕ) → IsGroup count setup steps → IsOrdered steps ups protocol → (v u : ℕ) → Comparable (marks (steps v)) (marks (steps u)) }
    ensures streams { (count : ℕ) (setup : ℕ → Setup) (steps : ℕ → List Step) (ups : ℕ → List Up) (protocol : ℕ → List Message → ℕ) → IsGroup count setup steps → IsOrdered steps ups protocol → (v u : ℕ) → GoesOn (steps v) → GoesOn (steps u) → given (steps v) ≡ None → given (steps u) ≡ None → Comparable (stream (steps v)) (stream (steps u)) }
{}

/// The prefix law of the streams, of boxes that are seen within a trace.
pub fn prefix_law_of_traces()
    ensures streams { (count : ℕ) (setup : ℕ → Setup) (items : ℕ → List Item) (ups : ℕ → List Up) (protocol : ℕ → List Message → ℕ) → ((v : ℕ) → length (setup v).changes ≡ count) → ((v : ℕ) → IsTrace (setup v) (items v)) → ((v : ℕ) → length (box_of (items v)) < 2 ^ 64) → IsOrdered (λ v. box_of (items v)) ups protocol → (v u : ℕ) → awaited (items v) ≡ None → awaited (items u) ≡ None → Comparable (stream (box_of (items v))) (stream (box_of (items u))) }
{}
