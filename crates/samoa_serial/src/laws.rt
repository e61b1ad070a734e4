//! What holds of every script and of every computation. Each function here is a law: its body is empty, and its contract
//! says what is proved.
ghost use Rattle.std.specs.Prelude.{◌≡◌, ℕ, ◌+◌, ◌-◌, ◌*◌, ◌^◌, ◌<◌, ◌≤◌, List, [], ◌∷◌, ◌++◌, Bool, true, false, length, nat_lt, take};
ghost use Rattle.std.specs.List.{flat_map};
ghost use Rattle.samoa_model.specs.declared.handler.Moment.{Moment};
ghost use Rattle.samoa_model.specs.declared.ids.EventId.{EventId};
ghost use Rattle.samoa_model.specs.declared.record.Entry.{Entry};
ghost use Rattle.samoa_model.specs.declared.record.Ext.{Ext};
ghost use Rattle.samoa_model.specs.declared.script.Script.{Script};
ghost use Rattle.samoa_model.specs.Range.{IsExtOf, IsInRange};
ghost use Rattle.samoa_model.specs.Scripts.{micro_at, setup_of};
ghost use Rattle.samoa_serial.specs.declared.keys.Key.{Key};
ghost use Rattle.samoa_serial.specs.declared.message.Message.{Message};
ghost use Rattle.samoa_serial.specs.AbcastTable.{abcast_is_done, abcast_skip};
ghost use Rattle.samoa_serial.specs.Alone.{after, ended, opening};
ghost use Rattle.samoa_serial.specs.Batch.{asked_by, by_each, sent_by};
ghost use Rattle.samoa_serial.specs.History.{history};
ghost use Rattle.samoa_serial.specs.Kinds.{kind_step};
ghost use Rattle.samoa_serial.specs.Known.{EachEntry, HasSilentCode, IsKnown, IsOutcomeOf, IsStill};
ghost use Rattle.samoa_serial.specs.LimitedReport.{report_to};
ghost use Rattle.samoa_serial.specs.Lists.{Begins, Each};
ghost use Rattle.samoa_serial.specs.Origins.{IsAdmitted};
ghost use Rattle.samoa_serial.specs.Report.{report};
ghost use Rattle.samoa_serial.specs.Rows.{message_of};
ghost use Rattle.samoa_serial.specs.SerialRun.{ran_of, serial};
ghost use Rattle.samoa_serial.specs.State.{State};
ghost use Rattle.samoa_serial.specs.Ticks.{IsBatch, admitted_by, admitted_to, history_within, is_limited_by, is_limited_to};
ghost use Rattle.samoa_serial.specs.Whole.{Ran, event_whole};
ghost use Rattle.samoa_serial.specs.World.{AcceptsAtMostFour, Rules, States};

/// The explicit list of active calls agrees with the recursion over whole calls: after as many turns as the whole event
/// makes, it stands where the event ends, with the same states, turns, entries and value. Where nothing is active any
/// more, after however many turns, it stands there too.
pub fn turns_agree_with_the_recursion()
    ensures agree { (rules : Rules) (budget : ℕ) (states : States) (event : EventId) (arg : List ℕ)
        → after rules (opening rules budget states event arg) (length (event_whole rules budget states event arg).world.turns) ≡ ended (event_whole rules budget states event arg) }
    ensures idle { (rules : Rules) (budget : ℕ) (states : States) (event : EventId) (arg : List ℕ) (n : ℕ)
        → (after rules (opening rules budget states event arg) n).active ≡ []
        → after rules (opening rules budget states event arg) n ≡ ended (event_whole rules budget states event arg) }
{}

/// Where each event has at most four handlers, a computation makes at most `5 * budget + 4` handler steps.
pub fn handler_steps_are_few()
    ensures few { (rules : Rules) → AcceptsAtMostFour rules.attempt → (budget : ℕ) (states : States) (event : EventId) (arg : List ℕ)
        → length (event_whole rules budget states event arg).world.turns ≤ 5 * budget + 4 }
{}

/// Each handler step of a script in range, of any kind and from any state, names events, nodes and changes of the
/// script, and so does each entry of its computations.
pub fn outcomes_are_named()
    ensures named { (script : Script) → IsInRange script → (node p : ℕ) (state : State) (moment : Moment)
        → IsOutcomeOf script (kind_step (micro_at script p).kind (setup_of script node p) state moment).1 }
    ensures known { (script : Script) → IsInRange script → (exts : List Ext) → Each (EachEntry (IsKnown script)) (serial script exts).comps }
{}

/// Where an ordered broadcast looks for the next decision to hand on, it has passed all that were handed on before, as
/// many as there are, up to the last number.
pub fn drains_pass_what_was_handed_on()
    ensures passed { (done : List Key) (decisions : List (ℕ × Message)) (next : ℕ) → next + length decisions < 2 ^ 64 - 1
        → abcast_is_done done (message_of decisions (abcast_skip done decisions (length decisions) next)) ≡ false }
{}

/// What a script admits, with any limit: at most so many; where it isn't limited, all; each at a node that hasn't
/// crashed, from the script's own list, from a message or by a change that was asked for; and, of a script in range, at
/// one of its nodes and of one of its events or changes.
pub fn admissions_have_their_origin()
    ensures few { (most : ℕ) (script : Script) → length (admitted_to most script) ≤ most }
    ensures all { (most : ℕ) (script : Script) → is_limited_to most script ≡ false → admitted_to most script ≡ history_within most script script.ticks }
    ensures origin { (most : ℕ) (script : Script) (before : List Ext) (ext : Ext) (later : List Ext) → admitted_to most script ≡ before ++ ext ∷ later
        → IsAdmitted script before ext }
    ensures known { (most : ℕ) (script : Script) → IsInRange script → Each (IsExtOf script) (admitted_to most script) }
{}

/// What the first ticks admit, with any limit. Before the first tick nothing is admitted. While the limit isn't passed, a
/// tick adds as much of its batch as the limit leaves room for, and passes it where the batch has more; of the batch the
/// first places decide, one more than the limit. What fewer ticks admit comes first, and once the limit is passed no tick
/// adds anything.
pub fn ticks_add_up_to_the_limit()
    ensures none { (most : ℕ) (script : Script) → (admitted_by most script 0 ≡ []) × (is_limited_by most script 0 ≡ false) }
    ensures adds { (most : ℕ) (script : Script) (tick : ℕ) (batch : List Ext) → is_limited_by most script tick ≡ false → IsBatch most script tick batch
        → admitted_by most script (tick + 1) ≡ admitted_by most script tick ++ take (most - length (admitted_by most script tick)) batch }
    ensures passes { (most : ℕ) (script : Script) (tick : ℕ) (batch : List Ext) → is_limited_by most script tick ≡ false → IsBatch most script tick batch
        → is_limited_by most script (tick + 1) ≡ nat_lt (most - length (admitted_by most script tick)) (length batch) }
    ensures begins { (most : ℕ) (script : Script) (tick : ℕ) → tick ≤ script.ticks → Begins (admitted_by most script tick) (admitted_to most script) }
    ensures stays { (most : ℕ) (script : Script) (tick : ℕ) → tick ≤ script.ticks → is_limited_by most script tick ≡ true
        → (admitted_to most script ≡ admitted_by most script tick) × (is_limited_to most script ≡ true) }
    ensures ticks { (most : ℕ) (script : Script) (tick : ℕ) → Each (λ (ext : Ext). ext.tick ≤ tick) (admitted_by most script tick) }
    ensures known { (most : ℕ) (script : Script) (tick : ℕ) → IsInRange script → Each (IsExtOf script) (admitted_by most script tick) }
{}

/// What a tick brings by messages and by changes that were asked for: computations of ticks before the last bring nothing,
/// and one computation more brings what its own entries do. So no more is to be kept than what those of the last tick bring.
pub fn a_tick_brings_what_the_last_one_sent()
    ensures sent { (script : Script) (tick : ℕ) (exts : List Ext) (rans : List Ran) → Each (λ (ext : Ext). ext.tick + 1 < tick) exts
        → by_each (sent_by script tick) exts rans ≡ [] }
    ensures asked { (tick : ℕ) (exts : List Ext) (rans : List Ran) → Each (λ (ext : Ext). ext.tick + 1 < tick) exts
        → by_each (asked_by tick) exts rans ≡ [] }
    ensures one_more { (by : Ext → Entry → List Ext) (script : Script) (past : List Ext) (ext : Ext)
        → by_each by (past ++ ext ∷ []) (serial script (past ++ ext ∷ [])).comps
        ≡ by_each by past (serial script past).comps ++ flat_map (by ext) (ran_of script past ((serial script past).states ext.node.0) ext).world.entries }
{}

/// Where no node crashes and nothing is sent or asked for, a script admits its own items and nothing else, and its
/// report is theirs, with no limit line. So it is where no microprotocol is a link or a replacement, no instruction
/// sends or asks, and no node crashes.
pub fn quiet_scripts_have_the_plain_history()
    ensures still { (script : Script) → script.crashes ≡ [] → HasSilentCode script → IsStill script }
    ensures admitted { (most : ℕ) (script : Script) → IsStill script → length script.does ≤ most → admitted_to most script ≡ history script }
    ensures unlimited { (most : ℕ) (script : Script) → IsStill script → length script.does ≤ most → is_limited_to most script ≡ false }
    ensures report { (most : ℕ) (script : Script) → IsStill script → length script.does ≤ most → (calls : Bool) → report_to most script calls ≡ report script calls }
{}
