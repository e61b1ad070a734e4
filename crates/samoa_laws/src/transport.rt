//! What is received in the group stack was sent, and what begins was called. Steps, lists and admissions are those of a group
//! history. Each function is a law: its body is empty, and its contract says what is proved.
ghost use Rattle.std.specs.Prelude.{◌≡◌, ◌≤◌, ◌⊎◌, ◌++◌, ◌∷◌, ◌<◌, ◌^◌, length, true, ℕ, List};
ghost use Rattle.samoa_model.specs.declared.handler.Outcome.{Outcome};
ghost use Rattle.samoa_model.specs.declared.ids.EventId.{EventId};
ghost use Rattle.samoa_model.specs.declared.ids.HandlerId.{HandlerId};
ghost use Rattle.samoa_model.specs.declared.record.Ext.{Ext};
ghost use Rattle.samoa_model.specs.declared.script.Script.{Script};
ghost use Rattle.samoa_laws.specs.trace.Trace.{HandlerStep, trace};
ghost use Rattle.samoa_laws.specs.transport.Callers.{WasCalled};
ghost use Rattle.samoa_laws.specs.trace.Group.{IsGroupHistory, event_for, handler};
ghost use Rattle.samoa_laws.specs.transport.Transport.{BeginsAt, BeginsNext, IsCast, IsHeard, owner};

/// Each begin of a channel's receive handler has the words that the channel's microprotocol at the node `from` told in
/// an earlier step, to this node or to all. Channel 2 is consensus, channel 3 the sequencer protocol.
pub fn what_is_received_was_told()
    ensures heard { (script : Script) (exts : List Ext) (past : List HandlerStep) (chan node : ℕ) (arg : List ℕ) → IsGroupHistory script exts → chan ≤ 3
        → BeginsAt script exts past node (handler (owner chan) 1) arg → IsHeard script past chan node arg }
{}

/// Each begin of consensus' `decide` and of abcast's `heard` has an origin, a number and the words of an earlier cast of
/// reliable broadcast at some node, which was called by consensus with first word 1 or by abcast with first word 0.
pub fn what_is_handed_up_was_cast()
    ensures cast { (script : Script) (exts : List Ext) (past : List HandlerStep) (node : ℕ) (h : HandlerId) (arg : List ℕ) → IsGroupHistory script exts
        → (h ≡ handler 3 2) ⊎ (h ≡ handler 4 1) → BeginsAt script exts past node h arg → IsCast past arg }
{}

/// A handler of an event from 1 to 13 begins where an earlier step at that node called the event with those words: one of
/// a microprotocol that calls this event, in a computation in whose table the event is bound to the handler.
pub fn each_begin_was_called()
    ensures called { (script : Script) (exts : List Ext) (past : List HandlerStep) (node : ℕ) (h : HandlerId) (arg : List ℕ) → IsGroupHistory script exts
        → 1 ≤ event_for h → event_for h ≤ 13 → BeginsAt script exts past node h arg → WasCalled script exts past node h arg }
{}

/// No call is refused: after a step whose call took effect the event's first handler begins, in the same computation.
pub fn no_call_is_refused()
    ensures begins { (script : Script) (exts : List Ext) (more past : List HandlerStep) (b x : HandlerStep) (called : EventId) (arg frame : List ℕ)
        → IsGroupHistory script exts → trace script exts ≡ more ++ x ∷ b ∷ past → b.effective ≡ true → b.outcome ≡ Outcome.Call called arg frame
        → BeginsNext script exts b x called arg }
{}

/// A group history has fewer than 2 ^ 32 handler steps, so no count of them comes to the end of its type.
pub fn group_histories_are_short()
    ensures few { (script : Script) (exts : List Ext) → IsGroupHistory script exts → length (trace script exts) < 2 ^ 32 }
{}
