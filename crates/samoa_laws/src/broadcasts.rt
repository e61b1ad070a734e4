//! The two atomic broadcasts: abcast, by consensus, and seqcast, by the sequencer at node 0. First their total order, over the
//! histories of their boxes; then that the boxes of a group history have such histories, and what the replacement layer is handed.
//! There 4 is abcast, 5 seqcast and 6 the replacement layer. Each function is a law: its body is empty, and its contract says
//! what is proved.
ghost use Rattle.std.specs.Prelude.{◌≡◌, ◌<◌, ◌≤◌, ◌+◌, ◌^◌, ℕ, List, [], ◌∷◌, length, Option, Some, ◌⊎◌, ◌++◌};
ghost use Rattle.samoa_serial.specs.Rows.{word, me, V, call, port_at, message_at, message_words, message_of};
ghost use Rattle.samoa_serial.specs.State.{AbcastState, SeqcastState};
ghost use Rattle.samoa_serial.specs.AbcastTable.{abcast_step};
ghost use Rattle.samoa_serial.specs.SeqcastTable.{seqcast_step};
ghost use Rattle.samoa_model.specs.declared.handler.Moment.{Moment};
ghost use Rattle.samoa_serial.specs.declared.message.Message.{Message};
ghost use Rattle.samoa_model.specs.declared.setup.Setup.{Setup};
ghost use Rattle.samoa_laws.specs.lists.Lists.{Begins, Comparable, In};
ghost use Rattle.samoa_laws.specs.lists.Messages.{first_of_keys, first_places};
ghost use Rattle.samoa_laws.specs.trace.Boxes.{BoxStep, left_by};
ghost use Rattle.samoa_laws.specs.broadcasts.Boxes.{WasCast, raised_by, called_up};
ghost use Rattle.samoa_laws.specs.broadcasts.Abcast.{abcast_opening, AbcastMay, IsAbcast, IsAbcastBox, up_to, WasDecided, WasHeard};
ghost use Rattle.samoa_laws.specs.broadcasts.Seqcast.{seqcast_opening, SeqcastMay, IsSeqcast, IsSeqcastBox, told_by, told, numbered};
ghost use Rattle.samoa_model.specs.Scripts.{setup_of};
ghost use Rattle.samoa_model.specs.declared.record.Ext.{Ext};
ghost use Rattle.samoa_model.specs.declared.script.Script.{Script};
ghost use Rattle.samoa_serial.specs.Lists.{In};
ghost use Rattle.samoa_laws.specs.trace.Trace.{HandlerStep, trace};
ghost use Rattle.samoa_laws.specs.trace.Group.{IsGroupHistory, handler};
ghost use Rattle.samoa_laws.specs.broadcasts.Begun.{AreProposed, IsAheadBy, IsCastDown, IsDecided, IsHandedOn, IsPart, WasSubmitted, abcast_steps, begun, begun_by, seqcast_steps};
ghost use Rattle.samoa_laws.specs.consensus.Decisions.{WasProposed};
ghost use Rattle.samoa_model.specs.declared.handler.Outcome.TheVariants as gives;
ghost use Rattle.samoa_laws.specs.broadcasts.Seqcast as of_boxes;

/// Two boxes of abcast that are given the decisions of one function call up one order: of their lists of messages,
/// each message at its first place only, one is a prefix of the other. Both are the first messages of each key among
/// the decisions of the instances 1 to m, for some m. What is called up is the decision of an instance, with which `decided` began.
pub fn abcast_order()
    ensures prefix { (decision : ℕ → Option Message) (setup other : Setup) (steps more : List (BoxStep AbcastState)) → IsAbcast setup decision steps → IsAbcast other decision more → length steps < 2 ^ 32 → length more < 2 ^ 32 → Comparable (first_places (called_up steps)) (first_places (called_up more)) }
    ensures shape { (decision : ℕ → Option Message) (setup : Setup) (steps : List (BoxStep AbcastState)) → IsAbcast setup decision steps → length steps < 2 ^ 32 → (m : ℕ) × (first_places (called_up steps) ≡ first_of_keys (up_to decision m)) }
    ensures valid { (decision : ℕ → Option Message) (setup : Setup) (steps : List (BoxStep AbcastState)) → IsAbcast setup decision steps → length steps < 2 ^ 32 → (m : Message) → In m (called_up steps) → (i : ℕ) × (decision i ≡ Some m) × WasDecided steps i m }
{}

/// What a box of seqcast calls up, each message at its first place only, is a prefix of what the sequencer's box numbered;
/// so of two boxes one list is a prefix of the other. This holds of the sequencer's own box too. What is called up was submitted to the sequencer.
/// A box of another node numbers nothing.
pub fn seqcast_order()
    ensures numbered { (sequencer setup : Setup) (numbering steps : List (BoxStep SeqcastState)) → IsSeqcastBox sequencer numbering → IsSeqcast setup (told numbering) steps → length numbering < 2 ^ 32 → length steps < 2 ^ 32 → Begins (first_places (called_up steps)) (numbered numbering) }
    ensures prefix { (sequencer setup other : Setup) (numbering steps more : List (BoxStep SeqcastState)) → IsSeqcastBox sequencer numbering → IsSeqcast setup (told numbering) steps → IsSeqcast other (told numbering) more → length numbering < 2 ^ 32 → length steps < 2 ^ 32 → length more < 2 ^ 32 → Comparable (first_places (called_up steps)) (first_places (called_up more)) }
    ensures own { (sequencer setup : Setup) (numbering steps : List (BoxStep SeqcastState)) → IsSeqcast sequencer (told numbering) numbering → IsSeqcast setup (told numbering) steps → length numbering < 2 ^ 32 → length steps < 2 ^ 32 → Comparable (first_places (called_up numbering)) (first_places (called_up steps)) }
    ensures valid { (sequencer setup : Setup) (numbering steps : List (BoxStep SeqcastState)) → IsSeqcastBox sequencer numbering → IsSeqcast setup (told numbering) steps → length numbering < 2 ^ 32 → length steps < 2 ^ 32 → (m : Message) → In m (called_up steps) → of_boxes.WasSubmitted numbering m }
    ensures elsewhere { (setup : Setup) (steps : List (BoxStep SeqcastState)) → IsSeqcastBox setup steps → (me setup ≡ V setup 1 → ⊥) → told steps ≡ [] }
{}

/// The counters stay far from the end of their type: each is at most the steps of its box, or one more. What the sequencer's box told with a number is the message of that number.
pub fn counters()
    ensures abcast { (decision : ℕ → Option Message) (setup : Setup) (steps : List (BoxStep AbcastState)) → IsAbcast setup decision steps → length steps < 2 ^ 32 → (left_by abcast_opening steps).next ≤ length steps + 1 }
    ensures seqcast { (sequencer setup : Setup) (numbering steps : List (BoxStep SeqcastState)) → IsSeqcastBox sequencer numbering → IsSeqcast setup (told numbering) steps → length numbering < 2 ^ 32 → length steps < 2 ^ 32 → (left_by seqcast_opening steps).next ≤ length steps + 1 }
    ensures numbered { (setup : Setup) (steps : List (BoxStep SeqcastState)) → IsSeqcastBox setup steps → length steps < 2 ^ 32 → ((left_by seqcast_opening steps).numbered ≡ length (told steps)) × (length (told steps) ≤ length steps) }
    ensures told { (setup : Setup) (steps : List (BoxStep SeqcastState)) → IsSeqcastBox setup steps → length steps < 2 ^ 32 → (x : ℕ) (m : Message) → In (x, m) (told steps) → (message_of (told steps) x ≡ Some m) × (1 ≤ x) × (x ≤ length (told steps)) }
{}

/// What is read off an outcome goes with its port. Where the events of the ports differ, a call at the port upwards is one that counts as such,
/// and a call of seqcast at its port for sending, with the tag 1, tells a message with its number. The other way round it holds whatever the ports.
pub fn outcomes_by_port()
    ensures abcast { (setup : Setup) (s : AbcastState) (moment : Moment) (arg frame : List ℕ) → (port_at setup 2 ≡ port_at setup 0 → ⊥) → (port_at setup 2 ≡ port_at setup 1 → ⊥) → (abcast_step setup s moment).1 ≡ gives.Call (port_at setup 2) arg frame → raised_by (abcast_step setup s moment).1 ≡ Some (word frame 1, message_at arg 0) }
    ensures abcast_back { (setup : Setup) (s : AbcastState) (moment : Moment) (x : ℕ) (m : Message) → raised_by (abcast_step setup s moment).1 ≡ Some (x, m) → (abcast_step setup s moment).1 ≡ call setup 2 (message_words m) (1 ∷ x ∷ []) }
    ensures seqcast { (setup : Setup) (s : SeqcastState) (moment : Moment) (arg frame : List ℕ) → (port_at setup 1 ≡ port_at setup 0 → ⊥) → (seqcast_step setup s moment).1 ≡ gives.Call (port_at setup 1) arg frame → raised_by (seqcast_step setup s moment).1 ≡ Some (word frame 1, message_at arg 0) }
    ensures seqcast_back { (setup : Setup) (s : SeqcastState) (moment : Moment) (x : ℕ) (m : Message) → raised_by (seqcast_step setup s moment).1 ≡ Some (x, m) → (seqcast_step setup s moment).1 ≡ call setup 1 (message_words m) (1 ∷ x ∷ []) }
    ensures told { (setup : Setup) (s : SeqcastState) (moment : Moment) (arg frame : List ℕ) → (port_at setup 1 ≡ port_at setup 0 → ⊥) → word arg 2 ≡ 1 → (seqcast_step setup s moment).1 ≡ gives.Call (port_at setup 0) arg frame → told_by (seqcast_step setup s moment).1 ≡ Some (word arg 3, message_at arg 4) }
    ensures told_back { (setup : Setup) (s : SeqcastState) (moment : Moment) (x : ℕ) (m : Message) → told_by (seqcast_step setup s moment).1 ≡ Some (x, m) → (seqcast_step setup s moment).1 ≡ call setup 0 (setup.nodes ∷ V setup 0 ∷ 1 ∷ x ∷ message_words m) (0 ∷ []) }
{}

/// Where the events of the ports differ: what a box of abcast proposes it has heard, and what it broadcasts has the tag 0 and was cast there;
/// what a box of seqcast sends with the tag 0 was cast there.
pub fn given_to_the_box()
    ensures proposed { (setup : Setup) (steps : List (BoxStep AbcastState)) → IsAbcastBox setup steps → (port_at setup 1 ≡ port_at setup 0 → ⊥) → (port_at setup 1 ≡ port_at setup 2 → ⊥) → (s : BoxStep AbcastState) (arg frame : List ℕ) → In s steps → s.outcome ≡ gives.Call (port_at setup 1) arg frame → WasHeard steps (message_at arg 1) }
    ensures broadcast { (setup : Setup) (steps : List (BoxStep AbcastState)) → IsAbcastBox setup steps → (port_at setup 0 ≡ port_at setup 1 → ⊥) → (port_at setup 0 ≡ port_at setup 2 → ⊥) → (s : BoxStep AbcastState) (arg frame : List ℕ) → In s steps → s.outcome ≡ gives.Call (port_at setup 0) arg frame → (word arg 0 ≡ 0) × WasCast steps (message_at arg 1) }
    ensures submitted { (setup : Setup) (steps : List (BoxStep SeqcastState)) → IsSeqcastBox setup steps → (port_at setup 0 ≡ port_at setup 1 → ⊥) → (s : BoxStep SeqcastState) (arg frame : List ℕ) → In s steps → s.outcome ≡ gives.Call (port_at setup 0) arg frame → word arg 2 ≡ 0 → WasCast steps (message_at arg 3) }
{}

/// The steps at a box of abcast, and at one of seqcast, are a history of it, at any point of the trace. For abcast each
/// begin of `decided` is supposed to have the decision of its instance; the numbers of seqcast are those that node 0's box told.
pub fn boxes_have_histories()
    ensures abcast { (decision : ℕ → Option Message) (script : Script) (exts : List Ext) (past : List HandlerStep) (v : ℕ) → IsGroupHistory script exts → IsPart script exts past
        → IsDecided script exts decision → IsAbcast (setup_of script v 4) decision (abcast_steps v past) }
    ensures seqcast { (script : Script) (exts : List Ext) (past : List HandlerStep) (v : ℕ) → IsGroupHistory script exts → IsPart script exts past
        → IsSeqcast (setup_of script v 5) (told (seqcast_steps 0 (trace script exts))) (seqcast_steps v past) }
    ensures abcast_any { (script : Script) (exts : List Ext) (past : List HandlerStep) (v : ℕ) → IsGroupHistory script exts → IsPart script exts past
        → IsAbcastBox (setup_of script v 4) (abcast_steps v past) × (length (abcast_steps v past) < 2 ^ 32) }
    ensures seqcast_any { (script : Script) (exts : List Ext) (past : List HandlerStep) (v : ℕ) → IsGroupHistory script exts → IsPart script exts past
        → IsSeqcastBox (setup_of script v 5) (seqcast_steps v past) × (length (seqcast_steps v past) < 2 ^ 32) }
{}

/// The messages that `deliver` of the replacement layer begins with at a node are those that the two broadcasts call up
/// there, in their order: exactly so between two computations, and at any point up to one that is just being called up.
/// It is called by nothing else, and begins right after the call.
pub fn deliveries_are_calls()
    ensures abcast { (script : Script) (exts : List Ext) (v : ℕ) → IsGroupHistory script exts → called_up (abcast_steps v (trace script exts)) ≡ begun_by 4 v (trace script exts) }
    ensures seqcast { (script : Script) (exts : List Ext) (v : ℕ) → IsGroupHistory script exts → called_up (seqcast_steps v (trace script exts)) ≡ begun_by 5 v (trace script exts) }
    ensures abcast_within { (script : Script) (exts : List Ext) (past : List HandlerStep) (v : ℕ) → IsGroupHistory script exts → IsPart script exts past
        → IsAheadBy (called_up (abcast_steps v past)) (begun_by 4 v past) }
    ensures seqcast_within { (script : Script) (exts : List Ext) (past : List HandlerStep) (v : ℕ) → IsGroupHistory script exts → IsPart script exts past
        → IsAheadBy (called_up (seqcast_steps v past)) (begun_by 5 v past) }
    ensures at_once { (script : Script) (exts : List Ext) (past : List HandlerStep) (x : HandlerStep) (arg : List ℕ) → IsGroupHistory script exts → IsPart script exts (x ∷ past)
        → x.call.handler ≡ handler 6 1 → x.moment ≡ Moment.Begin 1 arg → IsHandedOn past x arg }
    ensures callers { (script : Script) (exts : List Ext) (past : List HandlerStep) (v p : ℕ) (m : Message) → IsGroupHistory script exts → IsPart script exts past
        → In (p, m) (begun v past) → (p ≡ 4) ⊎ (p ≡ 5) }
{}

/// `cast` of a broadcast is called by the replacement layer alone, and begins right after the call.
pub fn casts_are_calls()
    ensures at_once { (script : Script) (exts : List Ext) (past : List HandlerStep) (x : HandlerStep) (arg : List ℕ) → IsGroupHistory script exts → IsPart script exts (x ∷ past)
        → (x.call.handler ≡ handler 4 0) ⊎ (x.call.handler ≡ handler 5 0) → x.moment ≡ Moment.Begin 0 arg → IsCastDown past x arg }
{}

/// Of the messages with which a broadcast begins `deliver` at two nodes, each message at its first place only, one list is
/// a prefix of the other, at any two points of the trace.
pub fn broadcasts_agree()
    ensures abcast { (decision : ℕ → Option Message) (script : Script) (exts : List Ext) (past other : List HandlerStep) (v u : ℕ) → IsGroupHistory script exts
        → IsPart script exts past → IsPart script exts other → IsDecided script exts decision
        → Comparable (first_places (begun_by 4 v past)) (first_places (begun_by 4 u other)) }
    ensures seqcast { (script : Script) (exts : List Ext) (past other : List HandlerStep) (v u : ℕ) → IsGroupHistory script exts
        → IsPart script exts past → IsPart script exts other
        → Comparable (first_places (begun_by 5 v past)) (first_places (begun_by 5 u other)) }
{}

/// A message with which a broadcast begins `deliver` was given to it: its `cast` began with the message at some node. What
/// is proposed to consensus was cast by abcast; what abcast begins `deliver` with was decided, and is supposed to have been proposed.
pub fn broadcasts_are_valid()
    ensures proposed { (script : Script) (exts : List Ext) (i : ℕ) (m : Message) → IsGroupHistory script exts → WasProposed script exts i m → WasSubmitted script exts 4 m }
    ensures decided { (decision : ℕ → Option Message) (script : Script) (exts : List Ext) (past : List HandlerStep) (v : ℕ) (m : Message) → IsGroupHistory script exts
        → IsPart script exts past → IsDecided script exts decision → In m (begun_by 4 v past) → (i : ℕ) × (decision i ≡ Some m) }
    ensures abcast { (decision : ℕ → Option Message) (script : Script) (exts : List Ext) (past : List HandlerStep) (v : ℕ) (m : Message) → IsGroupHistory script exts
        → IsPart script exts past → IsDecided script exts decision → AreProposed script exts decision → In m (begun_by 4 v past) → WasSubmitted script exts 4 m }
    ensures seqcast { (script : Script) (exts : List Ext) (past : List HandlerStep) (v : ℕ) (m : Message) → IsGroupHistory script exts
        → IsPart script exts past → In m (begun_by 5 v past) → WasSubmitted script exts 5 m }
{}
