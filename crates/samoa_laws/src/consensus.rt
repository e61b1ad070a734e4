//! Consensus: any two decisions of one instance are equal. First over the histories of the boxes of any group, and then over
//! the steps of consensus in a group history. Each function is a law: its body is empty, and its contract says what is proved.
ghost use Rattle.std.specs.Prelude.{◌≡◌, ℕ, List, ◌∷◌, drop, Some};
ghost use Rattle.samoa_serial.specs.Rows.{word, port_at, message_at, message_of};
ghost use Rattle.samoa_serial.specs.State.{ConsState};
ghost use Rattle.samoa_serial.specs.ConsTable.{letter_at, cons_step};
ghost use Rattle.samoa_model.specs.declared.handler.Moment.{Moment};
ghost use Rattle.samoa_serial.specs.declared.message.Message.{Message};
ghost use Rattle.samoa_model.specs.declared.setup.Setup.{Setup};
ghost use Rattle.samoa_laws.specs.lists.Lists.{In, Begins};
ghost use Rattle.samoa_laws.specs.trace.Boxes.{left_by};
ghost use Rattle.samoa_laws.specs.consensus.Consensus.{cons_opening, NodeStep, box_of, letter_by, announced_by, decided_by, decided, IsConsensus, IsSetUp, decision_of};
ghost use Rattle.samoa_model.specs.declared.record.Ext.{Ext};
ghost use Rattle.samoa_model.specs.declared.script.Script.{Script};
ghost use Rattle.samoa_laws.specs.trace.Group.{IsGroupHistory, handler};
ghost use Rattle.samoa_serial.specs.Lists.{In};
ghost use Rattle.samoa_laws.specs.trace.Trace.{HandlerStep, trace};
ghost use Rattle.samoa_laws.specs.transport.Transport.{BeginsAt};
ghost use Rattle.samoa_laws.specs.consensus.AtBoxes.{cons_setup, cons_steps};
ghost use Rattle.samoa_laws.specs.consensus.Decisions.{HasDecided, WasProposed, decision};
ghost use Rattle.samoa_model.specs.declared.handler.Outcome.TheVariants as gives;
ghost use Rattle.samoa_laws.specs.consensus.Consensus as of_boxes;

/// Any two decisions of one instance are equal, at whichever nodes and whenever they were made: so the decisions are a function of the instance.
/// Those that stand in the states of two boxes are equal too. What is decided was proposed to that instance. What stands in a box
/// was passed on there.
pub fn agreement()
    ensures equal { (n : ℕ) (setups : ℕ → Setup) (steps : List (NodeStep ConsState)) → IsSetUp n setups → IsConsensus n setups steps → (i : ℕ) (m other : Message) → In (i, m) (decided steps) → In (i, other) (decided steps) → m ≡ other }
    ensures function { (n : ℕ) (setups : ℕ → Setup) (steps : List (NodeStep ConsState)) → IsSetUp n setups → IsConsensus n setups steps → (i : ℕ) (m : Message) → In (i, m) (decided steps) → decision_of steps i ≡ Some m }
    ensures standing { (n : ℕ) (setups : ℕ → Setup) (steps : List (NodeStep ConsState)) → IsSetUp n setups → IsConsensus n setups steps → (i v u : ℕ) (m other : Message) → message_of (left_by cons_opening (box_of steps v)).decisions i ≡ Some m → message_of (left_by cons_opening (box_of steps u)).decisions i ≡ Some other → m ≡ other }
    ensures valid { (n : ℕ) (setups : ℕ → Setup) (steps : List (NodeStep ConsState)) → IsSetUp n setups → IsConsensus n setups steps → (i : ℕ) (m : Message) → In (i, m) (decided steps) → of_boxes.WasProposed steps i m }
    ensures passed { (n : ℕ) (setups : ℕ → Setup) (steps : List (NodeStep ConsState)) → IsConsensus n setups steps → (v i : ℕ) (m : Message) → message_of (left_by cons_opening (box_of steps v)).decisions i ≡ Some m → In (i, m) (decided steps) }
{}

/// Where the events of the three ports differ, a call of a box of consensus at its first port counts as a letter, at its second as an announcement, at its third as a decision.
pub fn outcomes_by_port()
    ensures letter { (setup : Setup) (s : ConsState) (moment : Moment) (node : ℕ) (arg frame : List ℕ) → (port_at setup 0 ≡ port_at setup 1 → ⊥) → (port_at setup 0 ≡ port_at setup 2 → ⊥) → (cons_step setup s moment).1 ≡ gives.Call (port_at setup 0) arg frame → letter_by node (cons_step setup s moment).1 ≡ Some (letter_at (node ∷ drop 2 arg)) }
    ensures announced { (setup : Setup) (s : ConsState) (moment : Moment) (arg frame : List ℕ) → (port_at setup 1 ≡ port_at setup 0 → ⊥) → (port_at setup 1 ≡ port_at setup 2 → ⊥) → (cons_step setup s moment).1 ≡ gives.Call (port_at setup 1) arg frame → announced_by (cons_step setup s moment).1 ≡ Some (word arg 1, message_at arg 2) }
    ensures decided { (setup : Setup) (s : ConsState) (moment : Moment) (arg frame : List ℕ) → (port_at setup 2 ≡ port_at setup 0 → ⊥) → (port_at setup 2 ≡ port_at setup 1 → ⊥) → (cons_step setup s moment).1 ≡ gives.Call (port_at setup 2) arg frame → decided_by (cons_step setup s moment).1 ≡ Some (word arg 0, message_at arg 1) }
{}

/// Decisions agree: where the boxes of consensus at two nodes, each after some first part of a group history, both have a
/// decision of an instance, it is the same. It is the decision of the whole history.
pub fn decisions_agree()
    ensures equal { (script : Script) (exts before other : List Ext) → IsGroupHistory script exts → Begins before exts → Begins other exts
        → (v u i : ℕ) (m n : Message) → HasDecided script before v i m → HasDecided script other u i n → m ≡ n }
    ensures standing { (script : Script) (exts before : List Ext) → IsGroupHistory script exts → Begins before exts
        → (v i : ℕ) (m : Message) → HasDecided script before v i m → decision script exts i ≡ Some m }
{}

/// Where the broadcast through consensus is told of a decision, at whichever node, it is the decision of that instance. Each
/// decision was proposed to its instance at some node.
pub fn decisions_are_passed_on()
    ensures given { (script : Script) (exts : List Ext) (past : List HandlerStep) (node : ℕ) (arg : List ℕ) → IsGroupHistory script exts
        → BeginsAt script exts past node (handler 4 2) arg → decision script exts (word arg 0) ≡ Some (message_at arg 1) }
    ensures valid { (script : Script) (exts : List Ext) (i : ℕ) (m : Message) → IsGroupHistory script exts → decision script exts i ≡ Some m → WasProposed script exts i m }
{}

/// The consensus steps of a group history are a history of consensus, and `decided` of the broadcast through consensus
/// begins with what was decided in it.
pub fn consensus_steps_are_a_history()
    ensures history { (script : Script) (exts : List Ext) → IsGroupHistory script exts → IsConsensus script.nodes (cons_setup script) (cons_steps (trace script exts)) }
    ensures given { (script : Script) (exts : List Ext) (past : List HandlerStep) (node : ℕ) (arg : List ℕ) → IsGroupHistory script exts
        → BeginsAt script exts past node (handler 4 2) arg → In (word arg 0, message_at arg 1) (decided (cons_steps past)) }
{}
