//! What the replacement layer delivers at the nodes of a group history: the stream of a node is the list of the words that its
//! layer, microprotocol 6, delivered, in order. What is supposed of the broadcasts below (`KeepsOrder`, `AreSubmitted`) is proved
//! in `stack`. Each function is a law: its body is empty, and its contract says what is proved.
ghost use Rattle.std.specs.Prelude.{◌≡◌, ◌++◌, ℕ, List};
ghost use Rattle.samoa_model.specs.declared.record.Ext.{Ext};
ghost use Rattle.samoa_model.specs.declared.script.Script.{Script};
ghost use Rattle.samoa_laws.specs.trace.Trace.{HandlerStep, trace};
ghost use Rattle.samoa_laws.specs.trace.Group.{IsGroupHistory};
ghost use Rattle.samoa_laws.specs.replacement.Casts.{IsRebound};
ghost use Rattle.samoa_laws.specs.replacement.Group.{IsOrdered};
ghost use Rattle.samoa_laws.specs.replacement.History.{GoesOn, IsHistory, begin_alike, stream};
ghost use Rattle.samoa_laws.specs.lists.Lists.{Begins, Comparable, IsApart};
ghost use Rattle.samoa_laws.specs.streams.Ordered.{AreSubmitted, KeepsOrder, protocol, ups_at};
ghost use Rattle.samoa_laws.specs.streams.Streams.{repl_at, repl_setup, stream_at};

/// No message stands twice in a stream: no two of it have the same origin and number.
pub fn no_message_comes_twice()
    ensures apart { (script : Script) (exts : List Ext) (v : ℕ) → IsGroupHistory script exts → IsApart begin_alike (stream_at script exts v) }
{}

/// A stream only grows.
pub fn streams_grow()
    ensures grown { (script : Script) (before later : List Ext) (v : ℕ) → Begins (stream_at script before v) (stream_at script (before ++ later) v) }
{}

/// The steps of the replacement layer at a node are a history of its box, in which what is given is resumed at once. It is
/// rebound as it asked: its rebindings begin with what it asked for, in order, and no step of it lies within a call of
/// `switched`. Its stream is that of the node.
pub fn box_of_a_node()
    ensures history { (script : Script) (exts : List Ext) (v : ℕ) → IsGroupHistory script exts → IsHistory (repl_setup script v) (repl_at v (trace script exts)) }
    ensures goes_on { (script : Script) (exts : List Ext) (v : ℕ) → IsGroupHistory script exts → GoesOn (repl_at v (trace script exts)) }
    ensures rebound { (script : Script) (exts : List Ext) (v : ℕ) → IsGroupHistory script exts → IsRebound (repl_at v (trace script exts)) }
    ensures stream_is { (script : Script) (exts : List Ext) (v : ℕ) → stream_at script exts v ≡ stream (repl_at v (trace script exts)) }
{}

/// Where the two broadcasts keep their order, and what they call up was given to them, the replacement layers of all nodes
/// are ordered: each message comes up by the broadcast of its epoch, which the marks of the epochs before decide.
pub fn boxes_are_ordered()
    ensures ordered { (script : Script) (exts : List Ext) → IsGroupHistory script exts → KeepsOrder script exts → AreSubmitted script exts
        → IsOrdered (λ v. repl_at v (trace script exts)) (λ v. ups_at v (trace script exts)) protocol }
{}

/// Then of the streams of any two nodes one begins the other, across all replacements, and at any two times.
pub fn one_stream_begins_the_other()
    ensures comparable { (script : Script) (exts : List Ext) (v u : ℕ) → IsGroupHistory script exts → KeepsOrder script exts → AreSubmitted script exts
        → Comparable (stream_at script exts v) (stream_at script exts u) }
    ensures earlier { (script : Script) (exts now more past later : List Ext) (v u : ℕ) → IsGroupHistory script exts → KeepsOrder script exts → AreSubmitted script exts
        → exts ≡ now ++ more → exts ≡ past ++ later → Comparable (stream_at script now v) (stream_at script past u) }
{}
