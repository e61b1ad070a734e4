//! The theorem of the group stack: no two nodes disagree. It holds of every group history: messages may be lost, repeated and
//! reordered, nodes may stop, computations may be cut by their budget. The laws suppose nothing else, and say nothing of progress.
//! Each function is a law: its body is empty, and its contract says what is proved.
ghost use Rattle.std.specs.Prelude.{◌≡◌, ◌++◌, ℕ, List, Some};
ghost use Rattle.samoa_model.specs.declared.record.Ext.{Ext};
ghost use Rattle.samoa_model.specs.declared.script.Script.{Script};
ghost use Rattle.samoa_serial.specs.declared.message.Message.{Message};
ghost use Rattle.samoa_laws.specs.trace.Group.{IsGroupHistory};
ghost use Rattle.samoa_laws.specs.trace.Trace.{trace};
ghost use Rattle.samoa_laws.specs.replacement.Group.{IsOrdered};
ghost use Rattle.samoa_laws.specs.replacement.History.{begin_alike};
ghost use Rattle.samoa_laws.specs.lists.Lists.{Comparable, IsApart};
ghost use Rattle.samoa_laws.specs.streams.Ordered.{AreSubmitted, KeepsOrder, protocol, ups_at};
ghost use Rattle.samoa_laws.specs.streams.Streams.{repl_at, stream_at};
ghost use Rattle.samoa_laws.specs.consensus.Decided.{decided_at};

/// Two decisions of one instance of consensus are equal, at any nodes, after any two first parts of the history. Of the
/// streams that two nodes deliver one begins the other, across any number of replacements of the broadcast, also after any two
/// first parts. No two messages of a stream have the same origin and number.
pub fn nodes_agree()
    ensures decisions { (script : Script) (exts before after earlier later : List Ext) (v u i : ℕ) (m n : Message) → IsGroupHistory script exts
        → exts ≡ before ++ after → exts ≡ earlier ++ later → decided_at script before v i ≡ Some m → decided_at script earlier u i ≡ Some n → m ≡ n }
    ensures streams { (script : Script) (exts : List Ext) (v u : ℕ) → IsGroupHistory script exts → Comparable (stream_at script exts v) (stream_at script exts u) }
    ensures streams_then { (script : Script) (exts before after earlier later : List Ext) (v u : ℕ) → IsGroupHistory script exts
        → exts ≡ before ++ after → exts ≡ earlier ++ later → Comparable (stream_at script before v) (stream_at script earlier u) }
    ensures apart { (script : Script) (exts : List Ext) (v : ℕ) → IsGroupHistory script exts → IsApart begin_alike (stream_at script exts v) }
{}

/// The two broadcasts keep one order at all nodes, and all that they call up was given to them at some node.
pub fn broadcasts_keep_order()
    ensures order { (script : Script) (exts : List Ext) → IsGroupHistory script exts → KeepsOrder script exts }
    ensures given { (script : Script) (exts : List Ext) → IsGroupHistory script exts → AreSubmitted script exts }
{}

/// So the replacement layers of all nodes are ordered: each message comes up by the broadcast of its epoch, which the marks of
/// the epochs before decide.
pub fn replacement_layers_are_ordered()
    ensures ordered { (script : Script) (exts : List Ext) → IsGroupHistory script exts
        → IsOrdered (λ v. repl_at v (trace script exts)) (λ v. ups_at v (trace script exts)) protocol }
{}
