//! Which lists of admissions the laws speak of: group histories.
//! Each function is a law: its body is empty, and its contract says what is proved.
ghost use Rattle.std.specs.Prelude.{List};
ghost use Rattle.samoa_model.specs.Range.{IsInRange};
ghost use Rattle.samoa_model.specs.declared.record.Ext.{Ext};
ghost use Rattle.samoa_model.specs.declared.script.Script.{Script};
ghost use Rattle.samoa_serial.specs.Ticks.{admitted};
ghost use Rattle.samoa_laws.specs.lists.Lists.{Begins};
ghost use Rattle.samoa_laws.specs.trace.Group.{IsGroup, IsGroupHistory};

/// What a script of the group stack admits, with whatever losses and crashes it has, is a group history: at most 100,000
/// admissions, each of a free event (`cast`, `beat`, `nudge`, `ask`), of a message that an earlier computation sent to this node
/// or to all, or of the next change of bindings that the node asked for.
pub fn what_group_scripts_admit()
    ensures allowed { (script : Script) → IsGroup script → IsInRange script → IsGroupHistory script (admitted script) }
{}

/// The first part of a group history is a group history: so each law holds at each point between two computations.
pub fn first_parts_are_histories()
    ensures history { (script : Script) (exts before : List Ext) → IsGroupHistory script exts → Begins before exts → IsGroupHistory script before }
{}
