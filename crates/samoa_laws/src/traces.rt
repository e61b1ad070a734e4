//! The trace of a serial run, for any script: the list of all handler steps, the last one first, each with its computation, its
//! call, what it was given, the states before and after it, what it answered, and whether that took effect. A cut step has none.
//! Each function is a law: its body is empty, and its contract says what is proved.
ghost use Rattle.std.specs.Prelude.{◌≡◌, ◌≤◌, ◌+◌, ◌*◌, ◌++◌, ℕ, List, length};
ghost use Rattle.std.specs.List.{flat_map};
ghost use Rattle.samoa_model.specs.declared.record.Ext.{Ext};
ghost use Rattle.samoa_model.specs.declared.script.Script.{Script};
ghost use Rattle.samoa_serial.specs.Whole.{Ran};
ghost use Rattle.samoa_serial.specs.SerialRun.{opening_states, serial};
ghost use Rattle.samoa_laws.specs.trace.Trace.{HandlerStep, given, given_at, outputs, outputs_at, state_at, trace};
ghost use Rattle.samoa_laws.specs.trace.Causes.{EndsWell, IsSmall, IsTrace};

/// Each step follows those before it: it finds what the last step at its box left, it was called or goes on after its
/// call's last step, and after a step that took effect comes what its outcome asks for. A computation ends only with a
/// step that is done or took no effect.
pub fn each_step_follows()
    ensures follows { (script : Script) (exts : List Ext) → IsTrace script exts (trace script exts) }
    ensures ended { (script : Script) (exts : List Ext) → EndsWell (trace script exts) }
{}

/// The states and the outputs of the serial run are those of its trace.
pub fn traces_are_serial()
    ensures states { (script : Script) (exts : List Ext) (v p : ℕ) → (serial script exts).states v p ≡ state_at (opening_states script) (trace script exts) v p }
    ensures outputs_are { (script : Script) (exts : List Ext)
        → flat_map (λ (ran : Ran). outputs ran.world.entries) (serial script exts).comps ≡ given (trace script exts) }
    ensures outputs_there { (script : Script) (exts : List Ext) (v : ℕ) → outputs_at v exts (serial script exts).comps ≡ given_at v (trace script exts) }
{}

/// What comes later only adds steps.
pub fn traces_grow()
    ensures grown { (script : Script) (exts later : List Ext) → (more : List HandlerStep) × (trace script (exts ++ later) ≡ more ++ trace script exts) }
{}

/// A trace has at most 5 * b + 4 steps for each computation, where b is the greatest budget.
pub fn traces_are_short()
    ensures few { (script : Script) (b : ℕ) (exts : List Ext) → IsSmall script b → length (trace script exts) ≤ (5 * b + 4) * length exts }
{}
