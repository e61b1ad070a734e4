//! Journals of whole runs: definitions in `specs/`, and laws. Each function here is a law: it has an empty body, and its
//! contract says what is proved.
#![tactic(auto)]

ghost use Rattle.std.specs.Prelude.{◌≡◌, ◌≤◌, ◌++◌, Bool, List, length};
ghost use Rattle.samoa_model.specs.declared.record.Ext.{Ext};
ghost use Rattle.samoa_model.specs.declared.record.Step.{Step};
ghost use Rattle.samoa_serial.specs.Lists.{Each};
ghost use Rattle.samoa_serial.specs.Ticks.{admitted};
ghost use Rattle.samoa_invariant.specs.State.{AllEnded};
ghost use Rattle.samoa_invariant.specs.Runs.{IsRun, Trace, state};
ghost use Rattle.samoa_journal.specs.Finished.{IsFinished, OpensTicks, most_cells};
ghost use Rattle.samoa_journal.specs.Parts.{AdmitsNone, IsPacked};

/// The journal of a core that ran all that its script admits, tick by tick, is finished, however few its cells were and
/// wherever it was cleared: a core with more cells, which is cleared wherever all have ended, makes the same steps.
pub fn runs_are_finished()
    ensures { (t : Trace) → IsRun t → t.cells ≤ most_cells → t.exts ≡ admitted t.script → OpensTicks t
        → (state t).count ≡ length t.exts → AllEnded (state t) → IsFinished t.script t.journal }
{}

/// A core that runs in parts admits the first computation of each tick only where all earlier ones have ended.
pub fn parts_open_ticks()
    ensures { (alone : Bool) (t : Trace) (next : List Ext) → IsRun t → IsPacked alone t next → OpensTicks t }
{}

/// Once all were admitted, no later step admits a computation.
pub fn later_steps_admit_none()
    ensures { (t u : Trace) (steps : List Step) → u.journal ≡ t.journal ++ steps → u.exts ≡ t.exts → (state t).count ≡ length t.exts → (state u).count ≡ length u.exts
        → Each AdmitsNone steps }
{}
