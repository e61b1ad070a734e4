//! Laws of journals. Each function here has an empty body, and its contract says what is proved.
ghost use Rattle.std.specs.Prelude.{◌≡◌, ◌≢◌, ℕ, All, List, take};
ghost use Rattle.samoa_model.specs.declared.record.Step.{Step};
ghost use Rattle.samoa_model.specs.declared.script.Script.{Script};
ghost use Rattle.samoa_model.specs.Range.{IsInRange};
ghost use Rattle.samoa_report.specs.StepFields.{FitsStep};
ghost use Rattle.samoa_invariant.specs.Runs.{state};
ghost use Rattle.samoa_journal.specs.Finished.{IsComplete, IsFinished, replayed};
ghost use Rattle.samoa_replay.specs.Begun.{IsBegun};
ghost use Rattle.samoa_replay.specs.Faults.{IsFaultOf};
ghost use Rattle.samoa_replay.specs.declared.fault.ReplayFault.{ReplayFault};
ghost use Rattle.samoa_replay.specs.declared.fault.ReplayFault.TheVariants.{Memory};

/// A finished journal begins one, and so do the first of the lines that do. What the core stands at after them is
/// determined by them.
pub fn journals_begin()
    ensures finished { (script : Script) (steps : List Step) → IsFinished script steps → IsBegun script steps }
    ensures first { (script : Script) (steps : List Step) (n : ℕ) → IsBegun script steps → IsBegun script (take n steps) }
    ensures determined { (script : Script) (steps : List Step) (a b : IsBegun script steps)
        → state (replayed script a.clears steps) ≡ state (replayed script b.clears steps) }
{}

/// A complete journal has no fault, so that it is refused for want of memory alone.
pub fn complete_journals_have_no_fault()
    ensures { (script : Script) (steps : List Step) (fault : ReplayFault) → IsComplete script steps → IsFaultOf script steps fault → fault ≡ Memory }
{}

/// A journal has at most one fault beside want of memory.
pub fn one_fault()
    ensures { (script : Script) (steps : List Step) (fault other : ReplayFault) → IsFaultOf script steps fault → IsFaultOf script steps other → fault ≢ Memory → other ≢ Memory
        → fault ≡ other }
{}

/// The numbers of a finished journal have 32 bits, so that its lines can be read.
pub fn finished_journals_have_lines()
    ensures { (script : Script) (steps : List Step) → IsInRange script → IsFinished script steps → All FitsStep steps }
{}
