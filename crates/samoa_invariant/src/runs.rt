//! The laws of a core whose journal is a run of a script over what was admitted. Computations are numbered from 1.
ghost use Rattle.std.specs.Prelude.{◌≡◌, ℕ, suc, ◌+◌, ◌-◌, ◌*◌, ◌<◌, ◌≤◌, ◌⊎◌, List, Option, Some, length, true, false};
ghost use Rattle.std.specs.List.{All};
ghost use Rattle.samoa_model.specs.declared.record.Ext.{Ext};
ghost use Rattle.samoa_model.specs.declared.record.Step.{Step};
ghost use Rattle.samoa_model.specs.declared.script.Script.{Script};
ghost use Rattle.samoa_serial.specs.SerialRun.{serial};
ghost use Rattle.samoa_model.specs.Range.{IsInRange};
ghost use Rattle.samoa_model.specs.Scripts.{decl_of};
ghost use Rattle.samoa_invariant.specs.Play.{Play, turns};
ghost use Rattle.samoa_invariant.specs.Index.{Index, IsIndexed};
ghost use Rattle.samoa_invariant.specs.Inv.{Invariant};
ghost use Rattle.samoa_invariant.specs.Parts.{StandsSerially};
ghost use Rattle.samoa_invariant.specs.Picking.{BringsBack, GoesOnItself, IsEnterOf, IsFirstToEnter, IsLeastUnended, IsOutTo, IsPick, NoEnterIsDue, StaysOut};
ghost use Rattle.samoa_invariant.specs.Settling.{EndsAll, EndsBefore, LeavesTheRest, ReleasesAll, ReleasesBefore, Settles, with_steps};
ghost use Rattle.samoa_invariant.specs.State.{AllEnded, Core, IsSettled, NothingOut, Reached, admit, left, named};
ghost use Rattle.samoa_invariant.specs.Runs.{ArePoints, GoesOn, IsDue, IsRun, IsServed, Trace, after_step, cleared, ext_at, has_abandon, opening_trace, play, state, with_clear, with_ext, with_step};

/// A run begins with nothing done, and grows by steps that are enabled and by clears where all have ended. What is
/// admitted later changes nothing of it.
pub fn runs_grow()
    ensures opening { (script : Script) (cells : ℕ) → IsRun (opening_trace script cells) }
    ensures step { (t : Trace) (step : Step) → IsRun t → IsDue t step → IsRun (with_step t step) }
    ensures step_state { (t : Trace) (step : Step) → IsRun t → state (with_step t step) ≡ after_step (play t) (state t) step }
    ensures clear { (t : Trace) → IsRun t → AllEnded (state t) → 0 < (state t).cells → IsRun (with_clear t) }
    ensures clear_state { (t : Trace) → state (with_clear t) ≡ cleared (state t) }
    ensures ext { (t : Trace) (ext : Ext) → IsRun t → IsRun (with_ext t ext) }
    ensures ext_state { (t : Trace) (ext : Ext) → IsRun t → state (with_ext t ext) ≡ state t }
{}

/// Whatever the order of its steps, a run keeps the invariant; `parts` says it in the words of the versions, the handler
/// steps and the boxes.
pub fn runs_keep_the_invariant()
    ensures reached { (t : Trace) → IsRun t → Reached (play t) (state t) }
    ensures kept { (t : Trace) → IsRun t → Invariant (play t) (state t) }
    ensures parts { (t : Trace) → IsRun t → StandsSerially (play t) (state t) }
    ensures admitted { (t : Trace) → IsRun t → (state t).count ≤ length t.exts }
    ensures few { (t : Trace) → IsRun t → (state t).count ≤ 100000 }
{}

/// A computation that has ended has its entries and its ending of the serial run, whether or not others have ended. A
/// box stands at the serial point of the computation that has its turn there, and where none has, after all.
pub fn runs_are_serial()
    ensures answers { (t : Trace) (comp : ℕ) → IsRun t → 0 < comp → comp ≤ (state t).count → (state t).ended (comp - 1) ≡ true → IsServed t comp }
    ensures points { (t : Trace) → IsRun t → ArePoints t }
    ensures states { (t : Trace) (node : ℕ) (p : ℕ) → IsRun t → (state t).count ≡ length t.exts → AllEnded (state t) → (state t).boxes node p ≡ (serial t.script t.exts).states node p }
    ensures home { (t : Trace) → IsRun t → AllEnded (state t) → NothingOut (state t) }
{}

/// Where nothing was abandoned, all have ended or a step goes on: an Enter, a Leave, a Release or an End. Each of these
/// leaves fewer steps to come.
pub fn runs_go_on()
    ensures onward { (t : Trace) → IsRun t → (state t).stopped ≡ false → AllEnded (state t) ⊎ ((step : Step) × GoesOn step × IsDue t step) }
    ensures fewer { (t : Trace) (step : Step) → IsRun t → GoesOn step → IsDue t step → left (play t) (state (with_step t step)) < left (play t) (state t) }
{}

/// Which releases are made and in which order, and which ends, is determined, and so is what settling makes of a run.
pub fn settling_is_determined()
    ensures releases { (t u v : Trace) → IsRun t → ReleasesAll t u → ReleasesAll t v → u ≡ v }
    ensures ends { (t u v : Trace) → IsRun t → EndsAll t u → EndsAll t v → u ≡ v }
    ensures settles { (t u v : Trace) → IsRun t → Settles t u → Settles t v → u ≡ v }
{}

/// A settled core has no release and no end due: the ends let no release become due. A run stays a run, nothing is moved
/// but local versions and what has ended, and no more is left to do.
pub fn settling_settles()
    ensures settled { (t u : Trace) → IsRun t → Settles t u → IsSettled (play u) (state u) }
    ensures settles { (t u : Trace) → IsRun t → Settles t u → LeavesTheRest t u }
    ensures releases { (t u : Trace) → IsRun t → ReleasesAll t u → LeavesTheRest t u }
    ensures ends { (t u : Trace) → IsRun t → EndsAll t u → LeavesTheRest t u }
{}

/// An Enter and an Abandon let no release and no end become due.
pub fn handler_steps_begin_settled()
    ensures enter { (t : Trace) (comp micro : ℕ) → IsRun t → IsSettled (play t) (state t) → IsSettled (play t) (state (with_step t (Step.Enter comp micro))) }
    ensures abandon { (t : Trace) (comp : ℕ) → IsRun t → IsSettled (play t) (state t) → IsSettled (play t) (state (with_step t (Step.Abandon comp))) }
{}

/// A core is stopped exactly where a handler step was abandoned.
pub fn an_abandon_stops()
    ensures { (t : Trace) → (state t).stopped ≡ has_abandon t.journal }
{}

/// The least computation whose Enter is due is determined. Where no step was abandoned, no release and no end is due and
/// nothing is out, there is none exactly where all have ended, and else it is the least that hasn't.
pub fn pick_is_none_exactly_at_the_end()
    ensures determined { (t : Trace) (a b : Option ℕ) → IsPick t a → IsPick t b → a ≡ b }
    ensures ended { (t : Trace) → IsRun t → has_abandon t.journal ≡ false → IsSettled (play t) (state t) → NothingOut (state t) → NoEnterIsDue t → AllEnded (state t) }
    ensures none { (t : Trace) → IsRun t → AllEnded (state t) → NoEnterIsDue t }
    ensures least { (t : Trace) (comp : ℕ) → IsRun t → has_abandon t.journal ≡ false → IsSettled (play t) (state t) → NothingOut (state t) → IsLeastUnended t comp → IsFirstToEnter t comp }
{}

/// Where something is out, its Leave is due. Else, where no step was abandoned and not all have ended, a Release, the End
/// or the Enter of the least computation that hasn't is due.
pub fn a_step_is_due()
    ensures leave { (t : Trace) (node micro k : ℕ) → IsRun t → (state t).out node micro ≡ Some k → IsDue t (Step.Leave (suc k)) }
    ensures unended { (t : Trace) → AllEnded (state t) ⊎ ((comp : ℕ) × IsLeastUnended t comp) }
    ensures goes_on { (t : Trace) (comp : ℕ) → IsRun t → NothingOut (state t) → has_abandon t.journal ≡ false → IsLeastUnended t comp → GoesOnItself t comp }
{}

/// What is out to a computation stays out, with its state and the calls of the computation, while none of the later steps
/// brings it back; and none of them is an Enter of the computation.
pub fn what_is_out_stays_out()
    ensures stays { (t : Trace) (later : List Step) (comp micro : ℕ) → IsRun (with_steps t later) → IsOutTo t comp micro → All (λ step. BringsBack comp step → ⊥) later
        → StaysOut t (with_steps t later) comp micro }
    ensures once { (t : Trace) (later : List Step) (comp micro : ℕ) → IsRun (with_steps t later) → IsOutTo t comp micro → All (λ step. BringsBack comp step → ⊥) later
        → All (λ step. IsEnterOf comp step → ⊥) later }
{}

/// An admission adds to the steps still to come at most twice its handler steps, one for each microprotocol that its
/// declaration names, and two; and its handler steps are at most five for each unit and four.
pub fn admissions_add_few_steps()
    ensures added { (play : Play) (core : Core) → left play (admit play core) ≤ left play core + (2 * turns play core.count + length (named (play.decl core.count)) + 2) }
    ensures steps { (t : Trace) (k : ℕ) → IsInRange t.script → k < length t.exts → turns (play t) k ≤ 5 * (decl_of t.script (ext_at t.exts k)).budget + 4 }
{}

/// An index leads. In a core that isn't stopped the least computation that is ready is the first to enter, and where none
/// is ready none is. Where a pass of releases, or of ends, has been made of the computations before one, it has been made
/// of those before the least marked one too, and where none is marked it is complete.
pub fn an_index_leads()
    ensures first { (t : Trace) (first : ℕ) (index : Index) (k : ℕ) → IsRun t → IsIndexed (play t) first (state t) index → (state t).stopped ≡ false → first ≤ k → k < (state t).count
        → index.ready k ≡ true → ((j : ℕ) → first ≤ j → j < k → index.ready j ≡ false) → IsFirstToEnter t (suc k) }
    ensures none { (t : Trace) (first : ℕ) (index : Index) → IsRun t → IsIndexed (play t) first (state t) index → ((k : ℕ) → first ≤ k → index.ready k ≡ false) → NoEnterIsDue t }
    ensures releases { (t u : Trace) (first : ℕ) (index : Index) (c k : ℕ) → IsRun u → IsIndexed (play u) first (state u) index → ReleasesBefore t u c → c ≤ suc k
        → ((j : ℕ) → first ≤ j → j < k → index.restless j ≡ false) → ReleasesBefore t u (suc k) }
    ensures released { (t u : Trace) (first : ℕ) (index : Index) (c : ℕ) → IsRun u → IsIndexed (play u) first (state u) index → ReleasesBefore t u c
        → ((j : ℕ) → first ≤ j → index.restless j ≡ false) → ReleasesAll t u }
    ensures ends { (t u : Trace) (first : ℕ) (index : Index) (c k : ℕ) → IsIndexed (play u) first (state u) index → EndsBefore t u c → c ≤ suc k
        → ((j : ℕ) → first ≤ j → j < k → index.closing j ≡ false) → EndsBefore t u (suc k) }
    ensures ended { (t u : Trace) (first : ℕ) (index : Index) (c : ℕ) → IsIndexed (play u) first (state u) index → EndsBefore t u c
        → ((j : ℕ) → first ≤ j → index.closing j ≡ false) → EndsAll t u }
{}
