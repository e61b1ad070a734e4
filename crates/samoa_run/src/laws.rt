//! Laws of replays. Each function here has an empty body, and its contract says what is proved.
ghost use Rattle.std.specs.Prelude.{◌≡◌, ◌≢◌, ◌≤◌, ◌++◌, ◌∷◌, ℕ, All, List, false, length};
ghost use Rattle.samoa_model.specs.declared.record.Step.{Step};
ghost use Rattle.samoa_model.specs.declared.script.Script.{Script};
ghost use Rattle.samoa_grammar.specs.Held.{Holds};
ghost use Rattle.samoa_journal.specs.Finished.{IsComplete};
ghost use Rattle.samoa_report.specs.Steps.{steps_text};
ghost use Rattle.samoa_serial.specs.LimitedReport.{report_in_full};
ghost use Rattle.samoa_run.specs.Replays.{IsDueFor};
ghost use Rattle.samoa_run.specs.declared.reading.TheConstants.{REPLAY_LIMIT};

/// At most one status and one text are due for the input of a replay.
pub fn one_reply_is_due()
    ensures status { (input : List ℕ) (a b : ℕ) (x y : List ℕ) → IsDueFor input a x → IsDueFor input b y → a ≡ b }
    ensures text { (input : List ℕ) (a b : ℕ) (x y : List ℕ) → IsDueFor input a x → IsDueFor input b y → x ≡ y }
{}

/// The journal of a run that the limit didn't end, after its script on one line: the report is due, with status 0. So such a
/// journal is refused for no other cause than the input's limit.
pub fn journals_of_runs_are_accepted()
    ensures { (line : List ℕ) (script : Script) (steps : List Step) → All (λ (c : ℕ). c ≢ 10) line → Holds line script → IsComplete script steps
        → length (line ++ 10 ∷ steps_text steps) ≤ REPLAY_LIMIT
        → IsDueFor (line ++ 10 ∷ steps_text steps) 0 (report_in_full script false) }
{}
