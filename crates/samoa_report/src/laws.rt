//! What a journal's text says: its steps, or its first bad line.
ghost use Rattle.std.specs.Prelude.{◌≡◌, ◌≢◌, ℕ, List, All};
ghost use Rattle.samoa_model.specs.declared.record.Step.{Step as StepValue};
ghost use Rattle.samoa_report.specs.Steps.{steps_text};
ghost use Rattle.samoa_report.specs.StepFields.{FitsStep};
ghost use Rattle.samoa_report.specs.BadLine.{IsBadLine};

/// A text is the lines of at most one list of steps whose numbers have 32 bits.
pub fn one_list_of_steps()
    ensures { (a b : List StepValue) → All FitsStep a → All FitsStep b → steps_text a ≡ steps_text b → a ≡ b }
{}

/// A text with a bad line is the lines of no steps whose numbers have 32 bits.
pub fn no_steps_beside_a_bad_line()
    ensures { (text : List ℕ) (line : ℕ) (steps : List StepValue) → IsBadLine text line → All FitsStep steps → steps_text steps ≢ text }
{}

/// A text has at most one first bad line.
pub fn one_bad_line()
    ensures { (text : List ℕ) (m n : ℕ) → IsBadLine text m → IsBadLine text n → m ≡ n }
{}
