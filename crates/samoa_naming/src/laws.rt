//! What the script of a draft that passes keeps to.
ghost use Rattle.std.specs.Prelude.{◌≡◌, None};
ghost use Rattle.samoa_model.specs.Valid.{IsValid};
ghost use Rattle.samoa_grammar.specs.declared.draft.Draft.{Draft};
ghost use Rattle.samoa_grammar.specs.Meaning.{script_of};
ghost use Rattle.samoa_grammar.specs.Passes.{twice_fault, unknown_fault, totals_fault};
ghost use Rattle.samoa_form.specs.Limits.{HasLimits};

/// The script of a draft that passes is valid: it is in range, its names have their form and stand once, and what a
/// route, a list of handlers or a table has stands there once.
pub fn passed_is_valid()
    ensures { (x : Draft) → HasLimits x → twice_fault x ≡ None → unknown_fault x ≡ None → totals_fault x ≡ None → IsValid (script_of x) }
{}
