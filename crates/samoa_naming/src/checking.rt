//! The passes after the first.
ghost use Rattle.std.specs.Prelude.{◌≡◌};
ghost use Rattle.samoa_grammar.specs.Passes.{twice_fault, unknown_fault, totals_fault};
ghost use Rattle.samoa_grammar.specs.Walks.{◌then◌};
ghost use Rattle.samoa_form.specs.Limits.{HasLimits};
ghost use Rattle.samoa_naming.specs.Finds.{Finds};

use crate::directory::Directory;
use crate::doubles::no_doubles;
use crate::totals::totals_within;
use crate::undefined::all_defined;
use samoa_form::Stop;
use std::alloc::Global;

/// That no name stands twice, that each name that is used is defined, and that each total is within its limit.
///
/// `Fault` holds the first fault, each pass over the whole script before the next. `Memory` comes where there was none.
pub fn check_names(alloc: Global, draft: &Directory) -> Result<(), Stop>
    requires { HasLimits draft.now }
    ensures { Finds result (twice_fault draft.now then unknown_fault draft.now then totals_fault draft.now) }
{
    no_doubles(draft)?;
    all_defined(draft)?;
    totals_within(alloc, draft)
}
