//! How many payload cells a script needs.
ghost use Rattle.std.specs.Prelude.{◌≡◌, ◌≤◌};
ghost use Rattle.std.specs.List.{All};
ghost use Rattle.samoa_model.specs.Range.{HasBudget};
ghost use Rattle.samoa_model.specs.Cells.{need as cells_needed, greatest_budget as greatest};

use samoa_model::{DeclDef, Script};

/// The payload cells that a script needs: 16 for each unit of its greatest budget, and 16 more.
pub fn need(script: &Script) -> u32
    requires budgets { All HasBudget script.now.decls }
    ensures { result ≡ cells_needed script.now }
{
    16 * greatest_budget(script.decls.as_slice()) + 16
}

fn greatest_budget(decls: &[DeclDef]) -> u32
    requires budgets { All HasBudget decls.now }
    ensures value { result ≡ greatest decls.now }
    ensures few { result ≤ 256 }
{
    let mut most = 0;
    for decl in decls {
        most = most.max(decl.budget);
    }
    most
}
