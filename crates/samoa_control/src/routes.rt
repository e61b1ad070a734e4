//! Where the routes of a script lead, found once.
ghost use Rattle.std.specs.Prelude.{IfOk};
ghost use Rattle.samoa_model.specs.Range.{IsInRange};
ghost use Rattle.samoa_control.specs.Forms.{IsMasked, IsTestable};
ghost use Rattle.samoa_control.specs.Masked.{AreMasked};

use samoa_model::{Decl, NoMemory, Script};
use samoa_vca_route::Masks;
use std::alloc::Global;

/// By the number of a declaration the masks of its route, and None where it isn't one.
pub(crate) fn masks_of(alloc: Global, script: &Script) -> Result<Vec<Option<Masks>>, NoMemory>
    requires { IsInRange script.now }
    ensures { IfOk result (λ masks. AreMasked script.now masks.items) }
{
    let mut all = Vec::new(alloc);
    for decl in script.decls.as_slice() {
        let masks = masks_of_one(alloc, &decl.decl)?;
        all.push(masks)?;
    }
    Ok(all)
}

fn masks_of_one(alloc: Global, decl: &Decl) -> Result<Option<Masks>, NoMemory>
    requires { IsTestable decl.now }
    ensures { IfOk result (λ masks. IsMasked decl.now masks) }
{
    match decl {
        Decl::Set { .. } | Decl::Bound { .. } => Ok(None),
        Decl::Route { .. } => Ok(Some(Masks::new(alloc, decl)?)),
    }
}
