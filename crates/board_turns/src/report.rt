//! What is written of computations that have ended.
ghost use Rattle.std.specs.Prelude.{◌≡◌, ◌<◌, ◌≤◌, ◌-◌, [], length, true};
ghost use Rattle.samoa_invariant.specs.State.{AllEnded};
ghost use Rattle.samoa_invariant.specs.Runs.{state};
ghost use Rattle.samoa_control.specs.Since.{cleared_comps};

use samoa_core::Core;
use samoa_micro::Micro;
use samoa_model::{NoMemory, Script};
use samoa_report::{end_line, entry_line, ext_line};
use std::alloc::Global;

/// The lines of all computations, those of calls among them.
pub fn report<B: Micro>(alloc: Global, script: &Script, core: &Core<B>) -> Result<Vec<u8>, NoMemory>
    requires clears { core.now.clears ≡ [] }
    requires ended { AllEnded (state core.now) }
{
    let mut text = Vec::new(alloc);
    for before in 0..core.admitted() {
        push_comp(script, core, before + 1, &mut text)?;
    }
    Ok(text)
}

/// Appends the lines of one computation.
fn push_comp<B: Micro>(
    script: &Script,
    core: &Core<B>,
    comp: u32,
    text: &mut Vec<u8>,
) -> Result<(), NoMemory>
    requires kept { cleared_comps core.now < comp }
    requires admitted { comp ≤ length core.now.exts }
    requires ended { (state core.now).ended (comp - 1) ≡ true }
{
    ext_line(script, comp, &core.ext(comp), text)?;
    for at in 0..usize::MAX {
        let Some(entry) = core.entry(comp, at) else {
            break;
        };
        entry_line(script, comp, &entry, true, text)?;
    }
    end_line(comp, &core.ending(comp), text)
}
