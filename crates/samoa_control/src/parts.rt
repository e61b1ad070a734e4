//! The parts of a script that an admission is judged by.
ghost use Rattle.std.specs.Prelude.{◌≡◌, ◌<◌, ◌≤◌, length};
ghost use Rattle.samoa_model.specs.Cells.{cells_of as computation_cells};
ghost use Rattle.samoa_model.specs.Range.{IsCauseOf, IsExtOf, IsInRange};
ghost use Rattle.samoa_model.specs.Scripts.{decl_at, root_of as root_event};
ghost use Rattle.samoa_control.specs.Known.{decl_number as declaration_number};

use samoa_model::{Cause, DeclDef, EventId, Ext, Script};

/// The event that is called when a computation begins.
pub(crate) fn root_of(script: &Script, cause: Cause) -> EventId
    requires { IsCauseOf script.now cause }
    ensures { result ≡ root_event script.now cause }
{
    match cause {
        Cause::Event(event) => event,
        Cause::Change(change) => script.changes.as_slice()[change.0 as usize].event,
    }
}

/// The number of the declaration that an admission is judged by.
pub(crate) fn decl_number(script: &Script, ext: &Ext) -> u32
    requires in_range { IsInRange script.now }
    requires named { IsExtOf script.now ext.now }
    ensures number { result ≡ declaration_number script.now ext.now }
    ensures within { result < length script.now.decls }
{
    let root = root_of(script, ext.cause);
    script.events.as_slice()[root.0 as usize].decl
}

/// The declaration with this number.
pub(crate) fn decl_in(script: &Script, number: u32) -> &DeclDef
    requires { number < length script.now.decls }
    ensures { result.now ≡ decl_at script.now number }
{
    &script.decls.as_slice()[number as usize]
}

/// How many cells a computation holds from its admission on.
pub(crate) fn cells_of(script: &Script, ext: &Ext) -> u32
    requires in_range { IsInRange script.now }
    requires named { IsExtOf script.now ext.now }
    ensures cells { result ≡ computation_cells script.now ext.now }
    ensures few { result ≤ 4112 }
{
    let number = decl_number(script, ext);
    16 * decl_in(script, number).budget + 16
}
