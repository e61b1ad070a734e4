//! Lists with one row after another.
ghost use Rattle.std.specs.Prelude.{◌≡◌, ◌≤◌, ◌+◌, ◌*◌};

/// The place of a column of a row, where there are few columns.
pub(crate) fn place(columns: usize, row: u32, column: u32) -> usize
    requires { columns ≤ 24 }
    ensures { result ≡ row * columns + column }
{
    row as usize * columns + column as usize
}
