//! The lines of a journal.
ghost use Rattle.std.specs.Prelude.{◌≡◌, ◌++◌, codes, decimal, OnOk, OnErr};
ghost use Rattle.std.specs.Io.{StartsWith};
ghost use Rattle.samoa_report.specs.Steps.{journal_head, step_at, step_of, step_text};

use crate::push::{push_byte, push_number, push_text, whole_or_cut};
use samoa_model::{NoMemory, Step};

/// Appends the line of a step: `a` for an admission, `e` for an Enter, `l` for a Leave, `b` for an Abandon, `r` for a
/// Release and `n` for an End, the computation, and for `e` and `r` the microprotocol.
///
/// Want of memory leaves `out` as it was.
pub fn step_line(step: &Step, out: &mut Vec<u8>) -> Result<(), NoMemory>
    ensures ok { OnOk result (out.new.items ≡ out.old.items ++ step_text step.now) }
    ensures err { OnErr result (out.new.items ≡ out.old.items) }
{
    let start = out.len();
    let pushed = push_step(step, out);
    whole_or_cut(pushed, start, out)
}

/// Appends the first line of a journal after a report: `J`, and how many steps it has.
///
/// Want of memory leaves `out` as it was.
pub fn journal_line(count: u64, out: &mut Vec<u8>) -> Result<(), NoMemory>
    ensures ok { OnOk result (out.new.items ≡ out.old.items ++ journal_head count) }
    ensures err { OnErr result (out.new.items ≡ out.old.items) }
{
    let start = out.len();
    let pushed = push_line(b"J ", count, out);
    whole_or_cut(pushed, start, out)
}

fn push_step(step: &Step, out: &mut Vec<u8>) -> Result<(), NoMemory>
    ensures ok { OnOk result (out.new.items ≡ out.old.items ++ step_text step.now) }
    ensures err { OnErr result (StartsWith out.new.items out.old.items) }
{
    match *step {
        Step::Admit { comp } => push_line(b"a ", u64::from(comp), out),
        Step::Enter { comp, micro } => push_pair(b"e ", comp, micro, out),
        Step::Leave { comp } => push_line(b"l ", u64::from(comp), out),
        Step::Abandon { comp } => push_line(b"b ", u64::from(comp), out),
        Step::Release { comp, micro } => push_pair(b"r ", comp, micro, out),
        Step::End { comp } => push_line(b"n ", u64::from(comp), out),
    }
}

/// A letter, a number and the line feed.
fn push_line(letter: &[u8], number: u64, out: &mut Vec<u8>) -> Result<(), NoMemory>
    ensures ok { OnOk result (out.new.items ≡ out.old.items ++ step_of letter.now number) }
    ensures err { OnErr result (StartsWith out.new.items out.old.items) }
{
    push_text(letter, out)?;
    push_number(number, out)?;
    push_byte(b'\n', out)
}

/// A letter, two numbers and the line feed.
fn push_pair(letter: &[u8], comp: u32, micro: u32, out: &mut Vec<u8>) -> Result<(), NoMemory>
    ensures ok { OnOk result (out.new.items ≡ out.old.items ++ step_at letter.now comp micro) }
    ensures err { OnErr result (StartsWith out.new.items out.old.items) }
{
    push_text(letter, out)?;
    push_number(u64::from(comp), out)?;
    push_byte(b' ', out)?;
    push_number(u64::from(micro), out)?;
    push_byte(b'\n', out)
}
