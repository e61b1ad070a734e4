//! The lines of faults, and the line of a generated script.
ghost use Rattle.std.specs.Prelude.{◌≡◌, ◌++◌, codes, decimal, IfOk, OnOk};
ghost use Rattle.samoa_run.specs.Due.{fault_line as line_of, fault_text, few_cells};
ghost use Rattle.samoa_run.specs.Made.{counts_line};
ghost use Rattle.samoa_run.specs.Replays.{replay_line as line_of_replay};

use itoa::Buffer;
use samoa_model::{Name, NoMemory};
use samoa_script::ScriptFault;
use samoa_ticks::Totals;
use std::alloc::Global;

/// The line of a script's fault.
pub fn fault_line(alloc: Global, fault: &ScriptFault) -> Result<Vec<u8>, NoMemory>
    ensures { IfOk result (λ line. line.items ≡ line_of fault.now) }
{
    let mut line = Vec::new(alloc);
    push(b"! script ", &mut line)?;
    push_fault(fault, &mut line)?;
    push(b"\n", &mut line)?;
    Ok(line)
}

/// The line of cells that aren't enough for a script.
pub fn cells_line(alloc: Global, cells: u32, needed: u32) -> Result<Vec<u8>, NoMemory>
    ensures { IfOk result (λ line. line.items ≡ few_cells cells needed) }
{
    let mut line = Vec::new(alloc);
    push(b"! cells ", &mut line)?;
    push(Buffer::new().format(cells).as_bytes(), &mut line)?;
    push(b" ", &mut line)?;
    push(Buffer::new().format(needed).as_bytes(), &mut line)?;
    push(b"\n", &mut line)?;
    Ok(line)
}

/// The line of a journal that isn't accepted: why, and at which line or computation.
pub fn replay_line(alloc: Global, cause: &[u8], at: u32) -> Result<Vec<u8>, NoMemory>
    ensures { IfOk result (λ line. line.items ≡ line_of_replay cause.now at) }
{
    let mut line = Vec::new(alloc);
    push(b"! replay ", &mut line)?;
    push(cause, &mut line)?;
    push(b" ", &mut line)?;
    push(Buffer::new().format(at).as_bytes(), &mut line)?;
    push(b"\n", &mut line)?;
    Ok(line)
}

/// The line of a generated script: its number, and how many computations, deliveries and refusals there were.
pub fn totals_line(alloc: Global, n: u32, totals: Totals) -> Result<Vec<u8>, NoMemory>
    ensures { IfOk result (λ line. line.items ≡ counts_line n totals.comps totals.deliveries totals.refusals) }
{
    let mut line = Vec::new(alloc);
    push(b"G ", &mut line)?;
    push_number(u64::from(n), &mut line)?;
    push(b" ", &mut line)?;
    push_number(u64::from(totals.comps), &mut line)?;
    push(b" ", &mut line)?;
    push_number(totals.deliveries, &mut line)?;
    push(b" ", &mut line)?;
    push_number(totals.refusals, &mut line)?;
    push(b"\n", &mut line)?;
    Ok(line)
}

fn push_fault(fault: &ScriptFault, line: &mut Vec<u8>) -> Result<(), NoMemory>
    ensures { OnOk result (line.new.items ≡ line.old.items ++ fault_text fault.now) }
{
    match fault {
        ScriptFault::TooLong => push(b"TooLong", line),
        ScriptFault::NotJson => push(b"NotJson", line),
        ScriptFault::Missing { key } => push_named(b"Missing ", key, line),
        ScriptFault::WrongForm { key } => push_named(b"WrongForm ", key, line),
        ScriptFault::Unknown { name } => push_named(b"Unknown ", name, line),
        ScriptFault::Twice { name } => push_named(b"Twice ", name, line),
        ScriptFault::Over { name, limit } => push_over(name, *limit, line),
        ScriptFault::Memory => push(b"Memory", line),
    }
}

fn push_named(fault: &[u8], name: &Name, line: &mut Vec<u8>) -> Result<(), NoMemory>
    ensures { OnOk result (line.new.items ≡ line.old.items ++ (fault.now ++ name.now)) }
{
    push(fault, line)?;
    push(name.as_str().as_bytes(), line)
}

fn push_over(name: &Name, limit: u64, line: &mut Vec<u8>) -> Result<(), NoMemory>
    ensures { OnOk result (line.new.items ≡ line.old.items ++ (codes "Over " ++ (name.now ++ (codes " " ++ decimal limit)))) }
{
    push_named(b"Over ", name, line)?;
    push(b" ", line)?;
    push(Buffer::new().format(limit).as_bytes(), line)
}

fn push_number(number: u64, line: &mut Vec<u8>) -> Result<(), NoMemory>
    ensures { OnOk result (line.new.items ≡ line.old.items ++ decimal number) }
{
    push(Buffer::new().format(number).as_bytes(), line)
}

fn push(text: &[u8], line: &mut Vec<u8>) -> Result<(), NoMemory>
    ensures { OnOk result (line.new.items ≡ line.old.items ++ text.now) }
{
    line.extend_from_slice(text)?;
    Ok(())
}
