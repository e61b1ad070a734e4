//! The journal after a report.
ghost use Rattle.std.specs.Prelude.{◌≡◌, ◌≤◌, OnOk, OnErr};
ghost use Rattle.std.specs.Io.KnownBytes.{Appends};
ghost use Rattle.samoa_ends.specs.Pieces.{AppendsPrefix};
ghost use Rattle.samoa_report.specs.Steps.{journal_head, journal_text, step_text as text_of_step, steps_text as text_of_steps};
ghost use Rattle.samoa_ticks.specs.Stops.{StopsFor};

use crate::stop::Stop;
use crate::writing::write_lines;
use samoa_ends::Sink;
use samoa_model::Step;
use samoa_report::{journal_line, step_line};
use std::alloc::Global;

/// Writes a journal as it stands after a report: the line that says how many steps it has, and a line for each step.
pub fn write_journal<K: Sink>(alloc: Global, steps: &[Step], sink: &mut K) -> Result<(), Stop>
    ensures all { OnOk result (Appends (K.written sink.old) (K.written sink.new) (journal_text steps.now)) }
    ensures part { OnErr result (AppendsPrefix (K.written sink.old) (K.written sink.new) (journal_text steps.now)) }
    ensures cause { StopsFor (K.faults sink.old) (K.faults sink.new) result }
{
    let mut line = Vec::new(alloc);
    write_head(steps.len() as u64, &mut line, sink)?;
    write_steps(steps, &mut line, sink)?;
    Ok(())
}

/// Writes the lines of these steps.
fn write_steps<K: Sink>(steps: &[Step], line: &mut Vec<u8>, sink: &mut K) -> Result<(), Stop>
    ensures all { OnOk result (Appends (K.written sink.old) (K.written sink.new) (text_of_steps steps.now)) }
    ensures part { OnErr result (AppendsPrefix (K.written sink.old) (K.written sink.new) (text_of_steps steps.now)) }
    ensures cause { StopsFor (K.faults sink.old) (K.faults sink.new) result }
{
    for step in steps {
        write_step(step, line, sink)?;
    }
    Ok(())
}

/// Writes the line of so many steps.
fn write_head<K: Sink>(count: u64, line: &mut Vec<u8>, sink: &mut K) -> Result<(), Stop>
    ensures all { OnOk result (Appends (K.written sink.old) (K.written sink.new) (journal_head count)) }
    ensures part { OnErr result (AppendsPrefix (K.written sink.old) (K.written sink.new) (journal_head count)) }
    ensures cause { StopsFor (K.faults sink.old) (K.faults sink.new) result }
{
    line.clear();
    journal_line(count, line)?;
    write_lines(line, sink)?;
    Ok(())
}

/// Writes the line of a step.
fn write_step<K: Sink>(step: &Step, line: &mut Vec<u8>, sink: &mut K) -> Result<(), Stop>
    ensures all { OnOk result (Appends (K.written sink.old) (K.written sink.new) (text_of_step step.now)) }
    ensures part { OnErr result (AppendsPrefix (K.written sink.old) (K.written sink.new) (text_of_step step.now)) }
    ensures cause { StopsFor (K.faults sink.old) (K.faults sink.new) result }
{
    line.clear();
    step_line(step, line)?;
    write_lines(line, sink)?;
    Ok(())
}
