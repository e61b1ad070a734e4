//! The check of a journal.
ghost use Rattle.std.specs.Prelude.{◌≡◌, ◌<◌, ◌^◌, false, length, IfOk, IfErr};
ghost use Rattle.samoa_model.specs.Range.{IsInRange};
ghost use Rattle.samoa_micro.specs.Covers.{Covers};
ghost use Rattle.samoa_serial.specs.LimitedReport.{report_in_full};
ghost use Rattle.samoa_journal.specs.Finished.{IsComplete};
ghost use Rattle.samoa_replay.specs.Faults.{IsFaultOf};

use crate::fault::ReplayFault;
use crate::replay::Replay;
use samoa_micro::{Micro, Stock};
use samoa_model::{Script, Step};
use std::alloc::Global;

/// Checks a journal of a script: makes these steps in a core with 1,048,576 cells, which is cleared wherever all have ended,
/// and tests each before it is made. Answers the report, without the lines of calls, where the journal is complete. Else it
/// names the first line whose step isn't enabled, or that stands after all have ended; or, where no line is at fault, the
/// least computation that hasn't ended, which is the next one where all that were admitted have.
pub fn check<B: Micro>(
    alloc: Global,
    script: &Script,
    steps: &[Step],
    stock: Stock<B>,
) -> Result<Vec<u8>, ReplayFault>
    requires in_range { IsInRange script.now }
    requires covers { Covers script.now stock }
    requires few { length steps.now < 4294967296 }
    ensures complete { IfOk result (λ text. IsComplete script.now steps.now) }
    ensures report { IfOk result (λ text. text.items ≡ report_in_full script.now false) }
    ensures fault { IfErr result (λ fault. IsFaultOf script.now steps.now fault) }
{
    let Ok(mut replay) = Replay::new(alloc, script, stock) else {
        return Err(ReplayFault::Memory);
    };
    let followed = replay.follow(alloc, script, steps);
    let text = replay.into_text();
    match followed {
        Ok(()) => Ok(text),
        Err(fault) => Err(fault),
    }
}
