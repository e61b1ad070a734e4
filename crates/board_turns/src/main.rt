//! Runs the script that standard input holds on a board, and writes the lines of its computations. All of its items are
//! admitted together, in script order and whatever their ticks; the states that stand at the end aren't written. With no
//! words it does so with 1, 2 and 8 workers, one after another; with a number, with so many workers; with `drain`, on one
//! thread with no board. What is written is the same for every schedule.
#![tactic(auto)]

mod opened;
mod report;

ghost use Rattle.std.specs.Prelude.{◌≤◌, IfSome};
ghost use Rattle.samoa_model.specs.Range.{IsInRange};

use opened::{Fault, opened};
use report::report;
use samoa_model::{NoMemory, Script};
use samoa_script::read_script;
use samoa_workers::{NoGate, drain, run_batch};
use std::alloc::Global;
use std::io::Write;
use std::sync::Wait;
use std::thread::Threads;
use std::{env, io};

/// The most workers at a time.
const MOST_WORKERS: u32 = 64;

/// The lines of a script that was run on a board, with so many workers.
fn on_board<R: Threads + Wait + Sync>(
    rt: &R,
    alloc: Global,
    script: &Script,
    workers: u32,
) -> Result<Vec<u8>, Fault>
    requires in_range { IsInRange script.now }
    requires some { 1 ≤ workers }
    requires few { workers ≤ MOST_WORKERS }
{
    let core = opened(alloc, script)?;
    let (core, _batch) = run_batch(rt, alloc, core, workers, &NoGate::new());
    if !core.all_ended() {
        return Err(Fault::Memory);
    }
    Ok(report(alloc, script, &core)?)
}

/// The lines of a script that was run on one thread.
fn on_one_thread(alloc: Global, script: &Script) -> Result<Vec<u8>, Fault>
    requires { IsInRange script.now }
{
    let mut core = opened(alloc, script)?;
    drain(alloc, &mut core);
    if !core.all_ended() {
        return Err(Fault::Memory);
    }
    Ok(report(alloc, script, &core)?)
}

/// A number of workers, from 1 to 64.
fn workers_in(word: &str) -> Option<u32>
    ensures some { IfSome result (λ workers. 1 ≤ workers) }
    ensures few { IfSome result (λ workers. workers ≤ MOST_WORKERS) }
{
    let workers = word.parse::<u32>().ok()?;
    if workers < 1 || workers > MOST_WORKERS {
        return None;
    }
    Some(workers)
}

fn write_answer<W: Write>(out: &mut W, answer: Result<Vec<u8>, Fault>) -> io::Result<()> {
    match answer {
        Ok(text) => out.write_all(&text),
        Err(Fault::Unfit) => out.write_all(b"! can't run here\n"),
        Err(Fault::TooMany) => out.write_all(b"! too many computations at once\n"),
        Err(Fault::Memory) => out.write_all(b"! memory\n"),
    }
}

fn main(rt: HostRuntime) -> io::Result<()> {
    let alloc = rt.alloc();
    let text = io::read_to_string(alloc, rt.reader())?;
    let mut out = io::writer(&rt);
    let Ok(script) = read_script(alloc, text.as_bytes()) else {
        return out.write_all(b"! no script\n");
    };
    match env::args(&rt)?.nth(1) {
        None => {
            for workers in [1, 2, 8] {
                println!(rt; "workers {workers}")?;
                write_answer(&mut out, on_board(&rt, alloc, &script, workers))?;
            }
            Ok(())
        }
        Some(word) => match workers_in(word.as_str()) {
            Some(workers) => write_answer(&mut out, on_board(&rt, alloc, &script, workers)),
            None => write_answer(&mut out, on_one_thread(alloc, &script)),
        },
    }
}
