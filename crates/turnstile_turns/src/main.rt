//! Turns at a turnstile. Each line of input names workers and a goal, as `4 20000`: so many workers take a counter and
//! put it back, one higher each time, until it is at its goal. What is printed is the same for every schedule.
#![tactic(auto)]

mod counter;
#[cfg(test)]
mod tests;
mod workers;

ghost use Rattle.std.specs.Prelude.{◌≤◌, IfSome};

use samoa_model::NoMemory;
use std::io;
use workers::{MOST_WORKERS, count_turns};

/// Workers and a goal, as `4 20000`: 1 to 64 workers, and a number below 2 ^ 32. No clause says which lines give none.
fn read_order(line: &str) -> Option<(u32, u32)>
    ensures workers { IfSome result (λ order. (1 ≤ order.0) × (order.0 ≤ MOST_WORKERS)) }
{
    let (workers, goal) = line.split_once(' ')?;
    let workers = workers.parse::<u32>().ok()?;
    let goal = goal.parse::<u32>().ok()?;
    if workers < 1 || workers > MOST_WORKERS {
        return None;
    }
    Some((workers, goal))
}

fn main(rt: HostRuntime) -> io::Result<()> {
    let alloc = rt.alloc();
    for line in rt.lines(alloc) {
        let Some((workers, goal)) = read_order(line?.as_str()) else {
            println!(rt;
                "? a number of workers from 1 to {}, a space, and a goal",
                MOST_WORKERS
            )?;
            continue;
        };
        match count_turns(&rt, alloc, workers, goal) {
            Ok(count) => println!(rt; "workers {workers}, turns {count}")?,
            Err(NoMemory) => println!(rt; "workers {workers}, no memory")?,
        }
    }
    Ok(())
}
