//! Threads that count together.
use crate::workers::count_turns;
use std::test::Fail;

#[test]
fn threads_take_and_put_until_the_goal(rt: HostRuntime) -> Result<(), Fail> {
    for (workers, goal) in [(1, 0), (2, 10000), (8, 10000)] {
        let count = count_turns(&rt, rt.alloc(), workers, goal);
        assert!(rt; count == Ok(goal), "{workers} workers, {goal} turns");
    }
    Ok(())
}
