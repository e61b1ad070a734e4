use crate::generate;
use std::test::Fail;

// The script for 1 has the change in tick 9 and the last cast in tick 17 of 19.
#[test]
fn generates_the_least_script(rt: HostRuntime) -> Result<(), Fail> {
    let script = generate(rt.alloc(), 1)?;
    assert_eq!(rt; script.nodes, 8);
    assert_eq!(rt; script.ticks, 19);
    assert_eq!(rt; script.events.len(), 19);
    assert_eq!(rt; script.does.len(), 3);
    assert_eq!(rt; script.does.as_slice()[1].tick, 9);
    assert_eq!(rt; script.does.as_slice()[2].tick, 17);
    Ok(())
}
