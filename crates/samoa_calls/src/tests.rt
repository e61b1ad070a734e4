//! A computation before its root call.
use crate::Comp;
use samoa_declare::{Standing, nothing_left};
use std::test::Fail;

#[test]
fn begins_with_nothing(rt: HostRuntime) -> Result<(), Fail> {
    let comp = Comp::new(rt.alloc(), 2, 3)?;
    assert_eq!(rt; comp.decl(), 2);
    assert!(rt; comp.next().is_none());
    assert!(rt; comp.ending().is_none());
    assert!(rt; comp.entry(0).is_none());
    assert!(rt; comp.active(0).is_none());
    assert!(rt; comp.waiting(0).is_none());
    assert!(rt; nothing_left(&comp));
    Ok(())
}
