//! Two computations at one of two slots, and a set of numbers.
ghost use Rattle.std.specs.Prelude.{◌≡◌, ◌<◌};

use crate::{Ready, Steps, Versions};
use std::marker::Brand;
use std::sync::ledger::{Blank, Ledger};
use std::test::Fail;

#[test]
fn takes_turns(rt: HostRuntime) -> Result<(), Fail> {
    let mut versions = Versions::new(rt.alloc(), 2)?;
    let first = versions.admit(1, 1);
    let second = versions.admit(1, 2);
    assert_eq!(rt; (first, second), (1, 3));
    assert!(rt; !versions.turn(1, second, 2));
    if versions.turn(1, first, 1) {
        versions.finish(1, first, 1);
    }
    assert_eq!(rt; versions.local(1), 1);
    versions.raise(1);
    if versions.owns(1, 1, 3) {
        versions.hand_on(1, 1, 3);
    }
    assert_eq!(rt; versions.local(1), 3);
    Ok(())
}

/// The least member, by a counter of the ledger.
fn least_by<L: Ledger>(ready: &Ready, blank: Blank) -> Option<u32>
    requires name { blank.name ≡ L.name }
    requires parts { blank.parts ≡ L.parts }
    requires some { 0 < blank.parts }
{
    let mut steps = Steps::<L>::new(blank);
    ready.least(&mut steps)
}

fn least(ready: &Ready) -> Option<u32> {
    least_by::<Brand>(ready, Blank::new(1))
}

#[test]
fn finds_the_least_member(rt: HostRuntime) -> Result<(), Fail> {
    let mut ready = Ready::new(rt.alloc(), 262144)?;
    assert_eq!(rt; least(&ready), None);
    ready.set(262143);
    ready.set(64);
    ready.set(4159);
    assert_eq!(rt; least(&ready), Some(64));
    ready.unset(64);
    assert_eq!(rt; least(&ready), Some(4159));
    ready.unset(4159);
    assert_eq!(rt; least(&ready), Some(262143));
    ready.unset(262143);
    assert_eq!(rt; least(&ready), None);
    Ok(())
}
