//! The views of three nodes.
use crate::Views;
use samoa_micro::Micro;
use samoa_model::{EventId, Listed, Moment, NoMemory, NodeId, Outcome, Setup, Words};
use std::alloc::Global;
use std::test::Fail;

/// Node 0 of 3.
fn setup(alloc: Global) -> Result<Setup, NoMemory> {
    Ok(Setup {
        node: NodeId(0),
        nodes: 3,
        ports: Listed::from_vec(Vec::from_array(alloc, [EventId(5)])?),
        changes: Listed::from_vec(Vec::new(alloc)),
        nums: Words::cut(&[]),
        codes: Listed::from_vec(Vec::new(alloc)),
    })
}

fn begin(handler: u32) -> Moment {
    Moment::Begin {
        handler,
        arg: Words::cut(&[5]),
    }
}

#[test]
fn installs_a_view(rt: HostRuntime) -> Result<(), Fail> {
    let alloc = rt.alloc();
    let mut views = Views::new(alloc);
    views.set_up(alloc, &setup(alloc)?)?;
    assert_eq!(rt; views.show(), Words::cut(&[0, 7]));
    let reply = Words::new();
    assert_eq!(rt; views.step(alloc, &begin(1))?, Outcome::Done { reply });
    assert_eq!(rt; views.show(), Words::cut(&[1, 5]));
    let cast = Outcome::Call {
        event: EventId(5),
        arg: Words::cut(&[2, 5]),
        frame: Words::new(),
    };
    assert_eq!(rt; views.step(alloc, &begin(0))?, cast);
    Ok(())
}
