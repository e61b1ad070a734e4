//! A detector that hears of nobody.
use crate::Fd;
use samoa_micro::Micro;
use samoa_model::{EventId, Listed, Moment, NoMemory, NodeId, Outcome, Reply, Setup, Words};
use std::alloc::Global;
use std::test::Fail;

/// Node 0 of 2, which suspects after more than three beats.
fn setup(alloc: Global) -> Result<Setup, NoMemory> {
    Ok(Setup {
        node: NodeId(0),
        nodes: 2,
        ports: Listed::from_vec(Vec::from_array(alloc, [EventId(5), EventId(6)])?),
        changes: Listed::from_vec(Vec::new(alloc)),
        nums: Words::cut(&[0, 3]),
        codes: Listed::from_vec(Vec::new(alloc)),
    })
}

/// The fourth beat suspects the other node, until it is heard of.
#[test]
fn suspects_who_is_quiet(rt: HostRuntime) -> Result<(), Fail> {
    let alloc = rt.alloc();
    let mut fd = Fd::new(alloc);
    fd.set_up(alloc, &setup(alloc)?)?;
    for beat in 1..5 {
        let begin = Moment::Begin {
            handler: 0,
            arg: Words::new(),
        };
        let told = Outcome::Call {
            event: EventId(5),
            arg: Words::cut(&[2, 0]),
            frame: Words::cut(&[0]),
        };
        assert_eq!(rt; fd.step(alloc, &begin)?, told);
        let outcome = if beat < 4 {
            Outcome::Done {
                reply: Words::cut(&[0]),
            }
        } else {
            Outcome::Call {
                event: EventId(6),
                arg: Words::cut(&[1]),
                frame: Words::cut(&[2]),
            }
        };
        assert_eq!(rt; fd.step(alloc, &resume(0))?, outcome);
    }
    let reply = Words::cut(&[2]);
    assert_eq!(rt; fd.step(alloc, &resume(2))?, Outcome::Done { reply });
    let heard = Moment::Begin {
        handler: 1,
        arg: Words::cut(&[1]),
    };
    let reply = Words::new();
    assert_eq!(rt; fd.step(alloc, &heard)?, Outcome::Done { reply });
    assert_eq!(rt; fd.show(), Words::cut(&[0]));
    Ok(())
}

/// The beat goes on from a node.
fn resume(from: u64) -> Moment {
    Moment::Resume {
        handler: 0,
        frame: Words::cut(&[from]),
        reply: Reply::Words(Words::new()),
    }
}
