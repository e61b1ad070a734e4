//! A stream of one node over a change.
use crate::Repl;
use samoa_micro::Micro;
use samoa_model::{
    ChangeId, EventId, Listed, Moment, NoMemory, NodeId, Outcome, Reply, Setup, Words,
};
use std::alloc::Global;
use std::test::Fail;

/// Node 0 of 1, with two changes.
fn setup(alloc: Global) -> Result<Setup, NoMemory> {
    Ok(Setup {
        node: NodeId(0),
        nodes: 1,
        ports: Listed::from_vec(Vec::from_array(alloc, [EventId(5), EventId(6)])?),
        changes: Listed::from_vec(Vec::from_array(alloc, [ChangeId(3), ChangeId(4)])?),
        nums: Words::cut(&[]),
        codes: Listed::from_vec(Vec::new(alloc)),
    })
}

/// A message comes: its epoch, origin, number, kind and value.
fn deliver(words: &[u64]) -> Moment {
    Moment::Begin {
        handler: 1,
        arg: Words::cut(words),
    }
}

fn resume(at: u64) -> Moment {
    Moment::Resume {
        handler: 1,
        frame: Words::cut(&[at]),
        reply: Reply::Words(Words::new()),
    }
}

/// A change is made, a message of the old epoch delivers nothing, and one of the new epoch is delivered.
#[test]
fn delivers_over_a_change(rt: HostRuntime) -> Result<(), Fail> {
    let alloc = rt.alloc();
    let mut repl = Repl::new(alloc);
    repl.set_up(alloc, &setup(alloc)?)?;
    let nothing = Outcome::Done {
        reply: Words::new(),
    };
    let changed = Outcome::Change {
        change: ChangeId(3),
        arg: Words::cut(&[1]),
        frame: Words::cut(&[1]),
    };
    let delivered = Outcome::Deliver {
        arg: Words::cut(&[0, 2, 0, 7]),
        frame: Words::cut(&[0]),
    };
    let table: [(Moment, Outcome, &[u64]); 5] = [
        (deliver(&[0, 0, 1, 1, 0]), changed, &[0, 0, 0, 0]),
        (resume(1), nothing, &[1, 0, 1, 1]),
        (deliver(&[0, 0, 2, 0, 7]), nothing, &[1, 0, 1, 1]),
        (deliver(&[1, 0, 2, 0, 7]), delivered, &[1, 0, 1, 1]),
        (resume(0), nothing, &[1, 0, 2, 1]),
    ];
    for (moment, outcome, shown) in table {
        assert_eq!(rt; repl.step(alloc, &moment)?, outcome);
        assert_eq!(rt; repl.show(), Words::cut(shown));
    }
    Ok(())
}
