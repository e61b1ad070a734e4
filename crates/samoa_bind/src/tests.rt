//! The tables of a small script.
ghost use Rattle.std.specs.Prelude.{◌≡◌, ◌<◌, ◌≤◌, [], ◌∷◌, IfOk, length};
ghost use Rattle.samoa_model.specs.Range.{IsInRange};

use crate::Tables;
use samoa_model::{
    ChangeDef, ChangeId, CodeDef, Decl, DeclDef, EventDef, EventId, HandlerId, Kind, Listed,
    MicroDef, MicroId, Name, NoMemory, NodeId, Script, TableDef, Words,
};
use std::alloc::Global;
use std::test::Fail;

const ONLY: HandlerId = HandlerId {
    micro: MicroId(0),
    index: 0,
};

/// Two nodes, one microprotocol with one handler, one event that it is bound to, and one change that unbinds it.
fn small_script(alloc: Global) -> Result<Script, NoMemory>
    ensures range { IfOk result IsInRange }
    ensures nodes { IfOk result (λ script. script.nodes ≡ 2) }
    ensures events { IfOk result (λ script. length script.events ≡ 1) }
    ensures changes { IfOk result (λ script. length script.changes ≡ 1) }
{
    let code = CodeDef {
        name: Name::new("h"),
        code: Listed::from_vec(Vec::new(alloc)),
    };
    let micro = MicroDef {
        name: Name::new("m"),
        kind: Kind::Prog,
        nums: Words::new(),
        ports: Listed::from_vec(Vec::new(alloc)),
        changes: Listed::from_vec(Vec::new(alloc)),
        handlers: Listed::from_vec(Vec::from_array(alloc, [code])?),
    };
    let decl = Decl::Set {
        micros: Listed::from_vec(Vec::from_array(alloc, [0])?),
    };
    let decl = DeclDef {
        name: Name::new("d"),
        budget: 2,
        decl,
    };
    let event = EventDef {
        name: Name::new("e"),
        decl: 0,
        handlers: Listed::from_vec(Vec::from_array(alloc, [ONLY])?),
    };
    let unbound = TableDef {
        event: EventId(0),
        handlers: Listed::from_vec(Vec::new(alloc)),
    };
    let change = ChangeDef {
        name: Name::new("c"),
        event: EventId(0),
        table: Listed::from_vec(Vec::from_array(alloc, [unbound])?),
    };
    Ok(Script {
        nodes: 2,
        ticks: 1,
        micros: Listed::from_vec(Vec::from_array(alloc, [micro])?),
        decls: Listed::from_vec(Vec::from_array(alloc, [decl])?),
        events: Listed::from_vec(Vec::from_array(alloc, [event])?),
        changes: Listed::from_vec(Vec::from_array(alloc, [change])?),
        does: Listed::from_vec(Vec::new(alloc)),
        losses: Listed::from_vec(Vec::new(alloc)),
        crashes: Listed::from_vec(Vec::new(alloc)),
    })
}

#[test]
fn resolves(rt: HostRuntime) -> Result<(), Fail> {
    let script = small_script(rt.alloc())?;
    let mut tables = Tables::new(rt.alloc(), &script)?;
    tables.reserve()?;
    let epoch = tables.rebind(NodeId(1), ChangeId(0));
    assert_eq!(rt; epoch, 1);
    assert_eq!(rt; tables.current(NodeId(0)), 0);
    let handlers = tables.resolve(NodeId(0), 0, EventId(0));
    assert_eq!(rt; handlers.len(), 1);
    assert_eq!(rt; handlers[0], ONLY);
    let handlers = tables.resolve(NodeId(1), epoch, EventId(0));
    assert_eq!(rt; handlers.len(), 0);
    Ok(())
}
