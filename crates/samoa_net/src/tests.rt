//! A script's ticks, one after another.
ghost use Rattle.std.specs.Prelude.{◌≡◌, [], length, IfOk};

use crate::Net;
use samoa_model::{
    Cause, ChangeDef, ChangeId, CrashDef, Dest, DoDef, Entry, EventDef, EventId, Ext, Listed,
    LossDef, Name, NoMemory, NodeId, Script, Words,
};
use std::alloc::Global;
use std::test::Fail;

/// Three nodes and one event. What node 0 sends node 1 in tick 1 is lost, and node 2 crashes in tick 3.
fn script(alloc: Global) -> Result<Script, NoMemory>
    ensures nodes { IfOk result (λ script. script.nodes ≡ 3) }
    ensures events { IfOk result (λ script. length script.events ≡ 1) }
    ensures changes { IfOk result (λ script. length script.changes ≡ 1) }
{
    let mut does = Vec::new(alloc);
    does.push(item(2, 1, Cause::Event(EventId(0))))?;
    does.push(item(1, 2, Cause::Event(EventId(0))))?;
    does.push(item(2, 0, Cause::Change(ChangeId(0))))?;
    does.push(item(3, 2, Cause::Event(EventId(0))))?;
    let mut losses = Vec::new(alloc);
    losses.push(LossDef {
        from: NodeId(0),
        to: NodeId(1),
        first: 1,
        last: 1,
    })?;
    let mut crashes = Vec::new(alloc);
    crashes.push(CrashDef {
        node: NodeId(2),
        tick: 3,
    })?;
    Ok(Script {
        nodes: 3,
        ticks: 3,
        micros: Listed::from_vec(Vec::new(alloc)),
        decls: Listed::from_vec(Vec::new(alloc)),
        events: events(alloc)?,
        changes: changes(alloc)?,
        does: Listed::from_vec(does),
        losses: Listed::from_vec(losses),
        crashes: Listed::from_vec(crashes),
    })
}

fn events(alloc: Global) -> Result<Listed<EventDef>, NoMemory>
    ensures { IfOk result (λ events. length events ≡ 1) }
{
    let mut events = Vec::new(alloc);
    events.push(EventDef {
        name: Name::new("e"),
        decl: 0,
        handlers: Listed::from_vec(Vec::new(alloc)),
    })?;
    Ok(Listed::from_vec(events))
}

fn changes(alloc: Global) -> Result<Listed<ChangeDef>, NoMemory>
    ensures { IfOk result (λ changes. length changes ≡ 1) }
{
    let mut changes = Vec::new(alloc);
    changes.push(ChangeDef {
        name: Name::new("c"),
        event: EventId(0),
        table: Listed::from_vec(Vec::new(alloc)),
    })?;
    Ok(Listed::from_vec(changes))
}

fn item(tick: u32, node: u32, cause: Cause) -> DoDef {
    DoDef {
        tick,
        node: NodeId(node),
        cause,
        args: Words::new(),
    }
}

fn admitted(tick: u32, node: u32, cause: Cause) -> Ext {
    Ext {
        node: NodeId(node),
        tick,
        cause,
        args: Words::new(),
    }
}

fn sent(to: Dest) -> Entry
    ensures { result ≡ Entry.Sent 1 to (record { 0 = 0 }) [] }
{
    Entry::Sent {
        call: 1,
        to,
        event: EventId(0),
        arg: Words::new(),
    }
}

fn asked() -> Entry
    ensures { result ≡ Entry.Asked 1 (record { 0 = 0 }) [] }
{
    Entry::Asked {
        call: 1,
        change: ChangeId(0),
        arg: Words::new(),
    }
}

#[test]
fn three_ticks(rt: HostRuntime) -> Result<(), Fail> {
    let alloc = rt.alloc();
    let script = script(alloc)?;
    let event = Cause::Event(EventId(0));
    let change = Cause::Change(ChangeId(0));
    let mut net = Net::new(alloc);
    let first = net.batch(alloc, &script, 1)?;
    assert_eq!(rt; first.as_slice(), [admitted(1, 2, event)].as_slice());
    net.gather(&script, 1, NodeId(0), 1, &sent(Dest::All))?;
    net.gather(&script, 1, NodeId(0), 1, &asked())?;
    let second = net.batch(alloc, &script, 2)?;
    let due = [
        admitted(2, 0, change),
        admitted(2, 1, event),
        admitted(2, 0, change),
        admitted(2, 0, event),
        admitted(2, 2, event),
    ];
    assert_eq!(rt; second.as_slice(), due.as_slice());
    net.gather(&script, 2, NodeId(0), 2, &sent(Dest::One(NodeId(1))))?;
    net.gather(&script, 3, NodeId(1), 2, &sent(Dest::All))?;
    let third = net.batch(alloc, &script, 3)?;
    let due = [
        admitted(3, 1, event),
        admitted(3, 0, event),
        admitted(3, 1, event),
    ];
    assert_eq!(rt; third.as_slice(), due.as_slice());
    Ok(())
}
