//! The parts of the group stack: its microprotocols, declaration, events and changes.
ghost use Rattle.std.specs.Prelude.{◌≡◌, ◌<◌, ◌≤◌, ◌∷◌, ◌++◌, ℕ, [], length, map, IfOk, OnOk};
ghost use Rattle.samoa_laws.specs.trace.Group.{bound, change, event, group_changes as the_changes, group_decls as the_decls, group_events as the_events, group_micros as the_micros, handler, micro as micro_of};

use samoa_model::{
    ChangeDef, ChangeId, Decl, DeclDef, EventDef, EventId, HandlerId, Kind, Listed, MicroDef,
    MicroId, Name, NoMemory, TableDef, Words,
};
use std::alloc::Global;

/// The microprotocols.
pub fn group_micros(alloc: Global) -> Result<Listed<MicroDef>, NoMemory>
    ensures { IfOk result (λ micros. micros ≡ the_micros) }
{
    let mut micros = Vec::new(alloc);
    micros.push(micro(alloc, "link", Kind::Link, &[], &[0, 2, 3, 4, 5], &[])?)?;
    micros.push(micro(alloc, "fd", Kind::Fd, &[0, 3], &[1, 6], &[])?)?;
    micros.push(micro(alloc, "rb", Kind::Rbcast, &[1], &[1, 7], &[])?)?;
    micros.push(micro(alloc, "cons", Kind::Cons, &[2], &[1, 8, 9], &[])?)?;
    micros.push(micro(alloc, "ab", Kind::Abcast, &[], &[8, 10, 11], &[])?)?;
    micros.push(micro(alloc, "sq", Kind::Seqcast, &[3, 0], &[1, 11], &[])?)?;
    micros.push(micro(alloc, "repl", Kind::Repl, &[], &[12, 13], &[0, 1])?)?;
    micros.push(micro(alloc, "views", Kind::Views, &[], &[14], &[])?)?;
    Ok(Listed::from_vec(micros))
}

/// A microprotocol, with the numbers of its events and changes.
fn micro(
    alloc: Global,
    name: &str,
    kind: Kind,
    nums: &[u64],
    ports: &[u32],
    changes: &[u32],
) -> Result<MicroDef, NoMemory>
    requires some { 0 < length name.now }
    requires few { length name.now ≤ 33 }
    requires few_nums { length nums.now ≤ 12 }
    ensures { IfOk result (λ micro. micro ≡ micro_of name.now kind nums.now (map event ports.now) (map change changes.now)) }
{
    let ports = events_of(alloc, ports)?;
    let changes = changes_of(alloc, changes)?;
    Ok(MicroDef {
        name: Name::new(name),
        kind,
        nums: Words::from_slice(nums).unwrap(),
        ports,
        changes,
        handlers: Listed::from_vec(Vec::new(alloc)),
    })
}

fn events_of(alloc: Global, numbers: &[u32]) -> Result<Listed<EventId>, NoMemory>
    ensures { IfOk result (λ events. events ≡ map event numbers.now) }
{
    let mut events = Vec::new(alloc);
    for number in numbers {
        events.push(EventId(*number))?;
    }
    Ok(Listed::from_vec(events))
}

fn changes_of(alloc: Global, numbers: &[u32]) -> Result<Listed<ChangeId>, NoMemory>
    ensures { IfOk result (λ changes. changes ≡ map change numbers.now) }
{
    let mut changes = Vec::new(alloc);
    for number in numbers {
        changes.push(ChangeId(*number))?;
    }
    Ok(Listed::from_vec(changes))
}

/// The one declaration, which names all microprotocols.
pub fn group_decls(alloc: Global) -> Result<Listed<DeclDef>, NoMemory>
    ensures { IfOk result (λ decls. decls ≡ the_decls) }
{
    let micros = Listed::from_vec(vec![in alloc; 0, 1, 2, 3, 4, 5, 6, 7]?);
    let mut decls = Vec::new(alloc);
    decls.push(DeclDef {
        name: Name::new("all"),
        budget: 64,
        decl: Decl::Set { micros },
    })?;
    Ok(Listed::from_vec(decls))
}

/// The events, with the handlers that are bound to them at first.
pub fn group_events(alloc: Global) -> Result<Listed<EventDef>, NoMemory>
    ensures { IfOk result (λ events. events ≡ the_events) }
{
    let mut events = Vec::new(alloc);
    bind(alloc, "wire", &[(0, 1)], &mut events)?;
    bind(alloc, "send", &[(0, 0)], &mut events)?;
    bind(alloc, "fd_in", &[(1, 1)], &mut events)?;
    bind(alloc, "rb_in", &[(2, 1)], &mut events)?;
    bind(alloc, "cons_in", &[(3, 1)], &mut events)?;
    bind(alloc, "sq_in", &[(5, 1)], &mut events)?;
    bind(alloc, "suspect", &[(3, 4)], &mut events)?;
    bind(alloc, "rb_up", &[(3, 2), (4, 1)], &mut events)?;
    bind(alloc, "rb_cast", &[(2, 0)], &mut events)?;
    bind(alloc, "decided", &[(4, 2)], &mut events)?;
    bind(alloc, "propose", &[(3, 0)], &mut events)?;
    bind(alloc, "ab_up", &[(6, 1)], &mut events)?;
    bind(alloc, "ab_cast", &[(4, 0)], &mut events)?;
    bind(alloc, "view", &[(7, 1)], &mut events)?;
    bind(alloc, "cast", &[(6, 0)], &mut events)?;
    bind(alloc, "beat", &[(1, 0)], &mut events)?;
    bind(alloc, "nudge", &[(3, 3)], &mut events)?;
    bind(alloc, "ask", &[(7, 0)], &mut events)?;
    bind(alloc, "switched", &[(6, 2)], &mut events)?;
    Ok(Listed::from_vec(events))
}

/// Puts an event last, with the handlers that are bound to it, each by its microprotocol and its own number.
fn bind(
    alloc: Global,
    name: &str,
    handlers: &[(u32, u32)],
    events: &mut Vec<EventDef>,
) -> Result<(), NoMemory>
    requires some { 0 < length name.now }
    requires few { length name.now ≤ 33 }
    ensures { OnOk result (events.new.items ≡ events.old.items ++ bound name.now (map (λ (h : ℕ × ℕ). handler h.0 h.1) handlers.now) ∷ []) }
{
    let handlers = handlers_of(alloc, handlers)?;
    events.push(EventDef {
        name: Name::new(name),
        decl: 0,
        handlers,
    })?;
    Ok(())
}

fn handlers_of(alloc: Global, numbers: &[(u32, u32)]) -> Result<Listed<HandlerId>, NoMemory>
    ensures { IfOk result (λ handlers. handlers ≡ map (λ (h : ℕ × ℕ). handler h.0 h.1) numbers.now) }
{
    let mut handlers = Vec::new(alloc);
    for (micro, index) in numbers {
        handlers.push(HandlerId {
            micro: MicroId(*micro),
            index: *index,
        })?;
    }
    Ok(Listed::from_vec(handlers))
}

/// The changes: the broadcast goes through the sequencer, and through consensus.
pub fn group_changes(alloc: Global) -> Result<Listed<ChangeDef>, NoMemory>
    ensures { IfOk result (λ changes. changes ≡ the_changes) }
{
    let mut changes = Vec::new(alloc);
    changes.push(change_to(alloc, "to_seq", 5)?)?;
    changes.push(change_to(alloc, "to_cons", 4)?)?;
    Ok(Listed::from_vec(changes))
}

/// The change that binds the cast of the broadcast to the first handler of this microprotocol.
fn change_to(alloc: Global, name: &str, micro: u32) -> Result<ChangeDef, NoMemory>
    requires some { 0 < length name.now }
    requires few { length name.now ≤ 33 }
    ensures { IfOk result (λ made. made ≡ record { name = name.now; event = event 18; table = record { event = event 12; handlers = handler micro 0 ∷ [] } ∷ [] }) }
{
    let handlers = handlers_of(alloc, &[(micro, 0)])?;
    let mut table = Vec::new(alloc);
    table.push(TableDef {
        event: EventId(12),
        handlers,
    })?;
    Ok(ChangeDef {
        name: Name::new(name),
        event: EventId(18),
        table: Listed::from_vec(table),
    })
}
