//! The script, with the names that it uses turned into numbers.
ghost use Rattle.std.specs.Prelude.{◌≡◌, IfOk};

use crate::{
    Cause, ChangeId, Copied, EventId, HandlerId, Instr, Kind, Listed, Name, NoMemory, NodeId, Words,
};
use std::alloc::Global;

/// A scripted handler.
#[derive(Debug, Drop)]
pub struct CodeDef {
    pub name: Name,
    /// At most 32 instructions.
    pub code: Listed<Instr>,
}

/// A microprotocol of the stack. Every node has its own copy of it.
#[derive(Debug, Drop)]
pub struct MicroDef {
    pub name: Name,
    pub kind: Kind,
    pub nums: Words,
    /// At most 16 events, called and sent by position.
    pub ports: Listed<EventId>,
    /// At most 16 changes, asked by position.
    pub changes: Listed<ChangeId>,
    /// 1 to 16 for the scripted kind, none for the others.
    pub handlers: Listed<CodeDef>,
}

/// What a computation may call. Microprotocols are below 24, and none stands twice in a set or a bound.
#[derive(Debug, Drop)]
pub enum Decl {
    /// The microprotocols named.
    Set {
        micros: Listed<u32>,
    },
    /// Each microprotocol named, at most so many times, 1 to 256.
    Bound {
        bounds: Listed<(u32, u32)>,
    },
    /// Handlers along edges, beginning at a root. Roots and edges are positions in the at most 32 vertices.
    Route {
        vertices: Listed<HandlerId>,
        roots: Listed<u32>,
        edges: Listed<(u32, u32)>,
    },
}

/// A declaration, with its budget of 1 to 256 units.
#[derive(Debug, Drop)]
pub struct DeclDef {
    pub name: Name,
    pub budget: u32,
    pub decl: Decl,
}

/// An event, with the number of its declaration and the 0 to 4 handlers bound to it at first.
#[derive(Debug, Drop)]
pub struct EventDef {
    pub name: Name,
    pub decl: u32,
    pub handlers: Listed<HandlerId>,
}

/// New handlers of an event.
#[derive(Debug, Drop)]
pub struct TableDef {
    pub event: EventId,
    pub handlers: Listed<HandlerId>,
}

/// A change of bindings, with the event that is called when it is made.
#[derive(Debug, Drop)]
pub struct ChangeDef {
    pub name: Name,
    pub event: EventId,
    pub table: Listed<TableDef>,
}

/// An external event or a rebinding, in a tick from 1 to `ticks`.
#[derive(Clone, Copy, Debug, PartialEq, Eq)]
pub struct DoDef {
    pub tick: u32,
    pub node: NodeId,
    pub cause: Cause,
    pub args: Words,
}

/// Messages from one node to another are lost that are sent from tick `first` to tick `last`.
#[derive(Clone, Copy, Debug, PartialEq, Eq)]
pub struct LossDef {
    pub from: NodeId,
    pub to: NodeId,
    pub first: u64,
    pub last: u64,
}

/// A node admits nothing from this tick on.
#[derive(Clone, Copy, Debug, PartialEq, Eq)]
pub struct CrashDef {
    pub node: NodeId,
    pub tick: u64,
}

/// A script: its nodes, its stack, and what happens to them.
#[derive(Debug, Drop)]
pub struct Script {
    /// 1 to 8.
    pub nodes: u32,
    /// 1 to 10,000.
    pub ticks: u32,
    pub micros: Listed<MicroDef>,
    pub decls: Listed<DeclDef>,
    pub events: Listed<EventDef>,
    pub changes: Listed<ChangeDef>,
    pub does: Listed<DoDef>,
    pub losses: Listed<LossDef>,
    pub crashes: Listed<CrashDef>,
}

impl Copied for CodeDef {
    fn copied(&self, alloc: Global) -> Result<CodeDef, NoMemory> {
        let code = self.code.copied(alloc)?;
        Ok(CodeDef {
            name: self.name.copied(),
            code,
        })
    }
}

impl Copied for MicroDef {
    fn copied(&self, alloc: Global) -> Result<MicroDef, NoMemory> {
        let ports = self.ports.copied(alloc)?;
        let changes = self.changes.copied(alloc)?;
        let handlers = self.handlers.each_copied(alloc)?;
        Ok(MicroDef {
            name: self.name.copied(),
            kind: self.kind,
            nums: self.nums,
            ports,
            changes,
            handlers,
        })
    }
}

impl Copied for Decl {
    fn copied(&self, alloc: Global) -> Result<Decl, NoMemory> {
        match self {
            Decl::Set { micros } => {
                let micros = micros.copied(alloc)?;
                Ok(Decl::Set { micros })
            }
            Decl::Bound { bounds } => {
                let bounds = bounds.copied(alloc)?;
                Ok(Decl::Bound { bounds })
            }
            Decl::Route {
                vertices,
                roots,
                edges,
            } => {
                let vertices = vertices.copied(alloc)?;
                let roots = roots.copied(alloc)?;
                let edges = edges.copied(alloc)?;
                Ok(Decl::Route {
                    vertices,
                    roots,
                    edges,
                })
            }
        }
    }
}

impl Copied for DeclDef {
    fn copied(&self, alloc: Global) -> Result<DeclDef, NoMemory> {
        let decl = self.decl.copied(alloc)?;
        Ok(DeclDef {
            name: self.name.copied(),
            budget: self.budget,
            decl,
        })
    }
}

impl Copied for EventDef {
    fn copied(&self, alloc: Global) -> Result<EventDef, NoMemory> {
        let handlers = self.handlers.copied(alloc)?;
        Ok(EventDef {
            name: self.name.copied(),
            decl: self.decl,
            handlers,
        })
    }
}

impl Copied for TableDef {
    fn copied(&self, alloc: Global) -> Result<TableDef, NoMemory> {
        let handlers = self.handlers.copied(alloc)?;
        Ok(TableDef {
            event: self.event,
            handlers,
        })
    }
}

impl Copied for ChangeDef {
    fn copied(&self, alloc: Global) -> Result<ChangeDef, NoMemory> {
        let table = self.table.each_copied(alloc)?;
        Ok(ChangeDef {
            name: self.name.copied(),
            event: self.event,
            table,
        })
    }
}

impl Script {
    /// An equal script in memory of its own, or want of memory.
    pub fn copied(&self, alloc: Global) -> Result<Script, NoMemory>
        ensures { IfOk result (λ copy. copy ≡ self.now) }
    {
        let micros = self.micros.each_copied(alloc)?;
        let decls = self.decls.each_copied(alloc)?;
        let events = self.events.each_copied(alloc)?;
        let changes = self.changes.each_copied(alloc)?;
        let does = self.does.copied(alloc)?;
        let losses = self.losses.copied(alloc)?;
        let crashes = self.crashes.copied(alloc)?;
        Ok(Script {
            nodes: self.nodes,
            ticks: self.ticks,
            micros,
            decls,
            events,
            changes,
            does,
            losses,
            crashes,
        })
    }
}

#[cfg(test)]
mod tests {
    use super::*;
    use crate::Place;
    use std::test::Fail;

    fn one_of<T>(alloc: Global, item: T) -> Result<Listed<T>, Fail>
    where
        T: Drop,
    {
        let mut items = Vec::new(alloc);
        items.push(item)?;
        Ok(Listed::from_vec(items))
    }

    #[test]
    fn copies_a_script(rt: HostRuntime) -> Result<(), Fail> {
        let alloc = rt.alloc();
        let code = CodeDef {
            name: Name::new("h"),
            code: one_of(
                alloc,
                Instr::Set {
                    d: Place::Reg(1),
                    n: 7,
                },
            )?,
        };
        let micro = MicroDef {
            name: Name::new("m"),
            kind: Kind::Prog,
            nums: Words::new(),
            ports: one_of(alloc, EventId(0))?,
            changes: Listed::from_vec(Vec::new(alloc)),
            handlers: one_of(alloc, code)?,
        };
        let decl = DeclDef {
            name: Name::new("d"),
            budget: 32,
            decl: Decl::Set {
                micros: one_of(alloc, 0)?,
            },
        };
        let script = Script {
            nodes: 2,
            ticks: 3,
            micros: one_of(alloc, micro)?,
            decls: one_of(alloc, decl)?,
            events: Listed::from_vec(Vec::new(alloc)),
            changes: Listed::from_vec(Vec::new(alloc)),
            does: Listed::from_vec(Vec::new(alloc)),
            losses: Listed::from_vec(Vec::new(alloc)),
            crashes: Listed::from_vec(Vec::new(alloc)),
        };
        let copy = script.copied(alloc)?;
        assert_eq!(rt; copy.ticks, 3);
        assert_eq!(rt; copy.micros.len(), 1);
        assert_eq!(rt; copy.decls.len(), 1);
        Ok(())
    }
}
