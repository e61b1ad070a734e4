//! A script with its names as they stand in the text. Handler names are `micro.handler`.
use samoa_model::{CodeDef, Kind, Listed, Name, Words};

/// A microprotocol.
#[derive(Debug, Drop)]
pub struct MicroDraft {
    pub name: Name,
    pub kind: Kind,
    pub nums: Words,
    pub ports: Listed<Name>,
    pub changes: Listed<Name>,
    pub handlers: Listed<CodeDef>,
}

/// The forms of declarations.
#[derive(Clone, Copy, Debug, PartialEq, Eq)]
pub enum Form {
    Set,
    Bound,
    Route,
}

/// How many calls a bound allows at a microprotocol.
#[derive(Debug, Drop)]
pub struct BoundDraft {
    pub micro: Name,
    pub calls: u32,
}

/// An edge of a route, from handler to handler.
#[derive(Debug, Drop)]
pub struct EdgeDraft {
    pub from: Name,
    pub to: Name,
}

/// What a declaration allows.
#[derive(Debug, Drop)]
pub enum BodyDraft {
    Set {
        micros: Listed<Name>,
    },
    Bound {
        bounds: Listed<BoundDraft>,
    },
    Route {
        roots: Listed<Name>,
        edges: Listed<EdgeDraft>,
    },
}

/// A declaration.
#[derive(Debug, Drop)]
pub struct DeclDraft {
    pub name: Name,
    pub budget: u32,
    pub body: BodyDraft,
}

/// An event.
#[derive(Debug, Drop)]
pub struct EventDraft {
    pub name: Name,
    pub decl: Name,
    pub handlers: Listed<Name>,
}

/// New handlers of an event.
#[derive(Debug, Drop)]
pub struct TableDraft {
    pub event: Name,
    pub handlers: Listed<Name>,
}

/// A change of bindings.
#[derive(Debug, Drop)]
pub struct ChangeDraft {
    pub name: Name,
    pub event: Name,
    pub table: Listed<TableDraft>,
}

/// What an item of `do` brings about.
#[derive(Debug, Drop)]
pub enum CauseDraft {
    Event(Name),
    Change(Name),
}

/// An item of `do`.
#[derive(Debug, Drop)]
pub struct DoDraft {
    pub tick: u64,
    pub node: u64,
    pub cause: CauseDraft,
    pub args: Words,
}

/// A loss.
#[derive(Clone, Copy, Debug, PartialEq, Eq)]
pub struct LossDraft {
    pub from: u64,
    pub to: u64,
    pub first: u64,
    pub last: u64,
}

/// A crash.
#[derive(Clone, Copy, Debug, PartialEq, Eq)]
pub struct CrashDraft {
    pub node: u64,
    pub tick: u64,
}

/// A script.
#[derive(Debug, Drop)]
pub struct Draft {
    pub nodes: u32,
    pub ticks: u32,
    pub micros: Listed<MicroDraft>,
    pub decls: Listed<DeclDraft>,
    pub events: Listed<EventDraft>,
    pub changes: Listed<ChangeDraft>,
    pub does: Listed<DoDraft>,
    pub losses: Listed<LossDraft>,
    pub crashes: Listed<CrashDraft>,
}
