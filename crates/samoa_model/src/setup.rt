//! What a microprotocol is set up with.
ghost use Rattle.std.specs.Prelude.{◌≡◌, IfOk, slice_get};
ghost use Rattle.std.specs.Option.{option_copied};

use crate::{ChangeId, Copied, EventId, Listed, NoMemory, NodeId, Words};
use std::alloc::Global;

/// The kinds of microprotocols.
#[derive(Clone, Copy, Debug, PartialEq, Eq)]
pub enum Kind {
    Prog,
    Link,
    Fd,
    Rbcast,
    Cons,
    Abcast,
    Seqcast,
    Repl,
    Views,
}

/// A register or a local of a scripted handler, by its number from 0 to 3.
#[derive(Clone, Copy, Debug, PartialEq, Eq)]
pub enum Place {
    Reg(u32),
    Local(u32),
}

/// An instruction of a scripted handler.
#[derive(Clone, Copy, Debug, PartialEq, Eq)]
pub enum Instr {
    Set { d: Place, n: u64 },
    Copy { d: Place, s: Place },
    Add { d: Place, s: Place },
    Sub { d: Place, s: Place },
    Less { s: Place, t: Place, j: u32 },
    Call { port: u32, k: u32 },
    Later { port: u32, k: u32 },
    Send { s: Place, port: u32, k: u32 },
    Deliver { k: u32 },
    Change { c: u32, k: u32 },
    Done { k: u32 },
}

/// What a microprotocol is set up with.
#[derive(Debug, Drop)]
pub struct Setup {
    pub node: NodeId,
    pub nodes: u32,
    pub ports: Listed<EventId>,
    pub changes: Listed<ChangeId>,
    pub nums: Words,
    pub codes: Listed<Listed<Instr>>,
}

impl Setup {
    /// A setup with nothing in it. It takes no memory.
    pub fn empty(alloc: Global) -> Setup {
        Setup {
            node: NodeId(0),
            nodes: 0,
            ports: Listed::from_vec(Vec::new(alloc)),
            changes: Listed::from_vec(Vec::new(alloc)),
            nums: Words::new(),
            codes: Listed::from_vec(Vec::new(alloc)),
        }
    }

    /// The code of a handler, where there is such a handler.
    pub fn code(&self, handler: u32) -> Option<&Listed<Instr>>
        ensures { option_copied result ≡ slice_get self.now.codes handler }
    {
        self.codes.as_slice().get(handler as usize)
    }

    /// An equal setup, in memory of its own.
    pub fn copied(&self, alloc: Global) -> Result<Setup, NoMemory>
        ensures { IfOk result (λ copy. copy ≡ self.now) }
    {
        let ports = self.ports.copied(alloc)?;
        let changes = self.changes.copied(alloc)?;
        let codes = self.codes.each_copied(alloc)?;
        Ok(Setup {
            node: self.node,
            nodes: self.nodes,
            ports,
            changes,
            nums: self.nums,
            codes,
        })
    }
}

#[cfg(test)]
mod tests {
    use super::*;
    use std::test::Fail;

    #[test]
    fn copies_a_setup(rt: HostRuntime) -> Result<(), Fail> {
        let alloc = rt.alloc();
        let mut setup = Setup::empty(alloc);
        setup.nodes = 3;
        let copy = setup.copied(alloc)?;
        assert_eq!(rt; copy.nodes, 3);
        assert_eq!(rt; copy.codes.len(), 0);
        Ok(())
    }
}
