//! Why bytes hold no script.
ghost use Rattle.std.specs.Prelude.{◌≡◌};
ghost use Rattle.samoa_script.specs.Fails.{fault_of as fault_of_stop};

use samoa_form::Stop;
use samoa_grammar::WalkFault;
use samoa_model::Name;
use thiserror::Error;

/// Why bytes hold no script: the first fault, or want of memory. It prints as in a fault line of the program.
#[derive(Debug, Drop, Error)]
pub enum ScriptFault {
    /// There are more than 1,048,576 bytes.
    #[error("TooLong")]
    TooLong,
    /// The bytes are no JSON text.
    #[error("NotJson")]
    NotJson,
    /// A required key is absent.
    #[error("Missing {}", .key.as_str())]
    Missing { key: Name },
    /// The value of a key has another form.
    #[error("WrongForm {}", .key.as_str())]
    WrongForm { key: Name },
    /// A name is used that isn't defined.
    #[error("Unknown {}", .name.as_str())]
    Unknown { name: Name },
    /// A name stands a second time.
    #[error("Twice {}", .name.as_str())]
    Twice { name: Name },
    /// A number, a list or a total is above its limit.
    #[error("Over {} {limit}", .name.as_str())]
    Over { name: Name, limit: u64 },
    /// There was no memory.
    #[error("Memory")]
    Memory,
}

/// The fault of a walk that stopped.
pub fn fault_of(stop: Stop) -> ScriptFault
    ensures { result ≡ fault_of_stop stop }
{
    match stop {
        Stop::Fault(WalkFault::Missing { key }) => ScriptFault::Missing { key },
        Stop::Fault(WalkFault::WrongForm { key }) => ScriptFault::WrongForm { key },
        Stop::Fault(WalkFault::Unknown { name }) => ScriptFault::Unknown { name },
        Stop::Fault(WalkFault::Twice { name }) => ScriptFault::Twice { name },
        Stop::Fault(WalkFault::Over { name, limit }) => ScriptFault::Over { name, limit },
        Stop::Memory => ScriptFault::Memory,
    }
}
