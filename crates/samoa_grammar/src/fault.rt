//! Why a JSON tree is no script.
use samoa_model::Name;

/// The first fault of the walk over a script's tree.
#[derive(Debug, Drop)]
pub enum WalkFault {
    /// A required key is absent.
    Missing { key: Name },
    /// The value of a key has another form.
    WrongForm { key: Name },
    /// A name is used that isn't defined.
    Unknown { name: Name },
    /// A name stands a second time.
    Twice { name: Name },
    /// A number, a list or a total is above its limit.
    Over { name: Name, limit: u64 },
}
