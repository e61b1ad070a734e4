//! The faults of names and totals.
ghost use Rattle.std.specs.Prelude.{◌≡◌, ◌<◌, ◌≤◌, length};
ghost use Rattle.samoa_grammar.specs.declared.fault.WalkFault.TheVariants.{Unknown, Twice, WrongForm, Over};

use samoa_form::Stop;
use samoa_grammar::WalkFault;
use samoa_model::Name;

pub fn unknown(name: &Name) -> Stop
    ensures { result ≡ Stop.Fault (Unknown name.now) }
{
    Stop::Fault(WalkFault::Unknown {
        name: name.copied(),
    })
}

pub fn twice(name: &Name) -> Stop
    ensures { result ≡ Stop.Fault (Twice name.now) }
{
    Stop::Fault(WalkFault::Twice {
        name: name.copied(),
    })
}

pub fn wrong_form(key: &str) -> Stop
    requires some { 0 < length key.now }
    requires few { length key.now ≤ 33 }
    ensures { result ≡ Stop.Fault (WrongForm key.now) }
{
    Stop::Fault(WalkFault::WrongForm {
        key: Name::new(key),
    })
}

pub fn over(name: &str, limit: u64) -> Stop
    requires some { 0 < length name.now }
    requires few { length name.now ≤ 33 }
    ensures { result ≡ Stop.Fault (Over name.now limit) }
{
    Stop::Fault(WalkFault::Over {
        name: Name::new(name),
        limit,
    })
}
