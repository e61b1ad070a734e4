//! Names that are looked up in their lists.
ghost use Rattle.std.specs.Prelude.{◌≡◌, ◌≤◌, length};
ghost use Rattle.samoa_grammar.specs.Passes.{twice as first_twice, among};
ghost use Rattle.samoa_grammar.specs.Walks.{first_along};
ghost use Rattle.samoa_grammar.specs.Meaning.{number_in_names};
ghost use Rattle.samoa_naming.specs.Finds.{Finds};

use crate::faults::{twice, unknown};
use samoa_form::Stop;
use samoa_model::Name;
use samoa_names::NameIndex;

/// The number of a name in a list that names it.
pub fn number(index: &NameIndex, name: &Name) -> u32
    requires { length index.now ≤ 64 }
    ensures { result ≡ number_in_names index.now name.now }
{
    match index.find(name.as_str()) {
        Some(place) => place as u32,
        None => 0,
    }
}

/// That a name is one of a list.
pub fn known(index: &NameIndex, name: &Name) -> Result<(), Stop>
    ensures { Finds result (among index.now name.now) }
{
    if index.contains(name.as_str()) {
        Ok(())
    } else {
        Err(unknown(name))
    }
}

/// That each name is one of a list.
#[tactic(auto, using(crate::proofs::Along::along_items))]
pub fn names_known(index: &NameIndex, names: &[Name]) -> Result<(), Stop>
    ensures { Finds result (first_along (among index.now) names.now) }
{
    for name in names {
        known(index, name)?;
    }
    Ok(())
}

/// That no name of a list stands a second time.
pub fn each_once(index: &NameIndex) -> Result<(), Stop>
    ensures { Finds result (first_twice index.now) }
{
    for (i, name) in index.names().iter().enumerate() {
        if index.stands_before(name.as_str(), i) {
            return Err(twice(name));
        }
    }
    Ok(())
}
