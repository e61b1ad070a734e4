//! The numbers of names in a list of them.
ghost use Rattle.std.specs.Prelude.{◌≡◌, ℕ, List, ◌<◌, length, take, bytes_eq, IfOk, IfSome, OnOk};
ghost use Rattle.std.specs.List.{list_any, position};
ghost use Rattle.std.specs.HashMap.{get_by_text};
ghost use Rattle.samoa_names.specs.Names.{first_number};

use indexmap::IndexMap;
use samoa_model::{Name, NoMemory};
use std::alloc::Global;
use std::marker::Model;

/// The numbers of the names of a list, where a name may stand twice. Contracts see the list.
#[derive(Drop)]
pub struct NameIndex {
    names: Vec<Name>,
    firsts: IndexMap<String, usize>,
}

impl Model for NameIndex {
    ghost use Rattle.std.specs.Prelude.{◌≡◌, List, ℕ, bytes_eq};
    ghost use Rattle.std.specs.List.{position};
    ghost use Rattle.std.specs.HashMap.{get_by_text};

    ghost Value = { List (List ℕ) };

    ghost view = { λ n. n.names.items };

    ghost invariant = { λ n. (name : List ℕ) → get_by_text n.firsts name ≡ position (bytes_eq name) n.names.items };
}

impl NameIndex {
    /// Numbers the names of a list, each by its first place there.
    pub fn new(alloc: Global, names: Vec<Name>) -> Result<NameIndex, NoMemory>
        ensures { IfOk result (λ n. n ≡ names.items) }
    {
        let firsts = first_places(alloc, names.as_slice())?;
        Ok(NameIndex { names, firsts })
    }

    /// The names.
    pub fn names(&self) -> &[Name]
        ensures { result.now ≡ self.now }
    {
        self.names.as_slice()
    }

    /// The number of a name, which is its first place: none exactly for a name that isn't in the list. It takes no memory.
    pub fn find(&self, name: &str) -> Option<usize>
        ensures value { result ≡ position (bytes_eq name.now) self.now }
        ensures below { IfSome result (λ i. i < length self.now) }
    {
        self.firsts.get(name).copied()
    }

    /// Whether a name is in the list. It takes no memory.
    #[tactic(auto, using(crate::proofs::Positions::position_there))]
    pub fn contains(&self, name: &str) -> bool
        ensures { result ≡ list_any (bytes_eq name.now) self.now }
    {
        self.find(name).is_some()
    }

    /// Whether a name stands in the list before a place. It takes no memory.
    #[tactic(auto, using(crate::proofs::Positions::below_first))]
    pub fn stands_before(&self, name: &str, place: usize) -> bool
        ensures { result ≡ list_any (bytes_eq name.now) (take place self.now) }
    {
        match self.find(name) {
            Some(first) => first < place,
            None => false,
        }
    }
}

fn first_places(alloc: Global, names: &[Name]) -> Result<IndexMap<String, usize>, NoMemory>
    ensures { IfOk result (λ m. (q : List ℕ) → get_by_text m q ≡ position (bytes_eq q) names.now) }
{
    let mut firsts = IndexMap::with_capacity(alloc, names.len())?;
    for (place, name) in names.iter().enumerate() {
        add(alloc, &mut firsts, name.as_str(), place)?;
    }
    Ok(firsts)
}

/// Gives a name this number, unless it has one.
fn add(
    alloc: Global,
    firsts: &mut IndexMap<String, usize>,
    name: &str,
    number: usize,
) -> Result<(), NoMemory>
    ensures { OnOk result ((q : List ℕ) → get_by_text firsts.new q ≡ first_number (get_by_text firsts.old q) (bytes_eq q name.now) number) }
{
    if !firsts.contains_key(name) {
        firsts.insert(String::from_str(alloc, name)?, number)?;
    }
    Ok(())
}
