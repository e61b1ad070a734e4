//! Sets and maps that contracts see as lists, in the order of what they hold.
ghost use Rattle.std.specs.Prelude.{◌≡◌, OnOk, OnErr, [], length};
ghost use Rattle.samoa_serial.specs.Rows.{has_key, with_key, has_pair, with_pair, message_of, with_message};

use samoa_model::NoMemory;
use samoa_serial::{Key, Message, Pair};
use std::alloc::Global;
use std::collections::{BTreeMap, BTreeSet};
use std::marker::Model;

/// A set of pairs.
#[derive(Drop)]
pub struct PairSet {
    items: BTreeSet<Pair>,
}

impl Model for PairSet {
    ghost use Rattle.std.specs.Prelude.{List};
    ghost use Rattle.samoa_serial.specs.declared.keys.Pair.{Pair};

    ghost Value = { List Pair };

    ghost view = { λ it. it.items.keys };
}

impl PairSet {
    pub fn new(alloc: Global) -> PairSet
        ensures { result ≡ [] }
    {
        PairSet {
            items: BTreeSet::new(alloc),
        }
    }

    pub fn len(&self) -> usize
        ensures { result ≡ length self.now }
    {
        self.items.len()
    }

    pub fn has(&self, pair: Pair) -> bool
        ensures { result ≡ has_pair self.now pair }
    {
        self.items.contains(&pair)
    }

    pub fn add(&mut self, pair: Pair) -> Result<(), NoMemory>
        ensures ok { OnOk result (self.new ≡ with_pair self.old pair) }
        ensures err { OnErr result (self.new ≡ self.old) }
    {
        self.items.insert(pair)?;
        Ok(())
    }
}

/// A set of keys.
#[derive(Drop)]
pub struct KeySet {
    items: BTreeSet<Key>,
}

impl Model for KeySet {
    ghost use Rattle.std.specs.Prelude.{List};
    ghost use Rattle.samoa_serial.specs.declared.keys.Key.{Key};

    ghost Value = { List Key };

    ghost view = { λ it. it.items.keys };
}

impl KeySet {
    pub fn new(alloc: Global) -> KeySet
        ensures { result ≡ [] }
    {
        KeySet {
            items: BTreeSet::new(alloc),
        }
    }

    pub fn has(&self, key: Key) -> bool
        ensures { result ≡ has_key self.now key }
    {
        self.items.contains(&key)
    }

    pub fn add(&mut self, key: Key) -> Result<(), NoMemory>
        ensures ok { OnOk result (self.new ≡ with_key self.old key) }
        ensures err { OnErr result (self.new ≡ self.old) }
    {
        self.items.insert(key)?;
        Ok(())
    }
}

/// A map from numbers to messages.
#[derive(Drop)]
pub struct MessageMap {
    items: BTreeMap<u64, Message>,
}

impl Model for MessageMap {
    ghost use Rattle.std.specs.Prelude.{ℕ, List};
    ghost use Rattle.samoa_serial.specs.declared.message.Message.{Message};

    ghost Value = { List (ℕ × Message) };

    ghost view = { λ it. it.items.entries };
}

impl MessageMap {
    pub fn new(alloc: Global) -> MessageMap
        ensures { result ≡ [] }
    {
        MessageMap {
            items: BTreeMap::new(alloc),
        }
    }

    pub fn len(&self) -> usize
        ensures { result ≡ length self.now }
    {
        self.items.len()
    }

    pub fn get(&self, number: u64) -> Option<Message>
        ensures { result ≡ message_of self.now number }
    {
        self.items.get(&number).copied()
    }

    /// Keeps a message at a number that has none yet.
    pub fn add(&mut self, number: u64, message: Message) -> Result<(), NoMemory>
        ensures ok { OnOk result (self.new ≡ with_message self.old number message) }
        ensures err { OnErr result (self.new ≡ self.old) }
    {
        if self.get(number).is_none() {
            self.items.insert(number, message)?;
        }
        Ok(())
    }
}
