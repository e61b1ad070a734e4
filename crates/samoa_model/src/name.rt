//! Names of a script.
ghost use Rattle.std.specs.Prelude.{◌≡◌, ◌<◌, ◌≤◌, length, slice_index};
ghost use Rattle.std.specs.List.{list_all};
ghost use Rattle.samoa_model.specs.NameRule.{is_script_name, is_name_byte as name_byte, is_letter};

use arrayvec::ArrayString;
use std::marker::Model;

/// A text of 1 to 33 bytes: a name of at most 16, or two of them joined by a dot. Contracts see the list of its bytes.
#[derive(Debug, Drop)]
pub struct Name {
    text: ArrayString<33>,
}

impl Model for Name {
    ghost use Rattle.std.specs.Prelude.{◌<◌, ◌≤◌, ℕ, List, length};

    ghost Value = { List ℕ };

    ghost view = { λ n. n.text.bytes };

    ghost invariant = { λ n. (0 < length n.text.bytes) × (length n.text.bytes ≤ 33) };
}

impl Name {
    /// The name of this text. It takes no memory.
    pub fn new(text: &str) -> Name
        requires some { 0 < length text.now }
        requires few { length text.now ≤ 33 }
        ensures { result ≡ text.now }
    {
        let mut name = ArrayString::new();
        name.push_str(text);
        Name { text: name }
    }

    /// The text. It takes no memory.
    pub fn as_str(&self) -> &str
        ensures value { result.now ≡ self.now }
        ensures some { 0 < length self.now }
        ensures few { length self.now ≤ 33 }
    {
        self.text.as_str()
    }

    /// The same name. It takes no memory.
    pub fn copied(&self) -> Name
        ensures { result ≡ self.now }
    {
        Name { text: self.text }
    }
}

/// Whether a text may name a part of a script: 1 to 16 bytes of a-z, 0-9 and `_`, a letter first.
pub fn is_name(text: &str) -> bool
    ensures { result ≡ is_script_name text.now }
{
    let bytes = text.as_bytes();
    starts_with_letter(bytes) && (bytes.len() <= 16 && are_name_bytes(bytes))
}

fn are_name_bytes(bytes: &[u8]) -> bool
    ensures { result ≡ list_all name_byte bytes.now }
{
    bytes.iter().all(|c| is_name_byte(*c))
}

fn starts_with_letter(bytes: &[u8]) -> bool
    ensures { result ≡ is_letter (slice_index bytes.now 0) }
{
    !bytes.is_empty() && bytes[0].is_ascii_lowercase()
}

fn is_name_byte(c: u8) -> bool
    ensures { result ≡ name_byte c }
{
    c.is_ascii_lowercase() || c.is_ascii_digit() || c == b'_'
}
