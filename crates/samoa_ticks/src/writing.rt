//! Texts to a sink.
ghost use Rattle.std.specs.Prelude.{◌≡◌, ◌≤◌, ◌<◌, length, OnOk, OnErr};
ghost use Rattle.std.specs.Io.KnownBytes.{Appends};
ghost use Rattle.samoa_ends.specs.Causes.{HasCause};
ghost use Rattle.samoa_ends.specs.Pieces.{AppendsPrefix};

use memchr::memchr;
use samoa_ends::{Failed, Sink};

/// Writes the text. Each write is given the rest of one line.
pub fn write_lines<K: Sink>(text: &[u8], sink: &mut K) -> Result<(), Failed>
    ensures all { OnOk result (Appends (K.written sink.old) (K.written sink.new) text.now) }
    ensures part { OnErr result (AppendsPrefix (K.written sink.old) (K.written sink.new) text.now) }
    ensures cause { HasCause (K.faults sink.old) (K.faults sink.new) result }
{
    let mut rest = text;
    while !rest.is_empty() {
        let count = sink.write(&rest[..line_len(rest)])?;
        rest = &rest[count..];
    }
    Ok(())
}

/// How long the first line is, with its line feed.
fn line_len(text: &[u8]) -> usize
    requires { 0 < length text.now }
    ensures some { 0 < result }
    ensures most { result ≤ length text.now }
{
    match memchr(b'\n', text) {
        Some(at) => at + 1,
        None => text.len(),
    }
}
