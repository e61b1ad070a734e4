//! The input from a source.
ghost use Rattle.std.specs.Prelude.{◌≡◌, ◌≤◌, ◌<◌, ◌++◌, length, take, IfOk, OnErr};
ghost use Rattle.std.specs.Io.KnownBytes.{Consumes, IsAtEnd};
ghost use Rattle.samoa_ticks.specs.Stops.{StopsFor};
ghost use Rattle.samoa_run.specs.Reading.{ReadsInto};

use samoa_ends::Source;
use samoa_ticks::Stop;
use std::alloc::Global;

/// The longest input that is a script alone.
pub const LIMIT: usize = 1_048_576;

/// The longest input that is a script and a journal.
pub const REPLAY_LIMIT: usize = 16_777_216;

/// The input, to its end or to one byte past the limit.
pub fn read_input<S: Source>(alloc: Global, limit: usize, source: &mut S) -> Result<Vec<u8>, Stop>
    requires { limit ≤ REPLAY_LIMIT }
    ensures read { IfOk result (λ bytes. Consumes (S.left source.old) (S.left source.new) bytes.items) }
    ensures whole { IfOk result (λ bytes. length bytes.items ≤ limit → IsAtEnd (S.left source.new)) }
    ensures cause { StopsFor (S.faults source.old) (S.faults source.new) result }
{
    let mut bytes = Vec::new(alloc);
    let mut piece = [0u8; 4096];
    while bytes.len() <= limit {
        let room = piece.len().min(limit + 1 - bytes.len());
        if read_some(source, &mut piece[..room], &mut bytes)? == 0 {
            return Ok(bytes);
        }
    }
    Ok(bytes)
}

/// One read, into the piece and on to the bytes.
fn read_some<S: Source>(
    source: &mut S,
    piece: &mut [u8],
    bytes: &mut Vec<u8>,
) -> Result<usize, Stop>
    requires { 0 < length piece.old }
    ensures read { IfOk result (λ count. ReadsInto (S.left source.old) (S.left source.new) bytes.old.items bytes.new.items count) }
    ensures most { IfOk result (λ count. count ≤ length piece.old) }
    ensures cause { StopsFor (S.faults source.old) (S.faults source.new) result }
{
    let count = source.read(piece)?;
    bytes.extend_from_slice(&piece[..count])?;
    Ok(count)
}
