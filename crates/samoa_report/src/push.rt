//! The parts of a line. Each appends its text, and want of memory leaves `out` as it was.
ghost use Rattle.std.specs.Prelude.{◌≡◌, [], ◌∷◌, ◌++◌, take, codes, decimal, OnOk, OnErr};
ghost use Rattle.std.specs.Io.{StartsWith};
ghost use Rattle.samoa_serial.specs.Lines.{words_text};

use itoa::Buffer;
use samoa_model::NoMemory;

/// Leaves what was pushed as it is, or cuts it back to its first bytes where memory was wanting.
pub fn whole_or_cut(
    pushed: Result<(), NoMemory>,
    start: usize,
    out: &mut Vec<u8>,
) -> Result<(), NoMemory>
    ensures same { result ≡ pushed }
    ensures whole { OnOk pushed (out.new.items ≡ out.old.items) }
    ensures cut { OnErr pushed (out.new.items ≡ take start out.old.items) }
{
    if pushed.is_err() {
        out.truncate(start);
    }
    pushed
}

pub fn push_text(text: &[u8], out: &mut Vec<u8>) -> Result<(), NoMemory>
    ensures ok { OnOk result (out.new.items ≡ out.old.items ++ text.now) }
    ensures err { OnErr result (out.new.items ≡ out.old.items) }
{
    out.extend_from_slice(text)?;
    Ok(())
}

pub fn push_byte(byte: u8, out: &mut Vec<u8>) -> Result<(), NoMemory>
    ensures ok { OnOk result (out.new.items ≡ out.old.items ++ byte ∷ []) }
    ensures err { OnErr result (out.new.items ≡ out.old.items) }
{
    out.push(byte)?;
    Ok(())
}

pub fn push_number(number: u64, out: &mut Vec<u8>) -> Result<(), NoMemory>
    ensures ok { OnOk result (out.new.items ≡ out.old.items ++ decimal number) }
    ensures err { OnErr result (out.new.items ≡ out.old.items) }
{
    // Most numbers of a report have one digit.
    if number < 10 {
        return push_byte(b'0' + number as u8, out);
    }
    push_text(Buffer::new().format(number).as_bytes(), out)
}

/// Appends what most lines of an entry begin with: a letter, the computation, and the number of a call.
pub fn push_head(letter: &[u8], comp: u32, call: u32, out: &mut Vec<u8>) -> Result<(), NoMemory>
    ensures ok { OnOk result (out.new.items ≡ out.old.items ++ (letter.now ++ decimal comp ++ codes " " ++ decimal call)) }
    ensures err { OnErr result (out.new.items ≡ out.old.items) }
{
    let start = out.len();
    let pushed = push_fields(letter, comp, call, out);
    whole_or_cut(pushed, start, out)
}

fn push_fields(letter: &[u8], comp: u32, call: u32, out: &mut Vec<u8>) -> Result<(), NoMemory>
    ensures ok { OnOk result (out.new.items ≡ out.old.items ++ (letter.now ++ decimal comp ++ codes " " ++ decimal call)) }
    ensures err { OnErr result (StartsWith out.new.items out.old.items) }
{
    push_text(letter, out)?;
    push_number(u64::from(comp), out)?;
    push_byte(b' ', out)?;
    push_number(u64::from(call), out)
}

/// Appends a space and a number per word.
pub fn push_words(words: &[u64], out: &mut Vec<u8>) -> Result<(), NoMemory>
    ensures ok { OnOk result (out.new.items ≡ out.old.items ++ words_text words.now) }
    ensures err { OnErr result (out.new.items ≡ out.old.items) }
{
    let start = out.len();
    let pushed = push_each(words, out);
    whole_or_cut(pushed, start, out)
}

fn push_each(words: &[u64], out: &mut Vec<u8>) -> Result<(), NoMemory>
    ensures ok { OnOk result (out.new.items ≡ out.old.items ++ words_text words.now) }
    ensures err { OnErr result (StartsWith out.new.items out.old.items) }
{
    for word in words {
        push_byte(b' ', out)?;
        push_number(*word, out)?;
    }
    Ok(())
}
