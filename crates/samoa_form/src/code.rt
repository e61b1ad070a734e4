//! The instructions of scripted handlers.
ghost use Rattle.std.specs.Prelude.{◌≡◌, map};
ghost use Rattle.serde_json.specs.View.{view};
ghost use Rattle.samoa_grammar.specs.Instrs.{place_named as named, place_in, number_between as between, count_in, skip_in, position_in, after_one as one_after, after_two as two_after, after_three as three_after, after_word as words_after, instr_in};

use crate::lists::Item;
use crate::tree::items;
use samoa_model::{Instr, Place};
use serde_json::Value;

/// The place that a text names.
fn place_named(name: &str) -> Option<Place>
    ensures { result ≡ named name.now }
{
    match name.as_bytes() {
        [letter, digit @ b'0'..=b'3'] => match letter {
            b'r' => Some(Place::Reg(u32::from(*digit - b'0'))),
            b'x' => Some(Place::Local(u32::from(*digit - b'0'))),
            _ => None,
        },
        _ => None,
    }
}

fn place(value: &Value) -> Option<Place>
    ensures { result ≡ place_in (view value.now) }
{
    place_named(value.as_str()?)
}

fn number_between(found: u64, least: u32, most: u32) -> Option<u32>
    ensures { result ≡ between least most found }
{
    if found < u64::from(least) || found > u64::from(most) {
        return None;
    }
    Some(found as u32)
}

/// How many words are sent.
fn count(value: &Value) -> Option<u32>
    ensures { result ≡ count_in (view value.now) }
{
    number_between(value.as_u64()?, 0, 4)
}

/// How many instructions are skipped.
fn skip(value: &Value) -> Option<u32>
    ensures { result ≡ skip_in (view value.now) }
{
    number_between(value.as_u64()?, 1, 31)
}

/// A position among the ports or the changes. No list is as long as the greatest that is told apart.
fn position(value: &Value) -> Option<u32>
    ensures { result ≡ position_in (view value.now) }
{
    let found = value.as_u64()?;
    Some(found.min(u64::from(u32::MAX)) as u32)
}

fn after_one(word: &str, k: &Value) -> Option<Instr>
    ensures { result ≡ one_after word.now (view k.now) }
{
    match word {
        "deliver" => Some(Instr::Deliver { k: count(k)? }),
        "done" => Some(Instr::Done { k: count(k)? }),
        _ => None,
    }
}

fn after_two(word: &str, a: &Value, b: &Value) -> Option<Instr>
    ensures { result ≡ two_after word.now (view a.now) (view b.now) }
{
    match word {
        "set" => Some(Instr::Set {
            d: place(a)?,
            n: b.as_u64()?,
        }),
        "copy" => Some(Instr::Copy {
            d: place(a)?,
            s: place(b)?,
        }),
        "add" => Some(Instr::Add {
            d: place(a)?,
            s: place(b)?,
        }),
        "sub" => Some(Instr::Sub {
            d: place(a)?,
            s: place(b)?,
        }),
        "call" => Some(Instr::Call {
            port: position(a)?,
            k: count(b)?,
        }),
        "later" => Some(Instr::Later {
            port: position(a)?,
            k: count(b)?,
        }),
        "change" => Some(Instr::Change {
            c: position(a)?,
            k: count(b)?,
        }),
        _ => None,
    }
}

fn after_three(word: &str, a: &Value, b: &Value, c: &Value) -> Option<Instr>
    ensures { result ≡ three_after word.now (view a.now) (view b.now) (view c.now) }
{
    match word {
        "less" => Some(Instr::Less {
            s: place(a)?,
            t: place(b)?,
            j: skip(c)?,
        }),
        "send" => Some(Instr::Send {
            s: place(a)?,
            port: position(b)?,
            k: count(c)?,
        }),
        _ => None,
    }
}

/// The instruction of a word and what stands after it.
fn after_word(word: &str, rest: &[Value]) -> Option<Instr>
    ensures { result ≡ words_after word.now (map view rest.now) }
{
    match rest {
        [k] => after_one(word, k),
        [a, b] => after_two(word, a, b),
        [a, b, c] => after_three(word, a, b, c),
        _ => None,
    }
}

/// The instruction that a part is, where it is one.
#[tactic(auto, unfolding(samoa_grammar::specs::Instrs::instr_in))]
fn instr(value: &Value) -> Option<Instr>
    ensures { result ≡ instr_in (view value.now) }
{
    let (word, rest) = items(value)?.split_first()?;
    after_word(word.as_str()?, rest)
}

impl Item for Instr {
    ghost use Rattle.samoa_grammar.specs.Instrs.{is_instr, instr_of};

    ghost passes = { is_instr };

    ghost meaning = { instr_of };

    fn read(value: &Value) -> Option<Instr> {
        instr(value)
    }
}
