//! The numbers that a scripted handler works on.
ghost use Rattle.std.specs.Prelude.{◌≡◌, ◌∷◌, take, drop, slice_index, slice_set};
ghost use Rattle.samoa_serial.specs.Kinds.{number_at, with_number, frame_at, first_four};
ghost use Rattle.samoa_prog.specs.Instructions.{worked_by, skipped_by};

use samoa_model::{Instr, Place, Words};
use std::marker::Model;

/// The registers of the microprotocol, and the locals of the handler call.
#[derive(Drop)]
pub struct Numbers {
    registers: [u64; 4],
    locals: [u64; 4],
}

impl Model for Numbers {
    ghost use Rattle.std.specs.Prelude.{◌≡◌, length};
    ghost use Rattle.samoa_serial.specs.Kinds.{Numbers as Held};

    ghost Value = { Held };

    ghost view = { λ n. record { registers = n.registers; locals = n.locals } };

    ghost invariant = { λ n. (length n.registers ≡ 4) × (length n.locals ≡ 4) };
}

impl Numbers {
    /// These registers, beside locals of 0.
    pub fn new(registers: [u64; 4]) -> Numbers
        ensures registers { result.registers ≡ registers }
    {
        Numbers {
            registers,
            locals: [0; 4],
        }
    }

    /// Gives it the locals that a step begins with.
    pub fn set_locals(&mut self, locals: [u64; 4])
        ensures registers { self.new.registers ≡ self.old.registers }
        ensures locals { self.new.locals ≡ locals }
    {
        self.locals = locals;
    }

    /// The registers as words.
    pub fn shown(&self) -> Words
        ensures { result ≡ self.now.registers }
    {
        let [a, b, c, d] = self.registers;
        Words::from_slice(&[a, b, c, d]).unwrap()
    }

    /// Carries out an instruction on the numbers, and answers how many instructions are skipped after it. One that
    /// gives an outcome leaves the numbers as they are.
    pub fn work(&mut self, instr: Instr) -> u32
        ensures numbers { self.new ≡ worked_by self.old instr }
        ensures skipped { result ≡ skipped_by self.old instr }
    {
        match instr {
            Instr::Set { d, n } => self.put(d, n),
            Instr::Copy { d, s } => self.put(d, self.at(s)),
            Instr::Add { d, s } => self.put(d, self.at(d).wrapping_add(self.at(s))),
            Instr::Sub { d, s } => self.put(d, self.at(d).wrapping_sub(self.at(s))),
            Instr::Less { s, t, j } => {
                if self.at(s) < self.at(t) {
                    return j;
                }
            }
            _ => {}
        }
        0
    }

    /// The number at a place.
    pub fn at(&self, place: Place) -> u64
        ensures { result ≡ number_at self.now place }
    {
        match place {
            Place::Reg(k) => number_in(&self.registers, k),
            Place::Local(k) => number_in(&self.locals, k),
        }
    }

    /// Puts a number at a place.
    fn put(&mut self, place: Place, number: u64)
        ensures { self.new ≡ with_number self.old place number }
    {
        match place {
            Place::Reg(k) => put_in(&mut self.registers, k, number),
            Place::Local(k) => put_in(&mut self.locals, k, number),
        }
    }

    /// The first locals, which are sent.
    pub fn first_locals(&self, count: u32) -> Words
        ensures { result ≡ take count self.now.locals }
    {
        let [a, b, c, d] = self.locals;
        match count {
            0 => Words::new(),
            1 => Words::from_slice(&[a]).unwrap(),
            2 => Words::from_slice(&[a, b]).unwrap(),
            3 => Words::from_slice(&[a, b, c]).unwrap(),
            _ => Words::from_slice(&[a, b, c, d]).unwrap(),
        }
    }

    /// What the handler is resumed with later: the place of the next instruction, and the locals.
    pub fn frame(&self, next: u64) -> Words
        ensures { result ≡ frame_at next self.now }
    {
        let [a, b, c, d] = self.locals;
        Words::from_slice(&[next, a, b, c, d]).unwrap()
    }
}

/// The number at an index, or 0 past the end.
fn number_in(numbers: &[u64], at: u32) -> u64
    ensures { result ≡ slice_index numbers.now at }
{
    let at = at as usize;
    if at < numbers.len() { numbers[at] } else { 0 }
}

/// Puts a number at an index, and does nothing past the end.
fn put_in(numbers: &mut [u64], at: u32, number: u64)
    ensures { numbers.new ≡ slice_set numbers.old at number }
{
    let at = at as usize;
    if at < numbers.len() {
        numbers[at] = number;
    }
}

/// The first four words, 0 where there are fewer.
pub fn four_words(words: &Words) -> [u64; 4]
    ensures { result ≡ first_four words.now }
{
    [
        words.word_or_zero(0),
        words.word_or_zero(1),
        words.word_or_zero(2),
        words.word_or_zero(3),
    ]
}

/// The locals of a frame.
pub fn locals_of(frame: &Words) -> [u64; 4]
    ensures { result ≡ first_four (drop 1 frame.now) }
{
    [
        frame.word_or_zero(1),
        frame.word_or_zero(2),
        frame.word_or_zero(3),
        frame.word_or_zero(4),
    ]
}
