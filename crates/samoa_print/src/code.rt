//! Scripted handlers, as JSON values.
ghost use Rattle.std.specs.Prelude.{◌≡◌, [], ◌∷◌, codes, IfOk};
ghost use Rattle.samoa_model.specs.declared.setup.Place.TheVariants as places;
ghost use Rattle.serde_json.specs.Data.{array, string};
ghost use Rattle.serde_json.specs.View.{view, items_of};
ghost use Rattle.samoa_print.specs.Texts.{place_text};
ghost use Rattle.samoa_print.specs.Canonical.{number_tree, place_tree, instr_tree};

use crate::listing::{Printed, list};
use samoa_model::{CodeDef, Instr, NoMemory, Place, Script};
use serde_json::{Value, json};
use std::alloc::Global;

/// A place's word. A number that is no place is read as the last.
fn place_word(place: Place) -> &'static str
    ensures { result.now ≡ place_text place }
{
    match place {
        Place::Reg(n) => register_word(n),
        Place::Local(n) => local_word(n),
    }
}

fn register_word(n: u32) -> &'static str
    ensures { result.now ≡ place_text (places.Reg n) }
{
    match n {
        0 => "r0",
        1 => "r1",
        2 => "r2",
        _ => "r3",
    }
}

fn local_word(n: u32) -> &'static str
    ensures { result.now ≡ place_text (places.Local n) }
{
    match n {
        0 => "x0",
        1 => "x1",
        2 => "x2",
        _ => "x3",
    }
}

/// An instruction with two places.
fn of_places(alloc: Global, word: &str, a: Place, b: Place) -> Result<Value, NoMemory>
    ensures { IfOk result (λ v. view v ≡ array (items_of (string word.now ∷ place_tree a ∷ place_tree b ∷ []))) }
{
    Ok(json!(in alloc; [word, place_word(a), place_word(b)])?)
}

/// An instruction with two numbers.
fn of_numbers(alloc: Global, word: &str, a: u32, b: u32) -> Result<Value, NoMemory>
    ensures { IfOk result (λ v. view v ≡ array (items_of (string word.now ∷ number_tree a ∷ number_tree b ∷ []))) }
{
    Ok(json!(in alloc; [word, a, b])?)
}

/// An instruction with one number.
fn of_number(alloc: Global, word: &str, a: u32) -> Result<Value, NoMemory>
    ensures { IfOk result (λ v. view v ≡ array (items_of (string word.now ∷ number_tree a ∷ []))) }
{
    Ok(json!(in alloc; [word, a])?)
}

fn set_value(alloc: Global, d: Place, n: u64) -> Result<Value, NoMemory>
    ensures { IfOk result (λ v. view v ≡ array (items_of (string (codes "set") ∷ place_tree d ∷ number_tree n ∷ []))) }
{
    Ok(json!(in alloc; ["set", place_word(d), n])?)
}

fn less_value(alloc: Global, s: Place, t: Place, j: u32) -> Result<Value, NoMemory>
    ensures { IfOk result (λ v. view v ≡ array (items_of (string (codes "less") ∷ place_tree s ∷ place_tree t ∷ number_tree j ∷ []))) }
{
    Ok(json!(in alloc; ["less", place_word(s), place_word(t), j])?)
}

fn send_value(alloc: Global, s: Place, port: u32, k: u32) -> Result<Value, NoMemory>
    ensures { IfOk result (λ v. view v ≡ array (items_of (string (codes "send") ∷ place_tree s ∷ number_tree port ∷ number_tree k ∷ []))) }
{
    Ok(json!(in alloc; ["send", place_word(s), port, k])?)
}

#[tactic(auto, unfolding(crate::specs::Canonical::instr_tree))]
fn instr_value(alloc: Global, instr: Instr) -> Result<Value, NoMemory>
    ensures { IfOk result (λ v. view v ≡ instr_tree instr) }
{
    match instr {
        Instr::Set { d, n } => set_value(alloc, d, n),
        Instr::Copy { d, s } => of_places(alloc, "copy", d, s),
        Instr::Add { d, s } => of_places(alloc, "add", d, s),
        Instr::Sub { d, s } => of_places(alloc, "sub", d, s),
        Instr::Less { s, t, j } => less_value(alloc, s, t, j),
        Instr::Call { port, k } => of_numbers(alloc, "call", port, k),
        Instr::Later { port, k } => of_numbers(alloc, "later", port, k),
        Instr::Send { s, port, k } => send_value(alloc, s, port, k),
        Instr::Deliver { k } => of_number(alloc, "deliver", k),
        Instr::Change { c, k } => of_numbers(alloc, "change", c, k),
        Instr::Done { k } => of_number(alloc, "done", k),
    }
}

impl Printed for Instr {
    ghost use Rattle.samoa_print.specs.Canonical.{instr_tree};

    ghost tree = { λ script i. instr_tree i };

    fn value(&self, alloc: Global, _script: &Script) -> Result<Value, NoMemory> {
        instr_value(alloc, *self)
    }
}

impl Printed for CodeDef {
    ghost use Rattle.samoa_print.specs.Canonical.{code_tree};

    ghost tree = { λ script c. code_tree c };

    #[tactic(auto, unfolding(crate::specs::Canonical::code_tree))]
    fn value(&self, alloc: Global, script: &Script) -> Result<Value, NoMemory> {
        let code = list(alloc, script, self.code.as_slice())?;
        Ok(json!(in alloc; {"name": self.name.as_str(), "code": code})?)
    }
}
