//! The names that a line prints. A number that names nothing in the script has the empty name.
ghost use Rattle.std.specs.Prelude.{◌≡◌};
ghost use Rattle.samoa_model.specs.Scripts.{micro_at, event_at, change_at};
ghost use Rattle.samoa_serial.specs.Lines.{refusal_text, refused_text, cause_letter as letter_of, cause_name as name_of};

use samoa_model::{Cause, ChangeId, EventId, MicroId, Refusal, Script};

pub fn micro_name(script: &Script, micro: MicroId) -> &[u8]
    ensures { result.now ≡ (micro_at script.now micro.0).name }
{
    match script.micros.as_slice().get(micro.0 as usize) {
        Some(micro) => micro.name.as_str().as_bytes(),
        None => b"",
    }
}

pub fn event_name(script: &Script, event: EventId) -> &[u8]
    ensures { result.now ≡ (event_at script.now event.0).name }
{
    match script.events.as_slice().get(event.0 as usize) {
        Some(event) => event.name.as_str().as_bytes(),
        None => b"",
    }
}

pub fn change_name(script: &Script, change: ChangeId) -> &[u8]
    ensures { result.now ≡ (change_at script.now change.0).name }
{
    match script.changes.as_slice().get(change.0 as usize) {
        Some(change) => change.name.as_str().as_bytes(),
        None => b"",
    }
}

/// The letter of a computation's first line, and a space.
pub fn cause_letter(cause: Cause) -> &'static [u8]
    ensures { result.now ≡ letter_of cause }
{
    match cause {
        Cause::Event(_) => b"E ",
        Cause::Change(_) => b"B ",
    }
}

pub fn cause_name(script: &Script, cause: Cause) -> &[u8]
    ensures { result.now ≡ name_of script.now cause }
{
    match cause {
        Cause::Event(event) => event_name(script, event),
        Cause::Change(change) => change_name(script, change),
    }
}

/// The name of a refused event, `-` where a computation was cut.
pub fn refused_name(script: &Script, event: Option<EventId>) -> &[u8]
    ensures { result.now ≡ refused_text script.now event }
{
    match event {
        Some(event) => event_name(script, event),
        None => b"-",
    }
}

pub fn refusal_name(refusal: Refusal) -> &'static [u8]
    ensures { result.now ≡ refusal_text refusal }
{
    match refusal {
        Refusal::OverBudget => b"OverBudget",
        Refusal::Unbound => b"Unbound",
        Refusal::Undeclared => b"Undeclared",
        Refusal::OverBound => b"OverBound",
        Refusal::OffRoute => b"OffRoute",
    }
}
