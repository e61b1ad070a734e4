//! An attempt to call an event's handlers.
ghost use Rattle.std.specs.Prelude.{◌≡◌, ◌+◌, ◌^◌, ◌<◌, ◌≤◌, ◌++◌, List, None, length, map, reverse, vec_capacity};
ghost use Rattle.samoa_model.specs.declared.record.Entry.{Entry};
ghost use Rattle.samoa_model.specs.Entries.{calls_made};
ghost use Rattle.samoa_model.specs.Allowed.{attempt_all};
ghost use Rattle.samoa_serial.specs.World.{caller_number, calls_from, entry_of, handler_of as handler_in};
ghost use Rattle.samoa_calls.specs.Handed.{AreCounted};
ghost use Rattle.samoa_calls.specs.Tried.{AreAdded, Counts, HasRoomFor, refusal_in, entries_after, active_after};

use crate::stack::activate;
use samoa_declare::{Visits, allows};
use samoa_model::{Decl, Entry, EventId, HandlerId, Refusal, Words};
use samoa_serial::{Active, Call};
use samoa_transcript::Transcript;

/// The refusal of a list of handlers after these calls, None where they are called, and are counted.
fn refusal(
    decl: &Decl,
    visits: &mut Visits,
    caller: Option<HandlerId>,
    handlers: &[HandlerId],
) -> Option<Refusal>
    requires counted { AreCounted handlers.now }
    requires room { HasRoomFor visits.old handlers.now }
    ensures refusal { (entries : List Entry) → Counts visits.old entries
        → result ≡ refusal_in (attempt_all decl.now entries caller handlers.now) }
    ensures added { result ≡ None → AreAdded visits.old handlers.now visits.new }
{
    if handlers.is_empty() {
        return Some(Refusal::Unbound);
    }
    for handler in handlers {
        if let Err(refusal) = allows(decl, visits, caller, *handler) {
            return Some(refusal);
        }
        visits.add(handler.micro);
    }
    None
}

/// The number of a caller, 0 for the external event.
fn number_of(caller: Option<Call>) -> u32
    ensures { result ≡ caller_number caller }
{
    match caller {
        Some(call) => call.number,
        None => 0,
    }
}

/// The handler of a caller, None for the external event.
fn handler_of(caller: Option<Call>) -> Option<HandlerId>
    ensures { result ≡ handler_in caller }
{
    match caller {
        Some(call) => Some(call.handler),
        None => None,
    }
}

/// Enters one call per handler, with the numbers after `made`.
fn enter(entries: &mut Transcript, made: u32, caller: u32, arg: &Words, handlers: &[HandlerId])
    requires room { length handlers.now ≤ entries.old.room }
    requires numbers { made + length handlers.now < 2 ^ 32 }
    ensures entries { entries.new.entries
        ≡ entries.old.entries ++ map (entry_of caller arg.now) (calls_from made handlers.now) }
    ensures room { entries.new.room + length handlers.now ≡ entries.old.room }
{
    let mut number = made;
    for handler in handlers {
        number += 1;
        entries.push(Entry::Accepted {
            call: number,
            caller,
            handler: *handler,
            arg: *arg,
        });
    }
}

/// Attempts the event's handlers: enters the refusal and answers it, or enters the calls, counts them and makes them
/// active. A refused attempt counts nowhere.
pub(crate) fn attempt(
    active: &mut Vec<Active>,
    entries: &mut Transcript,
    visits: &mut Visits,
    made: u32,
    decl: &Decl,
    handlers: &[HandlerId],
    caller: Option<Call>,
    event: EventId,
    arg: Words,
) -> Option<Refusal>
    requires few { length handlers.now ≤ 4 }
    requires counted { AreCounted handlers.now }
    requires visits { Counts visits.old entries.old.entries }
    requires active_room { length active.old.items + 4 ≤ vec_capacity active.old }
    requires entries_room { 4 ≤ entries.old.room }
    requires made { made ≡ calls_made entries.old.entries }
    requires numbers { made + 4 < 2 ^ 32 }
    ensures refusal { result
        ≡ refusal_in (attempt_all decl.now entries.old.entries (handler_in caller) handlers.now) }
    ensures entries { entries.new.entries ≡ entries_after entries.old.entries caller event arg
        (attempt_all decl.now entries.old.entries (handler_in caller) handlers.now) }
    ensures active { reverse active.new.items
        ≡ active_after entries.old.entries (reverse active.old.items) arg
        (attempt_all decl.now entries.old.entries (handler_in caller) handlers.now) }
    ensures visits { Counts visits.new entries.new.entries }
    ensures active_capacity { vec_capacity active.new ≡ vec_capacity active.old }
    ensures entries_capacity { entries.new.room + length entries.new.entries
        ≡ entries.old.room + length entries.old.entries }
{
    let before = *visits;
    let refused = refusal(decl, visits, handler_of(caller), handlers);
    match refused {
        Some(refusal) => {
            *visits = before;
            entries.push(Entry::Refused {
                caller: number_of(caller),
                event: Some(event),
                refusal,
            });
        }
        None => {
            enter(entries, made, number_of(caller), &arg, handlers);
            activate(active, made, &arg, handlers);
        }
    }
    refused
}
