//! The lines of a computation's entries.
ghost use Rattle.std.specs.Prelude.{◌≡◌, ◌++◌, OnOk, OnErr};
ghost use Rattle.std.specs.Io.{StartsWith};
ghost use Rattle.samoa_serial.specs.Lines.{entry_text, accepted_text, finished_text, refusal_line, waiting_text, sent_text, delivered_text, asked_text, dest_text};
ghost use Rattle.samoa_model.specs.Handlers.{handler_text};

use crate::names::{change_name, event_name, micro_name, refusal_name, refused_name};
use crate::push::{push_byte, push_head, push_number, push_text, push_words, whole_or_cut};
use samoa_model::{
    ChangeId, Dest, Entry, EventId, HandlerId, MicroId, NoMemory, Refusal, Script, Words,
};

/// Appends the line of an entry: `C` for an accepted call, `Y` for a finished one, `W` for a waiting one, `M` for a
/// message, `A` for a change that was asked for, `X` for a refusal and `D` for a delivery. The first five are call
/// lines, and where `calls` is false nothing is appended for them.
///
/// A number that names nothing in the script prints no name. Want of memory leaves `out` as it was.
pub fn entry_line(
    script: &Script,
    comp: u32,
    entry: &Entry,
    calls: bool,
    out: &mut Vec<u8>,
) -> Result<(), NoMemory>
    ensures ok { OnOk result (out.new.items ≡ out.old.items ++ entry_text script.now comp calls entry.now) }
    ensures err { OnErr result (out.new.items ≡ out.old.items) }
{
    let start = out.len();
    let pushed = push_entry(script, comp, entry, calls, out);
    whole_or_cut(pushed, start, out)
}

fn push_entry(
    script: &Script,
    comp: u32,
    entry: &Entry,
    calls: bool,
    out: &mut Vec<u8>,
) -> Result<(), NoMemory>
    ensures ok { OnOk result (out.new.items ≡ out.old.items ++ entry_text script.now comp calls entry.now) }
    ensures err { OnErr result (StartsWith out.new.items out.old.items) }
{
    match *entry {
        Entry::Refused {
            caller,
            event,
            refusal,
        } => push_refused(script, comp, caller, event, refusal, out),
        Entry::Delivered {
            call: _,
            micro,
            arg,
        } => push_delivered(script, comp, micro, &arg, out),
        _ if !calls => Ok(()),
        Entry::Accepted {
            call,
            caller,
            handler,
            arg,
        } => push_accepted(script, comp, call, caller, handler, &arg, out),
        Entry::Finished { call, reply } => push_finished(comp, call, &reply, out),
        Entry::Waiting { call, event, arg } => push_waiting(script, comp, call, event, &arg, out),
        Entry::Sent {
            call,
            to,
            event,
            arg,
        } => push_sent(script, comp, call, to, event, &arg, out),
        Entry::Asked { call, change, arg } => push_asked(script, comp, call, change, &arg, out),
    }
}

#[tactic(auto, unfolding(samoa_serial::specs::Lines::accepted_text))]
fn push_accepted(
    script: &Script,
    comp: u32,
    call: u32,
    caller: u32,
    handler: HandlerId,
    arg: &Words,
    out: &mut Vec<u8>,
) -> Result<(), NoMemory>
    ensures ok { OnOk result (out.new.items ≡ out.old.items ++ accepted_text script.now comp call caller handler arg.now) }
    ensures err { OnErr result (StartsWith out.new.items out.old.items) }
{
    push_head(b"C ", comp, call, out)?;
    push_byte(b' ', out)?;
    push_number(u64::from(caller), out)?;
    push_byte(b' ', out)?;
    push_handler(script, handler, out)?;
    push_words(arg.as_slice(), out)?;
    push_byte(b'\n', out)
}

#[tactic(auto, unfolding(samoa_serial::specs::Lines::finished_text))]
fn push_finished(comp: u32, call: u32, reply: &Words, out: &mut Vec<u8>) -> Result<(), NoMemory>
    ensures ok { OnOk result (out.new.items ≡ out.old.items ++ finished_text comp call reply.now) }
    ensures err { OnErr result (StartsWith out.new.items out.old.items) }
{
    push_head(b"Y ", comp, call, out)?;
    push_words(reply.as_slice(), out)?;
    push_byte(b'\n', out)
}

#[tactic(auto, unfolding(samoa_serial::specs::Lines::refusal_line))]
fn push_refused(
    script: &Script,
    comp: u32,
    caller: u32,
    event: Option<EventId>,
    refusal: Refusal,
    out: &mut Vec<u8>,
) -> Result<(), NoMemory>
    ensures ok { OnOk result (out.new.items ≡ out.old.items ++ refusal_line script.now comp caller event refusal) }
    ensures err { OnErr result (StartsWith out.new.items out.old.items) }
{
    push_head(b"X ", comp, caller, out)?;
    push_byte(b' ', out)?;
    push_text(refused_name(script, event), out)?;
    push_byte(b' ', out)?;
    push_text(refusal_name(refusal), out)?;
    push_byte(b'\n', out)
}

#[tactic(auto, unfolding(samoa_serial::specs::Lines::waiting_text))]
fn push_waiting(
    script: &Script,
    comp: u32,
    call: u32,
    event: EventId,
    arg: &Words,
    out: &mut Vec<u8>,
) -> Result<(), NoMemory>
    ensures ok { OnOk result (out.new.items ≡ out.old.items ++ waiting_text script.now comp call event arg.now) }
    ensures err { OnErr result (StartsWith out.new.items out.old.items) }
{
    push_head(b"W ", comp, call, out)?;
    push_byte(b' ', out)?;
    push_text(event_name(script, event), out)?;
    push_words(arg.as_slice(), out)?;
    push_byte(b'\n', out)
}

#[tactic(auto, unfolding(samoa_serial::specs::Lines::sent_text))]
fn push_sent(
    script: &Script,
    comp: u32,
    call: u32,
    to: Dest,
    event: EventId,
    arg: &Words,
    out: &mut Vec<u8>,
) -> Result<(), NoMemory>
    ensures ok { OnOk result (out.new.items ≡ out.old.items ++ sent_text script.now comp call to event arg.now) }
    ensures err { OnErr result (StartsWith out.new.items out.old.items) }
{
    push_head(b"M ", comp, call, out)?;
    push_byte(b' ', out)?;
    push_dest(to, out)?;
    push_byte(b' ', out)?;
    push_text(event_name(script, event), out)?;
    push_words(arg.as_slice(), out)?;
    push_byte(b'\n', out)
}

#[tactic(auto, unfolding(samoa_serial::specs::Lines::delivered_text))]
fn push_delivered(
    script: &Script,
    comp: u32,
    micro: MicroId,
    arg: &Words,
    out: &mut Vec<u8>,
) -> Result<(), NoMemory>
    ensures ok { OnOk result (out.new.items ≡ out.old.items ++ delivered_text script.now comp micro.0 arg.now) }
    ensures err { OnErr result (StartsWith out.new.items out.old.items) }
{
    push_text(b"D ", out)?;
    push_number(u64::from(comp), out)?;
    push_byte(b' ', out)?;
    push_text(micro_name(script, micro), out)?;
    push_words(arg.as_slice(), out)?;
    push_byte(b'\n', out)
}

#[tactic(auto, unfolding(samoa_serial::specs::Lines::asked_text))]
fn push_asked(
    script: &Script,
    comp: u32,
    call: u32,
    change: ChangeId,
    arg: &Words,
    out: &mut Vec<u8>,
) -> Result<(), NoMemory>
    ensures ok { OnOk result (out.new.items ≡ out.old.items ++ asked_text script.now comp call change.0 arg.now) }
    ensures err { OnErr result (StartsWith out.new.items out.old.items) }
{
    push_head(b"A ", comp, call, out)?;
    push_byte(b' ', out)?;
    push_text(change_name(script, change), out)?;
    push_words(arg.as_slice(), out)?;
    push_byte(b'\n', out)
}

/// Appends the name of a handler, after that of its microprotocol and a dot.
fn push_handler(script: &Script, handler: HandlerId, out: &mut Vec<u8>) -> Result<(), NoMemory>
    ensures ok { OnOk result (out.new.items ≡ out.old.items ++ handler_text script.now handler) }
    ensures err { OnErr result (out.new.items ≡ out.old.items) }
{
    let start = out.len();
    let pushed = push_both_names(script, handler, out);
    whole_or_cut(pushed, start, out)
}

fn push_both_names(script: &Script, handler: HandlerId, out: &mut Vec<u8>) -> Result<(), NoMemory>
    ensures ok { OnOk result (out.new.items ≡ out.old.items ++ handler_text script.now handler) }
    ensures err { OnErr result (StartsWith out.new.items out.old.items) }
{
    push_text(micro_name(script, handler.micro), out)?;
    push_byte(b'.', out)?;
    push_text(script.handler_name(handler).as_bytes(), out)
}

/// Appends the number of a node, or `*` for all nodes.
fn push_dest(to: Dest, out: &mut Vec<u8>) -> Result<(), NoMemory>
    ensures ok { OnOk result (out.new.items ≡ out.old.items ++ dest_text to) }
    ensures err { OnErr result (out.new.items ≡ out.old.items) }
{
    match to {
        Dest::One(node) => push_number(u64::from(node.0), out),
        Dest::All => push_byte(b'*', out),
    }
}
