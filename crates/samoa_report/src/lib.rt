//! The lines of a report. Fields are separated by one space, and each line ends with a line feed.
#![tactic(auto)]

ghost use Rattle.std.specs.Prelude.{◌≡◌, ◌++◌, OnOk, OnErr};
ghost use Rattle.std.specs.Io.{StartsWith};
ghost use Rattle.samoa_serial.specs.LimitedReport.{limit_text};
ghost use Rattle.samoa_serial.specs.Lines.{ext_text, end_text, state_text, total_text};

mod entries;
mod fault;
mod laws;
mod names;
mod push;
mod reading;
mod steps;
#[cfg(test)]
mod tests;

pub use entries::entry_line;
pub use fault::StepsFault;
pub use laws::{no_steps_beside_a_bad_line, one_bad_line, one_list_of_steps};
use names::{cause_letter, cause_name, micro_name, refusal_name};
use push::{push_byte, push_number, push_text, push_words, whole_or_cut};
pub use reading::read_steps;
use samoa_model::{Ending, Ext, MicroId, NoMemory, NodeId, Reply, Script, Words};
pub use steps::{journal_line, step_line};

/// Appends the first line of a computation: `E`, or `B` for a change of bindings, the computation's number, its
/// tick and node, the name of the event or the change, and the arguments.
///
/// A number that names nothing in the script prints no name. Want of memory leaves `out` as it was.
pub fn ext_line(script: &Script, comp: u32, ext: &Ext, out: &mut Vec<u8>) -> Result<(), NoMemory>
    ensures ok { OnOk result (out.new.items ≡ out.old.items ++ ext_text script.now comp ext.now) }
    ensures err { OnErr result (out.new.items ≡ out.old.items) }
{
    let start = out.len();
    let pushed = push_ext(script, comp, ext, out);
    whole_or_cut(pushed, start, out)
}

/// Appends the last line of a computation: `Z`, its number, and `ok` with the reply, `no` with the refusal, or `cut`.
///
/// Want of memory leaves `out` as it was.
pub fn end_line(comp: u32, ending: &Ending, out: &mut Vec<u8>) -> Result<(), NoMemory>
    ensures ok { OnOk result (out.new.items ≡ out.old.items ++ end_text comp ending.now) }
    ensures err { OnErr result (out.new.items ≡ out.old.items) }
{
    let start = out.len();
    let pushed = push_end(comp, ending, out);
    whole_or_cut(pushed, start, out)
}

/// Appends the line of a state: `S`, the node, the name of the microprotocol, and the state's words.
///
/// A number that names no microprotocol of the script prints no name. Want of memory leaves `out` as it was.
pub fn state_line(
    script: &Script,
    node: NodeId,
    micro: MicroId,
    words: &Words,
    out: &mut Vec<u8>,
) -> Result<(), NoMemory>
    ensures ok { OnOk result (out.new.items ≡ out.old.items ++ state_text script.now node.0 micro.0 words.now) }
    ensures err { OnErr result (out.new.items ≡ out.old.items) }
{
    let start = out.len();
    let pushed = push_state(script, node, micro, words, out);
    whole_or_cut(pushed, start, out)
}

/// Appends the last line of a report: `N`, and the numbers of computations, of deliveries and of refusals.
///
/// Want of memory leaves `out` as it was.
pub fn total_line(
    comps: u32,
    deliveries: u64,
    refusals: u64,
    out: &mut Vec<u8>,
) -> Result<(), NoMemory>
    ensures ok { OnOk result (out.new.items ≡ out.old.items ++ total_text comps deliveries refusals) }
    ensures err { OnErr result (out.new.items ≡ out.old.items) }
{
    let start = out.len();
    let pushed = push_total(comps, deliveries, refusals, out);
    whole_or_cut(pushed, start, out)
}

/// Appends the last line of a report whose computations the limit ended: `L`, and the limit.
///
/// Want of memory leaves `out` as it was.
pub fn limit_line(most: u32, out: &mut Vec<u8>) -> Result<(), NoMemory>
    ensures ok { OnOk result (out.new.items ≡ out.old.items ++ limit_text most) }
    ensures err { OnErr result (out.new.items ≡ out.old.items) }
{
    let start = out.len();
    let pushed = push_limit(most, out);
    whole_or_cut(pushed, start, out)
}

#[tactic(auto, unfolding(samoa_serial::specs::Lines::ext_text))]
fn push_ext(script: &Script, comp: u32, ext: &Ext, out: &mut Vec<u8>) -> Result<(), NoMemory>
    ensures ok { OnOk result (out.new.items ≡ out.old.items ++ ext_text script.now comp ext.now) }
    ensures err { OnErr result (StartsWith out.new.items out.old.items) }
{
    push_text(cause_letter(ext.cause), out)?;
    push_number(u64::from(comp), out)?;
    push_byte(b' ', out)?;
    push_number(u64::from(ext.tick), out)?;
    push_byte(b' ', out)?;
    push_number(u64::from(ext.node.0), out)?;
    push_byte(b' ', out)?;
    push_text(cause_name(script, ext.cause), out)?;
    push_words(ext.args.as_slice(), out)?;
    push_byte(b'\n', out)
}

#[tactic(auto, unfolding(samoa_serial::specs::Lines::end_text))]
fn push_end(comp: u32, ending: &Ending, out: &mut Vec<u8>) -> Result<(), NoMemory>
    ensures ok { OnOk result (out.new.items ≡ out.old.items ++ end_text comp ending.now) }
    ensures err { OnErr result (StartsWith out.new.items out.old.items) }
{
    push_text(b"Z ", out)?;
    push_number(u64::from(comp), out)?;
    match ending {
        Ending::Replied(Reply::Words(words)) => {
            push_text(b" ok", out)?;
            push_words(words.as_slice(), out)?;
        }
        Ending::Replied(Reply::Refused(refusal)) => {
            push_text(b" no ", out)?;
            push_text(refusal_name(*refusal), out)?;
        }
        Ending::Cut => push_text(b" cut", out)?,
    }
    push_byte(b'\n', out)
}

#[tactic(auto, unfolding(samoa_serial::specs::Lines::state_text))]
fn push_state(
    script: &Script,
    node: NodeId,
    micro: MicroId,
    words: &Words,
    out: &mut Vec<u8>,
) -> Result<(), NoMemory>
    ensures ok { OnOk result (out.new.items ≡ out.old.items ++ state_text script.now node.0 micro.0 words.now) }
    ensures err { OnErr result (StartsWith out.new.items out.old.items) }
{
    push_text(b"S ", out)?;
    push_number(u64::from(node.0), out)?;
    push_byte(b' ', out)?;
    push_text(micro_name(script, micro), out)?;
    push_words(words.as_slice(), out)?;
    push_byte(b'\n', out)
}

#[tactic(auto, unfolding(samoa_serial::specs::Lines::total_text))]
fn push_total(comps: u32, deliveries: u64, refusals: u64, out: &mut Vec<u8>) -> Result<(), NoMemory>
    ensures ok { OnOk result (out.new.items ≡ out.old.items ++ total_text comps deliveries refusals) }
    ensures err { OnErr result (StartsWith out.new.items out.old.items) }
{
    push_text(b"N ", out)?;
    push_number(u64::from(comps), out)?;
    push_byte(b' ', out)?;
    push_number(deliveries, out)?;
    push_byte(b' ', out)?;
    push_number(refusals, out)?;
    push_byte(b'\n', out)
}

#[tactic(auto, unfolding(samoa_serial::specs::LimitedReport::limit_text))]
fn push_limit(most: u32, out: &mut Vec<u8>) -> Result<(), NoMemory>
    ensures ok { OnOk result (out.new.items ≡ out.old.items ++ limit_text most) }
    ensures err { OnErr result (StartsWith out.new.items out.old.items) }
{
    push_text(b"L ", out)?;
    push_number(u64::from(most), out)?;
    push_byte(b'\n', out)
}
