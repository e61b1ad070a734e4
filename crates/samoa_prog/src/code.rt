//! The code of a scripted handler, carried out.
ghost use Rattle.std.specs.Prelude.{◌≡◌, ◌+◌, ◌<◌, ◌^◌, Some, true, length};
ghost use Rattle.std.specs.Option.{option_copied};
ghost use Rattle.samoa_serial.specs.Kinds.{Numbers as Held, ends_with, carry_out as carried_out, run_from, resumed, waited as has_waited, code_of as refusal_code, port_at as setup_port, change_at_place, dest_of as node_dest};
ghost use Rattle.samoa_model.specs.declared.handler.Outcome.{Outcome};
ghost use Rattle.samoa_model.specs.declared.setup.Setup.{Setup as SetWith};
ghost use Rattle.samoa_prog.specs.Instructions.{given_by, gives};

use crate::numbers::Numbers;
use samoa_model::{
    ChangeId, Dest, EventId, Instr, Listed, NodeId, Outcome, Refusal, Reply, Setup, Words,
};

/// Whether a handler that goes on here waited for a reply.
pub fn waited(code: Option<&Listed<Instr>>, at: u64) -> bool
    ensures { result ≡ has_waited (option_copied code.entry) at }
{
    let Some(code) = code else {
        return false;
    };
    if at == 0 {
        return false;
    }
    let before = (at - 1) as usize;
    matches!(code.as_slice().get(before), Some(Instr::Call { .. }))
}

/// The locals that a resumed handler goes on with.
pub fn resumed_locals(waited: bool, locals: [u64; 4], reply: &Reply) -> [u64; 4]
    ensures { result ≡ resumed waited locals reply.now }
{
    if !waited {
        return locals;
    }
    let [_, _, c, d] = locals;
    match reply {
        Reply::Words(words) => [words.word_or_zero(0), 0, c, d],
        Reply::Refused(refusal) => [0, code_of(*refusal), c, d],
    }
}

/// The code of a refusal.
fn code_of(refusal: Refusal) -> u64
    ensures { result ≡ refusal_code refusal }
{
    match refusal {
        Refusal::Undeclared => 1,
        Refusal::OverBound => 2,
        Refusal::OffRoute => 3,
        Refusal::Unbound => 4,
        // a computation that is over its budget is cut, and no handler of it is resumed
        Refusal::OverBudget => 0,
    }
}

/// Carries out the code of a handler, from a place on. It is done with no word where there is no such handler.
pub fn run(setup: &Setup, code: Option<&Listed<Instr>>, at: u64, numbers: &mut Numbers) -> Outcome
    ensures { ends_with numbers.new result ≡ run_from setup.now (option_copied code.entry) at numbers.old }
{
    let (next, last) = carry_out(at, rest_of(code, at), numbers);
    outcome_of(setup, next, numbers, last)
}

/// The instructions of a handler from a place on, none where there is no such handler.
fn rest_of(code: Option<&Listed<Instr>>, at: u64) -> &[Instr]
    ensures rest { (setup : SetWith) (n : Held) → carried_out setup 0 at result.now n ≡ run_from setup (option_copied code.entry) at n }
    ensures places { at + length result.now < 2 ^ 64 }
{
    let Some(code) = code else {
        return &[];
    };
    let code = code.as_slice();
    let from = at as usize;
    if from < code.len() {
        &code[from..]
    } else {
        &[]
    }
}

/// Carries out the instructions that are left, the first of which stands at `at`, until one gives an outcome. Answers that
/// one, and where the next stands; past the last, one that is done with no word. So the outcome is made in one place.
fn carry_out(at: u64, code: &[Instr], numbers: &mut Numbers) -> (u64, Instr)
    requires { at + length code.now < 2 ^ 64 }
    ensures gives { gives result.1 ≡ true }
    ensures carried { (setup : SetWith) (outcome : Outcome) → given_by setup result.0 numbers.new result.1 ≡ Some outcome
        → ends_with numbers.new outcome ≡ carried_out setup 0 at code.now numbers.old }
{
    let mut next = at;
    let mut skip = 0u32;
    for instr in code {
        next += 1;
        if skip > 0 {
            skip -= 1;
            continue;
        }
        if gives_outcome(instr) {
            return (next, *instr);
        }
        skip = numbers.work(*instr);
    }
    (next, Instr::Done { k: 0 })
}

/// Whether an instruction gives an outcome.
fn gives_outcome(instr: &Instr) -> bool
    ensures { result ≡ gives instr.now }
{
    matches!(
        instr,
        Instr::Call { .. }
            | Instr::Later { .. }
            | Instr::Send { .. }
            | Instr::Deliver { .. }
            | Instr::Change { .. }
            | Instr::Done { .. }
    )
}

/// The outcome of an instruction that gives one; the next instruction stands at `next`.
fn outcome_of(setup: &Setup, next: u64, numbers: &Numbers, instr: Instr) -> Outcome
    requires { gives instr ≡ true }
    ensures { given_by setup.now next numbers.now instr ≡ Some result }
{
    match instr {
        Instr::Call { port, k } => Outcome::Call {
            event: port_at(setup, port),
            arg: numbers.first_locals(k),
            frame: numbers.frame(next),
        },
        Instr::Later { port, k } => Outcome::Later {
            event: port_at(setup, port),
            arg: numbers.first_locals(k),
            frame: numbers.frame(next),
        },
        Instr::Send { s, port, k } => Outcome::Send {
            to: dest_of(setup, numbers.at(s)),
            event: port_at(setup, port),
            arg: numbers.first_locals(k),
            frame: numbers.frame(next),
        },
        Instr::Deliver { k } => Outcome::Deliver {
            arg: numbers.first_locals(k),
            frame: numbers.frame(next),
        },
        Instr::Change { c, k } => Outcome::Change {
            change: change_at(setup, c),
            arg: numbers.first_locals(k),
            frame: numbers.frame(next),
        },
        Instr::Done { k } => Outcome::Done {
            reply: numbers.first_locals(k),
        },
        _ => unreachable!(),
    }
}

/// The event at a port; event 0 past the last port.
fn port_at(setup: &Setup, port: u32) -> EventId
    ensures { result ≡ setup_port setup.now port }
{
    let ports = setup.ports.as_slice();
    let port = port as usize;
    if port < ports.len() {
        ports[port]
    } else {
        EventId(0)
    }
}

/// The change at a place; change 0 past the last one.
fn change_at(setup: &Setup, place: u32) -> ChangeId
    ensures { result ≡ change_at_place setup.now place }
{
    let changes = setup.changes.as_slice();
    let place = place as usize;
    if place < changes.len() {
        changes[place]
    } else {
        ChangeId(0)
    }
}

/// Where a message to this node goes; to all where there is no such node.
fn dest_of(setup: &Setup, node: u64) -> Dest
    ensures { result ≡ node_dest setup.now node }
{
    if node < u64::from(setup.nodes) {
        Dest::One(NodeId(node as u32))
    } else {
        Dest::All
    }
}
