//! Each line once, and texts that are read back. Whole reports stand in examples/.
use crate::{
    StepsFault, end_line, entry_line, ext_line, journal_line, limit_line, read_steps, state_line,
    step_line, total_line,
};
use samoa_model::{
    Cause, ChangeDef, ChangeId, CodeDef, Dest, Ending, Entry, EventDef, EventId, Ext, HandlerId,
    Kind, Listed, MicroDef, MicroId, Name, NoMemory, NodeId, Refusal, Script, Step, Words,
};
use std::alloc::Global;
use std::test::Fail;

fn one<T: Drop>(alloc: Global, item: T) -> Result<Listed<T>, NoMemory> {
    let mut items = Vec::new(alloc);
    items.push(item)?;
    Ok(Listed::from_vec(items))
}

fn none<T>(alloc: Global) -> Listed<T> {
    Listed::from_vec(Vec::new(alloc))
}

/// A microprotocol `ab` with a handler `f`, an event `go`, and a change `to_b`.
fn small_script(alloc: Global) -> Result<Script, NoMemory> {
    let handler = CodeDef {
        name: Name::new("f"),
        code: none(alloc),
    };
    let micro = MicroDef {
        name: Name::new("ab"),
        kind: Kind::Prog,
        nums: Words::new(),
        ports: none(alloc),
        changes: none(alloc),
        handlers: one(alloc, handler)?,
    };
    let event = EventDef {
        name: Name::new("go"),
        decl: 0,
        handlers: none(alloc),
    };
    let change = ChangeDef {
        name: Name::new("to_b"),
        event: EventId(0),
        table: none(alloc),
    };
    Ok(Script {
        nodes: 2,
        ticks: 10,
        micros: one(alloc, micro)?,
        decls: none(alloc),
        events: one(alloc, event)?,
        changes: one(alloc, change)?,
        does: none(alloc),
        losses: none(alloc),
        crashes: none(alloc),
    })
}

fn entries() -> [Entry; 8] {
    let arg = Words::cut(&[1, 18446744073709551615]);
    let event = EventId(0);
    [
        Entry::Accepted {
            call: 1,
            caller: 0,
            handler: HandlerId {
                micro: MicroId(0),
                index: 0,
            },
            arg,
        },
        Entry::Finished {
            call: 10,
            reply: arg,
        },
        Entry::Waiting {
            call: 3,
            event,
            arg: Words::new(),
        },
        Entry::Sent {
            call: 4,
            to: Dest::One(NodeId(1)),
            event,
            arg,
        },
        Entry::Sent {
            call: 4,
            to: Dest::All,
            event,
            arg,
        },
        Entry::Asked {
            call: 6,
            change: ChangeId(0),
            arg,
        },
        Entry::Refused {
            caller: 2,
            event: None,
            refusal: Refusal::OverBudget,
        },
        Entry::Delivered {
            call: 5,
            micro: MicroId(0),
            arg,
        },
    ]
}

#[test]
fn prints_each_line(rt: HostRuntime) -> Result<(), Fail> {
    let alloc = rt.alloc();
    let script = small_script(alloc)?;
    let mut out = Vec::new(alloc);
    let ext = Ext {
        node: NodeId(1),
        tick: 12,
        cause: Cause::Change(ChangeId(0)),
        args: Words::cut(&[3, 4]),
    };
    ext_line(&script, 4294967295, &ext, &mut out)?;
    for entry in &entries() {
        entry_line(&script, 7, entry, true, &mut out)?;
        entry_line(&script, 8, entry, false, &mut out)?;
    }
    end_line(8, &Ending::Cut, &mut out)?;
    state_line(&script, NodeId(1), MicroId(0), &Words::cut(&[5]), &mut out)?;
    total_line(100000, 18446744073709551615, 0, &mut out)?;
    limit_line(4294967295, &mut out)?;
    let want: &[u8] = b"B 4294967295 12 1 to_b 3 4\n\
C 7 1 0 ab.f 1 18446744073709551615\n\
Y 7 10 1 18446744073709551615\n\
W 7 3 go\n\
M 7 4 1 go 1 18446744073709551615\n\
M 7 4 * go 1 18446744073709551615\n\
A 7 6 to_b 1 18446744073709551615\n\
X 7 2 - OverBudget\n\
X 8 2 - OverBudget\n\
D 7 ab 1 18446744073709551615\n\
D 8 ab 1 18446744073709551615\n\
Z 8 cut\n\
S 1 ab 5\n\
N 100000 18446744073709551615 0\n\
L 4294967295\n";
    assert_eq!(rt; out.as_slice(), want);
    Ok(())
}

/// The lines of each kind of step.
#[test]
fn prints_a_journal(rt: HostRuntime) -> Result<(), Fail> {
    let steps = [
        Step::Admit { comp: 1 },
        Step::Enter { comp: 1, micro: 0 },
        Step::Release { comp: 1, micro: 23 },
        Step::Leave { comp: 1 },
        Step::Abandon { comp: 4294967295 },
        Step::End { comp: 1 },
    ];
    let mut out = Vec::new(rt.alloc());
    journal_line(6, &mut out)?;
    for step in &steps {
        step_line(step, &mut out)?;
    }
    let want: &[u8] = b"J 6\na 1\ne 1 0\nr 1 23\nl 1\nb 4294967295\nn 1\n";
    assert_eq!(rt; out.as_slice(), want);
    Ok(())
}

/// How many steps a short text has, or its bad line, 0 where memory is wanting.
fn count(alloc: Global, text: &[u8]) -> Result<usize, u32> {
    if text.len() > 40 {
        return Err(0);
    }
    match read_steps(alloc, text) {
        Ok(steps) => Ok(steps.len()),
        Err(StepsFault::BadLine { line }) => Err(line),
        Err(StepsFault::Memory) => Err(0),
    }
}

/// Texts, and how many steps they have or which line is bad.
const CASES: [(&[u8], Result<usize, u32>); 22] = [
    (b"", Ok(0)),
    (b"a 1\ne 1 0\nr 1 23\nl 1\nb 2\nn 1\n", Ok(6)),
    (b"a 4294967295\n", Ok(1)),
    (b"l 0\n", Ok(1)),
    (b"r 0 4294967295\n", Ok(1)),
    (b"a 01\n", Err(1)),
    (b"a 4294967296\n", Err(1)),
    (b"x 1\n", Err(1)),
    (b"A 1\n", Err(1)),
    (b"e 1\n", Err(1)),
    (b"a 1 2\n", Err(1)),
    (b"e 1 2 3\n", Err(1)),
    (b"a  1\n", Err(1)),
    (b" a 1\n", Err(1)),
    (b"a 1 \n", Err(1)),
    (b"a +1\n", Err(1)),
    (b"a \n", Err(1)),
    (b"a 1\r\n", Err(1)),
    (b"a 1", Err(1)),
    (b"a 1\nn 1", Err(2)),
    (b"a 1\n\nn 1\n", Err(2)),
    (b"a 1\ne 1 0\nr 1 00\nx\n", Err(3)),
];

#[test]
fn reads_steps_or_names_the_first_bad_line(rt: HostRuntime) {
    for (text, want) in CASES {
        assert_eq!(rt; count(rt.alloc(), text), want);
    }
}
