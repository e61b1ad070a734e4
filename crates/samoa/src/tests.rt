//! The top call over sources and sinks in memory, of which some fail.
ghost use Rattle.std.specs.Prelude.{◌≡◌, true, map, All, IfOk};
ghost use Rattle.samoa_micro.specs.Stocks.{HasEnough};

use samoa_ends::{MemSink, MemSource};
use samoa_kinds::{AnyKind, full_boxes};
use samoa_micro::{Micro, Stock};
use samoa_model::{Kind, Moment, NoMemory, Outcome, Setup, Words};
use samoa_run::{Gate, NoGate, serve};
use std::alloc::Global;
use std::sync::Wait;
use std::sync::atomic::{AtomicU64, Ordering};
use std::test::Fail;
use std::thread::Threads;

const COUNTER: &str =
    r#"{"version":1,"nodes":1,"ticks":1,"micros":[{"name":"c","kind":"prog","handlers":[{"name":"h","code":[["add","r0","x0"],["copy","x0","r0"],["deliver",1],["done",1]]}]}],"decls":[{"name":"d","form":"set","micros":["c"]}],"events":[{"name":"e","decl":"d","handlers":["c.h"]}],"do":[{"tick":1,"node":0,"event":"e","args":[7]}]}"#;

const LINES: [&str; 5] = [
    "E 1 1 0 e 7\n",
    "D 1 c 7\n",
    "Z 1 ok 7\n",
    "S 0 c 7 0 0 0\n",
    "N 1 1 0\n",
];

/// A microprotocol that makes so many handler steps, and finds no memory for the next.
#[derive(Drop)]
struct Faint {
    micro: AnyKind,
    left: u32,
}

impl Micro for Faint {
    ghost seen = { λ f. ⟦<AnyKind as Micro>⟧.seen f.micro };

    fn kind(&self) -> Kind {
        self.micro.kind()
    }

    fn set_up(&mut self, alloc: Global, setup: &Setup) -> Result<(), NoMemory> {
        self.micro.set_up(alloc, setup)
    }

    fn step(&mut self, alloc: Global, moment: &Moment) -> Result<Outcome, NoMemory> {
        if self.left == 0 {
            return Err(NoMemory);
        }
        self.left -= 1;
        self.micro.step(alloc, moment)
    }

    fn show(&self) -> Words {
        self.micro.show()
    }
}

/// As many microprotocols as a script can take, each of which makes so many handler steps.
fn boxes(alloc: Global, steps: u32) -> Result<Vec<Faint>, NoMemory>
    ensures fresh { IfOk result (λ boxes. All (λ b. (⟦<Faint as Micro>⟧.seen b).fresh ≡ true) boxes.items) }
    ensures enough { IfOk result (λ boxes. HasEnough (map (λ b. (⟦<Faint as Micro>⟧.seen b).kind) boxes.items)) }
{
    let mut faint = Vec::new(alloc);
    for micro in full_boxes(alloc)? {
        faint.push(Faint { micro, left: steps })?;
    }
    Ok(faint)
}

/// More handler steps than a test makes.
const ENOUGH: u32 = 1000;

/// The status for these words, and what is written. The reads and writes of these numbers fail, and each microprotocol
/// makes so many handler steps.
fn answer<R: Wait + Threads + Sync>(
    rt: &R,
    alloc: Global,
    words: &[&str],
    input: &str,
    reads: &[u64],
    writes: &[u64],
    steps: u32,
) -> Result<(u8, Vec<u8>), NoMemory> {
    answer_behind(
        rt,
        alloc,
        words,
        input,
        reads,
        writes,
        steps,
        &NoGate::new(),
    )
}

/// The same, behind a gate.
fn answer_behind<R: Wait + Threads + Sync, G: Gate + Sync>(
    rt: &R,
    alloc: Global,
    words: &[&str],
    input: &str,
    reads: &[u64],
    writes: &[u64],
    steps: u32,
    gate: &G,
) -> Result<(u8, Vec<u8>), NoMemory> {
    let mut asked = Vec::new(alloc);
    for word in words {
        asked.push(String::from_str(alloc, word)?)?;
    }
    let bytes = Vec::from_slice(alloc, input.as_bytes())?;
    let mut source = MemSource::new(bytes, Vec::from_slice(alloc, reads)?);
    let mut sink = MemSink::new(alloc, 4096, Vec::from_slice(alloc, writes)?)?;
    let stock = Stock::new(boxes(alloc, steps)?);
    let status = serve(rt, alloc, &asked, &mut source, &mut sink, stock, gate);
    Ok((status, Vec::from_slice(alloc, sink.bytes())?))
}

/// Each word once, and words that are none: the status and what is written.
#[test]
fn answers_words(rt: HostRuntime) -> Result<(), Fail> {
    let alloc = rt.alloc();
    let cases: [(&[&str], &str, u8, &str); 20] = [
        (&[], COUNTER, 2, "! usage\n"),
        (&["run", "--call"], COUNTER, 2, "! usage\n"),
        (&["run", "--workers", "0"], COUNTER, 2, "! usage\n"),
        (&["run", "--workers", "65"], COUNTER, 2, "! usage\n"),
        (&["serial", "--journal"], COUNTER, 2, "! usage\n"),
        (
            &["run", "--journal", "--workers", "8"],
            COUNTER,
            0,
            "E 1 1 0 e 7\nD 1 c 7\nZ 1 ok 7\nS 0 c 7 0 0 0\nN 1 1 0\nJ 7\na 1\ne 1 0\nl 1\ne 1 0\nl 1\nr 1 0\nn 1\n",
        ),
        (&["check", "--calls"], COUNTER, 2, "! usage\n"),
        (&["make", "1"], COUNTER, 0, "G 1 324 16 0\n"),
        (&["make"], COUNTER, 2, "! usage\n"),
        (&["make", "0"], COUNTER, 2, "! usage\n"),
        (&["make", "01"], COUNTER, 2, "! usage\n"),
        (&["make", "601"], COUNTER, 2, "! usage\n"),
        (&["make", "1", "--calls"], COUNTER, 2, "! usage\n"),
        (&["--calls", "make"], COUNTER, 2, "! usage\n"),
        (&["--help"], COUNTER, 2, "! usage\n"),
        (&["run"], "", 3, "! script NotJson\n"),
        (
            &["check"],
            "{\"version\":1.0}",
            3,
            "! script WrongForm version\n",
        ),
        (
            &["serial", "--calls"],
            "{}",
            3,
            "! script Missing version\n",
        ),
        (
            &["run"],
            COUNTER,
            0,
            "E 1 1 0 e 7\nD 1 c 7\nZ 1 ok 7\nS 0 c 7 0 0 0\nN 1 1 0\n",
        ),
        (
            &["serial", "--calls"],
            COUNTER,
            0,
            "E 1 1 0 e 7\nC 1 1 0 c.h 7\nD 1 c 7\nY 1 1 7\nZ 1 ok 7\nS 0 c 7 0 0 0\nN 1 1 0\n",
        ),
    ];
    for (words, input, status, text) in cases {
        let (found, written) = answer(&rt, alloc, words, input, &[], &[], ENOUGH)?;
        assert_eq!(rt; found, status);
        assert_eq!(rt; written.as_slice(), text.as_bytes());
    }
    Ok(())
}

/// The counter's script and these lines after it.
fn with_lines(alloc: Global, lines: &str) -> Result<String, NoMemory> {
    let mut input = String::from_str(alloc, COUNTER)?;
    input.push_str(lines)?;
    Ok(input)
}

/// The counter's journal, replayed whole and with each kind of fault.
#[test]
fn replays_journals(rt: HostRuntime) -> Result<(), Fail> {
    let alloc = rt.alloc();
    let cases = [
        (
            "\na 1\ne 1 0\nl 1\ne 1 0\nl 1\nr 1 0\nn 1\n",
            0,
            "E 1 1 0 e 7\nD 1 c 7\nZ 1 ok 7\nS 0 c 7 0 0 0\nN 1 1 0\n",
        ),
        (
            "\na 1\ne 1 0\nl 1\ne 1 0\nl 1\nr 1 0\nn 1\nn 2\n",
            7,
            "! replay Trailing 8\n",
        ),
        ("\na 1\ne 1 0\nl 1\nl 1\n", 7, "! replay NotEnabled 4\n"),
        ("\na 1\n", 7, "! replay Unfinished 1\n"),
        ("\na 2\na 01\n", 7, "! replay BadLine 2\n"),
        ("\na 2\n", 7, "! replay NotEnabled 1\n"),
        ("", 7, "! replay Unfinished 1\n"),
        ("}\n", 3, "! script NotJson\n"),
    ];
    for (lines, status, text) in cases {
        let input = with_lines(alloc, lines)?;
        let (found, written) = answer(&rt, alloc, &["replay"], &input, &[], &[], ENOUGH)?;
        assert_eq!(rt; found, status);
        assert_eq!(rt; written.as_slice(), text.as_bytes());
    }
    Ok(())
}

/// The nth write fails, for each n: the lines before it are written.
#[test]
fn stops_at_a_failed_write(rt: HostRuntime) -> Result<(), Fail> {
    let alloc = rt.alloc();
    let mut wanted = Vec::new(alloc);
    for (n, line) in LINES.iter().enumerate() {
        let (status, written) = answer(
            &rt,
            alloc,
            &["run"],
            COUNTER,
            &[],
            &[n as u64 + 1],
            ENOUGH,
        )?;
        assert_eq!(rt; status, 5);
        assert_eq!(rt; written.as_slice(), wanted.as_slice());
        wanted.extend_from_slice(line.as_bytes())?;
    }
    Ok(())
}

/// The nth read fails, for each n: nothing is written, and past the last read all is.
#[test]
fn stops_at_a_failed_read(rt: HostRuntime) -> Result<(), Fail> {
    let alloc = rt.alloc();
    for (n, status) in [(1, 4), (2, 4), (3, 0)] {
        let (found, written) = answer(&rt, alloc, &["run"], COUNTER, &[n], &[], ENOUGH)?;
        assert_eq!(rt; found, status);
        assert_eq!(rt; written.is_empty(), status == 4);
    }
    Ok(())
}

/// The same counter with two events.
const TWICE: &str =
    r#"{"version":1,"nodes":1,"ticks":1,"micros":[{"name":"c","kind":"prog","handlers":[{"name":"h","code":[["add","r0","x0"],["copy","x0","r0"],["deliver",1],["done",1]]}]}],"decls":[{"name":"d","form":"set","micros":["c"]}],"events":[{"name":"e","decl":"d","handlers":["c.h"]}],"do":[{"tick":1,"node":0,"event":"e","args":[1]},{"tick":1,"node":0,"event":"e","args":[1]}]}"#;

/// The third handler step finds no memory: what was written before is all that is written, and that is what ended in an
/// earlier part.
#[test]
fn stops_where_a_step_finds_no_memory(rt: HostRuntime) -> Result<(), Fail> {
    let alloc = rt.alloc();
    let cases: [(&[&str], &str); 3] = [
        (&["run"], ""),
        (
            &["run", "--cells", "528"],
            "E 1 1 0 e 1\nD 1 c 1\nZ 1 ok 1\n",
        ),
        (&["serial"], "E 1 1 0 e 1\nD 1 c 1\nZ 1 ok 1\n"),
    ];
    for (words, text) in cases {
        let (status, written) = answer(&rt, alloc, words, TWICE, &[], &[], 2)?;
        assert_eq!(rt; status, 6);
        assert_eq!(rt; written.as_slice(), text.as_bytes());
    }
    Ok(())
}

/// Two events at two microprotocols.
const APART: &str =
    r#"{"version":1,"nodes":1,"ticks":1,"micros":[{"name":"a","kind":"prog","handlers":[{"name":"h","code":[["done",0]]}]},{"name":"b","kind":"prog","handlers":[{"name":"h","code":[["done",0]]}]}],"decls":[{"name":"da","form":"set","micros":["a"]},{"name":"db","form":"set","micros":["b"]}],"events":[{"name":"ea","decl":"da","handlers":["a.h"]},{"name":"eb","decl":"db","handlers":["b.h"]}],"do":[{"tick":1,"node":0,"event":"ea","args":[]},{"tick":1,"node":0,"event":"eb","args":[]}]}"#;

/// How often a held handler step looks at most.
const LOOKS: u32 = 100_000_000;

/// A gate that holds the handler steps of computation 1 until one of computation 2 was made, or until it has looked
/// often enough.
#[derive(Drop)]
struct Meeting {
    made: AtomicU64,
    met: AtomicU64,
}

impl Gate for Meeting {
    fn before(&self, comp: u32, _micro: u32) {
        if comp != 1 {
            return;
        }
        for _ in 0..LOOKS {
            if self.made.load(Ordering::Acquire) == 1 {
                self.met.store(1, Ordering::Release);
                return;
            }
        }
    }

    fn after(&self, comp: u32, _micro: u32) {
        if comp == 2 {
            self.made.store(1, Ordering::Release);
        }
    }
}

/// A handler step of computation 2 is made while one of computation 1 is under way.
#[test]
fn overlaps_handler_steps(rt: HostRuntime) -> Result<(), Fail> {
    let alloc = rt.alloc();
    let meeting = Meeting {
        made: AtomicU64::new(0),
        met: AtomicU64::new(0),
    };
    let (status, written) = answer_behind(
        &rt,
        alloc,
        &["run", "--workers", "2"],
        APART,
        &[],
        &[],
        ENOUGH,
        &meeting,
    )?;
    assert_eq!(rt; status, 0);
    assert_eq!(rt;
        written.as_slice(),
        "E 1 1 0 ea\nZ 1 ok\nE 2 1 0 eb\nZ 2 ok\nS 0 a 0 0 0 0\nS 0 b 0 0 0 0\nN 2 0 0\n".as_bytes()
    );
    assert_eq!(rt; meeting.met.load(Ordering::Acquire), 1);
    Ok(())
}
