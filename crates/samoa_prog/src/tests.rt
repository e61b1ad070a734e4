//! A scripted microprotocol in a box, drawn from a stock and set up.
ghost use Rattle.std.specs.Prelude.{◌≡◌, true, All};

use crate::Prog;
use samoa_micro::{Held, Micro, MicroBox, Stock};
use samoa_model::{
    Instr, Kind, Listed, MicroDef, Moment, Name, NoMemory, NodeId, Outcome, Place, Script, Setup,
    Words,
};
use std::alloc::Global;
use std::process::Abort;
use std::test::Fail;

/// Adds its first argument to the first register, and replies with it.
fn adder(alloc: Global) -> Result<Setup, NoMemory> {
    let code = vec![in alloc;
        Instr::Add {
            d: Place::Reg(0),
            s: Place::Local(0)
        },
        Instr::Done { k: 1 },
    ]?;
    let mut codes = Vec::new(alloc);
    codes.push(Listed::from_vec(code))?;
    Ok(Setup {
        node: NodeId(0),
        nodes: 1,
        ports: Listed::from_vec(Vec::new(alloc)),
        changes: Listed::from_vec(Vec::new(alloc)),
        nums: Words::cut(&[10, 20, 30, 40]),
        codes: Listed::from_vec(codes),
    })
}

/// A script of one scripted microprotocol at one node.
fn one_node(alloc: Global) -> Result<Script, NoMemory> {
    let counter = MicroDef {
        name: Name::new("counter"),
        kind: Kind::Prog,
        nums: Words::new(),
        ports: Listed::from_vec(Vec::new(alloc)),
        changes: Listed::from_vec(Vec::new(alloc)),
        handlers: Listed::from_vec(Vec::new(alloc)),
    };
    let mut micros = Vec::new(alloc);
    micros.push(counter)?;
    Ok(Script {
        nodes: 1,
        ticks: 1,
        micros: Listed::from_vec(micros),
        decls: Listed::from_vec(Vec::new(alloc)),
        events: Listed::from_vec(Vec::new(alloc)),
        changes: Listed::from_vec(Vec::new(alloc)),
        does: Listed::from_vec(Vec::new(alloc)),
        losses: Listed::from_vec(Vec::new(alloc)),
        crashes: Listed::from_vec(Vec::new(alloc)),
    })
}

/// Draws the one of a stock, sets it up and makes a step.
fn steps_when_drawn<B: Micro>(rt: &impl Abort, alloc: Global, boxes: Vec<B>) -> Result<(), Fail>
    requires { All (λ b. (B.seen b).fresh ≡ true) boxes.items }
{
    let mut stock = Stock::new(boxes);
    assert_eq!(rt; stock.count(Kind::Prog), 1);
    assert!(rt; stock.covers(&one_node(alloc)?));
    let drawn = stock.draw(Kind::Prog).ok_or("none was left")?;
    let mut held = Held::new(drawn);
    assert_eq!(rt; held.kind(), Kind::Prog);
    held.set_up(alloc, &adder(alloc)?)?;
    let moment = Moment::Begin {
        handler: 0,
        arg: Words::cut(&[5]),
    };
    let reply = Words::cut(&[5]);
    assert_eq!(rt; held.step(alloc, &moment)?, Outcome::Done { reply });
    assert_eq!(rt; held.show(), Words::cut(&[15, 20, 30, 40]));
    assert_eq!(rt; held.into_inner().kind(), Kind::Prog);
    Ok(())
}

#[test]
fn steps_in_a_box(rt: HostRuntime) -> Result<(), Fail> {
    let mut boxes: Vec<MicroBox> = Vec::new(rt.alloc());
    boxes.push(Box::new(rt.alloc(), Prog::new(rt.alloc()))?)?;
    steps_when_drawn(&rt, rt.alloc(), boxes)
}
