use crate::read_form;
use serde_json::Value;
use std::test::Fail;

/// A script with a part of each kind.
const WHOLE: &str =
    r#"{"version":1,"nodes":2,"ticks":3,"micros":[{"name":"a","kind":"prog","nums":[5],"ports":["e"],"changes":["c"],"handlers":[{"name":"h","code":[["set","r0",7],["send","x3",0,4],["done",1]]}]},{"name":"l","kind":"link","ports":["e"]}],"decls":[{"name":"s","form":"set","micros":["a"]},{"name":"b","form":"bound","bounds":[{"micro":"a","calls":3}]},{"name":"r","form":"route","roots":["a.h"],"edges":[["a.h","l.send"]]}],"events":[{"name":"e","decl":"r","handlers":["a.h"]}],"changes":[{"name":"c","event":"e","table":[{"event":"e","handlers":[]}]}],"do":[{"tick":1,"node":0,"event":"e","args":[1]},{"tick":1,"node":0,"change":"c"}],"lose":[{"from":0,"to":1,"first":0,"last":9}],"crash":[{"node":1,"tick":9}]}"#;

#[test]
fn reads_the_whole(rt: HostRuntime) -> Result<(), Fail> {
    let value = Value::from_str(rt.alloc(), WHOLE)?;
    let draft = read_form(rt.alloc(), &value)?;
    let parts = [
        draft.micros.len(),
        draft.decls.len(),
        draft.events.len(),
        draft.changes.len(),
        draft.does.len(),
        draft.losses.len(),
        draft.crashes.len(),
    ];
    assert_eq!(rt; (draft.nodes, draft.ticks), (2, 3));
    assert_eq!(rt; parts, [2, 3, 1, 1, 2, 1, 1]);
    Ok(())
}

/// A tree of which each key but one is right. Faults of every key stand in examples/cells.
#[test]
fn refuses_nine_nodes(rt: HostRuntime) -> Result<(), Fail> {
    let bent = WHOLE.replacen(rt.alloc(), r#""nodes":2"#, r#""nodes":9"#, 1)?;
    let value = Value::from_str(rt.alloc(), bent.as_str())?;
    assert!(rt; read_form(rt.alloc(), &value).is_err());
    Ok(())
}
