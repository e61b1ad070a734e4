//! Canonical texts of scripts with parts of every kind stand in examples/, faults of every key in examples/cells.
use crate::{EventNames, print_script, read_script};
use samoa_model::EventId;
use std::test::Fail;

/// The smallest script.
const SMALLEST: &str =
    r#"{"version":1,"nodes":1,"ticks":1,"micros":[{"name":"m","kind":"prog","handlers":[{"name":"h","code":[]}]}],"decls":[{"name":"d","form":"set","micros":["m"]}],"events":[{"name":"e","decl":"d","handlers":["m.h"]}]}"#;

/// Its canonical text.
const PRINTED: &str =
    r#"{"changes":[],"crash":[],"decls":[{"budget":32,"form":"set","micros":["m"],"name":"d"}],"do":[],"events":[{"decl":"d","handlers":["m.h"],"name":"e"}],"lose":[],"micros":[{"changes":[],"handlers":[{"code":[],"name":"h"}],"kind":"prog","name":"m","nums":[],"ports":[]}],"nodes":1,"ticks":1,"version":1}"#;

#[test]
fn reads_prints_and_finds(rt: HostRuntime) -> Result<(), Fail> {
    let alloc = rt.alloc();
    let script = read_script(alloc, SMALLEST.as_bytes())?;
    let text = print_script(alloc, &script)?;
    assert!(rt; text.as_slice() == PRINTED.as_bytes());
    let events = EventNames::new(alloc, &script)?;
    assert_eq!(rt; events.find("e"), Some(EventId(0)));
    assert_eq!(rt; events.find("d"), None);
    Ok(())
}

#[test]
fn answers_the_first_fault(rt: HostRuntime) -> Result<(), Fail> {
    let alloc = rt.alloc();
    let bent = SMALLEST.replacen(alloc, "m.h", "m.g", 1)?;
    match read_script(alloc, bent.as_bytes()) {
        Ok(_) => return Err(Fail::new("a script")),
        Err(fault) => {
            let line = fault.to_string(alloc)?;
            assert_eq!(rt; line.as_str(), "Unknown m.g");
        }
    }
    Ok(())
}
