use crate::NameIndex;
use samoa_model::Name;
use std::alloc::Global;
use std::test::Fail;

/// Three names, of which one stands twice.
fn names(alloc: Global) -> Result<NameIndex, Fail> {
    let mut names = Vec::new(alloc);
    for text in ["go", "halt", "go", "stop"] {
        names.push(Name::new(text))?;
    }
    Ok(NameIndex::new(alloc, names)?)
}

#[test]
fn finds_first_places(rt: HostRuntime) -> Result<(), Fail> {
    let names = names(rt.alloc())?;
    let cases = [
        ("go", Some(0), true),
        ("halt", Some(1), true),
        ("stop", Some(3), false),
        ("hal", None, false),
    ];
    for (name, place, before) in cases {
        assert_eq!(rt; names.find(name), place, "{name}");
        assert_eq!(rt; names.contains(name), place.is_some(), "{name}");
        assert_eq!(rt; names.stands_before(name, 2), before, "{name}");
    }
    Ok(())
}
