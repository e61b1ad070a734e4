//! Routes through three microprotocols.
ghost use Rattle.std.specs.Prelude.{IfOk};
ghost use Rattle.samoa_vca_route.specs.Routes.{IsRoute};

use crate::{Masks, may_release, may_release_masked, raises, reach};
use samoa_declare::Standing;
use samoa_model::{Decl, HandlerId, Listed, MicroId};
use std::alloc::Global;
use std::test::Fail;

/// At most one active and one waiting handler.
#[derive(Clone, Copy)]
struct Calls {
    active: Option<HandlerId>,
    waiting: Option<HandlerId>,
}

impl Standing for Calls {
    ghost use Rattle.std.specs.Prelude.{option_to_list};

    ghost active_handlers = { λ calls. option_to_list calls.active };

    ghost waiting_handlers = { λ calls. option_to_list calls.waiting };

    fn active(&self, at: usize) -> Option<HandlerId> {
        if at == 0 { self.active } else { None }
    }

    fn waiting(&self, at: usize) -> Option<HandlerId> {
        if at == 0 { self.waiting } else { None }
    }
}

fn handler(micro: u32) -> HandlerId {
    HandlerId {
        micro: MicroId(micro),
        index: 0,
    }
}

/// From the sixth handler of 0 to the first of 1 or of 2.
fn fork(alloc: Global) -> Result<Decl, Fail>
    ensures { IfOk result IsRoute }
{
    let root = HandlerId {
        micro: MicroId(0),
        index: 5,
    };
    Ok(Decl::Route {
        vertices: Listed::from_vec(vec![in alloc; root, handler(1), handler(2)]?),
        roots: Listed::from_vec(vec![in alloc; 0]?),
        edges: Listed::from_vec(vec![in alloc; (0, 1), (0, 2)]?),
    })
}

#[test]
fn releases_what_no_call_can_reach(rt: HostRuntime) -> Result<(), Fail> {
    let decl = fork(rt.alloc())?;
    let (left, right, outside) = (Some(handler(1)), Some(handler(2)), Some(handler(3)));
    assert!(rt; reach(&decl, handler(1), MicroId(1)));
    assert!(rt; !reach(&decl, handler(1), MicroId(2)));
    assert!(rt; !raises(&decl, MicroId(0)));
    for (active, waiting, micro, released) in [
        (right, left, 0, true),
        (right, left, 1, false),
        (right, None, 1, true),
        (None, outside, 3, false),
    ] {
        assert_eq!(rt;
            may_release(&decl, &Calls { active, waiting }, MicroId(micro)),
            released
        );
    }
    Ok(())
}

#[test]
fn releases_the_same_by_masks(rt: HostRuntime) -> Result<(), Fail> {
    let decl = fork(rt.alloc())?;
    let masks = Masks::new(rt.alloc(), &decl)?;
    let root = Some(HandlerId {
        micro: MicroId(0),
        index: 5,
    });
    let (right, outside, far) = (Some(handler(2)), Some(handler(0)), Some(handler(40)));
    for (active, waiting, needed) in [
        (None, None, 0b000),
        (root, None, 0b111),
        (right, outside, 0b101),
        (right, far, 0b100),
    ] {
        let calls = Calls { active, waiting };
        assert_eq!(rt; masks.still_needed(&decl, &calls), needed);
        for micro in 0..3 {
            assert_eq!(rt;
                may_release_masked(&decl, &masks, &calls, MicroId(micro)),
                may_release(&decl, &calls, MicroId(micro))
            );
        }
    }
    let calls = Calls {
        active: right,
        waiting: far,
    };
    assert!(rt; !may_release_masked(&decl, &masks, &calls, MicroId(40)));
    assert!(rt; may_release_masked(&decl, &masks, &calls, MicroId(41)));
    Ok(())
}
