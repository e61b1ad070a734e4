//! Computations under a bound of one microprotocol.
use crate::{may_release, raises};
use samoa_declare::Standing;
use samoa_model::{Decl, HandlerId, Listed, MicroId};
use std::test::Fail;

/// At most one active and one waiting handler.
#[derive(Clone, Copy)]
struct Calls {
    active: Option<HandlerId>,
    waiting: Option<HandlerId>,
}

impl Standing for Calls {
    ghost use Rattle.std.specs.Prelude.{option_to_list};

    ghost active_handlers = { λ calls. option_to_list calls.active };

    ghost waiting_handlers = { λ calls. option_to_list calls.waiting };

    fn active(&self, at: usize) -> Option<HandlerId> {
        if at == 0 { self.active } else { None }
    }

    fn waiting(&self, at: usize) -> Option<HandlerId> {
        if at == 0 { self.waiting } else { None }
    }
}

#[test]
fn releases_at_rest(rt: HostRuntime) -> Result<(), Fail> {
    let decl = Decl::Bound {
        bounds: Listed::from_vec(vec![in rt.alloc(); (1, 3)]?),
    };
    let call = Some(HandlerId {
        micro: MicroId(0),
        index: 0,
    });
    for (active, waiting, released) in [
        (None, None, true),
        (call, None, false),
        (None, call, false),
    ] {
        assert_eq!(rt;
            may_release(&decl, &Calls { active, waiting }, MicroId(1)),
            released
        );
    }
    assert!(rt; raises(&decl, MicroId(1)));
    assert!(rt; !raises(&decl, MicroId(0)));
    Ok(())
}
