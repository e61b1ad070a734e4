//! Declarations at a few values.
use crate::{Visits, allows, weight};
use samoa_model::{Decl, HandlerId, Listed, MicroId, Refusal};
use std::test::Fail;

fn handler(micro: u32) -> HandlerId {
    HandlerId {
        micro: MicroId(micro),
        index: 0,
    }
}

#[test]
fn allows_by_a_bound(rt: HostRuntime) -> Result<(), Fail> {
    let bound = Decl::Bound {
        bounds: Listed::from_vec(vec![in rt.alloc(); (1, 2)]?),
    };
    assert_eq!(rt; weight(&bound, MicroId(1)), 2);
    let mut visits = Visits::new();
    visits.add(MicroId(1));
    assert_eq!(rt; allows(&bound, &visits, None, handler(1)).err(), None);
    visits.add(MicroId(1));
    assert_eq!(rt; visits.at(MicroId(1)), 2);
    assert_eq!(rt;
        allows(&bound, &visits, None, handler(1)).err(),
        Some(Refusal::OverBound)
    );
    Ok(())
}
