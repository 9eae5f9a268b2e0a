//! Sound plans, and copies.

use super::draft::{B1, Bridge, C1, Draft, Joint, L1, SIDE, Service, Side, Site, TWO_BRIDGES};
use super::made::plan_of;
use pb_lan::plan_is_sound;
use std::alloc::{AllocError, Global};
use std::process::Abort;
use std::test::Fail;

/// Checks whether the plan of a draft is sound.
pub(super) fn is_sound(alloc: Global, draft: &Draft) -> Result<bool, AllocError> {
    let plan = plan_of(alloc, draft)?;
    Ok(plan_is_sound(&plan))
}

/// Checks that the plan of a draft is sound, or that it is not.
pub(super) fn stands(
    rt: &impl Abort,
    alloc: Global,
    draft: &Draft,
    sound: bool,
    what: &str,
) -> Result<(), Fail> {
    let found = is_sound(alloc, draft)?;
    assert!(rt; found == sound, "{what}");
    Ok(())
}

/// A plan of nothing.
const BARE: Draft = Draft {
    bridges: &[],
    links: &[],
    services: &[],
    customers: &[],
    ..TWO_BRIDGES
};

#[test]
fn plans_are_sound(rt: HostRuntime) -> Result<(), Fail> {
    stands(&rt, rt.alloc(), &TWO_BRIDGES, true, "two bridges")?;
    stands(&rt, rt.alloc(), &BARE, true, "a plan of nothing")
}

/// One bridge whose ports are joined, with all numbers at their limits.
const LIMITS: Draft = Draft {
    bridges: &[Bridge {
        priority: 61440,
        queue: 4096,
        ..B1
    }],
    links: &[Joint {
        a: Side {
            port: 16,
            cost: 200_000_000,
            priority: 240,
            services: Some(&[1, 2]),
            ..SIDE
        },
        b: Side { port: 15, ..SIDE },
        lost_ab: &[0, 1, u64::MAX],
        ..L1
    }],
    services: &[
        Service { name: "a", vid: 1 },
        Service {
            name: "b",
            vid: 4094,
        },
    ],
    customers: &[Site {
        port: 14,
        service: 2,
        pcp: 7,
        queue: 4096,
        ..C1
    }],
    ageing: 1_000_000,
    ring: 4096,
    ..TWO_BRIDGES
};

#[test]
fn the_limits_themselves_are_sound(rt: HostRuntime) -> Result<(), Fail> {
    stands(&rt, rt.alloc(), &LIMITS, true, "limits")
}

/// Checks whether the copy of a draft's plan is equal to it.
fn copies(alloc: Global, draft: &Draft) -> Result<bool, AllocError> {
    let plan = plan_of(alloc, draft)?;
    let copy = plan.clone()?;
    Ok(copy == plan)
}

#[test]
fn copies_are_equal(rt: HostRuntime) -> Result<(), Fail> {
    assert!(rt; copies(rt.alloc(), &TWO_BRIDGES)?);
    Ok(())
}
