//! Plans that break one rule each.

use super::draft::{
    B1, BLUE, Bridge, C1, C2, Draft, Joint, L1, More, RED, SIDE, Service, Side, Site, TWO_BRIDGES,
};
use super::plans::{is_sound, stands};
use pb_lan::Mac;
use std::alloc::Global;
use std::process::Abort;
use std::test::Fail;

/// Checks that the plan of a draft is unsound with each of these items added, with the expected error.
fn all_break(
    rt: &impl Abort,
    alloc: Global,
    draft: &Draft,
    rows: &[(More, &str)],
) -> Result<(), Fail> {
    for (more, why) in rows {
        let odd = Draft {
            more: *more,
            ..*draft
        };
        stands(rt, alloc, &odd, false, why)?;
    }
    Ok(())
}

/// A bridge B3.
const B3: Bridge = Bridge {
    name: "B3",
    address: Mac([2, 0, 0, 0, 0, 3]),
    ..B1
};

#[test]
fn unsound_bridges(rt: HostRuntime) -> Result<(), Fail> {
    const ROWS: &[(More, &str)] = &[
        (
            More::Bridge(Bridge {
                priority: 4095,
                ..B3
            }),
            "a priority that is no multiple of 4096",
        ),
        (More::Bridge(Bridge { queue: 0, ..B3 }), "no room"),
        (More::Bridge(Bridge { queue: 4097, ..B3 }), "too much room"),
        (
            More::Bridge(Bridge {
                address: Mac([1, 0, 0, 0, 0, 3]),
                ..B3
            }),
            "a group address",
        ),
        (More::Bridge(Bridge { name: "B1", ..B3 }), "a name twice"),
        (
            More::Bridge(Bridge {
                address: Mac([2, 0, 0, 0, 0, 2]),
                ..B3
            }),
            "an address twice",
        ),
    ];
    all_break(&rt, rt.alloc(), &TWO_BRIDGES, ROWS)
}

/// An end at B1 port 4.
const NEAR: Side = Side { port: 4, ..SIDE };

/// An end at B2 port 4.
const FAR: Side = Side { bridge: 2, ..NEAR };

/// A link from B1 port 4 to B2 port 4.
const L2: Joint = Joint {
    name: "L2",
    a: NEAR,
    b: FAR,
    ..L1
};

#[test]
fn unsound_links(rt: HostRuntime) -> Result<(), Fail> {
    const ROWS: &[(More, &str)] = &[
        (More::Link(Joint { name: "L1", ..L2 }), "a name twice"),
        (More::Link(Joint { b: NEAR, ..L2 }), "both ends at one port"),
        (
            More::Link(Joint { a: SIDE, ..L2 }),
            "a port of another link",
        ),
        (
            More::Link(Joint {
                b: Side { port: 3, ..FAR },
                ..L2
            }),
            "a customer port",
        ),
        (
            More::Link(Joint {
                lost_ba: &[3, 3],
                ..L2
            }),
            "a loss twice",
        ),
    ];
    all_break(&rt, rt.alloc(), &TWO_BRIDGES, ROWS)
}

/// A link from B1 port 4 to B2 port 5.
const TO_5: Joint = Joint {
    b: Side { port: 5, ..FAR },
    ..L2
};

#[test]
fn unsound_ends(rt: HostRuntime) -> Result<(), Fail> {
    const ROWS: &[(More, &str)] = &[
        (
            More::Link(Joint {
                a: Side { bridge: 3, ..NEAR },
                ..TO_5
            }),
            "a bridge that is not there",
        ),
        (
            More::Link(Joint {
                a: Side { bridge: 0, ..NEAR },
                ..TO_5
            }),
            "bridge 0",
        ),
        (
            More::Link(Joint {
                a: Side { port: 17, ..NEAR },
                ..TO_5
            }),
            "port 17",
        ),
        (
            More::Link(Joint {
                a: Side { cost: 0, ..NEAR },
                ..TO_5
            }),
            "no cost",
        ),
        (
            More::Link(Joint {
                a: Side {
                    cost: 200_000_001,
                    ..NEAR
                },
                ..TO_5
            }),
            "too high a cost",
        ),
        (
            More::Link(Joint {
                a: Side {
                    priority: 8,
                    ..NEAR
                },
                ..TO_5
            }),
            "a priority that is no multiple of 16",
        ),
        (
            More::Link(Joint {
                a: Side {
                    services: Some(&[2, 1]),
                    ..NEAR
                },
                ..TO_5
            }),
            "services that fall",
        ),
        (
            More::Link(Joint {
                a: Side {
                    services: Some(&[3]),
                    ..NEAR
                },
                ..TO_5
            }),
            "a service that is not there",
        ),
    ];
    all_break(&rt, rt.alloc(), &TWO_BRIDGES, ROWS)
}

/// The two bridges with red alone.
const ONE_SERVICE: Draft = Draft {
    services: &[RED],
    ..TWO_BRIDGES
};

#[test]
fn unsound_services(rt: HostRuntime) -> Result<(), Fail> {
    const ROWS: &[(More, &str)] = &[
        (More::Service(Service { vid: 4095, ..BLUE }), "VID 4095"),
        (More::Service(Service { vid: 0, ..BLUE }), "VID 0"),
        (More::Service(Service { vid: 100, ..BLUE }), "a VID twice"),
        (
            More::Service(Service {
                name: "red",
                ..BLUE
            }),
            "a name twice",
        ),
        (More::Nothing, "a service that is missing"),
    ];
    all_break(&rt, rt.alloc(), &ONE_SERVICE, ROWS)
}

/// The two bridges with C1 alone.
const ONE_CUSTOMER: Draft = Draft {
    customers: &[C1],
    ..TWO_BRIDGES
};

#[test]
fn unsound_customers(rt: HostRuntime) -> Result<(), Fail> {
    const ROWS: &[(More, &str)] = &[
        (More::Customer(Site { name: "C1", ..C2 }), "a name twice"),
        (More::Customer(Site { bridge: 1, ..C2 }), "a port twice"),
        (More::Customer(Site { port: 0, ..C2 }), "port 0"),
        (
            More::Customer(Site { service: 3, ..C2 }),
            "a service that is not there",
        ),
        (More::Customer(Site { pcp: 8, ..C2 }), "priority 8"),
        (More::Customer(Site { queue: 0, ..C2 }), "no room"),
    ];
    all_break(&rt, rt.alloc(), &ONE_CUSTOMER, ROWS)
}

/// Checks that the plan of a draft is unsound with each of these ageing times, ring sizes and limits of steps.
fn numbers_break(
    rt: &impl Abort,
    alloc: Global,
    draft: &Draft,
    rows: &[(u32, u16, u64)],
) -> Result<(), Fail> {
    for (ageing, ring, steps) in rows {
        let odd = Draft {
            ageing: *ageing,
            ring: *ring,
            steps: *steps,
            ..*draft
        };
        let found = is_sound(alloc, &odd)?;
        assert!(rt; !found, "{ageing} {ring} {steps}");
    }
    Ok(())
}

#[test]
fn unsound_numbers(rt: HostRuntime) -> Result<(), Fail> {
    const ROWS: &[(u32, u16, u64)] = &[
        (9, 64, 1),
        (1_000_001, 64, 1),
        (300, 0, 1),
        (300, 4097, 1),
        (300, 64, 0),
    ];
    numbers_break(&rt, rt.alloc(), &TWO_BRIDGES, ROWS)
}

#[test]
fn any_number_of_steps_is_sound(rt: HostRuntime) -> Result<(), Fail> {
    let endless = Draft {
        steps: u64::MAX,
        ..TWO_BRIDGES
    };
    stands(
        &rt,
        rt.alloc(),
        &endless,
        true,
        "as many steps as can be counted",
    )
}
