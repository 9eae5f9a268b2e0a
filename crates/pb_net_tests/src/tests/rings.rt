//! Rings of bridges that decide their own tree.

use super::draft::{Draft, Joint, Site};
use super::networks::BROADCAST;
use super::rows::{Act, Row};
use super::walk::ends_as_forest;
use pb_lan::{PortState, Spanning};
use pb_rstp::Role;
use std::test::Fail;

/// B1 port 1 to B2 port 1, B2 port 2 to B3 port 2, and B3 port 1 to B1 port 2.
const THREE: Draft = Draft {
    bridges: 3,
    links: &[
        Joint::Plain((1, 1), (2, 1)),
        Joint::Plain((2, 2), (3, 2)),
        Joint::Plain((3, 1), (1, 2)),
    ],
    customers: &[],
    spanning: Spanning::Rstp,
    queue: 64,
    ring: 64,
    steps: 1_000_000,
};

#[test]
fn a_ring_of_three_settles(rt: HostRuntime) -> Result<(), Fail> {
    const ROWS: &[Row] = &[
        Row::Settled(Some(false)),
        Row::Rounds(10),
        Row::Settled(Some(true)),
        Row::Roles(1, Some(&[(1, Role::Designated), (2, Role::Designated)])),
        Row::Roles(2, Some(&[(1, Role::Root), (2, Role::Designated)])),
        Row::Roles(3, Some(&[(1, Role::Root), (2, Role::Alternate)])),
    ];
    const STATES: &[(u8, u8, PortState)] = &[
        // The ports towards the root.
        (2, 1, PortState::Forwarding),
        (3, 1, PortState::Forwarding),
        // The port that cuts the ring.
        (3, 2, PortState::Discarding),
    ];
    ends_as_forest(&rt, rt.alloc(), &THREE, ROWS, STATES)
}

/// B1 to B6: port 1 of each to port 2 of the next, and port 1 of the last to port 2 of the first. Each has a
/// customer port at port 3.
const SIX: Draft = Draft {
    bridges: 6,
    links: &[
        Joint::Plain((1, 1), (2, 2)),
        Joint::Plain((2, 1), (3, 2)),
        Joint::Plain((3, 1), (4, 2)),
        Joint::Plain((4, 1), (5, 2)),
        Joint::Plain((5, 1), (6, 2)),
        Joint::Plain((6, 1), (1, 2)),
    ],
    customers: &[
        Site {
            at: (1, 3),
            service: 1,
            pcp: 0,
        },
        Site {
            at: (2, 3),
            service: 1,
            pcp: 0,
        },
        Site {
            at: (3, 3),
            service: 1,
            pcp: 0,
        },
        Site {
            at: (4, 3),
            service: 1,
            pcp: 0,
        },
        Site {
            at: (5, 3),
            service: 1,
            pcp: 0,
        },
        Site {
            at: (6, 3),
            service: 1,
            pcp: 0,
        },
    ],
    spanning: Spanning::Rstp,
    queue: 64,
    ring: 64,
    steps: 1_000_000,
};

/// The ring converges, reconverges without the link between B1 and B2, and converges with it again. A broadcast each
/// time.
const MENDED: &[Row] = &[
    Row::Settled(Some(false)),
    Row::Rounds(10),
    Row::Settled(Some(true)),
    Row::Converged(Some(true)),
    Row::Roles(1, Some(&[(1, Role::Designated), (2, Role::Designated)])),
    Row::Roles(2, Some(&[(1, Role::Designated), (2, Role::Root)])),
    Row::Roles(3, Some(&[(1, Role::Designated), (2, Role::Root)])),
    Row::Roles(4, Some(&[(1, Role::Alternate), (2, Role::Root)])),
    Row::Roles(5, Some(&[(1, Role::Root), (2, Role::Designated)])),
    Row::Roles(6, Some(&[(1, Role::Root), (2, Role::Designated)])),
    Row::Enters(1, BROADCAST),
    Row::Empties,
    Row::Left(&[0, 1, 1, 1, 1, 1]),
    // The link between B1 and B2 is disabled.
    Row::Does(Act::Admin(1, 1, false)),
    Row::Does(Act::Admin(2, 2, false)),
    Row::Rounds(10),
    Row::Settled(Some(true)),
    Row::Converged(Some(true)),
    Row::Roles(1, Some(&[(1, Role::Disabled), (2, Role::Designated)])),
    Row::Roles(2, Some(&[(1, Role::Root), (2, Role::Disabled)])),
    Row::Roles(3, Some(&[(1, Role::Root), (2, Role::Designated)])),
    Row::Roles(4, Some(&[(1, Role::Root), (2, Role::Designated)])),
    Row::Roles(5, Some(&[(1, Role::Root), (2, Role::Designated)])),
    Row::Roles(6, Some(&[(1, Role::Root), (2, Role::Designated)])),
    Row::Enters(1, BROADCAST),
    Row::Empties,
    Row::Left(&[0, 2, 2, 2, 2, 2]),
    // It is enabled again.
    Row::Does(Act::Admin(1, 1, true)),
    Row::Does(Act::Admin(2, 2, true)),
    Row::Rounds(10),
    Row::Settled(Some(true)),
    Row::Converged(Some(true)),
    Row::Roles(1, Some(&[(1, Role::Designated), (2, Role::Designated)])),
    Row::Roles(2, Some(&[(1, Role::Designated), (2, Role::Root)])),
    Row::Roles(3, Some(&[(1, Role::Designated), (2, Role::Root)])),
    Row::Roles(4, Some(&[(1, Role::Alternate), (2, Role::Root)])),
    Row::Roles(5, Some(&[(1, Role::Root), (2, Role::Designated)])),
    Row::Roles(6, Some(&[(1, Role::Root), (2, Role::Designated)])),
    Row::Enters(1, BROADCAST),
    Row::Empties,
    Row::Left(&[0, 3, 3, 3, 3, 3]),
];

/// The states at the end.
const MENDED_STATES: &[(u8, u8, PortState)] = &[
    (1, 1, PortState::Forwarding),
    (1, 2, PortState::Forwarding),
    (2, 1, PortState::Forwarding),
    (2, 2, PortState::Forwarding),
    (3, 1, PortState::Forwarding),
    (3, 2, PortState::Forwarding),
    // The port that cuts the ring.
    (4, 1, PortState::Discarding),
    (4, 2, PortState::Forwarding),
    (5, 1, PortState::Forwarding),
    (5, 2, PortState::Forwarding),
    (6, 1, PortState::Forwarding),
    (6, 2, PortState::Forwarding),
];

#[test]
fn a_ring_of_six_is_mended(rt: HostRuntime) -> Result<(), Fail> {
    ends_as_forest(&rt, rt.alloc(), &SIX, MENDED, MENDED_STATES)
}
