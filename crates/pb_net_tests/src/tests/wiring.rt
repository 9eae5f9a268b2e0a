//! A structured wiring: two bridges at the core, two below, each joined to both, and four at the edge, each joined
//! to both of those (after the examples of IEEE 802.1D-2004 clause 17).

use super::draft::{Draft, Joint, Site};
use super::networks::BROADCAST;
use super::rows::Row;
use super::walk::ends_as_forest;
use pb_lan::{PortState, Spanning};
use pb_rstp::Role;
use std::test::Fail;

/// B1 and B2 at the core, B3 and B4 below, B5 to B8 at the edge, each with a customer; fourteen links.
const WIRING: Draft = Draft {
    bridges: 8,
    links: &[
        Joint::Plain((1, 1), (2, 1)),
        Joint::Plain((1, 2), (3, 1)),
        Joint::Plain((1, 3), (4, 1)),
        Joint::Plain((2, 2), (3, 2)),
        Joint::Plain((2, 3), (4, 2)),
        Joint::Plain((3, 3), (5, 1)),
        Joint::Plain((3, 4), (6, 1)),
        Joint::Plain((3, 5), (7, 1)),
        Joint::Plain((3, 6), (8, 1)),
        Joint::Plain((4, 3), (5, 2)),
        Joint::Plain((4, 4), (6, 2)),
        Joint::Plain((4, 5), (7, 2)),
        Joint::Plain((4, 6), (8, 2)),
        Joint::Plain((3, 7), (4, 7)),
    ],
    customers: &[
        Site {
            at: (5, 3),
            service: 1,
            pcp: 0,
        },
        Site {
            at: (6, 3),
            service: 1,
            pcp: 0,
        },
        Site {
            at: (7, 3),
            service: 1,
            pcp: 0,
        },
        Site {
            at: (8, 3),
            service: 1,
            pcp: 0,
        },
    ],
    spanning: Spanning::Rstp,
    queue: 64,
    ring: 64,
    steps: 1_000_000,
};

/// B1 is the root. Of two bridges at one cost the lower is Designated, and so is its port on the link between the two.
const ROLES: &[Row] = &[
    Row::Rounds(10),
    Row::Settled(Some(true)),
    Row::Roles(
        1,
        Some(&[
            (1, Role::Designated),
            (2, Role::Designated),
            (3, Role::Designated),
        ]),
    ),
    Row::Roles(
        2,
        Some(&[
            (1, Role::Root),
            (2, Role::Designated),
            (3, Role::Designated),
        ]),
    ),
    Row::Roles(
        3,
        Some(&[
            (1, Role::Root),
            (2, Role::Alternate),
            (3, Role::Designated),
            (4, Role::Designated),
            (5, Role::Designated),
            (6, Role::Designated),
            (7, Role::Designated),
        ]),
    ),
    Row::Roles(
        4,
        Some(&[
            (1, Role::Root),
            (2, Role::Alternate),
            (3, Role::Designated),
            (4, Role::Designated),
            (5, Role::Designated),
            (6, Role::Designated),
            (7, Role::Alternate),
        ]),
    ),
    Row::Roles(5, Some(&[(1, Role::Root), (2, Role::Alternate)])),
    Row::Roles(6, Some(&[(1, Role::Root), (2, Role::Alternate)])),
    Row::Roles(7, Some(&[(1, Role::Root), (2, Role::Alternate)])),
    Row::Roles(8, Some(&[(1, Role::Root), (2, Role::Alternate)])),
    Row::Enters(1, BROADCAST),
    Row::Empties,
    Row::Left(&[0, 1, 1, 1]),
];

/// The Alternate ports, and the ports next to them.
const STATES: &[(u8, u8, PortState)] = &[
    (3, 1, PortState::Forwarding),
    (3, 2, PortState::Discarding),
    (3, 7, PortState::Forwarding),
    (4, 1, PortState::Forwarding),
    (4, 2, PortState::Discarding),
    (4, 7, PortState::Discarding),
    (5, 1, PortState::Forwarding),
    (5, 2, PortState::Discarding),
    (8, 1, PortState::Forwarding),
    (8, 2, PortState::Discarding),
];

#[test]
fn a_structured_wiring_settles(rt: HostRuntime) -> Result<(), Fail> {
    ends_as_forest(&rt, rt.alloc(), &WIRING, ROLES, STATES)
}
