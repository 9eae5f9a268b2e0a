//! Ports that are disabled in trees that others drew. The neighbours' ends stay enabled. The wirings, the failures and
//! the ports after them are those of the public tests of Open vSwitch's rapid spanning tree (after IEEE 802.1D-2004
//! clause 17). None is of our making.

use super::draft::{Draft, Joint};
use super::drawn::{DRAWN, Drawn};
use super::rows::{Act, Row};
use super::walk::walks;
use pb_lan::PortState;
use pb_rstp::Role;
use std::test::Fail;

/// Three bridges in a ring.
const ONE_FAILS: Draft = Draft {
    bridges: 3,
    links: &[
        // a
        Joint::Costly((1, 1), (2, 1), 200_000),
        // b
        Joint::Costly((1, 2), (3, 1), 200_000),
        // c
        Joint::Costly((2, 2), (3, 2), 200_000),
    ],
    ..DRAWN
};

/// The ring after convergence.
const RING: &[Drawn] = &[
    (1, 1, Role::Designated, PortState::Forwarding, 0),
    (1, 2, Role::Designated, PortState::Forwarding, 0),
    (2, 1, Role::Root, PortState::Forwarding, 200_000),
    (2, 2, Role::Designated, PortState::Forwarding, 200_000),
    (3, 1, Role::Root, PortState::Forwarding, 200_000),
    (3, 2, Role::Alternate, PortState::Discarding, 200_000),
];

/// The ring after port 1 of B3 was disabled.
const RING_AFTER: &[Drawn] = &[
    (1, 1, Role::Designated, PortState::Forwarding, 0),
    (1, 2, Role::Designated, PortState::Forwarding, 0),
    (2, 1, Role::Root, PortState::Forwarding, 200_000),
    (2, 2, Role::Designated, PortState::Forwarding, 200_000),
    (3, 1, Role::Disabled, PortState::Discarding, 400_000),
    (3, 2, Role::Root, PortState::Forwarding, 400_000),
];

/// Five bridges, of which the fourth and the fifth hang below the second and the third.
const TWO_FAIL: Draft = Draft {
    bridges: 5,
    links: &[
        // a
        Joint::Costly((1, 1), (2, 1), 200_000),
        // b
        Joint::Costly((1, 2), (3, 1), 200_000),
        // c
        Joint::Costly((2, 2), (3, 2), 200_000),
        // d
        Joint::Costly((2, 3), (4, 1), 200_000),
        // e
        Joint::Costly((3, 3), (5, 1), 200_000),
        // f
        Joint::Costly((4, 2), (5, 2), 200_000),
    ],
    ..DRAWN
};

/// The five after convergence.
const FIVE: &[Drawn] = &[
    (1, 1, Role::Designated, PortState::Forwarding, 0),
    (1, 2, Role::Designated, PortState::Forwarding, 0),
    (2, 1, Role::Root, PortState::Forwarding, 200_000),
    (2, 2, Role::Designated, PortState::Forwarding, 200_000),
    (2, 3, Role::Designated, PortState::Forwarding, 200_000),
    (3, 1, Role::Root, PortState::Forwarding, 200_000),
    (3, 2, Role::Alternate, PortState::Discarding, 200_000),
    (3, 3, Role::Designated, PortState::Forwarding, 200_000),
    (4, 1, Role::Root, PortState::Forwarding, 400_000),
    (4, 2, Role::Designated, PortState::Forwarding, 400_000),
    (5, 1, Role::Root, PortState::Forwarding, 400_000),
    (5, 2, Role::Alternate, PortState::Discarding, 400_000),
];

/// The five after port 1 of B3 was disabled.
const FIVE_AFTER_ONE: &[Drawn] = &[
    (1, 1, Role::Designated, PortState::Forwarding, 0),
    (1, 2, Role::Designated, PortState::Forwarding, 0),
    (2, 1, Role::Root, PortState::Forwarding, 200_000),
    (2, 2, Role::Designated, PortState::Forwarding, 200_000),
    (2, 3, Role::Designated, PortState::Forwarding, 200_000),
    (3, 1, Role::Disabled, PortState::Discarding, 400_000),
    (3, 2, Role::Root, PortState::Forwarding, 400_000),
    (3, 3, Role::Designated, PortState::Forwarding, 400_000),
    (4, 1, Role::Root, PortState::Forwarding, 400_000),
    (4, 2, Role::Designated, PortState::Forwarding, 400_000),
    (5, 1, Role::Root, PortState::Forwarding, 600_000),
    (5, 2, Role::Alternate, PortState::Discarding, 600_000),
];

/// The five after port 1 of B5 was disabled, too.
const FIVE_AFTER_TWO: &[Drawn] = &[
    (1, 1, Role::Designated, PortState::Forwarding, 0),
    (1, 2, Role::Designated, PortState::Forwarding, 0),
    (2, 1, Role::Root, PortState::Forwarding, 200_000),
    (2, 2, Role::Designated, PortState::Forwarding, 200_000),
    (2, 3, Role::Designated, PortState::Forwarding, 200_000),
    (3, 1, Role::Disabled, PortState::Discarding, 400_000),
    (3, 2, Role::Root, PortState::Forwarding, 400_000),
    (3, 3, Role::Designated, PortState::Forwarding, 400_000),
    (4, 1, Role::Root, PortState::Forwarding, 400_000),
    (4, 2, Role::Designated, PortState::Forwarding, 400_000),
    (5, 1, Role::Disabled, PortState::Discarding, 600_000),
    (5, 2, Role::Root, PortState::Forwarding, 600_000),
];

/// Checks that `settled` ignores a link with one end disabled, though the other end stays enabled and goes on as
/// Designated. The bridges count as settled.
#[test]
fn one_link_fails(rt: HostRuntime) -> Result<(), Fail> {
    const ROWS: &[Row] = &[
        Row::Rounds(200),
        Row::Settled(Some(true)),
        Row::Trees(RING),
        Row::Does(Act::Admin(3, 1, false)),
        Row::Rounds(200),
        Row::Settled(Some(true)),
        Row::Trees(RING_AFTER),
    ];
    walks(&rt, rt.alloc(), &ONE_FAILS, ROWS)
}

#[test]
fn two_links_fail(rt: HostRuntime) -> Result<(), Fail> {
    const ROWS: &[Row] = &[
        Row::Rounds(200),
        Row::Settled(Some(true)),
        Row::Trees(FIVE),
        Row::Does(Act::Admin(3, 1, false)),
        Row::Rounds(200),
        Row::Settled(Some(true)),
        Row::Trees(FIVE_AFTER_ONE),
        Row::Does(Act::Admin(5, 1, false)),
        Row::Rounds(200),
        Row::Settled(Some(true)),
        Row::Trees(FIVE_AFTER_TWO),
    ];
    walks(&rt, rt.alloc(), &TWO_FAIL, ROWS)
}
