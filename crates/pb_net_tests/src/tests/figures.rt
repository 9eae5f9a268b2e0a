//! Trees of the standard's figures. The wirings and the ports are those of figures 17-4 and 17-5 of IEEE 802.1D-2004,
//! as the public tests of Open vSwitch's rapid spanning tree have them. None is of our making.

use super::draft::{Draft, Joint};
use super::drawn::{DRAWN, Drawn};
use super::rows::Row;
use super::walk::walks;
use pb_lan::PortState;
use pb_rstp::Role;
use std::test::Fail;

/// Figure 17-4: two bridges that two links join, two below, each joined to both, and four at the edge, each joined to
/// both of those.
const FIGURE_4: Draft = Draft {
    bridges: 8,
    links: &[
        // a
        Joint::Costly((1, 1), (2, 1), 200_000),
        // b
        Joint::Costly((1, 2), (2, 2), 200_000),
        // e
        Joint::Costly((1, 3), (4, 1), 200_000),
        // c
        Joint::Costly((1, 4), (3, 1), 200_000),
        // d
        Joint::Costly((2, 3), (3, 2), 200_000),
        // f
        Joint::Costly((2, 4), (4, 2), 200_000),
        // l
        Joint::Costly((3, 3), (8, 1), 200_000),
        // j
        Joint::Costly((3, 4), (7, 1), 200_000),
        // h
        Joint::Costly((3, 5), (6, 1), 200_000),
        // g
        Joint::Costly((3, 6), (5, 1), 200_000),
        // n
        Joint::Costly((4, 3), (8, 2), 200_000),
        // m
        Joint::Costly((4, 4), (7, 2), 200_000),
        // k
        Joint::Costly((4, 5), (6, 2), 200_000),
        // i
        Joint::Costly((4, 6), (5, 2), 200_000),
    ],
    ..DRAWN
};

/// As figure 17-4 draws it.
const AS_FIGURE_4: &[Drawn] = &[
    (1, 1, Role::Designated, PortState::Forwarding, 0),
    (1, 2, Role::Designated, PortState::Forwarding, 0),
    (1, 3, Role::Designated, PortState::Forwarding, 0),
    (1, 4, Role::Designated, PortState::Forwarding, 0),
    (2, 1, Role::Root, PortState::Forwarding, 200_000),
    (2, 2, Role::Alternate, PortState::Discarding, 200_000),
    (2, 3, Role::Designated, PortState::Forwarding, 200_000),
    (2, 4, Role::Designated, PortState::Forwarding, 200_000),
    (3, 1, Role::Root, PortState::Forwarding, 200_000),
    (3, 2, Role::Alternate, PortState::Discarding, 200_000),
    (3, 3, Role::Designated, PortState::Forwarding, 200_000),
    (3, 4, Role::Designated, PortState::Forwarding, 200_000),
    (3, 5, Role::Designated, PortState::Forwarding, 200_000),
    (3, 6, Role::Designated, PortState::Forwarding, 200_000),
    (4, 1, Role::Root, PortState::Forwarding, 200_000),
    (4, 2, Role::Alternate, PortState::Discarding, 200_000),
    (4, 3, Role::Designated, PortState::Forwarding, 200_000),
    (4, 4, Role::Designated, PortState::Forwarding, 200_000),
    (4, 5, Role::Designated, PortState::Forwarding, 200_000),
    (4, 6, Role::Designated, PortState::Forwarding, 200_000),
    (5, 1, Role::Root, PortState::Forwarding, 400_000),
    (5, 2, Role::Alternate, PortState::Discarding, 400_000),
    (6, 1, Role::Root, PortState::Forwarding, 400_000),
    (6, 2, Role::Alternate, PortState::Discarding, 400_000),
    (7, 1, Role::Root, PortState::Forwarding, 400_000),
    (7, 2, Role::Alternate, PortState::Discarding, 400_000),
    (8, 1, Role::Root, PortState::Forwarding, 400_000),
    (8, 2, Role::Alternate, PortState::Discarding, 400_000),
];

/// Figure 17-5: as figure 17-4, and the last bridge has a link of its own.
const FIGURE_5: Draft = Draft {
    bridges: 8,
    links: &[
        // a
        Joint::Costly((1, 1), (2, 1), 200_000),
        // b
        Joint::Costly((1, 2), (2, 2), 200_000),
        // e
        Joint::Costly((1, 3), (4, 1), 200_000),
        // c
        Joint::Costly((1, 4), (3, 1), 200_000),
        // d
        Joint::Costly((2, 3), (3, 2), 200_000),
        // f
        Joint::Costly((2, 4), (4, 2), 200_000),
        // l
        Joint::Costly((3, 3), (8, 1), 200_000),
        // j
        Joint::Costly((3, 4), (7, 1), 200_000),
        // h
        Joint::Costly((3, 5), (6, 1), 200_000),
        // g
        Joint::Costly((3, 6), (5, 1), 200_000),
        // n
        Joint::Costly((4, 3), (8, 2), 200_000),
        // m
        Joint::Costly((4, 4), (7, 2), 200_000),
        // k
        Joint::Costly((4, 5), (6, 2), 200_000),
        // i
        Joint::Costly((4, 6), (5, 2), 200_000),
        // o
        Joint::Costly((8, 3), (8, 4), 200_000),
    ],
    ..DRAWN
};

/// As figure 17-5 draws it.
const AS_FIGURE_5: &[Drawn] = &[
    (1, 1, Role::Designated, PortState::Forwarding, 0),
    (1, 2, Role::Designated, PortState::Forwarding, 0),
    (1, 3, Role::Designated, PortState::Forwarding, 0),
    (1, 4, Role::Designated, PortState::Forwarding, 0),
    (2, 1, Role::Root, PortState::Forwarding, 200_000),
    (2, 2, Role::Alternate, PortState::Discarding, 200_000),
    (2, 3, Role::Designated, PortState::Forwarding, 200_000),
    (2, 4, Role::Designated, PortState::Forwarding, 200_000),
    (3, 1, Role::Root, PortState::Forwarding, 200_000),
    (3, 2, Role::Alternate, PortState::Discarding, 200_000),
    (3, 3, Role::Designated, PortState::Forwarding, 200_000),
    (3, 4, Role::Designated, PortState::Forwarding, 200_000),
    (3, 5, Role::Designated, PortState::Forwarding, 200_000),
    (3, 6, Role::Designated, PortState::Forwarding, 200_000),
    (4, 1, Role::Root, PortState::Forwarding, 200_000),
    (4, 2, Role::Alternate, PortState::Discarding, 200_000),
    (4, 3, Role::Designated, PortState::Forwarding, 200_000),
    (4, 4, Role::Designated, PortState::Forwarding, 200_000),
    (4, 5, Role::Designated, PortState::Forwarding, 200_000),
    (4, 6, Role::Designated, PortState::Forwarding, 200_000),
    (5, 1, Role::Root, PortState::Forwarding, 400_000),
    (5, 2, Role::Alternate, PortState::Discarding, 400_000),
    (6, 1, Role::Root, PortState::Forwarding, 400_000),
    (6, 2, Role::Alternate, PortState::Discarding, 400_000),
    (7, 1, Role::Root, PortState::Forwarding, 400_000),
    (7, 2, Role::Alternate, PortState::Discarding, 400_000),
    (8, 1, Role::Root, PortState::Forwarding, 400_000),
    (8, 2, Role::Alternate, PortState::Discarding, 400_000),
    (8, 3, Role::Designated, PortState::Forwarding, 400_000),
    (8, 4, Role::Backup, PortState::Discarding, 400_000),
];

#[test]
fn figure_4_settles(rt: HostRuntime) -> Result<(), Fail> {
    const ROWS: &[Row] = &[
        Row::Rounds(200),
        Row::Settled(Some(true)),
        Row::Converged(Some(true)),
        Row::Trees(AS_FIGURE_4),
    ];
    walks(&rt, rt.alloc(), &FIGURE_4, ROWS)
}

#[test]
fn figure_5_settles(rt: HostRuntime) -> Result<(), Fail> {
    const ROWS: &[Row] = &[
        Row::Rounds(200),
        Row::Settled(Some(true)),
        Row::Converged(Some(true)),
        Row::Trees(AS_FIGURE_5),
    ];
    walks(&rt, rt.alloc(), &FIGURE_5, ROWS)
}
