//! Trees of the standard's figures. The wirings and the ports are those of figures 17-6 and 17-7 of IEEE 802.1D-2004,
//! as the public tests of Open vSwitch's rapid spanning tree have them. None is of our making.

use super::draft::{Draft, Joint};
use super::drawn::{DRAWN, Drawn};
use super::rows::Row;
use super::walk::walks;
use pb_lan::PortState;
use pb_rstp::Role;
use std::test::Fail;

/// Figure 17-6: a ring of six, with LANs that have no second bridge.
const FIGURE_6: Draft = Draft {
    bridges: 6,
    links: &[
        // b
        Joint::Costly((1, 2), (2, 1), 200_000),
        // l
        Joint::Costly((1, 3), (6, 1), 200_000),
        // d
        Joint::Costly((2, 3), (3, 1), 200_000),
        // f
        Joint::Costly((3, 3), (4, 1), 200_000),
        // h
        Joint::Costly((4, 3), (5, 2), 200_000),
        // j
        Joint::Costly((5, 1), (6, 2), 200_000),
    ],
    ..DRAWN
};

/// As figure 17-6 draws it.
const AS_FIGURE_6: &[Drawn] = &[
    (1, 2, Role::Designated, PortState::Forwarding, 0),
    (1, 3, Role::Designated, PortState::Forwarding, 0),
    (2, 1, Role::Root, PortState::Forwarding, 200_000),
    (2, 3, Role::Designated, PortState::Forwarding, 200_000),
    (3, 1, Role::Root, PortState::Forwarding, 400_000),
    (3, 3, Role::Designated, PortState::Forwarding, 400_000),
    (4, 1, Role::Root, PortState::Forwarding, 600_000),
    (4, 3, Role::Alternate, PortState::Discarding, 600_000),
    (5, 1, Role::Root, PortState::Forwarding, 400_000),
    (5, 2, Role::Designated, PortState::Forwarding, 400_000),
    (6, 1, Role::Root, PortState::Forwarding, 200_000),
    (6, 2, Role::Designated, PortState::Forwarding, 200_000),
];

/// Figure 17-7: two links side by side, and LANs that have no second bridge.
const FIGURE_7: Draft = Draft {
    bridges: 3,
    links: &[
        // b
        Joint::Costly((1, 1), (2, 2), 200_000),
        // h
        Joint::Costly((2, 5), (3, 2), 200_000),
        // g
        Joint::Costly((2, 6), (3, 1), 200_000),
    ],
    ..DRAWN
};

/// As figure 17-7 draws it.
const AS_FIGURE_7: &[Drawn] = &[
    (1, 1, Role::Designated, PortState::Forwarding, 0),
    (2, 2, Role::Root, PortState::Forwarding, 200_000),
    (2, 5, Role::Designated, PortState::Forwarding, 200_000),
    (2, 6, Role::Designated, PortState::Forwarding, 200_000),
    (3, 1, Role::Alternate, PortState::Discarding, 400_000),
    (3, 2, Role::Root, PortState::Forwarding, 400_000),
];

#[test]
fn figure_6_settles(rt: HostRuntime) -> Result<(), Fail> {
    const ROWS: &[Row] = &[
        Row::Rounds(200),
        Row::Settled(Some(true)),
        Row::Converged(Some(true)),
        Row::Trees(AS_FIGURE_6),
    ];
    walks(&rt, rt.alloc(), &FIGURE_6, ROWS)
}

#[test]
fn figure_7_settles(rt: HostRuntime) -> Result<(), Fail> {
    const ROWS: &[Row] = &[
        Row::Rounds(200),
        Row::Settled(Some(true)),
        Row::Converged(Some(true)),
        Row::Trees(AS_FIGURE_7),
    ];
    walks(&rt, rt.alloc(), &FIGURE_7, ROWS)
}
