//! Lanes, and links that form a ring.

use super::draft::{Draft, Joint};
use super::networks::{BROADCAST, JOINED};
use super::rows::{Act, Fate, Row};
use super::walk::walks;
use pb_lan::Place;
use pb_net::NetFault;
use std::test::Fail;

/// The link loses the second item from B1 to B2.
const LOSING: Draft = Draft {
    links: &[Joint::Losing((1, 1), (2, 1), &[1])],
    ..JOINED
};

#[test]
fn a_lane_loses_the_planned_item(rt: HostRuntime) -> Result<(), Fail> {
    const ROWS: &[Row] = &[
        Row::Enters(1, BROADCAST),
        Row::Does(Act::Transmit(1, 1)),
        Row::Does(Act::Take(1)),
        Row::Taken {
            lane: 1,
            number: 0,
            lost: false,
        },
        Row::Does(Act::Put(1)),
        Row::Enters(1, BROADCAST),
        Row::Does(Act::Transmit(1, 1)),
        Row::Does(Act::Take(1)),
        Row::Taken {
            lane: 1,
            number: 1,
            lost: true,
        },
        Row::Idle(Act::Put(1)),
        Row::Enters(1, BROADCAST),
        Row::Does(Act::Transmit(1, 1)),
        Row::Does(Act::Take(1)),
        Row::Taken {
            lane: 1,
            number: 2,
            lost: false,
        },
        Row::Does(Act::Put(1)),
        Row::Steps {
            place: Place::Lane(1),
            count: 5,
        },
    ];
    walks(&rt, rt.alloc(), &LOSING, ROWS)
}

#[test]
fn a_lane_waits_for_its_hand(rt: HostRuntime) -> Result<(), Fail> {
    const ROWS: &[Row] = &[
        Row::Idle(Act::Take(1)),
        Row::Idle(Act::Put(1)),
        Row::Enters(1, BROADCAST),
        Row::Does(Act::Transmit(1, 1)),
        Row::Does(Act::Take(1)),
        Row::Enters(1, BROADCAST),
        Row::Does(Act::Transmit(1, 1)),
        Row::Idle(Act::Take(1)),
        Row::Refused(Act::Take(3), NetFault::NoSuch),
        Row::Refused(Act::Put(0), NetFault::NoSuch),
    ];
    walks(&rt, rt.alloc(), &JOINED, ROWS)
}

/// A second link from port 3 to port 4: a ring.
const RING: Draft = Draft {
    links: &[Joint::Plain((1, 1), (2, 1)), Joint::Plain((1, 3), (2, 4))],
    ..JOINED
};

#[test]
fn a_ring_brings_a_frame_back(rt: HostRuntime) -> Result<(), Fail> {
    const ROWS: &[Row] = &[
        Row::Enters(1, BROADCAST),
        Row::Ruled {
            bridge: 1,
            fate: Fate::Relayed(&[1, 3]),
        },
        Row::Crosses(1),
        Row::Ruled {
            bridge: 2,
            fate: Fate::Relayed(&[2, 4]),
        },
        Row::Crosses(4),
        Row::Leaves(1),
        Row::Moved(Place::Customer(1), BROADCAST),
        Row::Hops(Place::Customer(1), 3),
    ];
    walks(&rt, rt.alloc(), &RING, ROWS)
}
