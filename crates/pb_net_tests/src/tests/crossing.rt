//! Frames that go from customer port 1 over the link to customer port 2.

use super::draft::{Draft, Site};
use super::networks::{BROADCAST, JOINED, NOTICE};
use super::rows::{Act, Fate, Row};
use super::walk::walks;
use pb_lan::Place;
use std::test::Fail;

#[test]
fn a_customers_notice_of_change_is_carried(rt: HostRuntime) -> Result<(), Fail> {
    const ROWS: &[Row] = &[
        Row::Enters(1, NOTICE),
        Row::Crosses(1),
        Row::Moved(
            Place::Lane(1),
            b"\x01\x80\xc2\0\0\0\x02\0\0\0\x01\x01\x88\xa8\0\x64\0\x07BB\x03\0\0\0\x80",
        ),
        Row::Leaves(2),
        Row::Moved(Place::Customer(2), NOTICE),
        // It goes to no port of another service, and not back to its own.
        Row::Idle(Act::Transmit(2, 3)),
        Row::Idle(Act::Transmit(1, 2)),
    ];
    walks(&rt, rt.alloc(), &JOINED, ROWS)
}

#[test]
fn a_customers_tag_is_carried(rt: HostRuntime) -> Result<(), Fail> {
    const FRAME: &[u8] = b"\xff\xff\xff\xff\xff\xff\x02\0\0\0\x01\x01\x81\0\x20\x05\x08\0AB";
    const ROWS: &[Row] = &[
        Row::Enters(1, FRAME),
        Row::Crosses(1),
        Row::Moved(
            Place::Lane(1),
            b"\xff\xff\xff\xff\xff\xff\x02\0\0\0\x01\x01\x88\xa8\0\x64\x81\0\x20\x05\x08\0AB",
        ),
        Row::Leaves(2),
        Row::Moved(Place::Customer(2), FRAME),
    ];
    walks(&rt, rt.alloc(), &JOINED, ROWS)
}

#[test]
fn a_priority_tag_gives_its_priority(rt: HostRuntime) -> Result<(), Fail> {
    const ROWS: &[Row] = &[
        Row::Enters(
            1,
            b"\xff\xff\xff\xff\xff\xff\x02\0\0\0\x01\x01\x88\xa8\xa0\0\x08\0AB",
        ),
        Row::Crosses(1),
        Row::Moved(
            Place::Lane(1),
            b"\xff\xff\xff\xff\xff\xff\x02\0\0\0\x01\x01\x88\xa8\xa0\x64\x08\0AB",
        ),
        Row::Leaves(2),
        Row::Moved(
            Place::Customer(2),
            b"\xff\xff\xff\xff\xff\xff\x02\0\0\0\x01\x01\x08\0AB",
        ),
        // The drop eligibility is not kept.
        Row::Enters(
            1,
            b"\xff\xff\xff\xff\xff\xff\x02\0\0\0\x01\x01\x88\xa8\xb0\0\x08\0AB",
        ),
        Row::Crosses(1),
        Row::Moved(
            Place::Lane(1),
            b"\xff\xff\xff\xff\xff\xff\x02\0\0\0\x01\x01\x88\xa8\xa0\x64\x08\0AB",
        ),
        Row::Leaves(2),
        Row::Moved(
            Place::Customer(2),
            b"\xff\xff\xff\xff\xff\xff\x02\0\0\0\x01\x01\x08\0AB",
        ),
    ];
    walks(&rt, rt.alloc(), &JOINED, ROWS)
}

#[test]
fn what_enters_twice_leaves_twice(rt: HostRuntime) -> Result<(), Fail> {
    const FRAME: &[u8] = b"\xff\xff\xff\xff\xff\xff\x02\0\0\0\x01\x01\x08\0AB";
    const TAGGED: &[u8] = b"\xff\xff\xff\xff\xff\xff\x02\0\0\0\x01\x01\x88\xa8\0\x64\x08\0AB";
    const ROWS: &[Row] = &[
        Row::Enters(1, FRAME),
        Row::Crosses(1),
        Row::Moved(Place::Lane(1), TAGGED),
        Row::Leaves(2),
        Row::Moved(Place::Customer(2), FRAME),
        Row::Steps {
            place: Place::Customer(2),
            count: 1,
        },
        Row::Enters(1, FRAME),
        Row::Crosses(1),
        Row::Moved(Place::Lane(1), TAGGED),
        Row::Leaves(2),
        Row::Moved(Place::Customer(2), FRAME),
        Row::Steps {
            place: Place::Customer(2),
            count: 2,
        },
    ];
    walks(&rt, rt.alloc(), &JOINED, ROWS)
}

/// B1 and B2 with two customer ports of red each: 1 and 2 at B1, 3 and 4 at B2, at ports 2 and 3.
const TWO_EACH: Draft = Draft {
    customers: &[
        Site {
            at: (1, 2),
            service: 1,
            pcp: 0,
        },
        Site {
            at: (1, 3),
            service: 1,
            pcp: 0,
        },
        Site {
            at: (2, 2),
            service: 1,
            pcp: 0,
        },
        Site {
            at: (2, 3),
            service: 1,
            pcp: 0,
        },
    ],
    ..JOINED
};

#[test]
fn both_bridges_learn(rt: HostRuntime) -> Result<(), Fail> {
    const ROWS: &[Row] = &[
        // A broadcast of 02-00-00-00-01-01 goes to all ports.
        Row::Enters(1, BROADCAST),
        Row::Ruled {
            bridge: 1,
            fate: Fate::Relayed(&[1, 3]),
        },
        Row::Crosses(1),
        Row::Ruled {
            bridge: 2,
            fate: Fate::Relayed(&[2, 3]),
        },
        // The reply of 02-00-00-00-02-02 goes to one port alone at each bridge.
        Row::Enters(3, b"\x02\0\0\0\x01\x01\x02\0\0\0\x02\x02\x08\0AB"),
        Row::Ruled {
            bridge: 2,
            fate: Fate::Relayed(&[1]),
        },
        Row::Crosses(2),
        Row::Ruled {
            bridge: 1,
            fate: Fate::Relayed(&[2]),
        },
        // The next reply does so too.
        Row::Enters(1, b"\x02\0\0\0\x02\x02\x02\0\0\0\x01\x01\x08\0AB"),
        Row::Ruled {
            bridge: 1,
            fate: Fate::Relayed(&[1]),
        },
        Row::Crosses(1),
        Row::Ruled {
            bridge: 2,
            fate: Fate::Relayed(&[2]),
        },
        Row::Empties,
        Row::Left(&[1, 1, 2, 1]),
    ];
    walks(&rt, rt.alloc(), &TWO_EACH, ROWS)
}
