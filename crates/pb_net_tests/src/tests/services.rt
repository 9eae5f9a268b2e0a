//! Services that are separate.

use super::draft::{Draft, Joint, Site};
use super::networks::{BROADCAST, JOINED};
use super::rows::{Act, Fate, Row};
use super::walk::walks;
use pb_lan::{Learnt, Place, Reason};
use std::test::Fail;

/// A link from port 1 to port 1 for red, and one from port 3 to port 4 for blue.
const LISTED: Draft = Draft {
    links: &[
        Joint::Listed((1, 1), Some(&[1]), (2, 1), Some(&[1])),
        Joint::Listed((1, 3), Some(&[2]), (2, 4), Some(&[2])),
    ],
    ..JOINED
};

#[test]
fn each_service_has_its_own_link(rt: HostRuntime) -> Result<(), Fail> {
    const ROWS: &[Row] = &[
        Row::Enters(1, BROADCAST),
        Row::Ruled {
            bridge: 1,
            fate: Fate::Relayed(&[1]),
        },
        Row::Crosses(1),
        Row::Ruled {
            bridge: 2,
            fate: Fate::Relayed(&[2]),
        },
        Row::Leaves(2),
        Row::Idle(Act::Deliver(2)),
        Row::Idle(Act::Transmit(1, 2)),
    ];
    walks(&rt, rt.alloc(), &LISTED, ROWS)
}

/// A link with an end for all services and one, at B2, for red alone; the customer ports 1 (B1 port 2, red), 2 (B2
/// port 2, red) and 3 (B1 port 3, blue).
const HALF_LISTED: Draft = Draft {
    links: &[Joint::Listed((1, 1), None, (2, 1), Some(&[1]))],
    customers: &[
        Site {
            at: (1, 2),
            service: 1,
            pcp: 0,
        },
        Site {
            at: (2, 2),
            service: 1,
            pcp: 0,
        },
        Site {
            at: (1, 3),
            service: 2,
            pcp: 0,
        },
    ],
    ..JOINED
};

#[test]
fn a_port_takes_the_services_that_it_lists(rt: HostRuntime) -> Result<(), Fail> {
    const ROWS: &[Row] = &[
        Row::Enters(3, BROADCAST),
        Row::Ruled {
            bridge: 1,
            fate: Fate::Relayed(&[1]),
        },
        Row::Crosses(1),
        Row::Moved(
            Place::Lane(1),
            b"\xff\xff\xff\xff\xff\xff\x02\0\0\0\x01\x01\x88\xa8\0\xc8\x08\0AB",
        ),
        Row::Ruled {
            bridge: 2,
            fate: Fate::Filtered(Reason::NotMember),
        },
    ];
    walks(&rt, rt.alloc(), &HALF_LISTED, ROWS)
}

/// The link with an end for all services and one, at B2, for red alone. Customer port 3 (B2 port 3, blue) is the only
/// port of blue at B2.
const RED_AT_B2: Draft = Draft {
    links: &[Joint::Listed((1, 1), None, (2, 1), Some(&[1]))],
    ..JOINED
};

/// Shows that a broadcast is relayed to no port if no other port of the bridge is of its service.
#[test]
fn a_frame_with_no_other_port_of_its_service_goes_to_none(rt: HostRuntime) -> Result<(), Fail> {
    const ROWS: &[Row] = &[
        Row::Enters(3, BROADCAST),
        Row::Ruled {
            bridge: 2,
            fate: Fate::Relayed(&[]),
        },
        Row::Idle(Act::Transmit(2, 1)),
        Row::Empties,
        Row::Left(&[0, 0, 0]),
    ];
    walks(&rt, rt.alloc(), &RED_AT_B2, ROWS)
}

/// Shows that both bridges learn a station of blue, also the one without a customer of blue: by `learnt` of the step.
#[test]
fn both_bridges_learn_a_station_of_blue(rt: HostRuntime) -> Result<(), Fail> {
    // A station of blue at customer port 3, and then the same frame again.
    const FRAME: &[u8] = b"\xff\xff\xff\xff\xff\xff\x02\0\0\0\x03\x03\x08\0";
    const ROWS: &[Row] = &[
        Row::Enters(3, FRAME),
        Row::Learnt(2, Some(Learnt::New)),
        Row::Crosses(2),
        Row::Learnt(1, Some(Learnt::New)),
        Row::Ruled {
            bridge: 1,
            fate: Fate::Relayed(&[]),
        },
        Row::Enters(3, FRAME),
        Row::Learnt(2, Some(Learnt::Kept)),
        Row::Crosses(2),
        Row::Learnt(1, Some(Learnt::Kept)),
    ];
    walks(&rt, rt.alloc(), &JOINED, ROWS)
}

/// One bridge with the customer ports 1 and 2 of red and 3 of blue, at its ports 1, 2 and 3.
const ONE_BLUE: Draft = Draft {
    bridges: 1,
    links: &[],
    customers: &[
        Site {
            at: (1, 1),
            service: 1,
            pcp: 0,
        },
        Site {
            at: (1, 2),
            service: 1,
            pcp: 0,
        },
        Site {
            at: (1, 3),
            service: 2,
            pcp: 0,
        },
    ],
    ..JOINED
};

#[test]
fn a_broadcast_stays_in_its_service(rt: HostRuntime) -> Result<(), Fail> {
    const ROWS: &[Row] = &[
        Row::Enters(1, BROADCAST),
        Row::Ruled {
            bridge: 1,
            fate: Fate::Relayed(&[2]),
        },
        Row::Empties,
        Row::Moved(Place::Customer(2), BROADCAST),
        Row::Left(&[0, 1, 0]),
    ];
    walks(&rt, rt.alloc(), &ONE_BLUE, ROWS)
}

#[test]
fn a_station_is_known_in_its_service_alone(rt: HostRuntime) -> Result<(), Fail> {
    const ROWS: &[Row] = &[
        // A station of blue sends a broadcast at customer port 3.
        Row::Enters(3, b"\xff\xff\xff\xff\xff\xff\x02\0\0\0\x03\x03\x08\0"),
        Row::Crosses(2),
        // A frame to it enters customer port 1, of red.
        Row::Enters(1, b"\x02\0\0\0\x03\x03\x02\0\0\0\x01\x01\x08\0"),
        Row::Ruled {
            bridge: 1,
            fate: Fate::Relayed(&[1]),
        },
        Row::Crosses(1),
        Row::Ruled {
            bridge: 2,
            fate: Fate::Relayed(&[2]),
        },
    ];
    walks(&rt, rt.alloc(), &JOINED, ROWS)
}
