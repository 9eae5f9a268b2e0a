//! Traffic classes at a port between bridges.

use super::draft::{Draft, Joint, Site};
use super::networks::SHORT;
use super::rows::{Act, Fate, Row};
use super::walk::walks;
use pb_lan::{NoRoom, Place, Spanning};
use std::test::Fail;

/// B1 with port 1 to B2, and customer ports 2 (PCP 1), 3 (PCP 0) and 4 (PCP 5) of red. Three items wait at a port.
const MIXED: Draft = Draft {
    bridges: 2,
    links: &[Joint::Plain((1, 1), (2, 1))],
    customers: &[
        Site {
            at: (1, 2),
            service: 1,
            pcp: 1,
        },
        Site {
            at: (1, 3),
            service: 1,
            pcp: 0,
        },
        Site {
            at: (1, 4),
            service: 1,
            pcp: 5,
        },
    ],
    spanning: Spanning::Fixed,
    queue: 3,
    ring: 64,
    steps: 1_000_000,
};

#[test]
fn higher_classes_go_first(rt: HostRuntime) -> Result<(), Fail> {
    const ROWS: &[Row] = &[
        Row::Enters(1, SHORT),
        Row::Enters(2, SHORT),
        Row::Enters(3, SHORT),
        Row::Does(Act::Transmit(1, 1)),
        Row::Does(Act::Take(1)),
        Row::Moved(
            Place::Lane(1),
            b"\xff\xff\xff\xff\xff\xff\x02\0\0\0\x01\x01\x88\xa8\xa0\x64\x08\0",
        ),
        Row::Does(Act::Put(1)),
        Row::Does(Act::Transmit(1, 1)),
        Row::Does(Act::Take(1)),
        Row::Moved(
            Place::Lane(1),
            b"\xff\xff\xff\xff\xff\xff\x02\0\0\0\x01\x01\x88\xa8\0\x64\x08\0",
        ),
        Row::Does(Act::Put(1)),
        Row::Does(Act::Transmit(1, 1)),
        Row::Does(Act::Take(1)),
        Row::Moved(
            Place::Lane(1),
            b"\xff\xff\xff\xff\xff\xff\x02\0\0\0\x01\x01\x88\xa8\x20\x64\x08\0",
        ),
        Row::Does(Act::Put(1)),
    ];
    walks(&rt, rt.alloc(), &MIXED, ROWS)
}

/// The network with two items at most that wait at a port.
const NARROW: Draft = Draft { queue: 2, ..MIXED };

#[test]
fn a_queue_holds_all_classes_together(rt: HostRuntime) -> Result<(), Fail> {
    const ROWS: &[Row] = &[
        Row::Enters(1, SHORT),
        Row::Enters(2, SHORT),
        Row::Enters(3, SHORT),
        Row::Ruled {
            bridge: 1,
            fate: Fate::RelayedBut(&[1, 2, 3], &[(1, NoRoom::Full)]),
        },
    ];
    walks(&rt, rt.alloc(), &NARROW, ROWS)
}
