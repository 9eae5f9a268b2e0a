//! Runs over lists of events.

use super::networks::{SHORT, TWO_CUSTOMERS};
use super::rows::{Act, Deed, Row, Sent};
use super::walk::{Recorded, records, walks};
use pb_lan::Place;
use pb_net::NetFault;
use std::test::Fail;

/// A broadcast goes from customer port 1 to customer port 2.
const GOES: &[Act] = &[
    Act::Poll(1, SHORT),
    Act::Feed(1),
    Act::Receive(1, 1),
    Act::Transmit(1, 2),
    Act::Deliver(2),
];

/// The step that delivers the first broadcast.
const FIRST: Deed = Deed::Deliver(Sent {
    number: 0,
    hops: 1,
    frame: SHORT,
});

/// The step that delivers the second broadcast.
const SECOND: Deed = Deed::Deliver(Sent {
    number: 1,
    hops: 1,
    frame: SHORT,
});

#[test]
fn each_broadcast_leaves_the_other_port_once(rt: HostRuntime) -> Result<(), Fail> {
    const ROWS: &[Row] = &[
        Row::Runs(GOES),
        Row::Took(Place::Customer(2), 0, FIRST),
        Row::Runs(GOES),
        Row::Took(Place::Customer(2), 1, SECOND),
        Row::Steps {
            place: Place::Customer(1),
            count: 4,
        },
        Row::Steps {
            place: Place::Customer(2),
            count: 2,
        },
        Row::Steps {
            place: Place::Bridge(1),
            count: 4,
        },
    ];
    walks(&rt, rt.alloc(), &TWO_CUSTOMERS, ROWS)
}

#[test]
fn the_record_is_what_the_places_showed(rt: HostRuntime) -> Result<(), Fail> {
    const ROWS: &[Row] = &[Row::Runs(GOES)];
    const RECORD: Recorded = Recorded {
        bridges: 1,
        lanes: 0,
        customers: &[None, Some(&[FIRST])],
    };
    records(&rt, rt.alloc(), &TWO_CUSTOMERS, ROWS, &RECORD)
}

#[test]
fn the_first_fault_ends_a_run(rt: HostRuntime) -> Result<(), Fail> {
    const ROWS: &[Row] = &[
        Row::Stops {
            acts: &[Act::Poll(1, SHORT), Act::Take(1), Act::Feed(1)],
            done: 1,
            fault: NetFault::NoSuch,
        },
        Row::Steps {
            place: Place::Customer(1),
            count: 1,
        },
    ];
    walks(&rt, rt.alloc(), &TWO_CUSTOMERS, ROWS)
}
