//! Events with nothing to do, and events of nothing.

use super::draft::Draft;
use super::networks::{JOINED, SHORT, THREE_CUSTOMERS, TWO_CUSTOMERS};
use super::rows::{Act, Row};
use super::walk::walks;
use pb_lan::Place;
use pb_net::NetFault;
use std::test::Fail;

#[test]
fn a_hand_is_empty_or_full(rt: HostRuntime) -> Result<(), Fail> {
    const ROWS: &[Row] = &[
        Row::Idle(Act::Feed(1)),
        Row::Does(Act::Poll(1, SHORT)),
        Row::Idle(Act::Poll(1, SHORT)),
        Row::Does(Act::Feed(1)),
        Row::Idle(Act::Deliver(1)),
        Row::Steps {
            place: Place::Customer(1),
            count: 2,
        },
    ];
    walks(&rt, rt.alloc(), &TWO_CUSTOMERS, ROWS)
}

/// One item waits between two places.
const NARROW: Draft = Draft {
    ring: 1,
    ..TWO_CUSTOMERS
};

#[test]
fn a_full_meeting_place_takes_nothing(rt: HostRuntime) -> Result<(), Fail> {
    const TWO_SENT: &[Act] = &[Act::Transmit(1, 2), Act::Transmit(1, 2)];
    const ROWS: &[Row] = &[
        Row::Enters(1, SHORT),
        Row::Enters(1, SHORT),
        Row::Does(Act::Poll(1, SHORT)),
        Row::Does(Act::Feed(1)),
        Row::Does(Act::Poll(1, SHORT)),
        Row::Idle(Act::Feed(1)),
        Row::Runs(TWO_SENT),
        Row::Steps {
            place: Place::Bridge(1),
            count: 3,
        },
        Row::Does(Act::Deliver(2)),
        Row::Runs(TWO_SENT),
        Row::Steps {
            place: Place::Bridge(1),
            count: 4,
        },
    ];
    walks(&rt, rt.alloc(), &NARROW, ROWS)
}

#[test]
fn a_bridge_receives_what_came_and_sends_what_waits(rt: HostRuntime) -> Result<(), Fail> {
    const ROWS: &[Row] = &[
        Row::Idle(Act::Receive(1, 1)),
        Row::Idle(Act::Transmit(1, 3)),
        Row::Does(Act::Tick(1)),
        Row::Steps {
            place: Place::Bridge(1),
            count: 1,
        },
    ];
    walks(&rt, rt.alloc(), &THREE_CUSTOMERS, ROWS)
}

#[test]
fn numbers_that_name_nothing_are_refused(rt: HostRuntime) -> Result<(), Fail> {
    const ROWS: &[Row] = &[
        Row::Refused(Act::Poll(0, SHORT), NetFault::NoSuch),
        Row::Refused(Act::Poll(3, SHORT), NetFault::NoSuch),
        Row::Refused(Act::Feed(3), NetFault::NoSuch),
        Row::Refused(Act::Deliver(255), NetFault::NoSuch),
        Row::Refused(Act::Receive(1, 3), NetFault::NoSuch),
        Row::Refused(Act::Receive(2, 1), NetFault::NoSuch),
        Row::Refused(Act::Transmit(1, 17), NetFault::NoSuch),
        Row::Refused(Act::Tick(0), NetFault::NoSuch),
        Row::Refused(Act::Take(1), NetFault::NoSuch),
        Row::Refused(Act::Put(2), NetFault::NoSuch),
        Row::Refused(Act::Admin(1, 1, true), NetFault::NoSuch),
    ];
    walks(&rt, rt.alloc(), &TWO_CUSTOMERS, ROWS)
}

#[test]
fn places_are_numbered_from_1(rt: HostRuntime) -> Result<(), Fail> {
    const ROWS: &[Row] = &[
        Row::Knows(Place::Bridge(0), false),
        Row::Knows(Place::Bridge(2), true),
        Row::Knows(Place::Bridge(3), false),
        Row::Knows(Place::Lane(0), false),
        Row::Knows(Place::Lane(2), true),
        Row::Knows(Place::Lane(3), false),
        Row::Knows(Place::Customer(0), false),
        Row::Knows(Place::Customer(3), true),
        Row::Knows(Place::Customer(4), false),
    ];
    walks(&rt, rt.alloc(), &JOINED, ROWS)
}
