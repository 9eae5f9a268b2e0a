//! A port between bridges that is disabled.

use super::networks::{BROADCAST, JOINED};
use super::rows::{Act, Deed, Fate, Row};
use super::walk::walks;
use pb_lan::{Place, PortState, Reason};
use pb_net::NetFault;
use std::test::Fail;

/// The port from B1 to B2 is disabled.
const DOWN: Row = Row::Does(Act::Admin(1, 1, false));

#[test]
fn a_port_goes_down_once(rt: HostRuntime) -> Result<(), Fail> {
    const ROWS: &[Row] = &[
        DOWN,
        Row::Took(
            Place::Bridge(1),
            0,
            Deed::Admin {
                port: 1,
                up: false,
                states: &[(1, PortState::Discarding)],
                flushed: &[1],
            },
        ),
    ];
    walks(&rt, rt.alloc(), &JOINED, ROWS)
}

#[test]
fn no_customer_port_is_set(rt: HostRuntime) -> Result<(), Fail> {
    const ROWS: &[Row] = &[Row::Refused(Act::Admin(1, 2, false), NetFault::NoSuch)];
    walks(&rt, rt.alloc(), &JOINED, ROWS)
}

#[test]
fn a_port_that_is_down_sends_nothing(rt: HostRuntime) -> Result<(), Fail> {
    const ROWS: &[Row] = &[
        DOWN,
        Row::Enters(1, BROADCAST),
        Row::Ruled {
            bridge: 1,
            fate: Fate::Relayed(&[]),
        },
        Row::Idle(Act::Transmit(1, 1)),
    ];
    walks(&rt, rt.alloc(), &JOINED, ROWS)
}

#[test]
fn a_port_that_is_up_again_sends(rt: HostRuntime) -> Result<(), Fail> {
    const ROWS: &[Row] = &[
        DOWN,
        Row::Enters(1, BROADCAST),
        Row::Ruled {
            bridge: 1,
            fate: Fate::Relayed(&[]),
        },
        Row::Does(Act::Admin(1, 1, true)),
        Row::Enters(1, BROADCAST),
        Row::Ruled {
            bridge: 1,
            fate: Fate::Relayed(&[1]),
        },
    ];
    walks(&rt, rt.alloc(), &JOINED, ROWS)
}

#[test]
fn a_port_that_is_down_learns_nothing(rt: HostRuntime) -> Result<(), Fail> {
    const ROWS: &[Row] = &[
        DOWN,
        Row::Enters(2, BROADCAST),
        Row::Crosses(2),
        Row::Ruled {
            bridge: 1,
            fate: Fate::Filtered(Reason::NotForwarding),
        },
        Row::Learnt(1, None),
    ];
    walks(&rt, rt.alloc(), &JOINED, ROWS)
}
