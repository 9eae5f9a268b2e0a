//! Copies of networks.

use super::draft::Draft;
use super::networks::{BROADCAST, JOINED};
use super::rows::{Act, Row};
use super::walk::walks_copy;
use pb_lan::{Place, Spanning};
use std::test::Fail;

/// A broadcast waits at the first bridge, and is sent over the link.
const CROSSING: &[Act] = &[
    Act::Transmit(1, 1),
    Act::Take(1),
    Act::Put(1),
    Act::Receive(2, 1),
    Act::Transmit(2, 2),
    Act::Deliver(2),
];

#[test]
fn a_copy_of_a_network_goes_on_alone(rt: HostRuntime) -> Result<(), Fail> {
    const WAITS: &[Row] = &[
        Row::Does(Act::Poll(1, BROADCAST)),
        Row::Does(Act::Feed(1)),
        Row::Does(Act::Receive(1, 2)),
    ];
    const GOES: &[Row] = &[
        Row::Steps {
            place: Place::Bridge(2),
            count: 0,
        },
        Row::Runs(CROSSING),
        Row::Moved(Place::Customer(2), BROADCAST),
    ];
    walks_copy(&rt, rt.alloc(), &JOINED, WAITS, GOES)
}

/// B1 and B2 under the protocol.
const TWO: Draft = Draft {
    spanning: Spanning::Rstp,
    ..JOINED
};

#[test]
fn a_copy_of_a_settling_network_settles(rt: HostRuntime) -> Result<(), Fail> {
    const TICKED: &[Row] = &[Row::Does(Act::Tick(1))];
    const SETTLES: &[Row] = &[
        Row::Settled(Some(false)),
        Row::Crosses(1),
        Row::Settled(Some(true)),
    ];
    walks_copy(&rt, rt.alloc(), &TWO, TICKED, SETTLES)
}
