//! Two bridges, and the link between them.

use super::harness::run;
use super::networks::Network;
use super::rows::{Fate, Piece, Row};
use super::{BROADCAST, TAGGED_BROADCAST};
use pb_lan::{PortState, Reason, Spanning};
use std::test::Fail;

/// B1 and B2. The plan gives the states.
const NETWORK: Network = Network::TwoBridges {
    spanning: Spanning::Fixed,
    queue: 64,
};

/// The broadcast, as a customer sends it.
const PLAIN: Piece = Piece {
    number: Some(0),
    hops: 0,
    digits: BROADCAST,
};

/// The broadcast between the bridges.
const TAGGED: Piece = Piece {
    number: Some(0),
    hops: 1,
    digits: TAGGED_BROADCAST,
};

/// From the customer to B2.
const LEAVES: &[Row] = &[
    Row::Receives {
        port: 2,
        item: PLAIN,
        fate: Fate::Relayed(&[1]),
    },
    Row::Sends {
        port: 1,
        item: TAGGED,
    },
];

#[test]
fn frames_leave_with_the_tag_of_their_service(rt: HostRuntime) -> Result<(), Fail> {
    run(&rt, rt.alloc(), NETWORK, 1, LEAVES)
}

/// From B1 to the customer of red, and not to the one of blue.
const ARRIVES: &[Row] = &[
    Row::Receives {
        port: 1,
        item: TAGGED,
        fate: Fate::Relayed(&[2]),
    },
    Row::Sends {
        port: 2,
        item: Piece {
            number: Some(0),
            hops: 2,
            digits: BROADCAST,
        },
    },
    Row::Waits { port: 3, items: 0 },
];

#[test]
fn frames_arrive_without_it(rt: HostRuntime) -> Result<(), Fail> {
    run(&rt, rt.alloc(), NETWORK, 2, ARRIVES)
}

/// The port to B2 is disabled.
const DOWN: &[Row] = &[
    Row::Sets { port: 1, up: false },
    Row::States(&[PortState::Discarding, PortState::Forwarding]),
    Row::Receives {
        port: 1,
        item: TAGGED,
        fate: Fate::Filtered(Reason::NotForwarding),
    },
    Row::Receives {
        port: 2,
        item: PLAIN,
        fate: Fate::Relayed(&[]),
    },
    Row::Waits { port: 1, items: 0 },
];

#[test]
fn a_port_that_is_down_relays_nothing(rt: HostRuntime) -> Result<(), Fail> {
    run(&rt, rt.alloc(), NETWORK, 1, DOWN)
}

/// The port to B2 is disabled and enabled again.
const UP_AGAIN: &[Row] = &[
    Row::Sets { port: 1, up: false },
    Row::Sets { port: 1, up: true },
    Row::Receives {
        port: 2,
        item: Piece {
            number: Some(1),
            hops: 0,
            digits: BROADCAST,
        },
        fate: Fate::Relayed(&[1]),
    },
    Row::Waits { port: 1, items: 1 },
];

#[test]
fn a_port_that_is_up_again_relays(rt: HostRuntime) -> Result<(), Fail> {
    run(&rt, rt.alloc(), NETWORK, 1, UP_AGAIN)
}
