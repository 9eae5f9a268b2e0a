//! The stations that are forgotten when the topology changes.

use super::BROADCAST;
use super::bpdus::{ANSWER_OF_THIRD, OPENED, PROPOSAL};
use super::harness::run;
use super::networks::Network;
use super::rows::{Fate, Piece, Row};
use pb_lan::{PortState, Spanning};
use std::test::Fail;

/// B2 between B1 and B3, running the spanning tree.
const LINE: Network = Network::Line {
    spanning: Spanning::Rstp,
    start: PortState::Forwarding,
};

/// A broadcast from 02-00-00-00-03-01 in red, between bridges.
const FROM_BEHIND_THIRD: &str = "ffffffffffff02000000030188a8006408004142";

/// A broadcast from 02-00-00-00-04-01 in red, between bridges.
const FROM_BEHIND_FIRST: &str = "ffffffffffff02000000040188a8006408004142";

/// From the customer at port 3 to the one at port 2.
const TO_CUSTOMER: &str = "0200000001010200000001020800";

/// From the customer at port 3 to the station beyond B3.
const TO_BEHIND_THIRD: &str = "0200000003010200000001020800";

/// From the customer at port 3 to the station beyond B1.
const TO_BEHIND_FIRST: &str = "0200000004010200000001020800";

/// Both ports to bridges become Forwarding, and three stations are seen. Then B1 reports a topology change.
const CHANGE: &[Row] = &[
    Row::Receives {
        port: 1,
        item: Piece {
            number: None,
            hops: 0,
            digits: PROPOSAL,
        },
        fate: Fate::Heard,
    },
    Row::Receives {
        port: 4,
        item: Piece {
            number: None,
            hops: 0,
            digits: ANSWER_OF_THIRD,
        },
        fate: Fate::Heard,
    },
    Row::States(&[
        PortState::Forwarding,
        PortState::Forwarding,
        PortState::Forwarding,
        PortState::Forwarding,
        PortState::Forwarding,
    ]),
    Row::Receives {
        port: 2,
        item: Piece {
            number: None,
            hops: 0,
            digits: BROADCAST,
        },
        fate: Fate::Relayed(&[1, 3, 4]),
    },
    Row::Receives {
        port: 4,
        item: Piece {
            number: None,
            hops: 0,
            digits: FROM_BEHIND_THIRD,
        },
        fate: Fate::Relayed(&[1, 2, 3]),
    },
    Row::Receives {
        port: 1,
        item: Piece {
            number: None,
            hops: 0,
            digits: FROM_BEHIND_FIRST,
        },
        fate: Fate::Relayed(&[2, 3, 4]),
    },
    Row::Receives {
        port: 3,
        item: Piece {
            number: None,
            hops: 0,
            digits: TO_CUSTOMER,
        },
        fate: Fate::Relayed(&[2]),
    },
    Row::Receives {
        port: 3,
        item: Piece {
            number: None,
            hops: 0,
            digits: TO_BEHIND_THIRD,
        },
        fate: Fate::Relayed(&[4]),
    },
    Row::Receives {
        port: 3,
        item: Piece {
            number: None,
            hops: 0,
            digits: TO_BEHIND_FIRST,
        },
        fate: Fate::Relayed(&[1]),
    },
    Row::Receives {
        port: 1,
        item: Piece {
            number: None,
            hops: 0,
            digits: OPENED,
        },
        fate: Fate::Heard,
    },
    Row::Receives {
        port: 3,
        item: Piece {
            number: None,
            hops: 0,
            digits: TO_CUSTOMER,
        },
        fate: Fate::Relayed(&[2]),
    },
    Row::Receives {
        port: 3,
        item: Piece {
            number: None,
            hops: 0,
            digits: TO_BEHIND_FIRST,
        },
        fate: Fate::Relayed(&[1]),
    },
    Row::Receives {
        port: 3,
        item: Piece {
            number: None,
            hops: 0,
            digits: TO_BEHIND_THIRD,
        },
        fate: Fate::Relayed(&[1, 2, 4]),
    },
];

#[test]
fn customers_stay_known_when_the_topology_changes(rt: HostRuntime) -> Result<(), Fail> {
    run(&rt, rt.alloc(), LINE, 2, CHANGE)
}
