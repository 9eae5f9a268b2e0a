//! Queues of which each counts one traffic class, and the place of the bridge's own BPDUs.

use super::bpdus::PROPOSAL;
use super::harness::run;
use super::networks::Network;
use super::rows::{Fate, Piece, Row};
use super::{BROADCAST, TAGGED_BROADCAST};
use pb_lan::{NoRoom, PortState, Spanning};
use std::test::Fail;

/// Two bridges with queues of two items for each class. The plan gives the states.
const PLANNED: Network = Network::TwoBridgesByClass {
    spanning: Spanning::Fixed,
    queue: 2,
};

/// The same two bridges under the protocol, with queues of one item.
const SPANNING: Network = Network::TwoBridgesByClass {
    spanning: Spanning::Rstp,
    queue: 1,
};

/// A customer's frame is received and relayed.
macro_rules! relays {
    ($digits:expr) => {
        Row::Receives {
            port: 2,
            item: Piece {
                number: None,
                hops: 0,
                digits: $digits,
            },
            fate: Fate::Relayed(&[1]),
        }
    };
}

/// A customer's frame is received, and the queue of its class is full.
macro_rules! refuses {
    ($digits:expr) => {
        Row::Receives {
            port: 2,
            item: Piece {
                number: None,
                hops: 0,
                digits: $digits,
            },
            fate: Fate::Refused {
                chosen: &[1],
                full: &[(1, NoRoom::Full)],
            },
        }
    };
}

/// The broadcast under a priority tag with priority 0.
const PRIORITY_0: &str = "ffffffffffff02000000010188a8000008004142";

/// The broadcast under a priority tag with priority 1.
const PRIORITY_1: &str = "ffffffffffff02000000010188a8200008004142";

/// The broadcast under a priority tag with priority 2.
const PRIORITY_2: &str = "ffffffffffff02000000010188a8400008004142";

/// The broadcast under a priority tag with priority 3.
const PRIORITY_3: &str = "ffffffffffff02000000010188a8600008004142";

/// The broadcast under a priority tag with priority 4.
const PRIORITY_4: &str = "ffffffffffff02000000010188a8800008004142";

/// The broadcast under a priority tag with priority 5.
const PRIORITY_5: &str = "ffffffffffff02000000010188a8a00008004142";

/// The broadcast under a priority tag with priority 6.
const PRIORITY_6: &str = "ffffffffffff02000000010188a8c00008004142";

/// The broadcast under a priority tag with priority 7.
const PRIORITY_7: &str = "ffffffffffff02000000010188a8e00008004142";

/// Three frames of one class.
const ONE_CLASS: &[Row] = &[
    relays!(BROADCAST),
    relays!(BROADCAST),
    refuses!(BROADCAST),
    Row::Waits { port: 1, items: 2 },
    relays!(PRIORITY_7),
    Row::Waits { port: 1, items: 3 },
    Row::Sends {
        port: 1,
        item: Piece {
            number: None,
            hops: 1,
            digits: "ffffffffffff02000000010188a8e06408004142",
        },
    },
    refuses!(BROADCAST),
    Row::Sends {
        port: 1,
        item: Piece {
            number: None,
            hops: 1,
            digits: TAGGED_BROADCAST,
        },
    },
    relays!(BROADCAST),
    refuses!(PRIORITY_0),
];

#[test]
fn the_third_frame_of_a_class_is_refused(rt: HostRuntime) -> Result<(), Fail> {
    run(&rt, rt.alloc(), PLANNED, 1, ONE_CLASS)
}

/// Two frames of each class, and a third of each.
const ALL_CLASSES: &[Row] = &[
    relays!(PRIORITY_0),
    relays!(PRIORITY_1),
    relays!(PRIORITY_2),
    relays!(PRIORITY_3),
    relays!(PRIORITY_4),
    relays!(PRIORITY_5),
    relays!(PRIORITY_6),
    relays!(PRIORITY_7),
    relays!(PRIORITY_0),
    relays!(PRIORITY_1),
    relays!(PRIORITY_2),
    relays!(PRIORITY_3),
    relays!(PRIORITY_4),
    relays!(PRIORITY_5),
    relays!(PRIORITY_6),
    relays!(PRIORITY_7),
    Row::Waits { port: 1, items: 16 },
    refuses!(PRIORITY_0),
    refuses!(PRIORITY_1),
    refuses!(PRIORITY_2),
    refuses!(PRIORITY_3),
    refuses!(PRIORITY_4),
    refuses!(PRIORITY_5),
    refuses!(PRIORITY_6),
    refuses!(PRIORITY_7),
    Row::Waits { port: 1, items: 16 },
];

#[test]
fn each_class_has_a_queue_of_its_own(rt: HostRuntime) -> Result<(), Fail> {
    run(&rt, rt.alloc(), PLANNED, 1, ALL_CLASSES)
}

/// The BPDU that B1 sends while its port is Discarding.
const PROPOSED: Piece = Piece {
    number: None,
    hops: 0,
    digits: PROPOSAL,
};

/// Thirty ticks in which nothing leaves: each BPDU takes the place of the one before it, and none is dropped.
const REPLACED: &[Row] = &[
    Row::Ticks {
        queued: 1,
        dropped: &[],
    },
    Row::Waits { port: 1, items: 1 },
    Row::Replaces {
        port: 1,
        item: PROPOSED,
    },
    Row::Waits { port: 1, items: 1 },
    Row::Passes(1),
    Row::Replaces {
        port: 1,
        item: PROPOSED,
    },
    Row::Waits { port: 1, items: 1 },
    Row::Shows {
        port: 1,
        item: PROPOSED,
    },
    Row::Sends {
        port: 1,
        item: PROPOSED,
    },
    Row::Waits { port: 1, items: 0 },
    Row::Passes(1),
    Row::Ticks {
        queued: 1,
        dropped: &[],
    },
    Row::Waits { port: 1, items: 1 },
    Row::States(&[PortState::Discarding, PortState::Forwarding]),
];

#[test]
fn a_newer_bpdu_takes_the_place_of_an_older_one(rt: HostRuntime) -> Result<(), Fail> {
    run(&rt, rt.alloc(), SPANNING, 1, REPLACED)
}
