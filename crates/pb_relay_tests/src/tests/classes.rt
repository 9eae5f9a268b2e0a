//! The traffic class of a frame, shown by the order in which it leaves among frames of the classes just above and below
//! it.

use super::BROADCAST;
use super::harness::run;
use super::networks::Network;
use super::rows::{Fate, Piece, Row};
use pb_lan::{PortState, Spanning};
use std::test::Fail;

/// A bridge between two others. The plan gives the states.
const LINE: Network = Network::Line {
    spanning: Spanning::Fixed,
    start: PortState::Forwarding,
};

/// Priority 1, the customer's own priority 0 with a customer tag, and priority 2.
const USUAL: &[Row] = &[
    Row::Receives {
        port: 2,
        item: Piece {
            number: Some(0),
            hops: 0,
            digits: "ffffffffffff02000000010188a8200008004142",
        },
        fate: Fate::Relayed(&[1, 3, 4]),
    },
    Row::Receives {
        port: 2,
        item: Piece {
            number: Some(1),
            hops: 0,
            digits: "ffffffffffff0200000001018100200508004142",
        },
        fate: Fate::Relayed(&[1, 3, 4]),
    },
    Row::Receives {
        port: 2,
        item: Piece {
            number: Some(2),
            hops: 0,
            digits: "ffffffffffff02000000010188a8400008004142",
        },
        fate: Fate::Relayed(&[1, 3, 4]),
    },
    Row::Sends {
        port: 1,
        item: Piece {
            number: Some(2),
            hops: 1,
            digits: "ffffffffffff02000000010188a8406408004142",
        },
    },
    Row::Sends {
        port: 1,
        item: Piece {
            number: Some(1),
            hops: 1,
            digits: "ffffffffffff02000000010188a800648100200508004142",
        },
    },
    Row::Sends {
        port: 1,
        item: Piece {
            number: Some(0),
            hops: 1,
            digits: "ffffffffffff02000000010188a8206408004142",
        },
    },
];

#[test]
fn a_customers_own_priority_is_0(rt: HostRuntime) -> Result<(), Fail> {
    run(&rt, rt.alloc(), LINE, 2, USUAL)
}

/// Priorities 4, 5 and 6.
const BY_TAG: &[Row] = &[
    Row::Receives {
        port: 2,
        item: Piece {
            number: Some(0),
            hops: 0,
            digits: "ffffffffffff02000000010188a8800008004142",
        },
        fate: Fate::Relayed(&[1, 3, 4]),
    },
    Row::Receives {
        port: 2,
        item: Piece {
            number: Some(1),
            hops: 0,
            digits: "ffffffffffff02000000010188a8a00008004142",
        },
        fate: Fate::Relayed(&[1, 3, 4]),
    },
    Row::Receives {
        port: 2,
        item: Piece {
            number: Some(2),
            hops: 0,
            digits: "ffffffffffff02000000010188a8c00008004142",
        },
        fate: Fate::Relayed(&[1, 3, 4]),
    },
    Row::Sends {
        port: 1,
        item: Piece {
            number: Some(2),
            hops: 1,
            digits: "ffffffffffff02000000010188a8c06408004142",
        },
    },
    Row::Sends {
        port: 1,
        item: Piece {
            number: Some(1),
            hops: 1,
            digits: "ffffffffffff02000000010188a8a06408004142",
        },
    },
    Row::Sends {
        port: 1,
        item: Piece {
            number: Some(0),
            hops: 1,
            digits: "ffffffffffff02000000010188a8806408004142",
        },
    },
];

/// Priorities 4, 5 and 6 at a customer port.
const BY_TAG_TO_CUSTOMER: &[Row] = &[
    Row::Receives {
        port: 2,
        item: Piece {
            number: Some(0),
            hops: 0,
            digits: "ffffffffffff02000000010188a8800008004142",
        },
        fate: Fate::Relayed(&[1, 3, 4]),
    },
    Row::Receives {
        port: 2,
        item: Piece {
            number: Some(1),
            hops: 0,
            digits: "ffffffffffff02000000010188a8a00008004142",
        },
        fate: Fate::Relayed(&[1, 3, 4]),
    },
    Row::Receives {
        port: 2,
        item: Piece {
            number: Some(2),
            hops: 0,
            digits: "ffffffffffff02000000010188a8c00008004142",
        },
        fate: Fate::Relayed(&[1, 3, 4]),
    },
    Row::Sends {
        port: 3,
        item: Piece {
            number: Some(2),
            hops: 1,
            digits: BROADCAST,
        },
    },
    Row::Sends {
        port: 3,
        item: Piece {
            number: Some(1),
            hops: 1,
            digits: BROADCAST,
        },
    },
    Row::Sends {
        port: 3,
        item: Piece {
            number: Some(0),
            hops: 1,
            digits: BROADCAST,
        },
    },
];

#[test]
fn a_priority_tag_gives_the_class(rt: HostRuntime) -> Result<(), Fail> {
    run(&rt, rt.alloc(), LINE, 2, BY_TAG)
}

#[test]
fn a_priority_tag_gives_the_class_at_customers(rt: HostRuntime) -> Result<(), Fail> {
    run(&rt, rt.alloc(), LINE, 2, BY_TAG_TO_CUSTOMER)
}

/// Priorities 1, 0 and 2 between bridges.
const ON_THE_WAY: &[Row] = &[
    Row::Receives {
        port: 1,
        item: Piece {
            number: Some(0),
            hops: 0,
            digits: "ffffffffffff02000000010188a8206408004142",
        },
        fate: Fate::Relayed(&[2, 3, 4]),
    },
    Row::Receives {
        port: 1,
        item: Piece {
            number: Some(1),
            hops: 0,
            digits: "ffffffffffff02000000010188a800648100200508004142",
        },
        fate: Fate::Relayed(&[2, 3, 4]),
    },
    Row::Receives {
        port: 1,
        item: Piece {
            number: Some(2),
            hops: 0,
            digits: "ffffffffffff02000000010188a8406408004142",
        },
        fate: Fate::Relayed(&[2, 3, 4]),
    },
    Row::Sends {
        port: 4,
        item: Piece {
            number: Some(2),
            hops: 1,
            digits: "ffffffffffff02000000010188a8406408004142",
        },
    },
    Row::Sends {
        port: 4,
        item: Piece {
            number: Some(1),
            hops: 1,
            digits: "ffffffffffff02000000010188a800648100200508004142",
        },
    },
    Row::Sends {
        port: 4,
        item: Piece {
            number: Some(0),
            hops: 1,
            digits: "ffffffffffff02000000010188a8206408004142",
        },
    },
];

#[test]
fn a_service_tag_gives_the_class(rt: HostRuntime) -> Result<(), Fail> {
    run(&rt, rt.alloc(), LINE, 2, ON_THE_WAY)
}
