//! The queues of ports.

use super::BROADCAST;
use super::harness::run;
use super::networks::Network;
use super::rows::{Fate, Piece, Row};
use pb_lan::{NoRoom, PortState, Spanning};
use std::test::Fail;

/// A bridge between two others. The plan gives the states.
const LINE: Network = Network::Line {
    spanning: Spanning::Fixed,
    start: PortState::Forwarding,
};

/// A bridge with queues of one item.
const NARROW: Network = Network::ThreeCustomers { steps: 100 };

/// The broadcast under a priority tag with priority 6.
const URGENT: &str = "ffffffffffff02000000010188a8c00008004142";

/// The broadcast under a priority tag with priority 7.
const MOST_URGENT: &str = "ffffffffffff02000000010188a8e00008004142";

/// Four frames of two classes, distinguished by how many bridges relayed them.
const CLASSES: &[Row] = &[
    Row::Receives {
        port: 2,
        item: Piece {
            number: None,
            hops: 9,
            digits: BROADCAST,
        },
        fate: Fate::Relayed(&[1, 3, 4]),
    },
    Row::Receives {
        port: 2,
        item: Piece {
            number: None,
            hops: 19,
            digits: URGENT,
        },
        fate: Fate::Relayed(&[1, 3, 4]),
    },
    Row::Receives {
        port: 2,
        item: Piece {
            number: None,
            hops: 29,
            digits: BROADCAST,
        },
        fate: Fate::Relayed(&[1, 3, 4]),
    },
    Row::Receives {
        port: 2,
        item: Piece {
            number: None,
            hops: 39,
            digits: URGENT,
        },
        fate: Fate::Relayed(&[1, 3, 4]),
    },
    Row::Waits { port: 3, items: 4 },
    Row::Shows {
        port: 3,
        item: Piece {
            number: None,
            hops: 20,
            digits: BROADCAST,
        },
    },
    Row::Sends {
        port: 3,
        item: Piece {
            number: None,
            hops: 20,
            digits: BROADCAST,
        },
    },
    Row::Shows {
        port: 3,
        item: Piece {
            number: None,
            hops: 40,
            digits: BROADCAST,
        },
    },
    Row::Sends {
        port: 3,
        item: Piece {
            number: None,
            hops: 40,
            digits: BROADCAST,
        },
    },
    Row::Shows {
        port: 3,
        item: Piece {
            number: None,
            hops: 10,
            digits: BROADCAST,
        },
    },
    Row::Sends {
        port: 3,
        item: Piece {
            number: None,
            hops: 10,
            digits: BROADCAST,
        },
    },
    Row::Shows {
        port: 3,
        item: Piece {
            number: None,
            hops: 30,
            digits: BROADCAST,
        },
    },
    Row::Sends {
        port: 3,
        item: Piece {
            number: None,
            hops: 30,
            digits: BROADCAST,
        },
    },
    Row::Waits { port: 3, items: 0 },
];

#[test]
fn the_higher_class_leaves_first(rt: HostRuntime) -> Result<(), Fail> {
    run(&rt, rt.alloc(), LINE, 2, CLASSES)
}

/// One frame, whose step reports it as it leaves.
const ONE: &[Row] = &[
    Row::Receives {
        port: 2,
        item: Piece {
            number: None,
            hops: 6,
            digits: "ffffffffffff02000000010188a8600008004142",
        },
        fate: Fate::Relayed(&[1, 3, 4]),
    },
    Row::Sends {
        port: 3,
        item: Piece {
            number: None,
            hops: 7,
            digits: BROADCAST,
        },
    },
];

#[test]
fn an_item_and_its_copy_are_one(rt: HostRuntime) -> Result<(), Fail> {
    run(&rt, rt.alloc(), LINE, 2, ONE)
}

/// The queue is full for a more urgent frame while another one waits.
const FULL: &[Row] = &[
    Row::Receives {
        port: 1,
        item: Piece {
            number: None,
            hops: 0,
            digits: BROADCAST,
        },
        fate: Fate::Relayed(&[2, 3]),
    },
    Row::Receives {
        port: 1,
        item: Piece {
            number: None,
            hops: 8,
            digits: MOST_URGENT,
        },
        fate: Fate::Refused {
            chosen: &[2, 3],
            full: &[(2, NoRoom::Full), (3, NoRoom::Full)],
        },
    },
    Row::Waits { port: 2, items: 1 },
    Row::Waits { port: 3, items: 1 },
    Row::Shows {
        port: 2,
        item: Piece {
            number: None,
            hops: 1,
            digits: BROADCAST,
        },
    },
];

#[test]
fn a_full_queue_takes_nothing(rt: HostRuntime) -> Result<(), Fail> {
    run(&rt, rt.alloc(), NARROW, 1, FULL)
}

/// The broadcast, before it is received.
const COMING: Piece = Piece {
    number: None,
    hops: 0,
    digits: BROADCAST,
};

/// A frame to the station from which the broadcast comes.
const BACK: Piece = Piece {
    number: None,
    hops: 0,
    digits: "02000000010102000000010208004142",
};

/// A frame to a reserved address.
const RESERVED: Piece = Piece {
    number: None,
    hops: 0,
    digits: "0180c200000202000000010208004142",
};

/// A frame has room if each port to which it is relayed has it. One item waits at ports 2 and 3, and none at port 1.
const ROOM: &[Row] = &[
    Row::HasRoom {
        port: 1,
        item: COMING,
        queue: 1,
        has: true,
    },
    Row::Receives {
        port: 1,
        item: COMING,
        fate: Fate::Relayed(&[2, 3]),
    },
    Row::HasRoom {
        port: 1,
        item: COMING,
        queue: 1,
        has: false,
    },
    Row::HasRoom {
        port: 1,
        item: COMING,
        queue: 2,
        has: true,
    },
    Row::HasRoom {
        port: 2,
        item: COMING,
        queue: 1,
        has: false,
    },
    Row::HasRoom {
        port: 2,
        item: BACK,
        queue: 1,
        has: true,
    },
    Row::HasRoom {
        port: 2,
        item: RESERVED,
        queue: 0,
        has: true,
    },
];

#[test]
fn a_frame_needs_room_where_it_is_relayed(rt: HostRuntime) -> Result<(), Fail> {
    run(&rt, rt.alloc(), NARROW, 1, ROOM)
}
