//! The effect of the clock on bridges that run the spanning tree. The hello time is two ticks, and a port waits 15
//! ticks for each next state. The transmit count allows six BPDUs, and each tick lowers it by one.

use super::bpdus::{ANSWER, LEARNING, OPENED, PROPOSAL};
use super::harness::run;
use super::networks::Network;
use super::rows::{Fate, Piece, Row};
use pb_lan::{NoRoom, PortState, Spanning};
use std::test::Fail;

/// Two bridges under the protocol. B1 hears nobody.
const NETWORK: Network = Network::TwoBridges {
    spanning: Spanning::Rstp,
    queue: 64,
};

/// B1 with queues of three items.
const NARROW: Network = Network::TwoBridges {
    spanning: Spanning::Rstp,
    queue: 3,
};

/// The clock ticks, and one BPDU is queued.
const HELLO: Row = Row::Ticks {
    queued: 1,
    dropped: &[],
};

/// The clock ticks, and no BPDU is queued.
const QUIET: Row = Row::Passes(1);

/// The clock ticks, and a BPDU is dropped because the queue is full.
const DROPPED: Row = Row::Ticks {
    queued: 0,
    dropped: &[(1, NoRoom::Full)],
};

/// The port proposes while it is Discarding.
const PROPOSES: Row = Row::Sends {
    port: 1,
    item: Piece {
        number: None,
        hops: 0,
        digits: PROPOSAL,
    },
};

/// It proposes while it is Learning.
const LEARNS: Row = Row::Sends {
    port: 1,
    item: Piece {
        number: None,
        hops: 0,
        digits: LEARNING,
    },
};

/// It is Forwarding, and reports a topology change.
const TELLS: Row = Row::Sends {
    port: 1,
    item: Piece {
        number: None,
        hops: 0,
        digits: OPENED,
    },
};

/// Thirty ticks alone, with each BPDU leaving before the next tick: one at the first, because the start makes it due,
/// and one at each second tick.
const SENT: &[Row] = &[
    Row::States(&[PortState::Discarding, PortState::Forwarding]),
    HELLO,
    PROPOSES,
    Row::Waits { port: 1, items: 0 },
    HELLO,
    PROPOSES,
    QUIET,
    Row::Waits { port: 1, items: 0 },
    HELLO,
    PROPOSES,
    QUIET,
    HELLO,
    PROPOSES,
    QUIET,
    HELLO,
    PROPOSES,
    QUIET,
    HELLO,
    PROPOSES,
    QUIET,
    HELLO,
    PROPOSES,
    QUIET,
    HELLO,
    PROPOSES,
    Row::States(&[PortState::Discarding, PortState::Forwarding]),
    QUIET,
    Row::States(&[PortState::Learning, PortState::Forwarding]),
    HELLO,
    LEARNS,
    QUIET,
    HELLO,
    LEARNS,
    QUIET,
    HELLO,
    LEARNS,
    QUIET,
    HELLO,
    LEARNS,
    QUIET,
    HELLO,
    LEARNS,
    QUIET,
    HELLO,
    LEARNS,
    QUIET,
    HELLO,
    LEARNS,
    QUIET,
    Row::States(&[PortState::Learning, PortState::Forwarding]),
    HELLO,
    TELLS,
    Row::Waits { port: 1, items: 0 },
    Row::States(&[PortState::Forwarding, PortState::Forwarding]),
];

/// Thirty ticks in which nothing leaves: three BPDUs fill the queue, and those after them are dropped, until one
/// leaves.
const LEFT_WAITING: &[Row] = &[
    HELLO,
    Row::Waits { port: 1, items: 1 },
    HELLO,
    Row::Waits { port: 1, items: 2 },
    QUIET,
    HELLO,
    Row::Waits { port: 1, items: 3 },
    QUIET,
    Row::Waits { port: 1, items: 3 },
    DROPPED,
    Row::Waits { port: 1, items: 3 },
    QUIET,
    DROPPED,
    QUIET,
    DROPPED,
    QUIET,
    DROPPED,
    QUIET,
    DROPPED,
    QUIET,
    DROPPED,
    QUIET,
    DROPPED,
    QUIET,
    DROPPED,
    QUIET,
    DROPPED,
    QUIET,
    DROPPED,
    QUIET,
    DROPPED,
    QUIET,
    DROPPED,
    QUIET,
    DROPPED,
    Row::Waits { port: 1, items: 3 },
    Row::States(&[PortState::Forwarding, PortState::Forwarding]),
    PROPOSES,
    Row::Waits { port: 1, items: 2 },
    QUIET,
    HELLO,
    Row::Waits { port: 1, items: 3 },
    PROPOSES,
    PROPOSES,
    TELLS,
    Row::Waits { port: 1, items: 0 },
];

#[test]
fn thirty_ticks_alone_send_sixteen_bpdus(rt: HostRuntime) -> Result<(), Fail> {
    run(&rt, rt.alloc(), NETWORK, 1, SENT)
}

#[test]
fn thirty_ticks_alone_fill_a_queue(rt: HostRuntime) -> Result<(), Fail> {
    run(&rt, rt.alloc(), NARROW, 1, LEFT_WAITING)
}

/// B2 hears the first BPDU of B1, and has to reply.
const HEARS: Row = Row::Receives {
    port: 1,
    item: Piece {
        number: None,
        hops: 0,
        digits: PROPOSAL,
    },
    fate: Fate::Heard,
};

/// B2 replies.
const ANSWERS: Row = Row::Sends {
    port: 1,
    item: Piece {
        number: None,
        hops: 0,
        digits: ANSWER,
    },
};

/// Six replies are sent. The seventh stays due until the next tick. At the second tick, a hello time, the port still
/// reports a topology change, and at the next hello time no more.
const HELD_BACK: &[Row] = &[
    HEARS,
    HEARS,
    HEARS,
    HEARS,
    HEARS,
    HEARS,
    Row::Waits { port: 1, items: 6 },
    HEARS,
    Row::Waits { port: 1, items: 6 },
    HELLO,
    Row::Waits { port: 1, items: 7 },
    HELLO,
    Row::Waits { port: 1, items: 8 },
    Row::Passes(2),
    Row::Waits { port: 1, items: 8 },
    ANSWERS,
    ANSWERS,
    ANSWERS,
    ANSWERS,
    ANSWERS,
    ANSWERS,
    ANSWERS,
    ANSWERS,
    Row::Waits { port: 1, items: 0 },
];

#[test]
fn the_hold_count_is_kept(rt: HostRuntime) -> Result<(), Fail> {
    run(&rt, rt.alloc(), NETWORK, 2, HELD_BACK)
}
