//! One bridge with three customer ports of one service, and queues of one item.

use super::BROADCAST;
use super::harness::{run, run_copy, run_to_departure};
use super::networks::Network;
use super::rows::{Fate, Piece, Row};
use pb_lan::{NoRoom, PortState, Reason};
use pb_relay::BridgeFault;
use std::test::Fail;

/// The bridge, with a limit of a hundred steps.
const ROOMY: Network = Network::ThreeCustomers { steps: 100 };

/// The bridge, with a limit of one step.
const NARROW: Network = Network::ThreeCustomers { steps: 1 };

/// The first broadcast, as it is received.
const FIRST: Piece = Piece {
    number: Some(0),
    hops: 0,
    digits: BROADCAST,
};

/// The second broadcast, as it is received.
const SECOND: Piece = Piece {
    number: Some(1),
    hops: 0,
    digits: BROADCAST,
};

/// The first broadcast, as it leaves.
const COPY: Piece = Piece {
    number: Some(0),
    hops: 1,
    digits: BROADCAST,
};

/// A frame from 02-00-00-00-01-02 to the station that sent the broadcast.
const ANSWER: Piece = Piece {
    number: Some(1),
    hops: 0,
    digits: "0200000001010200000001020800",
};

/// The first broadcast is received at port 1.
const ENTERS: Row = Row::Receives {
    port: 1,
    item: FIRST,
    fate: Fate::Relayed(&[2, 3]),
};

/// The first broadcast leaves port 2.
const LEAVES_2: Row = Row::Sends {
    port: 2,
    item: COPY,
};

/// The first broadcast leaves port 3.
const LEAVES_3: Row = Row::Sends {
    port: 3,
    item: COPY,
};

/// A broadcast waits at the other two ports.
const FLOODED: &[Row] = &[
    ENTERS,
    Row::Waits { port: 1, items: 0 },
    Row::Waits { port: 2, items: 1 },
    Row::Shows {
        port: 3,
        item: COPY,
    },
];

#[test]
fn a_broadcast_goes_to_the_other_ports(rt: HostRuntime) -> Result<(), Fail> {
    run(&rt, rt.alloc(), ROOMY, 1, FLOODED)
}

/// It leaves one of them once.
const SENT: &[Row] = &[ENTERS, LEAVES_3, Row::Waits { port: 3, items: 0 }];

#[test]
fn a_copy_is_sent_once(rt: HostRuntime) -> Result<(), Fail> {
    run_to_departure(&rt, rt.alloc(), ROOMY, 1, SENT, 3, COPY)
}

/// The queue of the other is full for the next one.
const FULL: &[Row] = &[
    ENTERS,
    LEAVES_3,
    Row::Receives {
        port: 1,
        item: SECOND,
        fate: Fate::Refused {
            chosen: &[2, 3],
            full: &[(2, NoRoom::Full)],
        },
    },
];

#[test]
fn a_full_queue_refuses(rt: HostRuntime) -> Result<(), Fail> {
    run(&rt, rt.alloc(), ROOMY, 1, FULL)
}

/// Nine ticks later its station is found at its port.
const YOUNG: &[Row] = &[
    ENTERS,
    LEAVES_2,
    LEAVES_3,
    Row::Passes(9),
    Row::Receives {
        port: 2,
        item: ANSWER,
        fate: Fate::Relayed(&[1]),
    },
    Row::Steps(13),
];

/// Ten ticks later it is not.
const OLD: &[Row] = &[
    ENTERS,
    LEAVES_2,
    LEAVES_3,
    Row::Passes(10),
    Row::Receives {
        port: 2,
        item: ANSWER,
        fate: Fate::Relayed(&[1, 3]),
    },
];

#[test]
fn a_station_is_known_at_first(rt: HostRuntime) -> Result<(), Fail> {
    run(&rt, rt.alloc(), ROOMY, 1, YOUNG)
}

#[test]
fn a_station_is_forgotten_when_it_is_too_old(rt: HostRuntime) -> Result<(), Fail> {
    run(&rt, rt.alloc(), ROOMY, 1, OLD)
}

/// At its start the bridge has its three ports, all Forwarding, and no step.
const START: &[Row] = &[
    Row::States(&[
        PortState::Forwarding,
        PortState::Forwarding,
        PortState::Forwarding,
    ]),
    Row::Steps(0),
    Row::Uses {
        ports: &[1, 2, 3],
        links: &[],
    },
];

#[test]
fn customer_ports_are_forwarding(rt: HostRuntime) -> Result<(), Fail> {
    run(&rt, rt.alloc(), ROOMY, 1, START)
}

/// Thirteen octets, a pause frame, and a frame that has passed too many bridges.
const REFUSED: &[Row] = &[
    Row::Receives {
        port: 1,
        item: Piece {
            number: Some(0),
            hops: 0,
            digits: "07070707070707070707070707",
        },
        fate: Fate::Filtered(Reason::Malformed),
    },
    Row::Receives {
        port: 1,
        item: Piece {
            number: Some(1),
            hops: 0,
            digits: "0180c20000010200000001018808",
        },
        fate: Fate::Filtered(Reason::Reserved(1)),
    },
    Row::Receives {
        port: 1,
        item: Piece {
            number: Some(2),
            hops: u32::MAX,
            digits: BROADCAST,
        },
        fate: Fate::Filtered(Reason::Worn),
    },
];

#[test]
fn frames_are_refused(rt: HostRuntime) -> Result<(), Fail> {
    run(&rt, rt.alloc(), ROOMY, 1, REFUSED)
}

/// One step fills the list.
const LIMIT: &[Row] = &[
    Row::Passes(1),
    Row::TickFails(BridgeFault::StepLimit),
    Row::ReserveFails(BridgeFault::StepLimit),
    Row::Steps(1),
];

#[test]
fn the_list_has_its_limit(rt: HostRuntime) -> Result<(), Fail> {
    run(&rt, rt.alloc(), NARROW, 1, LIMIT)
}

/// The next item is returned.
const HANDED_BACK: &[Row] = &[
    Row::Passes(1),
    Row::HandsBack {
        port: 1,
        item: FIRST,
        fault: BridgeFault::StepLimit,
    },
];

#[test]
fn an_item_is_handed_back(rt: HostRuntime) -> Result<(), Fail> {
    run(&rt, rt.alloc(), NARROW, 1, HANDED_BACK)
}

/// The one step is that of an item.
const TAKEN_IN: &[Row] = &[
    Row::TakesIn {
        port: 1,
        item: FIRST,
    },
    Row::Waits { port: 2, items: 1 },
    Row::Steps(1),
    Row::HandsBack {
        port: 1,
        item: SECOND,
        fault: BridgeFault::StepLimit,
    },
];

#[test]
fn a_step_tells_of_what_was_taken_in(rt: HostRuntime) -> Result<(), Fail> {
    run(&rt, rt.alloc(), NARROW, 1, TAKEN_IN)
}

#[test]
fn a_copy_of_a_bridge_goes_on_alone(rt: HostRuntime) -> Result<(), Fail> {
    const LEAVES: &[Row] = &[
        Row::Waits { port: 2, items: 1 },
        LEAVES_2,
        LEAVES_3,
        Row::Waits { port: 2, items: 0 },
    ];
    run_copy(&rt, rt.alloc(), ROOMY, 1, &[ENTERS], LEAVES)
}
