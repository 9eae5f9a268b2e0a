//! Rulings on frames, and the frames that they bring to other ports.

use super::BROADCAST;
use super::harness::run;
use super::networks::Network;
use super::rows::{Fate, Piece, Row};
use pb_frame::Learnt;
use pb_lan::{PortState, Reason, Spanning};
use std::test::Fail;

/// A bridge between two others, whose ports to them are Forwarding.
const LINE: Network = Network::Line {
    spanning: Spanning::Fixed,
    start: PortState::Forwarding,
};

/// The bridge with ports in the state Learning.
const LEARNING: Network = Network::Line {
    spanning: Spanning::Fixed,
    start: PortState::Learning,
};

/// The bridge with ports in the state Discarding.
const DISCARDING: Network = Network::Line {
    spanning: Spanning::Fixed,
    start: PortState::Discarding,
};

/// The outcome of a frame at port 2 that is relayed to all other ports of red.
const CARRIED: Fate = Fate::Relayed(&[1, 3, 4]);

/// A customer's frames of each length about the limits.
const LENGTHS: &[Row] = &[
    Row::ReceivesOctets {
        port: 2,
        octets: 13,
        fate: Fate::Filtered(Reason::Malformed),
    },
    Row::ReceivesOctets {
        port: 2,
        octets: 14,
        fate: CARRIED,
    },
    Row::ReceivesOctets {
        port: 2,
        octets: 1992,
        fate: CARRIED,
    },
    Row::ReceivesOctets {
        port: 2,
        octets: 1993,
        fate: Fate::Filtered(Reason::Long),
    },
    Row::Sends {
        port: 1,
        item: Piece {
            number: None,
            hops: 1,
            digits: "ffffffffffffffffffffffff88a80064ffff",
        },
    },
];

#[test]
fn customers_are_relayed_by_length(rt: HostRuntime) -> Result<(), Fail> {
    run(&rt, rt.alloc(), LINE, 2, LENGTHS)
}

/// A customer's frames to addresses of bridges, and one with a service tag.
const DESTINATIONS: &[Row] = &[
    Row::Receives {
        port: 2,
        item: Piece {
            number: None,
            hops: 0,
            digits: "0180c200000802000000010108004142",
        },
        fate: Fate::Filtered(Reason::Reserved(8)),
    },
    Row::Receives {
        port: 2,
        item: Piece {
            number: None,
            hops: 0,
            digits: "0180c200000102000000010108004142",
        },
        fate: Fate::Filtered(Reason::Reserved(1)),
    },
    Row::Receives {
        port: 2,
        item: Piece {
            number: None,
            hops: 0,
            digits: "0180c200000e02000000010108004142",
        },
        fate: Fate::Filtered(Reason::Reserved(14)),
    },
    Row::Receives {
        port: 2,
        item: Piece {
            number: None,
            hops: 0,
            digits: "0180c200000002000000010108004142",
        },
        fate: CARRIED,
    },
    Row::Receives {
        port: 2,
        item: Piece {
            number: None,
            hops: 0,
            digits: "0180c200000b02000000010108004142",
        },
        fate: CARRIED,
    },
    Row::Receives {
        port: 2,
        item: Piece {
            number: None,
            hops: 0,
            digits: "0180c200000f02000000010108004142",
        },
        fate: CARRIED,
    },
    Row::Receives {
        port: 2,
        item: Piece {
            number: None,
            hops: 0,
            digits: "ffffffffffff02000000010188a800640800",
        },
        fate: Fate::Filtered(Reason::STagged),
    },
];

#[test]
fn reserved_destinations_are_refused(rt: HostRuntime) -> Result<(), Fail> {
    run(&rt, rt.alloc(), LINE, 2, DESTINATIONS)
}

/// A frame of red with nothing after its type, between bridges.
const OF_RED: Piece = Piece {
    number: None,
    hops: 0,
    digits: "ffffffffffff02000000010188a800640800",
};

/// A customer's frame to the station that sent it.
const TO_STATION: Piece = Piece {
    number: None,
    hops: 0,
    digits: "0200000001010200000001020800",
};

/// The station is known at a port that is Forwarding. Frames that are not of its service teach nothing.
const OPEN: &[Row] = &[
    Row::Receives {
        port: 1,
        item: OF_RED,
        fate: Fate::Relayed(&[2, 3, 4]),
    },
    Row::Learns(Some(Learnt::New)),
    Row::Receives {
        port: 1,
        item: Piece {
            number: None,
            hops: 0,
            digits: "ffffffffffff02000000010188a801000800",
        },
        fate: Fate::Filtered(Reason::NotMember),
    },
    Row::Receives {
        port: 1,
        item: Piece {
            number: None,
            hops: 0,
            digits: "ffffffffffff02000000010108004142",
        },
        fate: Fate::Filtered(Reason::Untagged),
    },
    Row::Receives {
        port: 1,
        item: Piece {
            number: None,
            hops: 0,
            digits: "0180c200000802000000010188a800640800",
        },
        fate: Fate::Filtered(Reason::Reserved(8)),
    },
    Row::Learns(None),
    Row::Receives {
        port: 2,
        item: TO_STATION,
        fate: Fate::Relayed(&[1]),
    },
];

/// The station is known at a port that is not Forwarding.
const HALF_OPEN: &[Row] = &[
    Row::Receives {
        port: 1,
        item: OF_RED,
        fate: Fate::Filtered(Reason::NotForwarding),
    },
    Row::Learns(Some(Learnt::New)),
    Row::Receives {
        port: 2,
        item: TO_STATION,
        fate: Fate::Relayed(&[]),
    },
];

/// The station is not known.
const CLOSED: &[Row] = &[
    Row::Receives {
        port: 1,
        item: OF_RED,
        fate: Fate::Filtered(Reason::NotForwarding),
    },
    Row::Learns(None),
    Row::Receives {
        port: 2,
        item: TO_STATION,
        fate: Fate::Relayed(&[3]),
    },
];

#[test]
fn bridges_are_relayed_by_tag(rt: HostRuntime) -> Result<(), Fail> {
    run(&rt, rt.alloc(), LINE, 2, OPEN)
}

#[test]
fn bridges_are_learnt_by_a_learning_port(rt: HostRuntime) -> Result<(), Fail> {
    run(&rt, rt.alloc(), LEARNING, 2, HALF_OPEN)
}

#[test]
fn bridges_are_refused_by_a_discarding_port(rt: HostRuntime) -> Result<(), Fail> {
    run(&rt, rt.alloc(), DISCARDING, 2, CLOSED)
}

/// A frame is relayed 4,294,967,295 times at most.
const WORN: &[Row] = &[
    Row::Receives {
        port: 2,
        item: Piece {
            number: None,
            hops: u32::MAX - 1,
            digits: BROADCAST,
        },
        fate: CARRIED,
    },
    Row::Receives {
        port: 2,
        item: Piece {
            number: None,
            hops: u32::MAX,
            digits: BROADCAST,
        },
        fate: Fate::Filtered(Reason::Worn),
    },
];

#[test]
fn worn_frames_are_refused(rt: HostRuntime) -> Result<(), Fail> {
    run(&rt, rt.alloc(), LINE, 2, WORN)
}

/// The customer's own tag stays after the service tag.
const GETS_TAG: &[Row] = &[
    Row::Receives {
        port: 2,
        item: Piece {
            number: None,
            hops: 0,
            digits: "ffffffffffff0200000001018100200508004142",
        },
        fate: CARRIED,
    },
    Row::Sends {
        port: 3,
        item: Piece {
            number: None,
            hops: 1,
            digits: "ffffffffffff0200000001018100200508004142",
        },
    },
    Row::Sends {
        port: 1,
        item: Piece {
            number: None,
            hops: 1,
            digits: "ffffffffffff02000000010188a800648100200508004142",
        },
    },
];

#[test]
fn customers_frames_get_a_tag(rt: HostRuntime) -> Result<(), Fail> {
    run(&rt, rt.alloc(), LINE, 2, GETS_TAG)
}

/// The priority is kept on the way to bridges.
const PRIORITY_TAG: &[Row] = &[
    Row::Receives {
        port: 2,
        item: Piece {
            number: None,
            hops: 0,
            digits: "ffffffffffff02000000010188a8a00008004142",
        },
        fate: CARRIED,
    },
    Row::Sends {
        port: 3,
        item: Piece {
            number: None,
            hops: 1,
            digits: BROADCAST,
        },
    },
    Row::Sends {
        port: 1,
        item: Piece {
            number: None,
            hops: 1,
            digits: "ffffffffffff02000000010188a8a06408004142",
        },
    },
];

#[test]
fn priority_tags_are_taken_off(rt: HostRuntime) -> Result<(), Fail> {
    run(&rt, rt.alloc(), LINE, 2, PRIORITY_TAG)
}

/// The service tag is removed for customers alone.
const LOSES_TAG: &[Row] = &[
    Row::Receives {
        port: 1,
        item: Piece {
            number: None,
            hops: 0,
            digits: "ffffffffffff02000000010188a800648100200508004142",
        },
        fate: Fate::Relayed(&[2, 3, 4]),
    },
    Row::Sends {
        port: 2,
        item: Piece {
            number: None,
            hops: 1,
            digits: "ffffffffffff0200000001018100200508004142",
        },
    },
    Row::Sends {
        port: 4,
        item: Piece {
            number: None,
            hops: 1,
            digits: "ffffffffffff02000000010188a800648100200508004142",
        },
    },
];

#[test]
fn bridges_frames_lose_their_tag_for_customers(rt: HostRuntime) -> Result<(), Fail> {
    run(&rt, rt.alloc(), LINE, 2, LOSES_TAG)
}
