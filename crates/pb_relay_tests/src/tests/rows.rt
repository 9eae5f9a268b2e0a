//! The rows of a table.

use bytes::Bytes;
use pb_frame::{Learnt, hex_read};
use pb_lan::{FrameNumber, Item, Mark, NoRoom, Outcome, PortSet, PortState, Reason, Refusals};
use pb_relay::BridgeFault;
use std::alloc::{AllocError, Global};
use std::test::Fail;

/// An item.
#[derive(Clone, Copy)]
pub struct Piece {
    /// The number of its mark, which is of customer port 1, or None if it has no mark.
    pub number: Option<u64>,
    /// How many bridges have relayed it.
    pub hops: u32,
    /// Its octets in hexadecimal digits.
    pub digits: &'static str,
}

/// The fate of an item.
#[derive(Clone, Copy)]
pub enum Fate {
    /// It is relayed to these ports.
    Relayed(&'static [u8]),
    /// It is relayed to the chosen ports, of which those listed have full queues.
    Refused {
        chosen: &'static [u8],
        full: &'static [(u8, NoRoom)],
    },
    /// It is dropped.
    Filtered(Reason),
    /// It is heard as a BPDU.
    Heard,
}

/// A call of a bridge, or a check of it.
#[derive(Clone, Copy)]
pub enum Row {
    /// An item is received at a port.
    Receives {
        port: u8,
        item: Piece,
        fate: Fate,
    },
    /// A frame without a mark is received at a port, of this many octets, all of them 255.
    ReceivesOctets {
        port: u8,
        octets: usize,
        fate: Fate,
    },
    /// An item is received at a port, and only the step reports its outcome.
    TakesIn {
        port: u8,
        item: Piece,
    },
    /// An item at a port is returned, by each of the calls that receive.
    HandsBack {
        port: u8,
        item: Piece,
        fault: BridgeFault,
    },
    /// The newest step reports this of the source of an item.
    Learns(Option<Learnt>),
    /// This many items wait at a port.
    Waits {
        port: u8,
        items: u16,
    },
    /// An item at a port has room or not, if so many items may wait at each port.
    HasRoom {
        port: u8,
        item: Piece,
        queue: u16,
        has: bool,
    },
    /// This item is the next to leave a port.
    Shows {
        port: u8,
        item: Piece,
    },
    /// This item leaves a port, and the newest step reports it.
    Sends {
        port: u8,
        item: Piece,
    },
    /// The clock ticks. This many BPDUs are queued, and one is dropped at each of these ports.
    Ticks {
        queued: usize,
        dropped: &'static [(u8, NoRoom)],
    },
    /// The clock ticks. One BPDU is queued at a port, and takes the place of this one.
    Replaces {
        port: u8,
        item: Piece,
    },
    /// The clock ticks this many times, and no BPDU is queued or dropped.
    Passes(u8),
    /// The clock can't tick.
    TickFails(BridgeFault),
    /// No step can be reserved.
    ReserveFails(BridgeFault),
    /// A port to another bridge is enabled or disabled.
    Sets {
        port: u8,
        up: bool,
    },
    /// The first local ports have these states, and all others are Discarding.
    States(&'static [PortState]),
    /// The bridge uses these ports alone, and these of them go to other bridges.
    Uses {
        ports: &'static [u8],
        links: &'static [u8],
    },
    /// There are this many steps.
    Steps(usize),
    /// The bridge has a spanning tree, or has none.
    HasTree(bool),
}

impl Piece {
    /// Returns the item.
    pub fn item(self, alloc: Global) -> Result<Item, Fail> {
        Ok(Item {
            mark: self.number.map(|number| Mark {
                port: 1,
                number: FrameNumber::new(number),
            }),
            hops: self.hops,
            wire: hex_read(alloc, self.digits)?,
        })
    }
}

impl Fate {
    /// Returns the outcome.
    pub fn outcome(self) -> Result<Outcome, AllocError> {
        match self {
            Fate::Relayed(chosen) => relayed(chosen, &[]),
            Fate::Refused { chosen, full } => relayed(chosen, full),
            Fate::Filtered(reason) => Ok(Outcome::Filtered(reason)),
            Fate::Heard => Ok(Outcome::Heard),
        }
    }
}

/// Returns the outcome of a frame that is relayed to these ports, of which those refuse it.
fn relayed(chosen: &[u8], refused: &[(u8, NoRoom)]) -> Result<Outcome, AllocError> {
    Ok(Outcome::Relayed {
        chosen: PortSet::from_slice(chosen).ok_or(AllocError)?,
        refused: Refusals::from_slice(refused).ok_or(AllocError)?,
    })
}

/// Returns a frame without a mark, of this many octets, all of them 255.
pub fn full_octets(alloc: Global, octets: usize) -> Result<Item, AllocError> {
    let mut wire = Vec::with_capacity(alloc, octets)?;
    for _ in 0..octets {
        wire.push(255)?;
    }
    Ok(Item {
        mark: None,
        hops: 0,
        wire: Bytes::from_vec(wire)?,
    })
}
