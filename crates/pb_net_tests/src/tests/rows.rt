//! Rows of tables.

use super::drawn::Drawn;
use pb_lan::{Learnt, NoRoom, Place, PortState, Reason};
use pb_net::NetFault;
use pb_rstp::Role;

/// An action of a network.
#[derive(Clone, Copy)]
pub(super) enum Act {
    /// A frame is polled at a customer port.
    Poll(u8, &'static [u8]),
    /// A customer port feeds the frame in its hand to its bridge.
    Feed(u8),
    /// A customer port delivers the oldest frame that was sent to it.
    Deliver(u8),
    /// A bridge receives the oldest item that came to a port.
    Receive(u8, u8),
    /// A bridge transmits the next item of a port.
    Transmit(u8, u8),
    /// A bridge's clock ticks.
    Tick(u8),
    /// A bridge's port is enabled or disabled.
    Admin(u8, u8, bool),
    /// A lane takes the oldest item that was sent to it.
    Take(u8),
    /// A lane puts the item that it holds.
    Put(u8),
}

/// The fate of a frame at a bridge.
#[derive(Clone, Copy)]
pub(super) enum Fate {
    /// It is relayed to these ports, none of which refuses.
    Relayed(&'static [u8]),
    /// It is relayed to these ports, except those that refuse.
    RelayedBut(&'static [u8], &'static [(u8, NoRoom)]),
    /// It is dropped.
    Filtered(Reason),
}

/// A frame of customer port 1.
#[derive(Clone, Copy)]
pub(super) struct Sent {
    /// Its number among the frames of the port.
    pub(super) number: u64,
    /// How many bridges have relayed it.
    pub(super) hops: u32,
    pub(super) frame: &'static [u8],
}

/// A whole step.
#[derive(Clone, Copy)]
pub(super) enum Deed {
    /// A bridge received a frame that is no BPDU.
    Receive {
        port: u8,
        item: Sent,
        learnt: Learnt,
        fate: Fate,
    },
    /// A customer port delivered a frame, which was taken.
    Deliver(Sent),
    /// A bridge's port was enabled or disabled, and no BPDU came of it.
    Admin {
        port: u8,
        up: bool,
        states: &'static [(u8, PortState)],
        flushed: &'static [u8],
    },
}

/// An action of a network, or a check of it.
#[derive(Clone, Copy)]
pub(super) enum Row {
    /// The place takes its step.
    Does(Act),
    /// Nothing is to do.
    Idle(Act),
    /// The act has this fault.
    Refused(Act, NetFault),
    /// A run over all acts meets no fault.
    Runs(&'static [Act]),
    /// A run over all acts stops at a fault, after this many.
    Stops {
        acts: &'static [Act],
        done: u64,
        fault: NetFault,
    },
    /// A frame is polled at a customer port, and its bridge receives it.
    Enters(u8, &'static [u8]),
    /// A frame that begins with these octets, with zeros up to this many, is polled at a customer port, and its bridge
    /// receives it.
    EntersLong {
        customer: u8,
        head: &'static [u8],
        octets: usize,
    },
    /// The bridge at a lane's beginning transmits an item, and the bridge at its end receives it.
    Crosses(u8),
    /// A bridge transmits an item to a customer port, which delivers it.
    Leaves(u8),
    /// This many times each bridge ticks once, in order, and then all is carried to its end.
    Rounds(u8),
    /// All is carried to its end, until nothing waits.
    Empties,
    /// The plan has the place, or not.
    Knows(Place, bool),
    /// The place has taken this many steps.
    Steps {
        place: Place,
        count: usize,
    },
    /// The step of this number of the place, from 0.
    Took(Place, usize, Deed),
    /// The last step of a lane takes the item of a number, and loses it or not.
    Taken {
        lane: u8,
        number: u64,
        lost: bool,
    },
    /// The last step of a place moved a frame of these octets.
    Moved(Place, &'static [u8]),
    /// The last step of a place moved a frame of this many octets.
    Octets(Place, usize),
    /// The last step of a place moved a frame that passed this many bridges.
    Hops(Place, u32),
    /// The last step of a bridge received a frame of this fate.
    Ruled {
        bridge: u8,
        fate: Fate,
    },
    /// The last step of a bridge received a frame, with this result of learning.
    Learnt(u8, Option<Learnt>),
    /// By customer port, how many frames it has delivered.
    Left(&'static [usize]),
    /// Whether the bridges are settled.
    Settled(Option<bool>),
    /// Whether the bridges have converged.
    Converged(Option<bool>),
    /// The role of each port of a bridge, if a spanning tree decides the states.
    Roles(u8, Option<&'static [(u8, Role)]>),
    /// Each port of each bridge is as drawn.
    Trees(&'static [Drawn]),
}
