//! What workers are given. Contracts alone use these types: no value of them is ever made.

use crate::was::Was;
use pb_lan::Plan;
use std::collections::LinkedList;

/// What the worker of a bridge is given.
pub struct BridgeGift {
    /// The worker's number, from 1.
    pub worker: u8,
    /// The bridge's number in the plan, from 1.
    pub bridge: u8,
    /// The bridge's plan.
    pub plan: Plan,
    /// The numbers of the rings by which it receives, by local port.
    pub ins: LinkedList<usize>,
    /// The numbers of the rings by which it sends, by local port.
    pub outs: LinkedList<usize>,
}

/// What the worker of a lane is given.
pub struct LaneGift {
    /// The lane's number in the plan, from 1.
    pub number: u8,
    /// The number of the ring from which it takes.
    pub from: usize,
    /// The number of the ring onto which it puts.
    pub to: usize,
    /// The numbers of the items that it loses.
    pub losses: LinkedList<u64>,
}

/// What a customer port is given, except for the port outside.
pub struct AccessGift {
    /// The customer port's number in the plan, from 1.
    pub place: u8,
    /// The number of the ring to its bridge.
    pub feed: usize,
    /// The number of the ring from its bridge.
    pub drain: usize,
}

/// What the worker of a customer port is given.
pub struct CustomerGift<P> {
    /// The port outside.
    pub was: Was<P>,
    /// The number in its book.
    pub book: u8,
    /// What it is given except for the port outside.
    pub access: AccessGift,
}
