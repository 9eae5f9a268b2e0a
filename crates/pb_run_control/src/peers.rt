//! The peers of customer ports whose peers come and go.

use crate::progress::PeerChange;
use pb_frame::Memory;
use std::alloc::Global;
use std::sync::atomic::{AtomicU64, Ordering};

/// The state of a port that is over no socket, or does not stay when its peer leaves.
const NOTHING: u64 = 0;
/// The state of a port without a peer.
const NONE: u64 = 1;
/// The state of a port with a peer.
const CONNECTED: u64 = 2;

/// For each customer port whether its peers come and go, and whether one is there.
#[derive(Drop)]
pub(crate) struct Peers {
    states: Vec<AtomicU64>,
}

impl Peers {
    /// Returns the peers of this many customer ports, none of which come and go.
    ///
    /// # Errors
    ///
    /// `Memory` if an allocation failed.
    pub(crate) fn new(alloc: Global, count: usize) -> Result<Peers, Memory> {
        let mut states = Vec::new(alloc);
        for _ in 0..count {
            states.push(AtomicU64::new(NOTHING))?;
        }
        Ok(Peers { states })
    }

    /// Notes that peers come and go at the customer port of this index, from 0, and that none is there.
    pub(crate) fn expect(&self, index: usize) {
        if let Some(state) = self.states.get(index) {
            state.store(NONE, Ordering::SeqCst);
        }
    }

    /// Notes a change at the customer port of this index, from 0.
    pub(crate) fn change(&self, index: usize, change: PeerChange) {
        if let Some(state) = self.states.get(index) {
            let now = match change {
                PeerChange::Connected => CONNECTED,
                PeerChange::Unaccepted => return,
                PeerChange::Left { .. } => NONE,
            };
            state.store(now, Ordering::SeqCst);
        }
    }

    /// Returns whether the customer port of this number, from 1, has a peer, if peers come and go there.
    pub(crate) fn at(&self, number: u8) -> Option<bool> {
        let state = self.states.get(usize::from(number).wrapping_sub(1))?;
        match state.load(Ordering::SeqCst) {
            NONE => Some(false),
            CONNECTED => Some(true),
            _ => None,
        }
    }
}
