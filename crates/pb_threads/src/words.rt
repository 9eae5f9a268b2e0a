//! The counters that workers share. They begin and end loops, and no contract speaks of them.

use crate::gate::{Gate, ring_all};
use std::sync::Wait;
use std::sync::atomic::{AtomicU64, Ordering};
use std::thread;

/// The value of `start` while the workers wait.
const WAIT: u64 = 0;
/// The value of `start` while they take turns.
const RUN: u64 = 1;
/// The value of `start` if they end before their first turn, because not all could be started.
const LEAVE: u64 = 2;

/// The counters that all workers share.
#[derive(Drop)]
pub(crate) struct Words {
    /// Whether the workers wait, run or leave.
    start: AtomicU64,
    /// Not 0 once a worker has ended the run.
    stop: AtomicU64,
    /// The upper bound of what is left to do.
    left: AtomicU64,
}

impl Words {
    /// Returns the counters of a run with this much left to do.
    pub(crate) fn new(left: u64) -> Words {
        Words {
            start: AtomicU64::new(WAIT),
            stop: AtomicU64::new(0),
            left: AtomicU64::new(left),
        }
    }

    /// Lets all workers begin, unless one could not be started. Returns whether they do.
    pub(crate) fn begin(&self) -> bool {
        self.start
            .compare_exchange(WAIT, RUN, Ordering::SeqCst, Ordering::SeqCst)
            .is_ok()
    }

    /// Lets no worker begin.
    pub(crate) fn leave(&self) {
        self.start.store(LEAVE, Ordering::SeqCst);
    }

    /// Waits until the start is decided. Returns whether the workers begin.
    pub(crate) fn wait<R: Wait>(&self, rt: &R) -> bool {
        for _ in rt.forever() {
            match self.start.load(Ordering::SeqCst) {
                WAIT => thread::yield_now(),
                RUN => return true,
                _ => return false,
            }
        }
        unreachable!()
    }

    /// Checks whether something is left to do and no worker has ended the run.
    pub(crate) fn go_on(&self) -> bool {
        self.stop.load(Ordering::SeqCst) == 0 && self.left.load(Ordering::SeqCst) != 0
    }

    /// Adds to what is left to do.
    pub(crate) fn add(&self, more: u64) {
        self.left.fetch_add(more, Ordering::SeqCst);
    }

    /// Subtracts from what is left to do. If nothing is left, all workers of the gate wake.
    pub(crate) fn take<G: Gate>(&self, gate: &G, fewer: u64) {
        if self.left.fetch_sub(fewer, Ordering::SeqCst) == fewer {
            ring_all(gate);
        }
    }

    /// Ends all workers of the gate before their next turn.
    pub(crate) fn end<G: Gate>(&self, gate: &G) {
        self.stop.store(1, Ordering::SeqCst);
        ring_all(gate);
    }
}
