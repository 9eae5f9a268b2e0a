//! The activity of ports of the tests' own.

use super::gates::comes_to;
use super::told::Told;
use std::sync::atomic::{AtomicU64, Ordering};

/// The activity of the ports of a run, all together.
#[derive(Drop)]
pub(super) struct PortActivity {
    /// The number of polls.
    pub(super) polls: AtomicU64,
    /// The number of frames that they took.
    pub(super) taken: AtomicU64,
    /// The number of ports that have come to the meeting, and of those that found another one there.
    pub(super) here: AtomicU64,
    pub(super) met: AtomicU64,
    /// The number of reads and of writes of their devices.
    pub(super) reads: AtomicU64,
    pub(super) writes: AtomicU64,
}

impl PortActivity {
    /// Returns a count of no activity.
    pub(super) fn new() -> PortActivity {
        PortActivity {
            polls: AtomicU64::new(0),
            taken: AtomicU64::new(0),
            here: AtomicU64::new(0),
            met: AtomicU64::new(0),
            reads: AtomicU64::new(0),
            writes: AtomicU64::new(0),
        }
    }

    /// Returns how often they were polled.
    pub(super) fn polls(&self) -> u64 {
        self.polls.load(Ordering::SeqCst)
    }

    /// Notes all other activity.
    pub(super) fn tell(&self, told: &mut Told) {
        told.taken = self.taken.load(Ordering::SeqCst);
        told.met = self.met.load(Ordering::SeqCst);
        told.reads = self.reads.load(Ordering::SeqCst);
        told.writes = self.writes.load(Ordering::SeqCst);
    }

    /// Waits for the other one of two, and counts it if it came.
    pub(super) fn meet(&self) {
        self.here.fetch_add(1, Ordering::SeqCst);
        if comes_to(&self.here, 2) {
            self.met.fetch_add(1, Ordering::SeqCst);
        }
    }
}
