//! Progress over failures that is only counted.

use pb_cmd_survive::FailureProgress;
use std::sync::atomic::{AtomicU64, Ordering};

/// The number of finished failures, and how often the progress was closed.
#[derive(Drop)]
pub(super) struct Counted {
    looked: AtomicU64,
    closed: AtomicU64,
}

impl Counted {
    /// Returns the counts before the first failure.
    pub(super) fn new() -> Counted {
        Counted {
            looked: AtomicU64::new(0),
            closed: AtomicU64::new(0),
        }
    }

    /// Returns the number of finished failures, and how often the progress was closed.
    pub(super) fn counts(&self) -> (u64, u64) {
        (
            self.looked.load(Ordering::SeqCst),
            self.closed.load(Ordering::SeqCst),
        )
    }
}

impl FailureProgress for Counted {
    /// Counts one more finished failure.
    fn looked(&self, failures: usize) {
        let _failures = failures;
        self.looked.fetch_add(1, Ordering::SeqCst);
    }

    /// Counts one more end of the progress.
    fn close(&self) {
        self.closed.fetch_add(1, Ordering::SeqCst);
    }
}
