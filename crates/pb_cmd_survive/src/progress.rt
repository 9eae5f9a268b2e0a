//! Progress over the failures.

/// A receiver of the progress over the failures.
pub trait FailureProgress: Sync {
    /// Counts one more of `failures` failures as finished: it was analysed, or another thread had met a fault before.
    /// Failures come in any order, and several threads may call at once.
    fn looked(&self, failures: usize);

    /// Ends the progress: no failure is analysed any more. Nothing has been written then.
    fn close(&self);
}
