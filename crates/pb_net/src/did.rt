//! The outcome of an event.

use pb_lan::Place;

/// The outcome of an event that was not refused.
#[derive(Clone, Copy, Debug, PartialEq, Eq)]
pub enum Did {
    /// Nothing was to do, and nothing changed.
    Idle,
    /// The place that took one step.
    Done(Place),
}
