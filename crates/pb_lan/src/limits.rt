//! Limits of a run, and the clock by which bridges tick.

/// Limits of a run: how long workers run, how often bridges tick, and when frames may enter.
#[derive(Clone, Copy, Debug, PartialEq, Eq)]
pub struct Limits {
    /// The most turns that a worker takes, 1 to 1,000,000,000.
    pub turns: u64,
    /// The number of turns from one tick of a bridge to the next, at most 1,000,000. If it is 0, turns cause no ticks.
    pub tick_every: u64,
    /// The number of milliseconds of the monotonic clock from one tick of a bridge to the next, at most 60,000. If it
    /// is 0, `tick_every` applies. Otherwise `tick_every` is ignored.
    pub tick_ms: u64,
    /// The number of ticks of its clock before which a customer port takes in no frame, at most 1,000,000.
    pub hold: u64,
}
