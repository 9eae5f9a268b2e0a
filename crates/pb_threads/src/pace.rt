//! How long workers that find nothing to do stay awake.

/// The longest sleep of a watched place, in milliseconds. A ring that is missed costs no more.
pub(crate) const SHORT: u64 = 50;

/// The longest sleep of another place, in milliseconds.
pub(crate) const LONG: u64 = 1_000;

/// The number of turns that a worker would take in a millisecond if it did not sleep longer than it has to.
pub(crate) const TURNS: u64 = 2;

/// The most idle turns in a row after which a worker does not sleep.
pub(crate) const MOST_IDLE: u32 = 64;

/// The fewest such turns.
const FEWEST_IDLE: u32 = 8;

/// The number of turns with something to do after which the worker of a watched port yields the processor in idle ones.
/// One that had less to do sleeps soon and does not yield, since the system may then let others work for milliseconds.
const BUSY: u32 = 16;

/// The pace of a worker after a turn.
#[derive(Clone, Copy)]
pub(crate) struct Pace {
    /// The number of idle turns in a row.
    pub idle: u32,
    /// The number of turns after the last sleep in which there was something to do.
    pub done: u32,
    /// Whether the worker has slept, or sleeps after the next turn if that is idle.
    pub is_drowsy: bool,
}

impl Pace {
    /// The pace of a worker that begins.
    pub(crate) const START: Pace = Pace {
        idle: 0,
        done: 0,
        is_drowsy: false,
    };

    /// Returns the pace after this many turns in which there was something to do.
    pub(crate) fn after_work(self, turns: u32) -> Pace {
        Pace {
            done: self.done.saturating_add(turns),
            ..Pace::START
        }
    }

    /// Returns the pace after one more idle turn.
    pub(crate) fn after_rest(self) -> Pace {
        Pace {
            idle: self.idle.saturating_add(1),
            done: self.done,
            is_drowsy: false,
        }
    }

    /// Returns the pace of a worker that sleeps, or does so after one more idle turn.
    pub(crate) fn drowsy(self) -> Pace {
        Pace {
            idle: self.idle,
            done: 0,
            is_drowsy: true,
        }
    }

    /// Checks whether the worker had much to do after its last sleep.
    pub(crate) fn is_busy(self) -> bool {
        self.done >= BUSY
    }

    /// Checks whether the worker does not sleep yet. The more there was to do after its last sleep, the longer it waits
    /// for more.
    pub(crate) fn is_patient(self) -> bool {
        let patience = self.done.saturating_add(FEWEST_IDLE).min(MOST_IDLE);
        self.idle < patience
    }
}
