//! The clocks of workers. No contract of a worker speaks of them: a tick is a step like any other.

ghost use Rattle.std.specs.Prelude.{◌≡◌, min};
ghost use Rattle.pb_threads.specs.Clocks.{due_after};

use pb_lan::Limits;
use std::time::Clock;

/// The highest number of ticks that a moment reports.
const MOST: u64 = 4_294_967_295;

/// The moment at which a turn is taken.
#[derive(Clone, Copy, PartialEq, Eq, Debug)]
pub struct Moment {
    /// The number of ticks of the worker's clock, at most 4,294,967,295.
    pub now: u32,
    /// Whether the clock ticks at this turn.
    pub is_tick: bool,
    /// Whether frames may enter: the clock has ticked as often as they are held back.
    pub is_open: bool,
}

/// A worker's clock, which ticks by turns or by milliseconds, at most once a turn.
#[derive(Clone, Copy)]
pub(crate) struct Ticks {
    limits: Limits,
    /// The number of turns after the last tick, if the clock ticks by turns.
    turns: u64,
    /// The time of the next tick in milliseconds of the monotonic clock, if the clock ticks by these.
    due: u64,
    /// The number of ticks.
    count: u64,
}

/// Returns the milliseconds of the monotonic clock, or `None` if it can't be read.
fn millis<R: Clock>(rt: &R) -> Option<u64> {
    let time = rt.monotonic().ok()?;
    let whole = time.as_secs().saturating_mul(1_000);
    Some(whole.saturating_add(u64::from(time.subsec_millis())))
}

/// Returns the time of the tick after one that was due, by its time, the time now and the time between ticks.
fn due_after(due: u64, now: u64, every: u64) -> u64
    ensures { result ≡ min (due_after due now every) u64.MAX }
{
    let next = due.saturating_add(every);
    if next < now {
        return now.saturating_add(every);
    }
    next
}

impl Ticks {
    /// Returns a clock that has not ticked. One by milliseconds never ticks if the monotonic clock can't be read at the
    /// start.
    pub(crate) fn new<R: Clock>(rt: &R, limits: Limits) -> Ticks {
        let mut due = u64::MAX;
        if limits.tick_ms > 0 {
            if let Some(now) = millis(rt) {
                due = now.saturating_add(limits.tick_ms);
            }
        }
        Ticks {
            limits,
            turns: 0,
            due,
            count: 0,
        }
    }

    /// Returns the moment of the next turn, and counts its tick if it has one.
    pub(crate) fn next<R: Clock>(&mut self, rt: &R) -> Moment {
        let is_tick = self.is_due(rt);
        let moment = self.moment(is_tick);
        if is_tick {
            self.count = self.count.saturating_add(1);
        }
        moment
    }

    /// Returns the milliseconds until the next tick, at most `most`. 0 if a tick is due, or the clock ticks by turns.
    pub(crate) fn until_tick<R: Clock>(&self, rt: &R, most: u64) -> u64 {
        if self.limits.tick_ms > 0 {
            return match millis(rt) {
                Some(now) => self.due.saturating_sub(now).min(most),
                None => 0,
            };
        }
        if self.limits.tick_every > 0 { 0 } else { most }
    }

    /// Checks whether the clock ticks by turns.
    pub(crate) fn counts_turns(&self) -> bool {
        self.limits.tick_ms == 0 && self.limits.tick_every > 0
    }

    /// Returns the moment after the last turn.
    pub(crate) fn last(&self) -> Moment {
        self.moment(false)
    }

    /// Returns the moment after the ticks so far.
    fn moment(&self, is_tick: bool) -> Moment {
        Moment {
            now: self.count.min(MOST) as u32,
            is_tick,
            is_open: self.count >= self.limits.hold,
        }
    }

    /// Checks whether the clock ticks at the next turn.
    fn is_due<R: Clock>(&mut self, rt: &R) -> bool {
        if self.limits.tick_ms > 0 {
            return self.is_late(rt);
        }
        self.limits.tick_every > 0 && self.is_turn()
    }

    /// Counts a turn, and checks whether `tick_every` of them have passed.
    fn is_turn(&mut self) -> bool {
        self.turns = self.turns.saturating_add(1);
        if self.turns < self.limits.tick_every {
            return false;
        }
        self.turns = 0;
        true
    }

    /// Checks whether the next tick is due. A clock that is at most a tick late catches up. One that is later, as after
    /// the process was stopped, ticks once and lets the other ticks go, so that nothing ages while nobody could send.
    fn is_late<R: Clock>(&mut self, rt: &R) -> bool {
        let Some(now) = millis(rt) else {
            return false;
        };
        if now < self.due {
            return false;
        }
        self.due = due_after(self.due, now, self.limits.tick_ms);
        true
    }
}
