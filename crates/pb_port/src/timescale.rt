//! The times of frames in captures.

ghost use Rattle.std.specs.Prelude.{◌≡◌, ◌≤◌, ◌<◌, ◌^◌};

/// The relation of ticks and times: the microseconds at tick 0, and those of a tick.
#[derive(Clone, Copy)]
pub struct Timescale {
    /// The microseconds at tick 0, less than 2^62.
    pub start: u64,
    /// The microseconds of a tick, at most 60,000,000.
    pub tick: u32,
    pub ghost early: { start < 2 ^ 62 },
    pub ghost short: { tick ≤ 60000000 },
}

impl Timescale {
    ghost use Rattle.pb_port.specs.Timescales.{micros_at};

    /// Returns the scale on which a tick is a second, and tick 0 is second 0.
    pub fn ticks() -> Timescale
        ensures { (result.start ≡ 0) × (result.tick ≡ 1000000) }
    {
        Timescale {
            start: 0,
            tick: 1_000_000,
        }
    }

    /// Returns the microseconds after `ticks` ticks.
    pub fn micros(self, ticks: u32) -> u64
        ensures { result ≡ micros_at self ticks }
    {
        self.start + u64::from(self.tick) * u64::from(ticks)
    }
}
