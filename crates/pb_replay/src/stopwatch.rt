//! Clocks that count from their beginning.

ghost use Rattle.std.specs.Prelude.{◌≡◌, ℕ, Option};

/// A clock that counts the microseconds since it began.
pub trait Stopwatch {
    /// The answer of the newest call.
    ghost newest: { Self → Option ℕ };

    /// Returns the microseconds since the stopwatch began, by a clock that never goes back. `None` if the clock can't
    /// be read.
    fn micros(&mut self) -> Option<u64>
        ensures { result ≡ newest self.new };
}
