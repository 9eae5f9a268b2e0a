//! Inputs whose frames enter by the times of their records, and their clocks, which the gate of the run sets.

ghost use Rattle.std.specs.Prelude.{◌≡◌};

use crate::input::Input;
use pb_port::Over;
use pb_replay::{Paced, Stopwatch};
use pb_service::Pace;
use std::alloc::{AllocError, Global};
use std::sync::Arc;
use std::sync::atomic::{AtomicU64, Ordering};
use std::time::Clock;

/// The word of a clock that can't be read.
const UNREAD: u64 = u64::MAX;

/// The input of a port over captures, at its pace.
pub(crate) type PacedInput = Paced<Over<Input>, PortClock>;

/// The port's side of a clock: the microseconds of the monotonic clock before the newest turn of the port's worker.
#[derive(Drop)]
pub(crate) struct PortClock {
    /// The word that the gate sets. An input without a pace has none.
    word: Option<Arc<AtomicU64, Global>>,
    newest: Option<u64>,
}

/// The gate's side of a clock.
#[derive(Drop)]
pub struct GateClock {
    /// The number of the port in the plan, from 1.
    pub(crate) number: u8,
    word: Arc<AtomicU64, Global>,
}

impl Stopwatch for PortClock {
    ghost newest = { λ c. c.newest };

    fn micros(&mut self) -> Option<u64> {
        let micros = match &self.word {
            Some(word) => word.load(Ordering::SeqCst),
            None => UNREAD,
        };
        self.newest = if micros == UNREAD { None } else { Some(micros) };
        self.newest
    }
}

impl GateClock {
    /// Sets the clock to the time now.
    pub(crate) fn set<R: Clock>(&self, rt: &R) {
        let micros = match rt.monotonic() {
            Ok(time) => time
                .as_secs()
                .saturating_mul(1_000_000)
                .saturating_add(u64::from(time.subsec_micros())),
            Err(_) => UNREAD,
        };
        self.word.store(micros, Ordering::SeqCst);
    }
}

/// Returns an input that holds nothing back.
pub(crate) fn unpaced(input: Input) -> PacedInput {
    let clock = PortClock {
        word: None,
        newest: None,
    };
    Paced::at_once(Over::new(input), clock)
}

/// Returns the input of the port of this number, from 1, at its pace. The gate's side of its clock, if it has one, is
/// appended to `clocks`.
///
/// # Errors
///
/// `AllocError` if an allocation failed.
pub(crate) fn paced(
    alloc: Global,
    number: u8,
    pace: Pace,
    input: Input,
    clocks: &mut Vec<GateClock>,
) -> Result<PacedInput, AllocError> {
    let Pace::Times(speed) = pace else {
        return Ok(unpaced(input));
    };
    let word = Arc::new(alloc, AtomicU64::new(UNREAD))?;
    let clock = PortClock {
        word: Some(Arc::try_clone(&word)?),
        newest: None,
    };
    clocks.push(GateClock { number, word })?;
    Ok(Paced::new(Over::new(input), clock, speed.max(1).min(1_000)))
}
