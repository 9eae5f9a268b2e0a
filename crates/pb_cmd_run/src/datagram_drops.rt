//! The counts of what ports for datagrams dropped. The workers of the ports count, and the gate of the run reads.

use pb_datagram::{Drops, Refusal, Refusals, SystemError};
use pb_run_control::SocketFailure;
use std::alloc::{AllocError, Global};
use std::sync::atomic::{AtomicU64, Ordering};

/// The second of the clock before the first report.
const NEVER: u64 = u64::MAX;

/// The highest number of an error of the system.
const MOST_ERRORS: u64 = 4_095;

/// The failed calls of one kind at one socket.
#[derive(Drop)]
struct Failures {
    count: AtomicU64,
    /// The number of the newest error.
    error: AtomicU64,
    /// The count at the newest report.
    told: AtomicU64,
    /// The second of the clock at the newest report.
    second: AtomicU64,
}

/// The failed calls that were not reported yet.
#[derive(Clone, Copy)]
struct Untold {
    count: u64,
    error: i32,
}

impl Failures {
    /// Returns that no call failed.
    fn new() -> Failures {
        Failures {
            count: AtomicU64::new(0),
            error: AtomicU64::new(0),
            told: AtomicU64::new(0),
            second: AtomicU64::new(NEVER),
        }
    }

    /// Counts a failed call.
    fn note(&self, error: SystemError) {
        let number = u64::from(error.number.unsigned_abs());
        self.error.store(number, Ordering::SeqCst);
        self.count.fetch_add(1, Ordering::SeqCst);
    }

    /// Returns how many calls failed.
    fn count(&self) -> u64 {
        self.count.load(Ordering::SeqCst)
    }

    /// Returns the number of the newest error, or 0 if no call failed.
    fn number(&self) -> i32 {
        self.error.load(Ordering::SeqCst).min(MOST_ERRORS) as i32
    }

    /// Returns the newest error, if a call failed.
    fn newest(&self) -> Option<SystemError> {
        if self.count() == 0 {
            return None;
        }
        Some(SystemError {
            number: self.number(),
        })
    }

    /// Checks whether calls failed that were not reported.
    fn has_untold(&self) -> bool {
        self.count() != self.told.load(Ordering::SeqCst)
    }

    /// Returns the failed calls that were not reported, if there are any and nothing was reported in this second of the
    /// clock. They are reported then.
    fn take_untold(&self, second: u64) -> Option<Untold> {
        if !self.has_untold() || self.second.load(Ordering::SeqCst) == second {
            return None;
        }
        let count = self.count();
        let told = self.told.swap(count, Ordering::SeqCst);
        self.second.store(second, Ordering::SeqCst);
        Some(Untold {
            count: count.wrapping_sub(told),
            error: self.number(),
        })
    }
}

/// What one port dropped.
#[derive(Drop)]
pub(crate) struct PortDrops {
    other_sender: AtomicU64,
    short_header: AtomicU64,
    unset_flag: AtomicU64,
    other_network: AtomicU64,
    short_frame: AtomicU64,
    receives: Failures,
    sends: Failures,
}

impl PortDrops {
    /// Returns that nothing was dropped.
    fn new() -> PortDrops {
        PortDrops {
            other_sender: AtomicU64::new(0),
            short_header: AtomicU64::new(0),
            unset_flag: AtomicU64::new(0),
            other_network: AtomicU64::new(0),
            short_frame: AtomicU64::new(0),
            receives: Failures::new(),
            sends: Failures::new(),
        }
    }

    /// Counts a datagram that is refused.
    fn note_refusal(&self, reason: Refusal) {
        let count = match reason {
            Refusal::OtherSender => &self.other_sender,
            Refusal::ShortHeader => &self.short_header,
            Refusal::UnsetFlag => &self.unset_flag,
            Refusal::OtherNetwork => &self.other_network,
            Refusal::ShortFrame => &self.short_frame,
        };
        count.fetch_add(1, Ordering::SeqCst);
    }

    /// Returns the counts.
    pub(crate) fn counts(&self) -> Drops {
        Drops {
            refusals: Refusals {
                other_sender: self.other_sender.load(Ordering::SeqCst),
                short_header: self.short_header.load(Ordering::SeqCst),
                unset_flag: self.unset_flag.load(Ordering::SeqCst),
                other_network: self.other_network.load(Ordering::SeqCst),
                short_frame: self.short_frame.load(Ordering::SeqCst),
            },
            failed_receives: self.receives.count(),
            receive_error: self.receives.newest(),
            failed_sends: self.sends.count(),
            send_error: self.sends.newest(),
        }
    }

    /// Returns the failed sends that were not reported, as [`Failures::take_untold`] does.
    fn unsent(&self, second: u64) -> Option<SocketFailure> {
        let untold = self.sends.take_untold(second)?;
        Some(SocketFailure::Unsent {
            frames: untold.count,
            error: untold.error,
        })
    }

    /// Returns the failed receives that were not reported, as [`Failures::take_untold`] does.
    fn unreceived(&self, second: u64) -> Option<SocketFailure> {
        let untold = self.receives.take_untold(second)?;
        Some(SocketFailure::Unreceived {
            receives: untold.count,
            error: untold.error,
        })
    }

    /// Returns failed calls that were not reported, as [`Failures::take_untold`] does.
    fn next_failure(&self, second: u64) -> Option<SocketFailure> {
        match self.unsent(second) {
            Some(failure) => Some(failure),
            None => self.unreceived(second),
        }
    }

    /// Checks whether calls failed that were not reported.
    fn has_untold(&self) -> bool {
        self.sends.has_untold() || self.receives.has_untold()
    }
}

/// What the customer ports of a run dropped that carry datagrams, in the order of the plan.
#[derive(Drop)]
pub(crate) struct DatagramDrops {
    ports: Vec<PortDrops>,
    /// 1 if calls may have failed that were not reported.
    has_failure: AtomicU64,
}

impl DatagramDrops {
    /// Returns that this many customer ports dropped nothing.
    ///
    /// # Errors
    ///
    /// `AllocError` if an allocation failed.
    pub(crate) fn new(alloc: Global, count: usize) -> Result<DatagramDrops, AllocError> {
        let mut ports = Vec::new(alloc);
        for _ in 0..count {
            ports.push(PortDrops::new())?;
        }
        Ok(DatagramDrops {
            ports,
            has_failure: AtomicU64::new(0),
        })
    }

    /// Returns the counts of the customer ports, in the order of the plan.
    pub(crate) fn ports(&self) -> &[PortDrops] {
        &self.ports
    }

    /// Returns the counts of the port of this number, from 1, if there is one.
    fn at(&self, number: u8) -> Option<&PortDrops> {
        self.ports.get(usize::from(number).wrapping_sub(1))
    }

    /// Counts a datagram that the port of this number, from 1, refuses.
    pub(crate) fn note_refusal(&self, number: u8, reason: Refusal) {
        if let Some(port) = self.at(number) {
            port.note_refusal(reason);
        }
    }

    /// Counts a send that failed at the port of this number, from 1.
    pub(crate) fn note_send(&self, number: u8, error: SystemError) {
        if let Some(port) = self.at(number) {
            port.sends.note(error);
            self.note_failure();
        }
    }

    /// Counts a receive that failed at the port of this number, from 1.
    pub(crate) fn note_receive(&self, number: u8, error: SystemError) {
        if let Some(port) = self.at(number) {
            port.receives.note(error);
            self.note_failure();
        }
    }

    /// Notes that calls have failed that were not reported.
    fn note_failure(&self) {
        self.has_failure.store(1, Ordering::SeqCst);
    }

    /// Returns whether calls may have failed that were not reported. The note of that is removed.
    fn take_failure(&self) -> bool {
        self.has_failure.load(Ordering::SeqCst) != 0
            && self.has_failure.swap(0, Ordering::SeqCst) != 0
    }

    /// Returns failed calls that were not reported, with the place of their port in the plan, from 0. Those of one kind
    /// at one port are reported once in a second of the clock.
    pub(crate) fn next_failure(&self, second: u64) -> Option<(usize, SocketFailure)> {
        if !self.take_failure() {
            return None;
        }
        for (place, port) in self.ports.iter().enumerate() {
            if let Some(failure) = port.next_failure(second) {
                self.note_failure();
                return Some((place, failure));
            }
        }
        if self.ports.iter().any(|port| port.has_untold()) {
            self.note_failure();
        }
        None
    }
}
