//! The progress of `run`, and the stop after `--seconds`.

use crate::errors::Errors;
use pb_cmd_run::{Opening, PeerChange, RunProgress, SocketFailure, Traffic};
use pb_lan::Place;
use pb_run::{Gate, Go};
use std::alloc::{AllocError, Global};
use std::fs::{File, Files};
use std::io::Error;
use std::sync::Arc;
use std::sync::atomic::{AtomicU64, Ordering};
use std::time::{Clock, Duration};

/// The turns of the worker of the first bridge between two looks at the clock, while it has something to do.
const LOOK: u64 = 64;

/// How the progress of a run is reported on standard error.
#[derive(Clone, Copy, PartialEq, Eq)]
pub enum Shown {
    /// Not at all.
    Never,
    /// On one line, which is overwritten once a second.
    OneLine,
    /// On a new line each second.
    Lines,
}

/// Reports the progress of a run once a second, and stops the run after its seconds. It is the gate of the workers. A
/// report that standard error does not take at once is skipped.
#[derive(Drop)]
pub struct RunMonitor<'a, R> {
    rt: &'a R,
    errors: Errors<'a, R>,
    /// The counters of the run.
    traffic: Arc<Traffic, Global>,
    /// How progress is reported.
    shown: Shown,
    /// The time of the monotonic clock at which the run is stopped. None: no limit.
    end: Option<Duration>,
    /// The second of the monotonic clock of the latest report.
    second: AtomicU64,
    /// 1 if a line was written and not ended, else 0.
    lines: AtomicU64,
}

/// Returns the time so many seconds from now. None without seconds, or if the clock cannot be read.
fn end_of<R: Clock>(rt: &R, seconds: Option<u32>) -> Option<Duration> {
    let seconds = Duration::from_secs(u64::from(seconds?));
    rt.monotonic().ok()?.checked_add(seconds)
}

impl<'a, R: Files<File = File> + Clock + Eprint> RunMonitor<'a, R> {
    /// Creates the monitor of a run that begins now and is stopped after these seconds, if any.
    pub fn new(
        rt: &'a R,
        traffic: Arc<Traffic, Global>,
        shown: Shown,
        seconds: Option<u32>,
    ) -> RunMonitor<'a, R> {
        let second = match rt.monotonic() {
            Ok(now) => now.as_secs(),
            Err(_) => 0,
        };
        RunMonitor {
            rt,
            errors: Errors::new(rt),
            traffic,
            shown,
            end: end_of(rt, seconds),
            second: AtomicU64::new(second),
            lines: AtomicU64::new(0),
        }
    }
}

impl<R: Clock + Eprint + AllocGlobal> RunMonitor<'_, R> {
    /// Reads the clock. Reports progress if another second has begun. Returns whether the run continues.
    fn look(&self) -> Go {
        let Ok(now) = self.rt.monotonic() else {
            return Go::Go;
        };
        let second = now.as_secs();
        if self.second.swap(second, Ordering::SeqCst) != second {
            self.show();
        }
        match self.end {
            Some(end) if now >= end => Go::Stop,
            _ => Go::Go,
        }
    }

    /// Reports a text, if it could be made and standard error takes it now. Returns whether it was reported.
    fn offer(&self, text: Result<String, AllocError>) -> bool {
        match text {
            Ok(text) => self.errors.offer(text.as_str()),
            Err(_) => false,
        }
    }

    /// Reports how many frames entered, left and were dropped, how many copies could not be queued, and the ticks of
    /// the clock.
    fn show(&self) {
        let (entered, left) = (self.traffic.entered(), self.traffic.left());
        let (dropped, refused) = (self.traffic.dropped(), self.traffic.refused());
        let ticks = self.traffic.ticks();
        let (begin, end) = match self.shown {
            Shown::Never => return,
            Shown::OneLine => ("\r", ""),
            Shown::Lines => ("", "\n"),
        };
        let text = format!(in self.rt.alloc();
            "{begin}{entered} frames entered, {left} left, {dropped} dropped, {refused} copies refused, \
             tick {ticks}{end}"
        );
        if self.offer(text) && self.shown == Shown::OneLine {
            self.lines.store(1, Ordering::SeqCst);
        }
    }
}

impl<R: Clock + Eprint + AllocGlobal + Sync> Gate for RunMonitor<'_, R> {
    /// Returns whether a worker takes its next turn. Only the worker of the first bridge reads the clock.
    fn pass(&self, place: Place, turn: u64) -> Go {
        if turn % LOOK == 0 && place == Place::Bridge(1) {
            return self.look();
        }
        Go::Go
    }

    /// Returns whether a worker takes its next turn though it finds nothing to do. That of the first bridge reads the
    /// clock each time.
    fn pass_when_idle(&self, place: Place, _turn: u64) -> Go {
        if place == Place::Bridge(1) {
            return self.look();
        }
        Go::Go
    }

    /// Returns true: it looks at its clock only at turns whose number is a multiple of 64.
    fn is_passed_seldom(&self) -> bool {
        true
    }

    fn lets_sleep(&self, _place: Place) -> bool {
        true
    }
}

impl<R: Clock + Eprint + AllocGlobal + Sync> RunProgress for RunMonitor<'_, R> {
    /// Reports on a line of its own why frames enter now.
    fn open(&self, opening: Opening) {
        self.close();
        let alloc = self.rt.alloc();
        self.offer(match opening {
            Opening::Converged(ticks) => {
                format!(in alloc; "bridges converged after {ticks} ticks\n")
            }
            Opening::NotConverged(ticks) => {
                format!(in alloc;
                    "warning: bridges not converged after {ticks} ticks: frames enter now\n"
                )
            }
        });
    }

    /// Ends the line of the progress, if one was written.
    fn close(&self) {
        if self.lines.swap(0, Ordering::SeqCst) != 0 {
            self.errors.offer("\n");
        }
    }

    /// Returns the second of the monotonic clock at the latest look.
    fn seconds(&self) -> u64 {
        self.second.load(Ordering::SeqCst)
    }

    /// Reports on a line of its own that the run waits for the reader of a pipe.
    fn waits(&self, user: &str) {
        self.close();
        let alloc = self.rt.alloc();
        self.offer(format!(in alloc; "{user}: waiting until its pipe is read\n"));
    }

    /// Reports on a line of its own that the peer of a port came or left.
    fn peer(&self, port: &str, change: PeerChange) {
        self.close();
        let alloc = self.rt.alloc();
        self.offer(match change {
            PeerChange::Connected => format!(in alloc; "port {port}: peer connected\n"),
            PeerChange::Unaccepted => {
                format!(in alloc;
                    "port {port}: cannot accept a peer: no descriptor or memory is free: trying again\n"
                )
            }
            PeerChange::Left {
                entered,
                left,
                dropped,
            } => {
                let frames = if entered == 1 { "frame" } else { "frames" };
                format!(in alloc;
                    "port {port}: peer left: {entered} {frames} in, {left} out, {dropped} dropped\n"
                )
            }
        });
    }

    /// Reports on a line of its own that calls of the socket of a port have failed.
    fn socket(&self, port: &str, failure: SocketFailure) {
        self.close();
        let alloc = self.rt.alloc();
        self.offer(match failure {
            SocketFailure::Unsent { frames, error } => {
                let why = Error::from_raw_os_error(error);
                format!(in alloc; "port {port}: cannot send: {why}: {frames} frames dropped\n")
            }
            SocketFailure::Unreceived { error, .. } => {
                let why = Error::from_raw_os_error(error);
                format!(in alloc; "port {port}: cannot receive: {why}\n")
            }
        });
    }
}
