//! The progress of `survive` and `diff`.

use pb_cmd_survive::FailureProgress;
use std::sync::atomic::{AtomicU64, Ordering};
use std::time::Clock;

/// Reports once a second how many failures were analysed, on one line of standard error that is overwritten.
#[derive(Drop)]
pub struct Looks<'a, R> {
    rt: &'a R,
    /// The name of the command.
    command: &'static str,
    /// Whether progress is reported.
    is_shown: bool,
    /// The failures that were analysed.
    looked: AtomicU64,
    /// The second of the monotonic clock of the latest report.
    second: AtomicU64,
    /// 1 if a line was written and not ended, else 0.
    lines: AtomicU64,
}

impl<'a, R: Clock + Eprint> Looks<'a, R> {
    /// Creates the progress of an analysis that begins now.
    pub fn new(rt: &'a R, command: &'static str, is_shown: bool) -> Looks<'a, R> {
        let second = match rt.monotonic() {
            Ok(now) => now.as_secs(),
            Err(_) => 0,
        };
        Looks {
            rt,
            command,
            is_shown,
            looked: AtomicU64::new(0),
            second: AtomicU64::new(second),
            lines: AtomicU64::new(0),
        }
    }

    /// Returns whether another second has begun since the previous call.
    fn is_due(&self) -> bool {
        match self.rt.monotonic() {
            Ok(now) => {
                let second = now.as_secs();
                self.second.swap(second, Ordering::SeqCst) != second
            }
            Err(_) => false,
        }
    }
}

impl<R: Clock + Eprint + Sync> FailureProgress for Looks<'_, R> {
    /// Counts a failure, and reports the count if another second has begun.
    fn looked(&self, failures: usize) {
        let looked = self.looked.fetch_add(1, Ordering::SeqCst).saturating_add(1);
        if self.is_shown && self.is_due() {
            let command = self.command;
            let _ = eprint!(self.rt; "\r{command}: {looked} of {failures} failures analysed");
            self.lines.store(1, Ordering::SeqCst);
        }
    }

    /// Ends the line, if one was written.
    fn close(&self) {
        if self.lines.swap(0, Ordering::SeqCst) != 0 {
            let _ = eprintln!(self.rt; "");
        }
    }
}
