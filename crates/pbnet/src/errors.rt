//! Standard error of a run, which no reader holds up.

ghost use Rattle.std.specs.Io.{WritesAtMost};

use pb_cmd_run::open_unwaiting;
use std::fs::{File, Files};
use std::io::{Error, ErrorKind, Write};
use std::time::{Clock, Duration};
use std::{io, str, thread};

/// The path of standard error.
const PATH: &str = "/dev/stderr";

/// The pause in milliseconds before standard error that took nothing is tried again.
const PAUSE: u64 = 1;

/// The most tries of a write. After a write that failed by then, each later one has one try.
const MOST_TRIES: u32 = 1_000;

/// Standard error. If it is a pipe or a terminal, a message waits for its reader for a second at most, and is skipped
/// then.
#[derive(Drop)]
pub(crate) struct Errors<'a, R> {
    rt: &'a R,
    /// Standard error, opened once more, if its writes don't block.
    file: Option<File>,
    /// Whether a write has failed after all its tries.
    has_given_up: bool,
}

impl<'a, R: Files<File = File> + Clock + Eprint> Errors<'a, R> {
    /// Returns standard error.
    pub(crate) fn new(rt: &'a R) -> Errors<'a, R> {
        let file = match open_unwaiting(rt, PATH) {
            Ok(file) => file,
            Err(_) => None,
        };
        Errors {
            rt,
            file,
            has_given_up: false,
        }
    }
}

impl<R: Clock + Eprint> Errors<'_, R> {
    /// Writes octets once, without waiting if standard error is a pipe or a terminal. Returns the number of octets that
    /// were written.
    ///
    /// # Errors
    ///
    /// `WouldBlock` if standard error takes nothing now. Any other error is the system's.
    fn write_once(&self, octets: &[u8]) -> io::Result<usize>
        ensures { WritesAtMost result octets.now }
    {
        let Some(file) = &self.file else {
            let Ok(text) = str::from_utf8(octets) else {
                return Err(Error::from(ErrorKind::InvalidData));
            };
            eprint!(self.rt; "{text}")?;
            return Ok(octets.len());
        };
        let mut writer = file;
        writer.write(octets)
    }

    /// Writes a text without waiting, and skips it if standard error takes nothing now. Returns whether it was written.
    pub(crate) fn offer(&self, text: &str) -> bool {
        self.write_once(text.as_bytes()).is_ok()
    }
}

impl<R: Clock + Eprint> Write for Errors<'_, R> {
    fn write(&mut self, octets: &[u8]) -> io::Result<usize> {
        for _ in 0..MOST_TRIES {
            let written = self.write_once(octets);
            let is_held_up = matches!(&written, Err(e) if e.kind() == ErrorKind::WouldBlock);
            if !is_held_up || self.has_given_up {
                return written;
            }
            thread::sleep(self.rt, Duration::from_millis(PAUSE));
        }
        self.has_given_up = true;
        Err(Error::from(ErrorKind::WouldBlock))
    }

    fn flush(&mut self) -> io::Result<()> {
        Ok(())
    }
}
