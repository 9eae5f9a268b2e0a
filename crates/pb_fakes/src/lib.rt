//! Fakes that tests of several crates share: readers and writers that fail, and plan files.
#![tactic(auto)]

pub mod plans;

use std::io;
use std::io::{Error, ErrorKind, Read, Write};

/// A reader that returns a few octets per call, and fails at one of its calls.
#[derive(Drop)]
pub struct Slow<'a> {
    /// The octets that remain.
    pub rest: &'a [u8],
    /// The greatest number of octets per call.
    pub most: usize,
    /// The number of calls so far.
    pub calls: u64,
    /// The call, from 0, that fails.
    pub fails_at: u64,
    /// The kind of the error.
    pub kind: ErrorKind,
}

impl Read for Slow<'_> {
    fn read(&mut self, buf: &mut [u8]) -> io::Result<usize> {
        let call = self.calls;
        self.calls = self.calls.saturating_add(1);
        if call == self.fails_at {
            return Err(Error::from(self.kind));
        }
        let n = self.rest.len().min(self.most).min(buf.len());
        buf[..n].copy_from_slice(&self.rest[..n]);
        self.rest = &self.rest[n..];
        Ok(n)
    }
}

/// A writer that takes some octets and then fails.
#[derive(Drop)]
pub struct Full {
    /// The number of octets that it still takes.
    pub room: usize,
}

impl Write for Full {
    fn write(&mut self, buf: &[u8]) -> io::Result<usize> {
        let n = buf.len().min(self.room);
        if n == 0 && !buf.is_empty() {
            return Err(Error::from(ErrorKind::StorageFull));
        }
        self.room -= n;
        Ok(n)
    }

    fn flush(&mut self) -> io::Result<()> {
        Ok(())
    }
}

/// A writer that takes everything and can't be flushed.
#[derive(Drop)]
pub struct Unflushed;

impl Write for Unflushed {
    fn write(&mut self, buf: &[u8]) -> io::Result<usize> {
        Ok(buf.len())
    }

    fn flush(&mut self) -> io::Result<()> {
        Err(Error::from(ErrorKind::StorageFull))
    }
}
