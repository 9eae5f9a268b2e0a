//! A device of the tests' own.

ghost use Rattle.std.specs.Prelude.{◌≤◌, vec_len};

use super::activity::PortActivity;
use super::frames::frame_of;
use pb_frame::Memory;
use pb_port::{Device, Got};
use std::alloc::Global;
use std::sync::Arc;
use std::sync::atomic::Ordering;

/// The number of octets that a call moves: a quarter of a frame with its length.
const STEP: usize = 5;

/// A call of a device, by its number among those of its kind. The first has number 1.
#[derive(Clone, Copy, PartialEq)]
pub(super) enum Broken {
    Read(u64),
    Write(u64),
}

/// A stream of frames, each after its length in two octets, of which one call fails. What is written is dropped.
#[derive(Drop)]
pub(super) struct Stream {
    input: Vec<u8>,
    at: usize,
    broken: Broken,
    reads: u64,
    writes: u64,
    failures: u64,
    activity: Arc<PortActivity, Global>,
    ghost within: { at ≤ vec_len input },
}

impl Stream {
    /// Returns the stream of this many broadcasts, numbered from 0 on.
    pub(super) fn new(
        alloc: Global,
        count: u32,
        broken: Broken,
        activity: Arc<PortActivity, Global>,
    ) -> Result<Stream, Memory> {
        let mut input = Vec::new(alloc);
        for number in 0..count {
            input.extend_from_slice(&[0, 18])?;
            input.extend_from_slice(frame_of(alloc, number)?.as_slice())?;
        }
        Ok(Stream {
            input,
            at: 0,
            broken,
            reads: 0,
            writes: 0,
            failures: 0,
            activity,
        })
    }
}

impl Device for Stream {
    ghost failed = { λ d. d.failures };

    fn read(&mut self, buf: &mut [u8]) -> Got {
        self.reads = self.reads.saturating_add(1);
        self.activity.reads.fetch_add(1, Ordering::SeqCst);
        if self.failures == 0 && self.broken == Broken::Read(self.reads) {
            self.failures = 1;
            return Got::Failed;
        }
        let n = STEP.min(buf.len()).min(self.input.len() - self.at);
        buf[..n].copy_from_slice(&self.input[self.at..self.at + n]);
        self.at += n;
        Got::Moved(n)
    }

    fn write(&mut self, buf: &[u8]) -> Got {
        self.writes = self.writes.saturating_add(1);
        self.activity.writes.fetch_add(1, Ordering::SeqCst);
        if self.failures == 0 && self.broken == Broken::Write(self.writes) {
            self.failures = 1;
            return Got::Failed;
        }
        Got::Moved(STEP.min(buf.len()))
    }

    fn failures(&self) -> u64 {
        self.failures
    }
}
