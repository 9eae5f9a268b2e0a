//! A device that moves a few octets per call, may wait in every other call, and may fail in one of them.

ghost use Rattle.std.specs.Prelude.{◌≡◌};

use pb_port::{Device, Got, Line, Parting};
use std::cell::Cell;

/// The octets of a device, and its manner.
#[derive(Clone, Copy)]
pub(super) struct Manner {
    pub(super) gives: &'static [u8],
    /// The number of octets that it moves per call, 1 or more.
    pub(super) step: usize,
    /// Whether it waits in every other call.
    pub(super) waits: bool,
    /// The call that fails, from 1, or 0 if none does.
    pub(super) fails_at: u64,
}

/// A device with nothing to read, which takes all that it is given.
pub(super) const SINK: Manner = Manner {
    gives: &[],
    step: 1000,
    waits: false,
    fails_at: 0,
};

/// Octets as a row of parts, each with a number of repetitions.
pub(super) type Parts<'a> = &'a [(usize, &'static [u8])];

/// Returns the octet at an index.
fn octet_at(parts: Parts, place: usize) -> Option<u8> {
    let mut place = place;
    for (times, part) in parts {
        let whole = part.len().saturating_mul(*times);
        if place < whole {
            return part.get(place % part.len().max(1)).copied();
        }
        place -= whole;
    }
    None
}

/// The actions so far.
#[derive(Clone, Copy)]
struct Sight {
    calls: u64,
    /// The number of octets that were written, and whether they were the expected ones.
    written: usize,
    is_right: bool,
}

/// The record of devices' actions.
#[derive(Drop)]
pub(super) struct Seen<'a> {
    /// The octets that have to be written.
    wanted: Parts<'a>,
    sight: Cell<Sight>,
}

impl<'a> Seen<'a> {
    /// Returns an empty record.
    pub(super) fn new(wanted: Parts<'a>) -> Seen<'a> {
        let sight = Cell::new(Sight {
            calls: 0,
            written: 0,
            is_right: true,
        });
        Seen { wanted, sight }
    }

    /// Returns how often the devices were called.
    pub(super) fn calls(&self) -> u64 {
        self.sight.get().calls
    }

    /// Checks whether exactly the expected octets were written.
    pub(super) fn has_all(&self) -> bool {
        let sight = self.sight.get();
        sight.is_right && octet_at(self.wanted, sight.written).is_none()
    }

    fn note_call(&self) {
        let sight = self.sight.get();
        self.sight.set(Sight {
            calls: sight.calls.saturating_add(1),
            ..sight
        });
    }

    pub(super) fn note(&self, octets: &[u8]) {
        let mut sight = self.sight.get();
        for octet in octets {
            let is_wanted = octet_at(self.wanted, sight.written) == Some(*octet);
            sight.is_right = sight.is_right && is_wanted;
            sight.written = sight.written.saturating_add(1);
        }
        self.sight.set(sight);
    }
}

/// A device, whose actions are recorded.
#[derive(Drop)]
pub(super) struct Fake<'a> {
    manner: Manner,
    rest: &'static [u8],
    calls: u64,
    failures: u64,
    seen: &'a Seen<'a>,
}

impl<'a> Fake<'a> {
    pub(super) fn new(manner: Manner, seen: &'a Seen<'a>) -> Fake<'a> {
        Fake {
            manner,
            rest: manner.gives,
            calls: 0,
            failures: 0,
            seen,
        }
    }

    /// Counts a call, and returns whether it has to wait.
    fn is_waiting(&mut self) -> bool
        ensures { self.new.failures ≡ self.old.failures }
    {
        self.seen.note_call();
        self.calls = self.calls.saturating_add(1);
        self.manner.waits && self.calls % 2 == 0
    }
}

impl Device for Fake<'_> {
    ghost failed = { λ d. d.failures };

    fn read(&mut self, buf: &mut [u8]) -> Got {
        if self.is_waiting() || self.failures == u64::MAX {
            return Got::Wait;
        }
        if self.calls == self.manner.fails_at {
            self.failures += 1;
            return Got::Failed;
        }
        let n = self.manner.step.min(buf.len()).min(self.rest.len());
        buf[..n].copy_from_slice(&self.rest[..n]);
        self.rest = &self.rest[n..];
        Got::Moved(n)
    }

    fn write(&mut self, buf: &[u8]) -> Got {
        if self.is_waiting() || self.failures == u64::MAX {
            return Got::Wait;
        }
        if self.calls == self.manner.fails_at {
            self.failures += 1;
            return Got::Failed;
        }
        let n = self.manner.step.max(1).min(buf.len());
        self.seen.note(&buf[..n]);
        Got::Moved(n)
    }

    fn failures(&self) -> u64 {
        self.failures
    }
}

/// A device that has nothing to read yet, and takes all.
#[derive(Drop)]
pub(super) struct Hollow;

impl Device for Hollow {
    ghost failed = { λ d. 0 };

    fn read(&mut self, _buf: &mut [u8]) -> Got {
        Got::Wait
    }

    fn write(&mut self, buf: &[u8]) -> Got {
        Got::Moved(buf.len())
    }

    fn failures(&self) -> u64 {
        0
    }
}

impl Line for Hollow {
    fn renew(&mut self, _parting: Parting) {}
}
