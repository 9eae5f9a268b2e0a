//! Devices that give the records of a capture at the distances of their times.

ghost use Rattle.std.specs.Prelude.{◌≡◌, ◌⊎◌, ◌<◌, ◌+◌, ◌≤◌, ◌^◌, ◌↔◌, ◌++◌, [], IsTrue, true, false, length};
ghost use Rattle.std.specs.Prelude.{min, take, Some, None, IfSome, IfNone};
ghost use Rattle.pb_port.specs.Devices.{IsWithin, Reads, Writes, Counts};
ghost use Rattle.std.specs.Io.KnownBytes.{Keeps};
ghost use Rattle.pb_replay.specs.Held.{held};
ghost use Rattle.pb_replay.specs.Pacing.{IsDue, MayPass, GivesInTime, GivesNone, GivesHeld, CountsSome, LeavesFewer};
ghost use Rattle.pb_replay.specs.Pacing.{LeavesRecord, PassesInTime, HasRecord, SetsFirst, NotesFirst};
ghost use Rattle.pb_replay.specs.Pacing.{NotesGiven, unread, given};
ghost use Rattle.pb_replay.specs.Records.{captured_in, time_in, format_of};

use crate::head::Head;
use crate::record::{Format, captured_in, format_of, time_in};
use crate::stopwatch::Stopwatch;
use pb_port::{Device, Got};

/// The number of octets of a capture's header.
const HEADER: usize = 24;

/// The number of octets of a record's head.
const HEAD: usize = 16;

/// The most octets of a record after its head. A longer one is a fault of the capture.
const LONGEST: u32 = 262_144;

/// What comes next from the device.
#[derive(Clone, Copy)]
pub(crate) enum Stage {
    /// The header of the capture.
    Header,
    /// Records of this format.
    Records(Format),
    /// Octets that are not held back.
    Free,
}

/// The first record that was given.
#[derive(Clone, Copy)]
pub(crate) struct Origin {
    /// The time of the record, in nanoseconds since 1970.
    pub time: u64,
    /// The answer of the stopwatch when it was given, in microseconds.
    pub began: u64,
}

/// A device that gives the octets of a capture as another device does, those of a record only once it is due.
///
/// A record is due when as much time has passed since the first record was given as lies between the times of the two
/// records, divided by the speed. The first record is due at once, and so is one whose time is before that of the
/// first. Until a record is due a read returns `Wait`.
///
/// It knows both byte orders, and the magic numbers of microseconds (a1b2c3d4) and of nanoseconds (a1b23c4d). Nothing
/// is held back after a header that it does not know, after a record of more than 262,144 octets, and once the
/// stopwatch can't be read. Writes go to the other device.
#[derive(Drop)]
pub struct Paced<D, C> {
    device: D,
    clock: C,
    speed: u16,
    stage: Stage,
    /// The octets of the part that comes next, as far as they were read.
    head: Head,
    /// The number of octets of the newest part that are still to be given, those that are held among them.
    left: u64,
    origin: Option<Origin>,
}

impl<D, C> Paced<D, C> {
    /// Returns a device before the header of a capture, whose records it gives so many times as fast as their times
    /// say, 1 to 1,000. The stopwatch may have begun at any time.
    pub fn new(device: D, clock: C, speed: u16) -> Paced<D, C>
        requires { (0 < speed) × (speed ≤ 1000) }
        ensures devices { (result.device ≡ device) × (result.clock ≡ clock) }
        ensures speed { result.speed ≡ speed }
        ensures before { (result.stage ≡ Stage.Header) × (result.left ≡ 0) × (held result.head ≡ []) }
        ensures first { result.origin ≡ None }
    {
        Paced {
            device,
            clock,
            speed,
            stage: Stage::Header,
            head: Head::new(),
            left: 0,
            origin: None,
        }
    }

    /// Returns a device that holds nothing back. It does not read the stopwatch.
    pub fn at_once(device: D, clock: C) -> Paced<D, C>
        ensures devices { (result.device ≡ device) × (result.clock ≡ clock) }
        ensures free { (result.stage ≡ Stage.Free) × (held result.head ≡ []) }
    {
        let mut paced = Paced::new(device, clock, 1);
        paced.stage = Stage::Free;
        paced
    }

    /// Returns whether a record of this time, in nanoseconds, is due at this answer of the stopwatch.
    fn is_due(&self, time: u64, now: u64) -> bool
        ensures { IsTrue result ↔ IsDue self.now.speed self.now.origin time now }
    {
        match self.origin {
            None => true,
            Some(first) => {
                let passed = now.saturating_sub(first.began);
                let scale = u64::from(self.speed) * 1_000;
                time.saturating_sub(first.time) <= passed.saturating_mul(scale)
            }
        }
    }
}

impl<D: Device, C: Stopwatch> Paced<D, C> {
    /// Reads on until so many octets of the next part are held, at most 24. Returns `None` once they are, or the input
    /// has ended among them.
    fn collect(&mut self, whole: usize) -> Option<Got>
        requires { (0 < whole) × (whole ≤ 24) }
        ensures none { IfSome result (λ got. GivesNone got (unread D.unread self.old) (unread D.unread self.new)) }
        ensures unread { IfNone result (Keeps (unread D.unread self.old) (unread D.unread self.new)) }
        ensures counts { CountsSome result (D.failed self.old.device) (D.failed self.new.device) }
        ensures whole { IfNone result ((0 < length (held self.new.head)) × ((whole ≤ length (held self.new.head))
            ⊎ (self.new.stage ≡ Stage.Free))) }
        ensures stage { (self.new.stage ≡ self.old.stage) ⊎ ((self.new.stage ≡ Stage.Free)
            × (length (held self.new.head) < whole)) }
        ensures kept { (self.new.clock ≡ self.old.clock) × (self.new.speed ≡ self.old.speed)
            × (self.new.left ≡ self.old.left) × (self.new.origin ≡ self.old.origin) }
    {
        if self.head.len() >= whole {
            return None;
        }
        match self.head.fill(&mut self.device, whole) {
            Got::Moved(0) if self.head.len() == 0 => Some(Got::Moved(0)),
            Got::Moved(0) => {
                self.stage = Stage::Free;
                None
            }
            Got::Moved(_) if self.head.len() < whole => Some(Got::Wait),
            Got::Moved(_) => None,
            other => Some(other),
        }
    }

    /// Releases the record whose head is held, if it is due, and returns whether it did. Releases all that follows if
    /// the record is too long or the stopwatch can't be read.
    fn release(&mut self, format: Format) -> bool
        requires { 16 ≤ length (held self.old.head) }
        ensures passes { result ≡ true → MayPass self.old.speed self.old.origin format (held self.old.head)
            (C.newest self.new.clock) }
        ensures left { result ≡ true → ((self.new.stage ≡ self.old.stage)
            × (self.new.left ≡ 16 + captured_in format (held self.old.head))) ⊎ (self.new.stage ≡ Stage.Free) }
        ensures waits { result ≡ false → (self.new.stage ≡ self.old.stage) × (self.new.left ≡ self.old.left) }
        ensures first { result ≡ true → (self.new.stage ≡ Stage.Free) ⊎ SetsFirst format self.old.origin
            self.new.origin (held self.old.head) (C.newest self.new.clock) }
        ensures kept { (self.new.head ≡ self.old.head) × (self.new.device ≡ self.old.device)
            × (self.new.speed ≡ self.old.speed) }
    {
        let captured = captured_in(format, self.head.held());
        let time = time_in(format, self.head.held());
        if LONGEST < captured {
            self.stage = Stage::Free;
            return true;
        }
        let Some(now) = self.clock.micros() else {
            self.stage = Stage::Free;
            return true;
        };
        if !self.is_due(time, now) {
            return false;
        }
        if self.origin.is_none() {
            self.origin = Some(Origin { time, began: now });
        }
        self.left = HEAD as u64 + u64::from(captured);
        true
    }

    /// Releases the header of a capture, which is held. Releases all that follows if it is not known.
    fn release_header(&mut self)
        requires { 24 ≤ length (held self.old.head) }
        ensures stage { IfSome (format_of (held self.old.head)) (λ format. (self.new.stage ≡ Stage.Records format)
            × (self.new.left ≡ 24)) }
        ensures free { IfNone (format_of (held self.old.head)) (self.new.stage ≡ Stage.Free) }
        ensures kept { (self.new.head ≡ self.old.head) × (self.new.device ≡ self.old.device)
            × (self.new.clock ≡ self.old.clock) × (self.new.speed ≡ self.old.speed)
            × (self.new.origin ≡ self.old.origin) }
    {
        match format_of(self.head.held()) {
            Some(format) => {
                self.stage = Stage::Records(format);
                self.left = HEADER as u64;
            }
            None => self.stage = Stage::Free,
        }
    }

    /// Reads on until the next part may be given. Returns `None` once it may, and else the result of the read, which
    /// gave no octets.
    fn reach_part(&mut self) -> Option<Got>
        ensures none { IfSome result (λ got. GivesNone got (unread D.unread self.old) (unread D.unread self.new)) }
        ensures unread { IfNone result (Keeps (unread D.unread self.old) (unread D.unread self.new)) }
        ensures counts { CountsSome result (D.failed self.old.device) (D.failed self.new.device) }
        ensures part { IfNone result ((self.old.stage ≡ Stage.Free ⊎ (0 < length (held self.new.head)))
            × ((0 < self.new.left) ⊎ (self.new.stage ≡ Stage.Free))) }
        ensures passes { IfNone result (PassesInTime self.old.stage self.old.speed self.old.origin (held self.new.head)
            (C.newest self.new.clock)) }
        ensures record { IfNone result (HasRecord self.old.stage (held self.new.head) self.new.stage self.new.left) }
        ensures first { IfNone result (NotesFirst self.old.stage self.new.stage self.old.origin self.new.origin
            (held self.new.head) (C.newest self.new.clock)) }
        ensures speed { self.new.speed ≡ self.old.speed }
    {
        match self.stage {
            Stage::Free => None,
            Stage::Header => {
                let got = self.collect(HEADER);
                if got.is_none() && matches!(self.stage, Stage::Header) {
                    self.release_header();
                }
                got
            }
            Stage::Records(format) => {
                let got = self.collect(HEAD);
                if got.is_some() || matches!(self.stage, Stage::Free) || self.release(format) {
                    return got;
                }
                Some(Got::Wait)
            }
        }
    }

    /// Returns how many octets may be given to a buffer of this length.
    fn most(&self, len: usize) -> usize
        ensures free { self.now.stage ≡ Stage.Free → result ≡ len }
        ensures part { (self.now.stage ≡ Stage.Free → ⊥) → result ≡ min self.now.left len }
        ensures within { result ≤ len }
    {
        match self.stage {
            Stage::Free => len,
            _ => self.left.min(len as u64) as usize,
        }
    }

    /// Gives octets of the part that may be given: those that are held, else those of the device, at most as many as
    /// are left of the part.
    fn give(&mut self, buf: &mut [u8]) -> Got
        requires room { 0 < length buf.old }
        requires part { (0 < self.old.left) ⊎ (self.old.stage ≡ Stage.Free) }
        ensures within { IsWithin result (length buf.new) }
        ensures octets { Reads result (unread D.unread self.old) (unread D.unread self.new) buf.new }
        ensures counts { Counts result (D.failed self.old.device) (D.failed self.new.device) }
        ensures held { GivesHeld result buf.new (held self.old.head) (held self.new.head) }
        ensures left { (self.old.stage ≡ Stage.Free → ⊥) → LeavesFewer result self.old.left self.new.left }
        ensures kept { (self.new.stage ≡ self.old.stage) × (self.new.clock ≡ self.old.clock)
            × (self.new.speed ≡ self.old.speed) × (self.new.origin ≡ self.old.origin) }
    {
        let most = self.most(buf.len());
        if self.head.len() > 0 {
            let count = self.head.give(buf, most);
            self.left = self.left.saturating_sub(count as u64);
            return Got::Moved(count);
        }
        let got = self.device.read(&mut buf[..most]);
        if let Got::Moved(count) = got {
            self.left = self.left.saturating_sub(count as u64);
        }
        got
    }
}

impl<D: Device, C: Stopwatch> Device for Paced<D, C> {
    ghost unread = { unread D.unread };

    ghost written = { λ p. D.written p.device };

    ghost failed = { λ p. D.failed p.device };

    /// Reads the next octets, those of a record only once it is due. Until then returns `Wait`.
    fn read(&mut self, buf: &mut [u8]) -> Got
        ensures within { IsWithin result (length buf.new) }
        ensures octets { Reads result (unread D.unread self.old) (unread D.unread self.new) buf.new }
        ensures counts { Counts result (D.failed self.old.device) (D.failed self.new.device) }
        ensures paced { self.old.left ≡ 0 → GivesInTime result self.old.stage self.old.speed self.old.origin
            (given result buf.new ++ held self.new.head) (C.newest self.new.clock) }
        ensures record { self.old.left ≡ 0 → LeavesRecord result self.old.stage (given result buf.new
            ++ held self.new.head) self.new.stage self.new.left }
        ensures first { self.old.left ≡ 0 → NotesGiven result self.old.stage self.new.stage self.old.origin
            self.new.origin (given result buf.new ++ held self.new.head) (C.newest self.new.clock) }
        ensures rest { 0 < self.old.left → (self.old.stage ≡ Stage.Free → ⊥)
            → LeavesFewer result self.old.left self.new.left }
        ensures speed { self.new.speed ≡ self.old.speed }
    {
        if buf.is_empty() {
            return Got::Moved(0);
        }
        if self.left == 0 {
            if let Some(got) = self.reach_part() {
                return got;
            }
        }
        self.give(buf)
    }

    fn write(&mut self, buf: &[u8]) -> Got
        ensures within { IsWithin result (length buf.now) }
        ensures octets { Writes result (D.written self.old.device) (D.written self.new.device) buf.now }
        ensures counts { Counts result (D.failed self.old.device) (D.failed self.new.device) }
    {
        self.device.write(buf)
    }

    fn failures(&self) -> u64 {
        self.device.failures()
    }
}
