//! The first octets of a part of a capture, which are held back until the part is due.

ghost use Rattle.std.specs.Prelude.{◌≡◌, ◌+◌, ◌-◌, ◌≤◌, ◌<◌, ◌++◌, ℕ, List, [], length, take, drop, slice_range, min};
ghost use Rattle.std.specs.Io.KnownBytes.{Keeps, prepend_known};
ghost use Rattle.pb_port.specs.Devices.{Reads, Counts, IsWithin};

use pb_port::{Device, Got};

/// The greatest number of octets of a head: those of the header of a capture.
const MOST: usize = 24;

/// Octets that were read from a device and are not given yet, at most 24.
#[derive(Drop)]
pub(crate) struct Head {
    octets: [u8; MOST],
    start: usize,
    end: usize,
    ghost ordered: { start ≤ end },
    ghost within: { end ≤ 24 },
}

/// Reads into the buffer from the index `at` on, and not past the index `to`.
fn read_between<D: Device>(device: &mut D, buf: &mut [u8; MOST], at: usize, to: usize) -> Got
    requires { (at ≤ to) × (to ≤ 24) }
    ensures kept { take at buf.new ≡ take at buf.old }
    ensures len { length buf.new ≡ 24 }
    ensures within { IsWithin result (to - at) }
    ensures octets { Reads result (D.unread device.old) (D.unread device.new) (take (to - at) (drop at buf.new)) }
    ensures counts { Counts result (D.failed device.old) (D.failed device.new) }
{
    device.read(&mut buf[at..to])
}

impl Head {
    ghost use Rattle.pb_replay.specs.Held.{held, FillsWhere, MeetsEnd};

    /// Returns a head that holds nothing.
    pub(crate) fn new() -> Head
        ensures { held result ≡ [] }
    {
        Head {
            octets: [0; MOST],
            start: 0,
            end: 0,
        }
    }

    /// Returns the octets that are held.
    pub(crate) fn held(&self) -> &[u8]
        ensures { result.now ≡ held self.now }
    {
        &self.octets[self.start..self.end]
    }

    /// Returns how many octets are held, at most 24.
    pub(crate) fn len(&self) -> usize
        ensures value { result ≡ length (held self.now) }
        ensures most { result ≤ 24 }
    {
        self.end - self.start
    }

    /// Moves the held octets to the front of the buffer.
    fn align(&mut self)
        ensures held { held self.new ≡ held self.old }
        ensures place { (self.new.start ≡ 0) × (self.new.end ≡ length (held self.old)) }
        ensures len { length self.new.octets ≡ 24 }
    {
        if 0 < self.start {
            self.octets.copy_within(self.start..self.end, 0);
            self.end -= self.start;
            self.start = 0;
        }
    }

    /// Reads once from the device, until `whole` octets are held at most. The held octets, followed by those that the
    /// device has left, stay the same.
    pub(crate) fn fill<D: Device>(&mut self, device: &mut D, whole: usize) -> Got
        requires { (length (held self.old) < whole) × (whole ≤ 24) }
        ensures unread { Keeps (prepend_known (held self.old) (D.unread device.old))
            (prepend_known (held self.new) (D.unread device.new)) }
        ensures held { FillsWhere result (held self.old) (held self.new) }
        ensures end { MeetsEnd result (D.unread device.new) }
        ensures counts { Counts result (D.failed device.old) (D.failed device.new) }
    {
        self.align();
        match read_between(device, &mut self.octets, self.end, whole) {
            Got::Moved(count) => {
                self.end += count;
                Got::Moved(count)
            }
            other => other,
        }
    }

    /// Moves held octets to the front of a buffer, at most `most`. Returns how many.
    pub(crate) fn give(&mut self, buf: &mut [u8], most: usize) -> usize
        ensures count { result ≡ min (length (held self.old)) (min most (length buf.old)) }
        ensures within { result ≤ length buf.new }
        ensures octets { held self.old ≡ take result buf.new ++ held self.new }
    {
        let count = self.len().min(most.min(buf.len()));
        let next = self.start + count;
        buf[..count].copy_from_slice(&self.octets[self.start..next]);
        self.start = next;
        count
    }
}
