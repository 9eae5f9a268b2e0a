//! Sending frames in datagrams.
ghost use Rattle.std.specs.Prelude.{◌≡◌, ◌-◌, ◌^◌, ◌<◌, ◌==◌, ◌||◌, [], All, length, take, drop, vec_len};
ghost use Rattle.std.specs.Prelude.{true, false, IfOk, MatchBool, if◌then◌else◌};
ghost use Rattle.pb_port.specs.Ports.{OfferedBy, PumpedBy, sent_count};
ghost use Rattle.pb_datagram.specs.Devices.{CountsFailed};

use crate::device::{DatagramDevice, Sent, SystemError};
use crate::tunnel::Tunnel;
use bytes::Bytes;
use pb_port::{Offered, Pumped, Shelf};
use std::alloc::{AllocError, Global};
use std::collections::VecDeque;
use std::mem;

/// The most sends of one pump.
const MAX_SENDS: u32 = 64;

/// The most octets of a datagram that is composed: a VXLAN header, and a frame of 65,535 octets.
const MOST: usize = 65_543;

/// The frames that wait to be sent, each in a datagram.
#[derive(Drop)]
pub(crate) struct Outbox {
    capacity: u16,
    unsent: VecDeque<Bytes>,
    /// The octets of the datagram that is sent.
    run: Vec<u8>,
    shelved: bool,
    /// The number of sends that failed, at most the greatest `u64`.
    failed: u64,
    /// The error of the newest send that failed.
    error: Option<SystemError>,
    ghost short: { All (λ f. length f < 65536) unsent.items },
    ghost space: { vec_len run ≡ 65543 },
    ghost counted: { failed < 2 ^ 64 },
}

/// Drops the first frame.
fn let_go(unsent: &mut VecDeque<Bytes>)
    requires some { 0 < length unsent.old.items }
    requires short { All (λ f. length f < 65536) unsent.old.items }
    ensures rest { unsent.new.items ≡ drop 1 unsent.old.items }
    ensures short { All (λ f. length f < 65536) unsent.new.items }
{
    let _ = unsent.pop_front();
}

/// Returns the result of a pump after which so many frames have left.
fn pumped(count: u32) -> Pumped
    ensures { MatchBool (count == 0) (result ≡ Pumped.Nothing) (result ≡ Pumped.Wrote count) }
{
    if count == 0 {
        return Pumped::Nothing;
    }
    Pumped::Wrote(count)
}

impl Outbox {
    ghost use Rattle.pb_datagram.specs.Sending.{HandsOver, Departs};

    /// Returns an outbox in which no frame waits. `capacity` is how many frames may wait, 1 to 4,096.
    ///
    /// # Errors
    ///
    /// `AllocError` if an allocation failed.
    pub(crate) fn new(alloc: Global, capacity: u16) -> Result<Outbox, AllocError>
        ensures { IfOk result (λ o. (o.unsent.items ≡ []) × (o.capacity ≡ capacity) × (o.shelved ≡ false)
            × (o.failed ≡ 0)) }
    {
        Ok(Outbox {
            capacity,
            unsent: VecDeque::new(alloc),
            run: vec![in alloc; 0; MOST]?,
            shelved: false,
            failed: 0,
            error: None,
        })
    }

    /// Queues a frame, with the results of [`Port::offer`](pb_port::Port::offer).
    pub(crate) fn offer(&mut self, f: &Bytes) -> Offered
        requires { length f.now < 65536 }
        ensures offered { OfferedBy result f.now (self.old.shelved || false) self.old.capacity
            self.old.unsent.items self.new.unsent.items }
        ensures kept { (self.new.capacity ≡ self.old.capacity) × (self.new.shelved ≡ self.old.shelved)
            × (self.new.failed ≡ self.old.failed) }
    {
        if self.shelved {
            return Offered::Gone;
        }
        if self.unsent.len() >= self.capacity as usize {
            return Offered::Full;
        }
        let Ok(copy) = f.clone() else {
            return Offered::Memory;
        };
        match self.unsent.push_back(copy) {
            Ok(()) => Offered::Taken,
            Err(_) => Offered::Memory,
        }
    }

    /// Sends the first frame that waits in a datagram, and returns whether it is done with: the system took the
    /// datagram or the send failed.
    fn hand_over<D: DatagramDevice>(&mut self, tunnel: &Tunnel, device: &mut D) -> bool
        requires { 0 < length self.old.unsent.items }
        ensures hands { HandsOver result tunnel.now (take 1 self.old.unsent.items) (D.sent device.old)
            (D.sent device.new) (D.failed device.new - D.failed device.old) }
        ensures received { D.received device.new ≡ D.received device.old }
        ensures counts { CountsFailed self.old.failed self.new.failed (D.failed device.old) (D.failed device.new) }
        ensures kept { (self.new.unsent ≡ self.old.unsent) × (self.new.capacity ≡ self.old.capacity)
            × (self.new.shelved ≡ self.old.shelved) }
    {
        let frame = self.unsent[0].as_slice();
        let len = tunnel.encapsulation.compose(frame, &mut self.run[..]);
        match device.send(&self.run[..len], tunnel.peer) {
            Sent::Moved => true,
            Sent::Wait => false,
            Sent::Failed(error) => {
                self.failed = self.failed.saturating_add(1);
                self.error = Some(error);
                true
            }
        }
    }

    /// Sends the first frame that waits, which leaves unless the device waits. Returns whether it has left.
    fn send_first<D: DatagramDevice>(&mut self, tunnel: &Tunnel, device: &mut D) -> bool
        requires { 0 < length self.old.unsent.items }
        ensures departs { Departs tunnel.now (if result then 1 else 0) self.old.unsent.items self.new.unsent.items
            (D.sent device.old) (D.sent device.new) (D.failed device.new - D.failed device.old) }
        ensures received { D.received device.new ≡ D.received device.old }
        ensures counts { CountsFailed self.old.failed self.new.failed (D.failed device.old) (D.failed device.new) }
        ensures kept { (self.new.capacity ≡ self.old.capacity) × (self.new.shelved ≡ self.old.shelved) }
    {
        if !self.hand_over(tunnel, device) {
            return false;
        }
        let_go(&mut self.unsent);
        true
    }

    /// Sends frames that wait, oldest first, by at most as many sends as one pump makes.
    pub(crate) fn pump<D: DatagramDevice>(&mut self, tunnel: &Tunnel, device: &mut D) -> Pumped
        ensures pumped { PumpedBy result self.old.unsent.items self.new.unsent.items false false 0 0 }
        ensures departs { Departs tunnel.now (sent_count result) self.old.unsent.items self.new.unsent.items
            (D.sent device.old) (D.sent device.new) (D.failed device.new - D.failed device.old) }
        ensures received { D.received device.new ≡ D.received device.old }
        ensures counts { CountsFailed self.old.failed self.new.failed (D.failed device.old) (D.failed device.new) }
        ensures kept { (self.new.capacity ≡ self.old.capacity) × (self.new.shelved ≡ self.old.shelved) }
    {
        let mut count: u32 = 0;
        for sends in 0..MAX_SENDS {
            if self.unsent.is_empty() || !self.send_first(tunnel, device) {
                return pumped(count);
            }
            count += 1;
        }
        pumped(count)
    }

    /// Returns the frames that wait.
    pub(crate) fn unsent(&self) -> &VecDeque<Bytes>
        ensures { result.now.items ≡ self.now.unsent.items }
    {
        &self.unsent
    }

    /// Returns the number of sends that failed.
    pub(crate) fn failed(&self) -> u64
        ensures { result ≡ self.now.failed }
    {
        self.failed
    }

    /// Returns the error of the newest send that failed.
    pub(crate) fn error(&self) -> Option<SystemError>
        ensures { result ≡ self.now.error }
    {
        self.error
    }

    /// Moves the frames that wait onto the shelf. The outbox takes no more frames.
    pub(crate) fn shelve(&mut self, home: &mut Shelf)
        requires { (home.old.unsent.items ≡ []) × (home.old.sent.items ≡ []) }
        ensures shelf { (home.new.unsent.items ≡ self.old.unsent.items) × (home.new.sent.items ≡ []) }
        ensures empty { (self.new.unsent.items ≡ []) × (self.new.shelved ≡ true) }
        ensures kept { (self.new.capacity ≡ self.old.capacity) × (self.new.failed ≡ self.old.failed) }
    {
        self.shelved = true;
        mem::swap(&mut self.unsent, &mut home.unsent);
    }
}
