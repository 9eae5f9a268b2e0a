//! Receiving the frames of datagrams.
ghost use Rattle.std.specs.Prelude.{◌≡◌, ◌≤◌, ◌<◌, ◌^◌, ◌∷◌, [], vec_len, take, true, false, None, IfOk};
ghost use Rattle.pb_datagram.specs.Counts.{no_refusals};
ghost use Rattle.pb_datagram.specs.Devices.{CountsFailed, CountsReceive, FitsIn, ReceivedBy};

use crate::device::{DatagramDevice, Received, SystemError};
use crate::drops::Refusals;
use crate::tunnel::Tunnel;
use bytes::Bytes;
use pb_port::{Polled, PortFault};
use std::alloc::{AllocError, Global};
use std::net::SocketAddr;

/// The most receives of one poll.
const MAX_RECEIVES: u32 = 64;

/// The most octets of a datagram (RFC 768).
const MOST: usize = 65_535;

/// The datagrams that a port receives. The frame of the newest is held until a poll returns it.
#[derive(Drop)]
pub(crate) struct Inbox {
    alloc: Global,
    buffer: Vec<u8>,
    /// Where the frame that is held begins and ends in the buffer.
    start: usize,
    end: usize,
    is_held: bool,
    refusals: Refusals,
    /// The number of receives that failed, at most the greatest `u64`.
    failed: u64,
    /// The error of the newest receive that failed.
    error: Option<SystemError>,
    ghost ordered: { start ≤ end },
    ghost in_buffer: { end ≤ vec_len buffer },
    ghost space: { vec_len buffer ≡ 65535 },
    ghost counted: { failed < 2 ^ 64 },
}

/// Receives the next datagram to the front of a buffer.
fn receive_into<D: DatagramDevice>(device: &mut D, buf: &mut Vec<u8>) -> Received
    ensures len { vec_len buf.new ≡ vec_len buf.old }
    ensures within { FitsIn result (vec_len buf.new) }
    ensures received { ReceivedBy result buf.new.items (D.received device.old) (D.received device.new) }
    ensures sent { D.sent device.new ≡ D.sent device.old }
    ensures counts { CountsReceive result (D.failed device.old) (D.failed device.new) }
{
    device.receive(&mut buf[..])
}

impl Inbox {
    ghost use Rattle.pb_datagram.specs.Receiving.{pending, Finds, Receives, Gives, PollsNext};

    /// Returns an inbox before the first datagram.
    ///
    /// # Errors
    ///
    /// `AllocError` if an allocation failed.
    pub(crate) fn new(alloc: Global) -> Result<Inbox, AllocError>
        ensures { IfOk result (λ i. (pending i ≡ None) × (i.refusals ≡ no_refusals) × (i.failed ≡ 0)) }
    {
        Ok(Inbox {
            alloc,
            buffer: vec![in alloc; 0; MOST]?,
            start: 0,
            end: 0,
            is_held: false,
            refusals: Refusals::new(),
            failed: 0,
            error: None,
        })
    }

    /// Holds the frame of the datagram at the front of the buffer, or counts why it is refused. No frame is held yet.
    fn judge<D: DatagramDevice>(
        &mut self,
        tunnel: &Tunnel,
        len: usize,
        sender: SocketAddr,
        device: &mut D,
    )
        requires held { self.old.is_held ≡ false }
        requires within { len ≤ vec_len self.old.buffer }
        ensures finds { Finds tunnel.now ((sender, take len self.old.buffer.items) ∷ []) self.old.refusals
            self.new.refusals (pending self.new) }
        ensures failed { self.new.failed ≡ self.old.failed }
        ensures device { (D.received device.new ≡ D.received device.old) × (D.sent device.new ≡ D.sent device.old)
            × (D.failed device.new ≡ D.failed device.old) }
    {
        match tunnel.accept(sender, &self.buffer[..len]) {
            Ok(start) => {
                self.start = start;
                self.end = len;
                self.is_held = true;
            }
            Err(reason) => {
                self.refusals.note(reason);
                device.note_refusal(reason);
            }
        }
    }

    /// Receives once. Returns whether the next receive may find a frame: no frame is held, and the device does not
    /// wait.
    fn receive<D: DatagramDevice>(&mut self, tunnel: &Tunnel, device: &mut D) -> bool
        requires { self.old.is_held ≡ false }
        ensures receives { Receives tunnel.now (D.received device.old) (D.received device.new) self.old.refusals
            self.new.refusals (pending self.new) }
        ensures goes_on { result ≡ true → self.new.is_held ≡ false }
        ensures sent { D.sent device.new ≡ D.sent device.old }
        ensures counts { CountsFailed self.old.failed self.new.failed (D.failed device.old) (D.failed device.new) }
    {
        match receive_into(device, &mut self.buffer) {
            Received::Moved(len, sender) => {
                self.judge(tunnel, len, sender, device);
                !self.is_held
            }
            Received::Failed(error) => {
                self.failed = self.failed.saturating_add(1);
                self.error = Some(error);
                true
            }
            Received::Wait => false,
        }
    }

    /// Receives until a frame is held, by at most as many receives as one poll makes. No frame is held yet.
    fn fetch<D: DatagramDevice>(&mut self, tunnel: &Tunnel, device: &mut D)
        requires { self.old.is_held ≡ false }
        ensures receives { Receives tunnel.now (D.received device.old) (D.received device.new) self.old.refusals
            self.new.refusals (pending self.new) }
        ensures sent { D.sent device.new ≡ D.sent device.old }
        ensures counts { CountsFailed self.old.failed self.new.failed (D.failed device.old) (D.failed device.new) }
    {
        for receives in 0..MAX_RECEIVES {
            if !self.receive(tunnel, device) {
                return;
            }
        }
    }

    /// Returns the frame that is held, if one is. After the fault `Memory` it is still held.
    fn give(&mut self) -> Polled
        ensures gives { Gives result (pending self.old) (pending self.new) }
        ensures kept { (self.new.refusals ≡ self.old.refusals) × (self.new.failed ≡ self.old.failed) }
    {
        if !self.is_held {
            return Polled::Nothing;
        }
        match Bytes::copy_from_slice(self.alloc, &self.buffer[self.start..self.end]) {
            Ok(frame) => {
                self.is_held = false;
                Polled::Frame(frame)
            }
            Err(_) => Polled::Fault(PortFault::Memory),
        }
    }

    /// Returns the frame of the next datagram that is not refused, after at most 64 receives.
    pub(crate) fn poll<D: DatagramDevice>(&mut self, tunnel: &Tunnel, device: &mut D) -> Polled
        ensures next { PollsNext result tunnel.now (pending self.old) (pending self.new) (D.received device.old)
            (D.received device.new) self.old.refusals self.new.refusals }
        ensures sent { D.sent device.new ≡ D.sent device.old }
        ensures counts { CountsFailed self.old.failed self.new.failed (D.failed device.old) (D.failed device.new) }
    {
        if !self.is_held {
            self.fetch(tunnel, device);
        }
        self.give()
    }

    /// Returns the numbers of the datagrams that were refused.
    pub(crate) fn refusals(&self) -> Refusals
        ensures { result ≡ self.now.refusals }
    {
        self.refusals
    }

    /// Returns the number of receives that failed.
    pub(crate) fn failed(&self) -> u64
        ensures { result ≡ self.now.failed }
    {
        self.failed
    }

    /// Returns the error of the newest receive that failed.
    pub(crate) fn error(&self) -> Option<SystemError>
        ensures { result ≡ self.now.error }
    {
        self.error
    }
}
