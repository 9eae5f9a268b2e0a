//! A port over datagrams.
ghost use Rattle.std.specs.Prelude.{◌≡◌, ◌<◌, ◌≤◌, ◌||◌, ◌-◌, [], length, true, false, None, IfOk};
ghost use Rattle.pb_port.specs.Ports.{PolledBy, GivenBy, EndedBy, OfferedBy, TalliedBy, PumpedBy, sent_count};
ghost use Rattle.pb_datagram.specs.Counts.{no_refusals};
ghost use Rattle.pb_datagram.specs.Devices.{CountsFailed};
ghost use Rattle.pb_datagram.specs.Receiving.{pending, PollsNext};
ghost use Rattle.pb_datagram.specs.Sending.{Departs};

use crate::device::DatagramDevice;
use crate::drops::Drops;
use crate::inbox::Inbox;
use crate::outbox::Outbox;
use crate::tunnel::Tunnel;
use bytes::Bytes;
use pb_lan::Past;
use pb_port::{Offered, Polled, Port, Pumped, Shelf};
use std::alloc::{AllocError, Global};
use std::collections::VecDeque;

/// A port whose frames travel in datagrams, to and from one peer.
///
/// A datagram from another address, of another network or without a whole header is refused and counted, by the first
/// [`Refusal`](crate::Refusal) that applies. A frame whose datagram the system does not take is dropped and counted. No
/// failed call of the device is a failure of the port, and the port never ends.
#[derive(Drop)]
pub struct DatagramPort<D> {
    tunnel: Tunnel,
    inbox: Inbox,
    outbox: Outbox,
    /// The frames that polls returned.
    given: Past<Bytes>,
    /// The frames that were taken by offers, until the port is shelved.
    taken: Past<Bytes>,
    device: D,
}

impl<D: DatagramDevice + Drop> DatagramPort<D> {
    /// Returns a port before the first datagram in both directions. `capacity` is how many frames may wait, 1 to 4,096.
    ///
    /// # Errors
    ///
    /// `AllocError` if an allocation failed.
    pub fn new(
        alloc: Global,
        capacity: u16,
        tunnel: Tunnel,
        device: D,
    ) -> Result<DatagramPort<D>, AllocError>
        requires { (0 < capacity) × (capacity ≤ 4096) }
        ensures tunnel { IfOk result (λ p. (p.tunnel ≡ tunnel) × (p.device ≡ device)) }
        ensures receiving { IfOk result (λ p. (pending p.inbox ≡ None) × (p.inbox.refusals ≡ no_refusals)
            × (p.inbox.failed ≡ 0)) }
        ensures sending { IfOk result (λ p. (p.outbox.unsent.items ≡ []) × (p.outbox.capacity ≡ capacity)
            × (p.outbox.shelved ≡ false) × (p.outbox.failed ≡ 0)) }
        ensures passed { IfOk result (λ p. (p.given.items ≡ []) × (p.taken.items ≡ [])) }
    {
        Ok(DatagramPort {
            tunnel,
            inbox: Inbox::new(alloc)?,
            outbox: Outbox::new(alloc, capacity)?,
            given: Past::new(),
            taken: Past::new(),
            device,
        })
    }

    /// Returns the counts of what the port dropped.
    pub fn drops(&self) -> Drops
        ensures refusals { result.refusals ≡ self.now.inbox.refusals }
        ensures failed { (result.failed_receives ≡ self.now.inbox.failed)
            × (result.failed_sends ≡ self.now.outbox.failed) }
        ensures errors { (result.receive_error ≡ self.now.inbox.error) × (result.send_error ≡ self.now.outbox.error) }
    {
        Drops {
            refusals: self.inbox.refusals(),
            failed_receives: self.inbox.failed(),
            receive_error: self.inbox.error(),
            failed_sends: self.outbox.failed(),
            send_error: self.outbox.error(),
        }
    }
}

impl<D: DatagramDevice + Drop> Port for DatagramPort<D> {
    ghost script = { λ p. None };

    ghost given = { λ p. p.given.items };

    ghost tally = { λ p. p.taken.items };

    ghost keeps_sent = { λ p. false };

    ghost waiting = { λ p. p.outbox.unsent.items };

    ghost capacity = { λ p. p.outbox.capacity };

    ghost ended = { λ p. None };

    ghost is_shelved = { λ p. p.outbox.shelved };

    ghost is_failed = { λ p. false };

    ghost failed = { λ p. 0 };

    /// Returns the frame of the next datagram that is not refused, after at most 64 receives. Refused datagrams and
    /// receives that fail are counted. Returns no ending.
    fn poll(&mut self) -> Polled
        ensures endless { PolledBy result None None × EndedBy result None None }
        ensures given { GivenBy result self.old.given.items self.new.given.items × (self.new.taken ≡ self.old.taken) }
        ensures next { PollsNext result self.old.tunnel (pending self.old.inbox) (pending self.new.inbox)
            (D.received self.old.device) (D.received self.new.device) self.old.inbox.refusals
            self.new.inbox.refusals }
        ensures sent { D.sent self.new.device ≡ D.sent self.old.device }
        ensures counts { CountsFailed self.old.inbox.failed self.new.inbox.failed (D.failed self.old.device)
            (D.failed self.new.device) }
        ensures kept { (self.new.outbox ≡ self.old.outbox) × (self.new.tunnel ≡ self.old.tunnel) }
    {
        let polled = self.inbox.poll(&self.tunnel, &mut self.device);
        if let Polled::Frame(frame) = &polled {
            self.given.note(frame);
        }
        polled
    }

    fn offer(&mut self, f: &Bytes) -> Offered
        requires { length f.now < 65536 }
        ensures offered { OfferedBy result f.now (self.old.outbox.shelved || false) self.old.outbox.capacity
            self.old.outbox.unsent.items self.new.outbox.unsent.items }
        ensures taken { TalliedBy result f.now self.old.taken.items self.new.taken.items
            × (self.new.given ≡ self.old.given) }
        ensures kept { (self.new.outbox.capacity ≡ self.old.outbox.capacity)
            × (self.new.outbox.shelved ≡ self.old.outbox.shelved)
            × (self.new.outbox.failed ≡ self.old.outbox.failed) }
        ensures others { (self.new.inbox ≡ self.old.inbox) × (self.new.device ≡ self.old.device)
            × (self.new.tunnel ≡ self.old.tunnel) }
    {
        let offered = self.outbox.offer(f);
        if offered == Offered::Taken {
            self.taken.note(f);
        }
        offered
    }

    /// Sends frames that wait, oldest first, each whole in a datagram, by at most 64 sends. A frame whose send fails is
    /// dropped. It is among those that `Wrote` counts. A pump returns no fault.
    fn pump(&mut self, _now: u32) -> Pumped
        ensures pumped { PumpedBy result self.old.outbox.unsent.items self.new.outbox.unsent.items false false 0 0 }
        ensures departs { Departs self.old.tunnel (sent_count result) self.old.outbox.unsent.items
            self.new.outbox.unsent.items (D.sent self.old.device) (D.sent self.new.device)
            (D.failed self.new.device - D.failed self.old.device) }
        ensures received { D.received self.new.device ≡ D.received self.old.device }
        ensures counts { CountsFailed self.old.outbox.failed self.new.outbox.failed (D.failed self.old.device)
            (D.failed self.new.device) }
        ensures kept { (self.new.outbox.capacity ≡ self.old.outbox.capacity)
            × (self.new.outbox.shelved ≡ self.old.outbox.shelved) }
        ensures others { (self.new.inbox ≡ self.old.inbox) × (self.new.tunnel ≡ self.old.tunnel)
            × (self.new.given ≡ self.old.given) × (self.new.taken ≡ self.old.taken) }
    {
        self.outbox.pump(&self.tunnel, &mut self.device)
    }

    fn unsent(&self) -> &VecDeque<Bytes> {
        self.outbox.unsent()
    }

    fn shelve(&mut self, home: &mut Shelf)
        requires { (home.old.unsent.items ≡ []) × (home.old.sent.items ≡ []) }
        ensures shelf { (home.new.unsent.items ≡ self.old.outbox.unsent.items) × (home.new.sent.items ≡ []) }
        ensures empty { (self.new.outbox.unsent.items ≡ []) × (self.new.outbox.shelved ≡ true) }
        ensures kept { (self.new.outbox.capacity ≡ self.old.outbox.capacity)
            × (self.new.outbox.failed ≡ self.old.outbox.failed) }
        ensures taken { (self.new.taken.items ≡ []) × (self.new.given ≡ self.old.given) }
        ensures others { (self.new.inbox ≡ self.old.inbox) × (self.new.device ≡ self.old.device)
            × (self.new.tunnel ≡ self.old.tunnel) }
    {
        self.taken = Past::new();
        self.outbox.shelve(home)
    }
}
