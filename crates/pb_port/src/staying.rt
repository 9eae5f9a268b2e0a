//! A port over a stream whose peers come and go.
ghost use Rattle.std.specs.Prelude.{◌≡◌, ◌^◌, ◌<◌, ◌≤◌, ◌||◌, ◌⊎◌, [], length, false, true, None, IfSome, IfNone};
ghost use Rattle.pb_port.specs.Held.{held};
ghost use Rattle.pb_port.specs.declared.framing.Framing.TheVariants.{Socket as socket_framing};
ghost use Rattle.pb_port.specs.declared.stream_position.StreamPosition.TheVariants.{Lengths as before_length};
ghost use Rattle.pb_port.specs.Ports.{PolledBy, GivenBy, OfferedBy, TalliedBy, EndedBy, PumpedBy, given_count};
ghost use Rattle.pb_port.specs.Reading.{held_sum};

use crate::answers::{Offered, Polled, Pumped, Shelf};
use crate::framing::{Framing, LengthField};
use crate::line::{Line, Parting};
use crate::passed::Passed;
use crate::port::Port;
use crate::reader::FrameReader;
use crate::sender::{Sender, counted};
use crate::stream_position::StreamPosition;
use bytes::Bytes;
use std::alloc::Global;
use std::collections::VecDeque;

/// A port over a stream of frames, as [`SocketPort`](crate::SocketPort) is one, that goes on with the next peer when
/// its peer leaves.
///
/// A peer leaves when its input ends, also within a frame, or when a read or a write fails. All frames that wait, the
/// one that was begun too, and those of which octets were read and that no poll returned are dropped and counted. The
/// port never ends, and no failed call of the device is a failure of the port.
#[derive(Drop)]
pub struct StayingPort<S> {
    framing: LengthField,
    frames: FrameReader,
    sender: Sender,
    passed: Passed,
    /// The number of frames that polls returned since the peer came.
    entered: u64,
    /// The number of frames that pumps sent since the peer came.
    left: u64,
    pub(crate) line: S,
    ghost unfailed: { sender.failed ≡ false },
    ghost few: { length sender.unsent.items ≤ sender.capacity },
    ghost bounded: { sender.capacity ≤ 4096 },
    ghost counted: { entered < 2 ^ 64 },
    ghost writes: { sender.framing ≡ socket_framing framing },
    ghost reads: { frames.position ≡ before_length framing },
}

impl<S: Line> StayingPort<S> {
    ghost use Rattle.pb_port.specs.Sending.{begun, SentBy};
    ghost use Rattle.pb_port.specs.Staying.{Stays, Leaves, LeavesAtWrite, IsNewSender};

    /// Returns a port before the first octet of its first peer in both directions. `capacity` is how many frames may
    /// wait, 1 to 4,096, and `framing` how many octets each length has, with every peer.
    pub fn new(alloc: Global, capacity: u16, framing: LengthField, line: S) -> StayingPort<S>
        requires { (0 < capacity) × (capacity ≤ 4096) }
        ensures reading { (held result.frames.intake ≡ []) × (result.frames.position ≡ StreamPosition.Lengths framing)
            × (result.frames.skipped ≡ 0) × (result.frames.ended ≡ None) }
        ensures writing { (result.sender.unsent.items ≡ []) × (begun result.sender ≡ []) × (result.sender.fresh ≡ true)
            × (result.sender.framing ≡ Framing.Socket framing) }
        ensures kept { (result.sender.capacity ≡ capacity) × (result.sender.shelved ≡ false) }
        ensures counts { (result.entered ≡ 0) × (result.left ≡ 0) }
        ensures line { (result.line ≡ line) × (result.framing ≡ framing) }
        ensures passed { (result.passed.given.items ≡ []) × (result.passed.taken.items ≡ []) }
    {
        StayingPort {
            framing,
            frames: FrameReader::new(alloc, StreamPosition::Lengths(framing)),
            sender: Sender::new(alloc, Framing::Socket(framing), capacity),
            passed: Passed::new(),
            entered: 0,
            left: 0,
            line,
        }
    }

    /// Leaves the peer, to which `sent` more frames were sent, and for which `dropped` frames waited. The sender is a
    /// new one.
    fn leave(&mut self, sent: usize, dropped: usize)
        requires { IsNewSender self.old.sender }
        ensures leaves { Leaves S.renews sent dropped self.old.line self.old self.new }
        ensures kept { (self.new.sender ≡ self.old.sender) × (self.new.passed ≡ self.old.passed) }
    {
        let unread = self.frames.begun_frames(self.framing);
        let parting = Parting {
            entered: self.entered,
            left: self.left.saturating_add(sent as u64),
            dropped: (dropped as u64).saturating_add(unread as u64),
        };
        self.frames.renew(StreamPosition::Lengths(self.framing));
        self.entered = 0;
        self.left = 0;
        self.line.renew(parting);
    }

    /// Drops the frames that wait, and leaves the peer.
    fn drop_waiting(&mut self) -> Pumped
        ensures pumped { PumpedBy result self.old.sender.unsent.items self.new.sender.unsent.items false false 0 0 }
        ensures leaves { Leaves S.renews 0 (length self.old.sender.unsent.items) self.old.line self.old self.new }
        ensures kept { (self.new.sender.capacity ≡ self.old.sender.capacity)
            × (self.new.sender.shelved ≡ self.old.sender.shelved) × (self.new.passed ≡ self.old.passed) }
    {
        let waiting = self.sender.unsent().len();
        self.sender.renew();
        self.leave(0, waiting);
        counted(waiting as u32)
    }

    /// Sends to the peer, and leaves it if a write fails.
    fn send(&mut self, now: u32) -> Pumped
        ensures pumped { PumpedBy result self.old.sender.unsent.items self.new.sender.unsent.items false false 0 0 }
        ensures octets { Stays S.written S.failed result now self.old self.new
            ⊎ LeavesAtWrite S.written S.failed S.renews now self.old self.new }
        ensures kept { (self.new.sender.capacity ≡ self.old.sender.capacity)
            × (self.new.sender.shelved ≡ self.old.sender.shelved) × (self.new.passed ≡ self.old.passed) }
    {
        let waiting = self.sender.unsent().len();
        let pumped = self.sender.pump(&mut self.line, u64::from(now));
        if self.sender.has_failed() {
            let rest = self.sender.unsent().len();
            self.sender.renew();
            self.leave(waiting - rest, rest);
            return Pumped::Wrote(waiting as u32);
        }
        self.left = self.left.saturating_add(pumped.sent_count());
        pumped
    }
}

impl<S: Line + Drop> Port for StayingPort<S> {
    ghost use Rattle.pb_port.specs.Polling.{PollsFrom, HoldsShort, CountsFrom};
    ghost use Rattle.pb_port.specs.Sending.{IsBegunAlike};
    ghost use Rattle.pb_port.specs.Staying.{heard, Stays, Leaves, LeavesAtWrite};

    ghost script = { λ p. None };

    ghost given = { λ p. p.passed.given.items };

    ghost tally = { λ p. p.passed.taken.items };

    ghost keeps_sent = { λ p. false };

    ghost waiting = { λ p. p.sender.unsent.items };

    ghost capacity = { λ p. p.sender.capacity };

    ghost ended = { λ p. None };

    ghost is_shelved = { λ p. p.sender.shelved };

    ghost is_failed = { λ p. false };

    ghost failed = { λ p. 0 };

    /// Returns the next frame of the peer, after at most 64 reads. Once the peer has left, returns `Nothing` without a
    /// read until the next pump.
    fn poll(&mut self) -> Polled
        ensures endless { PolledBy result None None × EndedBy result None None }
        ensures given { GivenBy result self.old.passed.given.items self.new.passed.given.items
            × (self.new.passed.taken ≡ self.old.passed.taken) }
        ensures octets { PollsFrom (heard result self.new.frames.ended) self.old.frames self.new.frames
            (S.unread self.old.line) (S.unread self.new.line) }
        ensures short { HoldsShort (heard result self.new.frames.ended) self.old.frames self.new.frames }
        ensures counts { CountsFrom (heard result self.new.frames.ended) self.old.frames
            (S.failed self.old.line) (S.failed self.new.line) }
        ensures ended { EndedBy (heard result self.new.frames.ended) self.old.frames.ended self.new.frames.ended }
        ensures left { IfSome self.new.frames.ended (λ _. result ≡ Polled.Nothing) }
        ensures entered { (self.new.entered ≡ held_sum self.old.entered (given_count result))
            × (self.new.sender ≡ self.old.sender) × (self.new.left ≡ self.old.left) }
    {
        let answer = self.frames.poll(&mut self.line);
        match self.frames.ending() {
            Some(_) => Polled::Nothing,
            None => {
                self.entered = self.entered.saturating_add(answer.given_count());
                self.passed.note_poll(&answer);
                answer
            }
        }
    }

    fn offer(&mut self, f: &Bytes) -> Offered
        requires { length f.now < 65536 }
        ensures offered { OfferedBy result f.now (self.old.sender.shelved || false) self.old.sender.capacity
            self.old.sender.unsent.items self.new.sender.unsent.items }
        ensures passed { TalliedBy result f.now self.old.passed.taken.items self.new.passed.taken.items
            × (self.new.passed.given ≡ self.old.passed.given) }
        ensures begun { IsBegunAlike self.old.sender self.new.sender }
        ensures kept { (self.new.sender.capacity ≡ self.old.sender.capacity)
            × (self.new.sender.shelved ≡ self.old.sender.shelved) }
        ensures others { (self.new.frames ≡ self.old.frames) × (self.new.line ≡ self.old.line)
            × (self.new.entered ≡ self.old.entered) × (self.new.left ≡ self.old.left) }
    {
        let offered = self.sender.offer(f);
        self.passed.note_offer(offered, f);
        offered
    }

    /// Sends frames that wait to the peer, oldest first, by at most 64 writes. If the peer has left, or leaves because
    /// a write fails, drops all frames that wait and goes on with the next peer. The frames that were dropped are
    /// among those that `Wrote` counts.
    fn pump(&mut self, now: u32) -> Pumped
        ensures pumped { PumpedBy result self.old.sender.unsent.items self.new.sender.unsent.items false false 0 0 }
        ensures left { IfSome self.old.frames.ended (λ _. Leaves S.renews 0 (length self.old.sender.unsent.items)
            self.old.line self.old self.new) }
        ensures here { IfNone self.old.frames.ended (Stays S.written S.failed result now self.old self.new
            ⊎ LeavesAtWrite S.written S.failed S.renews now self.old self.new) }
        ensures kept { (self.new.sender.capacity ≡ self.old.sender.capacity)
            × (self.new.sender.shelved ≡ self.old.sender.shelved) × (self.new.passed ≡ self.old.passed) }
    {
        match self.frames.ending() {
            Some(_) => self.drop_waiting(),
            None => self.send(now),
        }
    }

    fn unsent(&self) -> &VecDeque<Bytes> {
        self.sender.unsent()
    }

    fn shelve(&mut self, home: &mut Shelf)
        requires { (home.old.unsent.items ≡ []) × (home.old.sent.items ≡ []) }
        ensures shelf { (home.new.unsent.items ≡ self.old.sender.unsent.items) × (home.new.sent.items ≡ []) }
        ensures empty { (self.new.sender.unsent.items ≡ []) × (self.new.sender.shelved ≡ true) }
        ensures kept { self.new.sender.capacity ≡ self.old.sender.capacity }
        ensures passed { (self.new.passed.taken.items ≡ []) × (self.new.passed.given ≡ self.old.passed.given) }
        ensures others { (self.new.frames ≡ self.old.frames) × (self.new.line ≡ self.old.line)
            × (self.new.entered ≡ self.old.entered) × (self.new.left ≡ self.old.left) }
    {
        self.passed.note_shelf();
        self.sender.shelve(home)
    }
}
