//! A tape: a port that writes the frames that cross a link.

ghost use Rattle.std.specs.Prelude.{◌≡◌, ◌++◌, ◌∷◌, [], ◌↔◌, IsTrue, false, true, None, Some, option_to_list};
ghost use Rattle.rtrb.specs.Ring.{sent};
ghost use Rattle.pb_frame.specs.Lists.{IsBeginning};
ghost use Rattle.pb_tap.specs.Crossings.{over, wires_of, IsPairOf};

use crate::crossing::Crossing;
use crate::feeder::Feeder;
use bytes::Bytes;
use pb_frame::Memory;
use pb_lan::Past;
use pb_port::{Offered, Port, PortFault, Pumped};
use rtrb::Consumer;

/// The number of frames that one call passes to the port at most.
const STEPS: u8 = 8;

/// The number of frames that wait in the port before it writes, unless nothing else is to do.
const PART: usize = 32;

/// A port that writes the frames that cross a link. It has the frames of its own lane and, if it records both
/// directions, those of the lane back, which come over a ring.
///
/// Contracts see the frames that it was given, of both directions in order (`seen`), those that the port took
/// (`taken`), and those that it did not (`rest`): the one in hand, unless the port is gone.
#[derive(Drop)]
pub struct Tape<P> {
    /// The port that writes.
    pub port: P,
    /// Whether the port takes no more frames: a write of it failed, or a frame had more than 65,535 octets.
    pub is_gone: bool,
    /// The number of frames that the port did not take because it was gone.
    pub missed: u64,
    /// The ring from the lane back, if both directions are recorded.
    from: Option<Consumer<Bytes>>,
    /// The frame that the port has not taken yet.
    hand: Option<Crossing>,
    /// The frames that crossed, for contracts alone.
    pub seen: Past<Crossing>,
    /// The frames that the port took, for contracts alone.
    pub taken: Past<Crossing>,
    /// The frames that crossed and that the port did not take, for contracts alone.
    pub rest: Past<Crossing>,
    pub ghost parts: { taken.items ++ rest.items ≡ seen.items },
    pub ghost whole: { is_gone ≡ false → rest.items ≡ option_to_list hand },
    pub ghost others: { wires_of false seen.items ≡ over from },
}

/// Takes a frame in the empty hand. Allocates nothing.
fn take_in(
    hand: &mut Option<Crossing>,
    seen: &mut Past<Crossing>,
    rest: &mut Past<Crossing>,
    next: Crossing,
)
    ensures hand { hand.new ≡ Some next }
    ensures seen { seen.new.items ≡ seen.old.items ++ next ∷ [] }
    ensures rest { rest.new.items ≡ rest.old.items ++ next ∷ [] }
{
    seen.note(&next);
    rest.note(&next);
    *hand = Some(next);
}

impl<P> Tape<P> {
    /// Returns a tape over a port, on which nothing is recorded yet. `from` is the ring from the lane back, which
    /// nothing has passed. Allocates nothing.
    pub fn new(port: P, from: Option<Consumer<Bytes>>) -> Tape<P>
        requires { over from ≡ [] }
        ensures seen { result.seen.items ≡ [] }
        ensures port { result.port ≡ port }
        ensures from { result.from ≡ from }
    {
        Tape {
            port,
            is_gone: false,
            missed: 0,
            from,
            hand: None,
            seen: Past::new(),
            taken: Past::new(),
            rest: Past::new(),
        }
    }

    /// Checks whether no frame waits for the port to take it.
    pub(crate) fn has_room(&self) -> bool
        ensures { IsTrue result ↔ (self.now.hand ≡ None) }
    {
        match &self.hand {
            None => true,
            Some(_) => false,
        }
    }

    /// Takes a frame of the own direction. Allocates nothing.
    #[tactic(auto, using(crate::proofs::Past::own_more, crate::proofs::Past::own_off, crate::proofs::Past::parts_on))]
    pub(crate) fn accept(&mut self, wire: Bytes)
        requires { self.old.hand ≡ None }
        ensures { wires_of true self.new.seen.items ≡ wires_of true self.old.seen.items ++ wire ∷ [] }
    {
        let next = Crossing { is_own: true, wire };
        take_in(&mut self.hand, &mut self.seen, &mut self.rest, next);
    }

    /// Takes the next frame of the other direction, if there is one. Returns whether there is. Allocates nothing.
    #[tactic(auto, using(crate::proofs::Past::other_on, crate::proofs::Past::other_off, crate::proofs::Past::parts_on))]
    fn fetch(&mut self) -> bool
        requires { self.old.hand ≡ None }
        ensures own { wires_of true self.new.seen.items ≡ wires_of true self.old.seen.items }
        ensures port { (self.new.port ≡ self.old.port) × (self.new.taken ≡ self.old.taken) }
    {
        let Some(from) = &mut self.from else {
            return false;
        };
        let Ok(wire) = from.pop() else {
            return false;
        };
        let is_own = false;
        take_in(
            &mut self.hand,
            &mut self.seen,
            &mut self.rest,
            Crossing { is_own, wire },
        );
        true
    }

    /// Returns the number of frames that are on the ring from the lane back.
    fn on_ring(&mut self) -> u64
        ensures { self.new.seen ≡ self.old.seen }
    {
        match &mut self.from {
            Some(from) => from.slots() as u64,
            None => 0,
        }
    }
}

impl<P: Port> Tape<P> {
    ghost use Rattle.pb_tap.specs.Takings.{Takes};

    /// Offers the port the frame in hand. Returns whether there was one that is no longer there.
    ///
    /// # Errors
    ///
    /// `Memory` if an allocation failed. The frame is still in hand then.
    #[tactic(auto, using(crate::proofs::Past::shifted, crate::proofs::Past::took_none, crate::proofs::Past::took_one))]
    fn hand_on(&mut self) -> Result<bool, Memory>
        ensures seen { self.new.seen ≡ self.old.seen }
        ensures takes { Takes P.tally self.old self.new }
    {
        let Some(next) = self.hand.take() else {
            return Ok(false);
        };
        if self.is_gone || next.wire.len() >= 65_536 {
            self.is_gone = true;
            self.missed = self.missed.saturating_add(1);
            return Ok(true);
        }
        match self.port.offer(&next.wire) {
            Offered::Taken => {
                self.taken.note(&next);
                self.rest = Past::new();
                Ok(true)
            }
            Offered::Gone => {
                self.is_gone = true;
                self.missed = self.missed.saturating_add(1);
                Ok(true)
            }
            Offered::Full => {
                self.hand = Some(next);
                Ok(false)
            }
            Offered::Memory => {
                self.hand = Some(next);
                Err(Memory)
            }
        }
    }

    /// Passes one frame to the port, of either direction. Returns whether it did.
    ///
    /// # Errors
    ///
    /// `Memory` if an allocation failed. The frame is in hand then.
    #[tactic(auto, using(crate::proofs::Past::took_none, crate::proofs::Past::takes_after))]
    fn step(&mut self) -> Result<bool, Memory>
        ensures own { wires_of true self.new.seen.items ≡ wires_of true self.old.seen.items }
        ensures takes { Takes P.tally self.old self.new }
    {
        if self.has_room() && !self.fetch() {
            return Ok(false);
        }
        self.hand_on()
    }

    /// Lets the port write what waits in it, at this number of ticks. Returns whether frames left.
    ///
    /// # Errors
    ///
    /// `Memory` if an allocation failed.
    #[tactic(auto, using(crate::proofs::Past::took_none))]
    fn pump(&mut self, now: u32) -> Result<bool, Memory>
        ensures seen { self.new.seen ≡ self.old.seen }
        ensures takes { Takes P.tally self.old self.new }
    {
        match self.port.pump(now) {
            Pumped::Wrote(_) => Ok(true),
            Pumped::Fault(PortFault::Memory) => Err(Memory),
            _ => Ok(false),
        }
    }

    /// Passes frames to the port, at most as many as one call does. Returns whether a frame moved.
    ///
    /// # Errors
    ///
    /// `Memory` if an allocation failed. The next call goes on.
    #[tactic(auto, using(crate::proofs::Past::took_none, crate::proofs::Past::takes_both))]
    fn pass_on(&mut self) -> Result<bool, Memory>
        ensures own { wires_of true self.new.seen.items ≡ wires_of true self.old.seen.items }
        ensures takes { Takes P.tally self.old self.new }
    {
        let mut has_moved = false;
        for steps in 0..STEPS {
            if !self.step()? {
                return Ok(has_moved);
            }
            has_moved = true;
        }
        Ok(has_moved)
    }

    /// Passes frames to the port, and lets it write at this number of ticks if nothing else is to do or enough frames
    /// wait. Returns whether a frame moved.
    ///
    /// # Errors
    ///
    /// `Memory` if an allocation failed. The next call goes on.
    #[tactic(auto, using(crate::proofs::Past::takes_both))]
    pub fn record(&mut self, now: u32, is_idle: bool) -> Result<bool, Memory>
        ensures own { wires_of true self.new.seen.items ≡ wires_of true self.old.seen.items }
        ensures takes { Takes P.tally self.old self.new }
    {
        let has_moved = self.pass_on()?;
        if !is_idle && self.has_room() && self.port.unsent().len() < PART {
            return Ok(has_moved);
        }
        Ok(self.pump(now)? || has_moved)
    }

    /// Checks whether nothing waits in the tape, and nothing can come over a ring.
    pub(crate) fn may_sleep(&self) -> bool {
        self.has_room() && self.from.is_none() && self.port.unsent().is_empty()
    }

    /// Returns the number of frames that crossed in a recorded direction and are not written, at most the greatest
    /// `u64`.
    pub fn unwritten(&mut self) -> u64
        ensures { self.new.seen ≡ self.old.seen }
    {
        let waiting = self.port.unsent().len() as u64;
        let held = u64::from(!self.has_room());
        let rest = waiting.saturating_add(held).saturating_add(self.on_ring());
        self.missed.saturating_add(rest)
    }
}

/// Shows, once both are in one thread, that the frames of the other direction on a tape are a beginning of those that
/// the lane back sent. It moves no frame.
pub fn meet<P>(tape: &mut Tape<P>, feeder: &mut Feeder)
    requires { IsPairOf tape.old.from feeder.old.to }
    ensures begins { IsBeginning (wires_of false tape.new.seen.items) (sent feeder.new.to) }
    ensures tape { (tape.new.seen ≡ tape.old.seen) × (tape.new.taken ≡ tape.old.taken) }
    ensures feeder { sent feeder.new.to ≡ sent feeder.old.to }
{
    let Some(from) = &mut tape.from else {
        return;
    };
    from.slots_beside(&mut feeder.to);
}
