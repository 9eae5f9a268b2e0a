//! A customer port as a place of a network.

ghost use Rattle.std.specs.Prelude.{◌≡◌, ◌<◌, [], length, true, false, IfOk, IsOk, OnOk, OnErr};
ghost use Rattle.pb_lan.specs.Events.{is_hand_empty};
ghost use Rattle.pb_lan.specs.PortLists.{IsLawfulPort};
ghost use Rattle.pb_lan.specs.declared.step.Step.TheVariants.{Poll, Feed, Deliver};
ghost use Rattle.pb_link.specs.Hands.{arrival, at_start, with_step, HasFed, IsInHand};

use crate::holding::Holding;
use crate::steps::append;
use bytes::Bytes;
use pb_frame::Memory;
use pb_history::Steps;
use pb_lan::{FrameNumber, Item, Mark, Step};
use std::alloc::{AllocError, Global};
use std::marker::Model;

/// A customer port of a plan (IEEE 802.1Q clause 15.3). It polls frames, feeds them to its bridge one after the other,
/// and delivers what its bridge sends to it. It holds at most one frame, polled and not yet fed.
///
/// Contracts see its number, the list of its steps, whether the steps are kept in memory or only counted, and whether
/// one more step is reserved.
#[derive(Drop)]
pub struct CustomerPlace {
    number: u8,
    steps: Steps,
    hand: Holding,
    polls: u64,
}

impl Model for CustomerPlace {
    ghost use Rattle.pb_link.specs.Hands.{PlaceView, IsPortKept};
    ghost use Rattle.pb_link.specs.Holdings.{HasRoom};

    ghost Value = { PlaceView };

    ghost view = { λ p. record {
      number = p.number;
      steps = p.steps.steps;
      is_kept = p.steps.is_kept;
      is_reserved = p.steps.is_reserved;
    } };

    ghost invariant = { λ p. IsPortKept p.number p.steps.steps p.steps.is_kept p.hand p.polls
        × HasRoom p.steps.steps p.steps.is_reserved };
}

/// Returns the customer port of this number with this empty list of steps.
fn started(number: u8, steps: Steps) -> CustomerPlace
    requires none { steps.steps ≡ [] }
    requires unreserved { steps.is_reserved ≡ false }
    ensures { result ≡ at_start number steps.is_kept }
{
    CustomerPlace {
        number,
        steps,
        hand: Holding::Nothing,
        polls: 0,
    }
}

impl CustomerPlace {
    /// Returns the customer port of this number, which has taken no step. It keeps each step. Allocates nothing.
    pub fn new(alloc: Global, number: u8) -> CustomerPlace
        ensures { result ≡ at_start number true }
    {
        started(number, Steps::kept(alloc))
    }

    /// Returns the customer port of this number, which has taken no step. It only counts its steps: its memory does not
    /// grow with them. Allocates nothing.
    pub fn counting(alloc: Global, number: u8) -> CustomerPlace
        ensures { result ≡ at_start number false }
    {
        started(number, Steps::counted(alloc))
    }

    /// Returns the steps that are kept. The slice is empty if steps are only counted.
    pub fn steps(&self) -> &[Step]
        ensures steps { self.now.is_kept ≡ true → result.now ≡ self.now.steps }
        ensures lawful { IsLawfulPort self.now.number self.now.steps }
    {
        self.steps.as_slice()
    }

    /// Returns the number of steps, kept or counted.
    #[inline(always)]
    pub fn step_count(&self) -> u64
        ensures { result ≡ length self.now.steps }
    {
        self.steps.len()
    }

    /// Returns the steps, kept or counted, and drops the rest of the port. Allocates nothing.
    pub fn into_steps(self) -> Steps
        ensures steps { result.steps ≡ self.steps }
        ensures kept { result.is_kept ≡ self.is_kept }
        ensures lawful { IsLawfulPort self.number self.steps }
    {
        let CustomerPlace {
            number: _,
            steps,
            hand: _,
            polls: _,
        } = self;
        steps
    }

    /// Reserves one step, which the next step uses up. Returns `Ok` at once if one is reserved.
    ///
    /// # Errors
    ///
    /// `Memory` if the allocation failed, or if 2^64-1 steps were taken. The port is unchanged then. A port that only
    /// counts its steps fails in the second case alone.
    pub fn reserve_step(&mut self) -> Result<(), Memory>
        ensures ok { OnOk result (self.new ≡ record self.old { is_reserved = true }) }
        ensures err { OnErr result (self.new ≡ self.old) }
        ensures reserved { self.old.is_reserved ≡ true → IsOk result }
        ensures counted { self.old.is_kept ≡ false → length self.old.steps < u64.MAX → IsOk result }
    {
        if self.steps.len() == u64::MAX {
            return Err(Memory);
        }
        self.steps.reserve()
    }

    /// Checks whether no frame is in hand.
    pub fn is_hand_empty(&self) -> bool
        ensures { result ≡ is_hand_empty self.now.steps }
    {
        self.hand.is_nothing()
    }

    /// Takes a frame in from outside. It gets the port's next mark and is in hand then. Allocates nothing.
    pub fn poll(&mut self, frame: Bytes)
        requires reserved { self.old.is_reserved ≡ true }
        requires empty { is_hand_empty self.old.steps ≡ true }
        ensures step { self.new ≡ with_step self.old (Poll (arrival self.old frame)) }
        ensures lawful { IsLawfulPort self.new.number self.new.steps }
    {
        let item = Item {
            mark: Some(Mark {
                port: self.number,
                number: FrameNumber::new(self.polls),
            }),
            hops: 0,
            wire: frame,
        };
        let place = self.steps.len() as usize;
        let back = self.steps.append(Step::Poll { item });
        self.hand = Holding::of(place, back);
        self.polls += 1;
    }

    /// Returns the frame in hand, for the bridge, and appends a Feed step. The hand is empty then. Allocates nothing if
    /// steps are only counted.
    ///
    /// # Errors
    ///
    /// `Memory` if steps are kept and an allocation for the frame's two copies, which share its octets, failed. The
    /// frame is still in hand then.
    pub fn feed(&mut self) -> Result<Item, Memory>
        requires reserved { self.old.is_reserved ≡ true }
        requires full { is_hand_empty self.old.steps ≡ false }
        ensures ok { IfOk result (λ item. HasFed self.old item self.new) }
        ensures err { OnErr result (self.new ≡ self.old) }
        ensures counted { self.old.is_kept ≡ false → IsOk result }
        ensures lawful { IsLawfulPort self.new.number self.new.steps }
    {
        if !self.steps.are_kept() {
            return Ok(self.feed_held());
        }
        let told = self.copy_in_hand()?;
        let given = self.copy_in_hand()?;
        self.note_feed(told);
        Ok(given)
    }

    /// Appends the step of an item from the bridge that was offered outside. `gone` says that the port takes no more
    /// frames. Allocates nothing.
    pub fn deliver(&mut self, item: Item, gone: bool)
        requires { self.old.is_reserved ≡ true }
        ensures step { self.new ≡ with_step self.old (Deliver item gone) }
        ensures lawful { IsLawfulPort self.new.number self.new.steps }
    {
        append(&mut self.steps, Step::Deliver { item, gone });
    }

    /// Returns a copy of the frame in hand. It shares the octets of the frame.
    ///
    /// # Errors
    ///
    /// `Memory` if the allocation failed.
    fn copy_in_hand(&self) -> Result<Item, Memory>
        requires { is_hand_empty self.now.steps ≡ false }
        ensures { IfOk result (IsInHand self.now.steps) }
    {
        let Some(item) = self.hand.item(self.steps.as_slice()) else {
            unreachable!();
        };
        Ok(item.clone()?)
    }

    /// Appends the step that feeds the frame in hand, and empties the hand.
    fn note_feed(&mut self, item: Item)
        requires reserved { self.old.is_reserved ≡ true }
        requires held { IsInHand self.old.steps item }
        ensures step { self.new ≡ with_step self.old (Feed item) }
        ensures lawful { IsLawfulPort self.new.number self.new.steps }
    {
        self.hand = Holding::Nothing;
        append(&mut self.steps, Step::Feed { item });
    }

    /// Returns the frame in hand and appends its Feed step, if steps are only counted. Allocates nothing.
    fn feed_held(&mut self) -> Item
        requires reserved { self.old.is_reserved ≡ true }
        requires full { is_hand_empty self.old.steps ≡ false }
        requires counted { self.old.is_kept ≡ false }
        ensures fed { HasFed self.old result self.new }
        ensures lawful { IsLawfulPort self.new.number self.new.steps }
    {
        let item = self.hand.take();
        match self.steps.append(Step::Feed { item }) {
            Some(Step::Feed { item }) => item,
            _ => unreachable!(),
        }
    }
}

/// The copy is equal.
impl Clone for CustomerPlace {
    ghost is_clone = { λ port copy. copy ≡ port };

    fn clone(&self) -> Result<CustomerPlace, AllocError> {
        let steps = self.steps.clone()?;
        Ok(CustomerPlace {
            number: self.number,
            steps,
            hand: self.hand.clone()?,
            polls: self.polls,
        })
    }
}
