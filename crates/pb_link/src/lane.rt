//! One direction of a link, as a place of a network.

ghost use Rattle.std.specs.Option.{option_copied};
ghost use Rattle.std.specs.Prelude.{◌≡◌, ◌<◌, [], length, true, false, Some, IfOk, IsOk, OnOk, OnErr, if◌then◌else◌};
ghost use Rattle.pb_lan.specs.LaneLists.{IsLawfulLane};
ghost use Rattle.pb_frame.specs.Lists.{Rises};
ghost use Rattle.pb_lan.specs.declared.step.Step.TheVariants.{Put};
ghost use Rattle.pb_link.specs.Holdings.{holding_of};
ghost use Rattle.pb_link.specs.Lanes.{at_start, with_step, taking, is_hand_empty, in_hand, HasPut, HasTaken, HasSent};
ghost use Rattle.rtrb.specs.Ring.{sent, received, known_free, known_items, SameProducer, SameConsumer};

use crate::holding::Holding;
use crate::losses::Losses;
use crate::steps::append;
use pb_frame::{Memory, Seq};
use pb_history::{Steps, Tally};
use pb_lan::{Item, Step};
use rtrb::{Consumer, Producer};
use std::alloc::{AllocError, Global};
use std::marker::Model;

/// A lane of a plan: one direction of a link, which is a point-to-point LAN between two bridges (IEEE 802.1D-2004
/// clause 6.4.3). It takes items from the bridge at its beginning, loses those that the plan loses, and puts the others
/// before the bridge at its end. It holds at most one item, taken and not yet put.
///
/// Contracts see the numbers of the items that it loses, the list of its steps, whether the steps are kept in memory or
/// only counted, and whether one more step is reserved.
#[derive(Drop)]
pub struct Lane {
    losses: Losses,
    steps: Steps,
    hand: Holding,
}

impl Model for Lane {
    ghost use Rattle.pb_link.specs.Holdings.{HasRoom};
    ghost use Rattle.pb_link.specs.Lanes.{LaneView, IsLaneKept};

    ghost Value = { LaneView };

    ghost view = { λ l. record {
      losses = l.losses.numbers;
      steps = l.steps.steps;
      is_kept = l.steps.is_kept;
      is_reserved = l.steps.is_reserved;
    } };

    ghost invariant = { λ l. IsLaneKept l.losses.numbers l.steps.steps l.steps.is_kept l.hand l.losses.taken
        × HasRoom l.steps.steps l.steps.is_reserved };
}

/// Returns what is in hand after a Take step at index `place`, or after one that was given back.
fn hand_of(is_lost: bool, place: usize, back: Option<Step>) -> Holding
    ensures { result ≡ (if is_lost then Holding.Nothing else holding_of place back) }
{
    if is_lost {
        return Holding::Nothing;
    }
    Holding::of(place, back)
}

/// Returns the lane that loses the items of these numbers, with this empty list of steps.
fn started(losses: Seq<u64>, steps: Steps) -> Lane
    requires rising { Rises losses }
    requires none { steps.steps ≡ [] }
    requires unreserved { steps.is_reserved ≡ false }
    ensures { result ≡ at_start losses steps.is_kept }
{
    Lane {
        losses: Losses::new(losses),
        steps,
        hand: Holding::Nothing,
    }
}

impl Lane {
    /// Returns the lane that loses the items of these numbers, and has taken no step. The numbers rise, and the first
    /// item that the lane takes has number 0. It keeps each step. Allocates nothing.
    pub fn new(alloc: Global, losses: Seq<u64>) -> Lane
        requires { Rises losses }
        ensures { result ≡ at_start losses true }
    {
        started(losses, Steps::kept(alloc))
    }

    /// Returns the lane that loses the items of these numbers, and has taken no step. It only counts its steps: its
    /// memory does not grow with them. Allocates nothing.
    pub fn counting(alloc: Global, losses: Seq<u64>) -> Lane
        requires { Rises losses }
        ensures { result ≡ at_start losses false }
    {
        started(losses, Steps::counted(alloc))
    }

    /// Returns the steps that are kept. The slice is empty if steps are only counted.
    pub fn steps(&self) -> &[Step]
        ensures steps { self.now.is_kept ≡ true → result.now ≡ self.now.steps }
        ensures lawful { IsLawfulLane self.now.losses self.now.steps }
    {
        self.steps.as_slice()
    }

    /// Returns the counts of the steps.
    pub fn tally(&self) -> &Tally
        ensures { result.now ≡ self.now.steps }
    {
        self.steps.tally()
    }

    /// Returns the number of steps, kept or counted.
    #[inline(always)]
    pub fn step_count(&self) -> u64
        ensures { result ≡ length self.now.steps }
    {
        self.steps.len()
    }

    /// Returns the steps, kept or counted, and drops the rest of the lane. Allocates nothing.
    pub fn into_steps(self) -> Steps
        ensures steps { result.steps ≡ self.steps }
        ensures kept { result.is_kept ≡ self.is_kept }
        ensures lawful { IsLawfulLane self.losses self.steps }
    {
        let Lane {
            losses: _,
            steps,
            hand: _,
        } = self;
        steps
    }

    /// Reserves one step, which the next step uses up. Returns `Ok` at once if one is reserved.
    ///
    /// # Errors
    ///
    /// `Memory` if the allocation failed, or if 2^64-1 steps were taken. The lane is unchanged then. A lane that only
    /// counts its steps fails in the second case alone.
    pub fn reserve(&mut self) -> Result<(), Memory>
        ensures ok { OnOk result (self.new ≡ record self.old { is_reserved = true }) }
        ensures err { OnErr result (self.new ≡ self.old) }
        ensures reserved { self.old.is_reserved ≡ true → IsOk result }
        ensures counted { self.old.is_kept ≡ false → length self.old.steps < u64.MAX → IsOk result }
    {
        if self.steps.len() == u64::MAX {
            return Err(Memory);
        }
        self.steps.reserve()
    }

    /// Checks whether no item is in hand.
    pub fn is_hand_empty(&self) -> bool
        ensures { result ≡ is_hand_empty self.now.steps }
    {
        self.hand.is_nothing()
    }

    /// Returns the item in hand: taken, not lost, and not yet put.
    pub fn hand(&self) -> Option<&Item>
        ensures { option_copied result ≡ in_hand self.now.steps }
    {
        self.hand.item(self.steps.as_slice())
    }

    /// Takes an item. It is in hand then, unless the plan loses it. Allocates nothing.
    pub fn accept(&mut self, item: Item)
        requires reserved { self.old.is_reserved ≡ true }
        requires empty { is_hand_empty self.old.steps ≡ true }
        ensures step { self.new ≡ with_step self.old (taking self.old item) }
        ensures lawful { IsLawfulLane self.new.losses self.new.steps }
    {
        let number = self.losses.number();
        let lost = self.losses.take();
        let place = self.steps.len() as usize;
        let back = self.steps.append(Step::Take { number, item, lost });
        self.hand = hand_of(lost, place, back);
    }

    /// Returns the item in hand, for the bridge at the end, and appends a Put step. The hand is empty then.
    ///
    /// # Errors
    ///
    /// `Memory` if no step could be reserved, or if steps are kept and an allocation for the item's two copies, which
    /// share its octets, failed. The item is still in hand then.
    pub fn release(&mut self) -> Result<Item, Memory>
        requires { is_hand_empty self.old.steps ≡ false }
        ensures ok { IfOk result (λ item. HasPut self.old item self.new) }
        ensures err { OnErr result (self.new ≡ self.old) }
        ensures counted { self.old.is_kept ≡ false → self.old.is_reserved ≡ true → IsOk result }
        ensures lawful { IsLawfulLane self.new.losses self.new.steps }
    {
        if !self.steps.are_kept() {
            self.reserve()?;
            return Ok(self.put_held());
        }
        let told = self.copy_in_hand()?;
        let given = self.copy_in_hand()?;
        self.reserve()?;
        self.note_put(told);
        Ok(given)
    }

    /// Takes the oldest item off a ring. Returns `false`, and changes nothing, if an item is in hand or the ring is
    /// empty. The other end of the ring may send an item at any time.
    ///
    /// # Errors
    ///
    /// `Memory` if no step could be reserved. Nothing is changed then.
    pub fn take(&mut self, from: &mut Consumer<Item>) -> Result<bool, Memory>
        ensures taken { HasTaken result self.old (received from.old)
            (known_items from.new) self.new (received from.new) }
        ensures ring { SameConsumer from.old from.new }
        ensures reserved { self.old.is_reserved ≡ true → IsOk result }
        ensures lawful { IsLawfulLane self.new.losses self.new.steps }
    {
        let _steps = &self.steps;
        if !self.is_hand_empty() || from.is_empty() {
            return Ok(false);
        }
        self.reserve()?;
        self.accept(from.pop_known());
        Ok(true)
    }

    /// Puts the item in hand onto a ring. Returns `false`, and changes nothing, if no item is in hand or the ring is
    /// full. The other end of the ring may free a slot at any time.
    ///
    /// # Errors
    ///
    /// `Memory` if no step could be reserved, or if steps are kept and an allocation for the item's two copies, which
    /// share its octets, failed. Nothing is changed then.
    pub fn put(&mut self, to: &mut Producer<Item>) -> Result<bool, Memory>
        ensures put { HasSent result self.old (sent to.old) (known_free to.new) self.new (sent to.new) }
        ensures ring { SameProducer to.old to.new }
        ensures counted { self.old.is_kept ≡ false → self.old.is_reserved ≡ true → IsOk result }
        ensures lawful { IsLawfulLane self.new.losses self.new.steps }
    {
        let _steps = &self.steps;
        if self.is_hand_empty() || to.is_full() {
            return Ok(false);
        }
        to.push_reserved(self.release()?);
        Ok(true)
    }

    /// Returns a copy of the item in hand. It shares the octets of the item.
    ///
    /// # Errors
    ///
    /// `Memory` if the allocation failed.
    fn copy_in_hand(&self) -> Result<Item, Memory>
        requires { is_hand_empty self.now.steps ≡ false }
        ensures { IfOk result (λ item. in_hand self.now.steps ≡ Some item) }
    {
        let Some(item) = self.hand() else {
            unreachable!();
        };
        Ok(item.clone()?)
    }

    /// Appends the step that puts the item in hand, and empties the hand.
    fn note_put(&mut self, item: Item)
        requires reserved { self.old.is_reserved ≡ true }
        requires held { in_hand self.old.steps ≡ Some item }
        ensures step { self.new ≡ with_step self.old (Put item) }
        ensures lawful { IsLawfulLane self.new.losses self.new.steps }
    {
        self.hand = Holding::Nothing;
        append(&mut self.steps, Step::Put { item });
    }

    /// Returns the item in hand and appends its Put step, if steps are only counted. Allocates nothing.
    fn put_held(&mut self) -> Item
        requires reserved { self.old.is_reserved ≡ true }
        requires full { is_hand_empty self.old.steps ≡ false }
        requires counted { self.old.is_kept ≡ false }
        ensures put { HasPut self.old result self.new }
        ensures lawful { IsLawfulLane self.new.losses self.new.steps }
    {
        let item = self.hand.take();
        match self.steps.append(Step::Put { item }) {
            Some(Step::Put { item }) => item,
            _ => unreachable!(),
        }
    }
}

/// The copy is equal.
impl Clone for Lane {
    ghost is_clone = { λ lane copy. copy ≡ lane };

    fn clone(&self) -> Result<Lane, AllocError> {
        let losses = self.losses.clone()?;
        let steps = self.steps.clone()?;
        Ok(Lane {
            losses,
            steps,
            hand: self.hand.clone()?,
        })
    }
}
