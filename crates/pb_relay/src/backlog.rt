//! The queues at the local ports of a bridge.

ghost use Rattle.std.specs.Option.{option_copied};
ghost use Rattle.std.specs.Prelude.{◌≡◌, ◌<◌, ◌≤◌, [], length, IfOk, OnOk, OnErr, replicate, slice_index_or, None};
ghost use Rattle.pb_lan.specs.Queues.{own_class};
ghost use Rattle.pb_lan.specs.declared.plan.Queues.TheVariants.{PerClass};
ghost use Rattle.pb_relay.specs.Bpdus.{word_of};
ghost use Rattle.pb_relay.specs.Classes.{no_items, number_in, put_in, placed, put_alone, first_out, after_first};
ghost use Rattle.pb_relay.specs.Copies.{item_with};
ghost use Rattle.pb_relay.specs.Departures.{departure};
ghost use Rattle.pb_relay.specs.Backlogs.{at_place, with_port, is_full_at, older_in, HasEnqueued, empty_backlog};
ghost use Rattle.pb_relay.specs.Backlogs.{word_for};

mod copying;

use crate::departure::Departure;
use crate::queues::PortQueues;
use bytes::Bytes;
use pb_frame::Memory;
use pb_lan::{Item, Mark, NoRoom, Queues};
use std::alloc::Global;
use std::marker::Model;

/// The highest traffic class (IEEE 802.1Q clause 6.9.4).
const HIGHEST: u8 = 7;

/// How many items may wait at a port.
#[derive(Clone, Copy)]
pub struct Capacity {
    /// What the number counts.
    pub queues: Queues,
    /// The most items, at most 4,096.
    pub most: usize,
}

/// The queues at the local ports of a bridge.
///
/// If the bridge keeps its steps, each item is queued twice. The Transmit step then needs no allocation when the item
/// leaves. Contracts see the items at each port, how many of them may wait, and whether each is queued twice.
#[derive(Drop)]
pub struct Backlog {
    queues: Vec<PortQueues>,
    /// The copies of all items, with as many queues, if steps are kept, and no queues otherwise.
    copies: Vec<PortQueues>,
    capacity: Capacity,
    is_kept: bool,
}

impl Model for Backlog {
    ghost use Rattle.std.specs.Prelude.{◌≡◌, ◌≤◌, true};
    ghost use Rattle.pb_relay.specs.Backlogs.{BacklogView};

    ghost Value = { BacklogView };

    ghost view = { λ o. record { ports = o.queues.items; capacity = o.capacity; is_kept = o.is_kept } };

    ghost invariant = { λ o. (o.capacity.most ≤ 4096) × (o.is_kept ≡ true → o.copies.items ≡ o.queues.items) };
}

impl Backlog {
    /// Returns empty queues for the local ports.
    ///
    /// # Errors
    ///
    /// `Memory` if an allocation failed.
    pub fn new(alloc: Global, capacity: Capacity, is_kept: bool) -> Result<Backlog, Memory>
        requires { capacity.most ≤ 4096 }
        ensures { IfOk result (λ backlog. backlog ≡ empty_backlog capacity is_kept) }
    {
        let queues = empty_queues(alloc)?;
        let copies = if is_kept {
            empty_queues(alloc)?
        } else {
            Vec::new(alloc)
        };
        Ok(Backlog {
            queues,
            copies,
            capacity,
            is_kept,
        })
    }

    /// Returns the number of items that wait at a port. `place` is the index of the port, 0 to 15.
    #[inline(always)]
    pub fn waiting(&self, place: usize) -> usize
        requires { place < length self.now.ports }
        ensures { result ≡ number_in (at_place self.now place) }
    {
        self.queues[place].len()
    }

    /// Checks whether the queue of a port is full for items of a traffic class.
    #[inline(always)]
    pub fn is_full(&self, place: usize, class: u8) -> bool
        requires place { place < length self.now.ports }
        requires class { class < 8 }
        ensures { result ≡ is_full_at self.now place class }
    {
        let counted = match self.capacity.queues {
            Queues::PerPort => self.queues[place].len(),
            Queues::PerClass => self.queues[place].len_of(class),
        };
        counted >= self.capacity.most
    }

    /// Checks whether the queue of a port is full for the bridge's own BPDUs. The place of their own is never full.
    pub fn is_full_for_own(&self, place: usize) -> bool
        requires { place < length self.now.ports }
        ensures { result ≡ is_full_at self.now place (own_class self.now.capacity.queues) }
    {
        match self.capacity.queues {
            Queues::PerPort => self.is_full(place, HIGHEST),
            Queues::PerClass => false,
        }
    }

    /// Returns the item that leaves a port next, or None if nothing waits.
    pub fn first(&self, place: usize) -> Option<&Item>
        requires { place < length self.now.ports }
        ensures { option_copied result ≡ first_out (at_place self.now place) }
    {
        let queues = &self.queues[place];
        queues.first()
    }

    /// Queues an item of these parts at a port, in a traffic class.
    ///
    /// Returns None if it is queued, and the cause if the queue is full or an allocation failed. The queues are
    /// unchanged then.
    #[inline(always)]
    pub fn enqueue(
        &mut self,
        place: usize,
        class: u8,
        mark: Option<Mark>,
        hops: u32,
        wire: &Bytes,
    ) -> Option<NoRoom>
        requires place { place < length self.old.ports }
        requires class { class < 8 }
        ensures { HasEnqueued self.old place (is_full_at self.old place class)
            (put_in class (item_with mark hops wire.now) (at_place self.old place)) result self.new }
    {
        if self.is_full(place, class) {
            return Some(NoRoom::Full);
        }
        let Ok(item) = item_of(mark, hops, wire) else {
            return Some(NoRoom::Memory);
        };
        let queues = &mut self.queues[place];
        if self.is_kept {
            let copies = &mut self.copies[place];
            return word_for(push_twice(queues, copies, class, item));
        }
        word_for(queues.push(class, item))
    }

    /// Queues a BPDU of the bridge at a port: in the highest traffic class, or in a place of its own.
    ///
    /// Returns the older BPDU whose place it takes, if there is one. Returns the cause if the queue is full or an
    /// allocation failed. The queues are unchanged then.
    pub fn enqueue_own(&mut self, place: usize, wire: &Bytes) -> Result<Option<Item>, NoRoom>
        requires { place < length self.old.ports }
        ensures queued { HasEnqueued self.old place (is_full_at self.old place (own_class self.old.capacity.queues))
            (placed (own_class self.old.capacity.queues) (item_with None 0 wire.now) (at_place self.old place))
            (word_of result) self.new }
        ensures older { IfOk result (λ older. older ≡ older_in self.old.capacity.queues (at_place self.old place)) }
    {
        match self.capacity.queues {
            Queues::PerPort => match self.enqueue(place, HIGHEST, None, 0, wire) {
                Some(word) => Err(word),
                None => Ok(None),
            },
            Queues::PerClass => match self.replace_own(place, wire) {
                Ok(older) => Ok(older),
                Err(_) => Err(NoRoom::Memory),
            },
        }
    }

    /// Queues a BPDU of the bridge in the place of its own, and returns the older one that waited there.
    fn replace_own(&mut self, place: usize, wire: &Bytes) -> Result<Option<Item>, Memory>
        requires { place < length self.old.ports }
        ensures queued { OnOk result (self.new ≡ with_port self.old place
            (put_alone (item_with None 0 wire.now) (at_place self.old place))) }
        ensures err { OnErr result (self.new ≡ self.old) }
        ensures older { IfOk result (λ older. older ≡ older_in PerClass (at_place self.old place)) }
    {
        let item = item_of(None, 0, wire)?;
        if self.is_kept {
            let copy = item_of(None, 0, wire)?;
            let _ = self.copies[place].replace_own(copy);
        }
        Ok(self.queues[place].replace_own(item))
    }

    /// Takes the item that leaves a port next, and its copy if steps are kept. Returns None if nothing waits. Allocates
    /// nothing.
    #[inline(always)]
    pub fn pop(&mut self, place: usize) -> Option<Departure>
        requires { place < length self.old.ports }
        ensures first { result ≡ departure self.old.is_kept (first_out (at_place self.old place)) }
        ensures rest { self.new ≡ with_port self.old place (after_first (at_place self.old place)) }
    {
        let item = self.queues[place].pop()?;
        if self.is_kept {
            let copy = self.copies[place].pop();
            return Some(Departure { item, copy });
        }
        Some(Departure { item, copy: None })
    }
}

/// Returns empty queues for the sixteen local ports.
fn empty_queues(alloc: Global) -> Result<Vec<PortQueues>, Memory>
    ensures { IfOk result (λ queues. queues.items ≡ replicate 16 no_items) }
{
    let mut queues = Vec::with_capacity(alloc, 16)?;
    for _port in 0..16u8 {
        queues.push(PortQueues::new(alloc)?)?;
    }
    Ok(queues)
}

/// Returns an item of these parts, whose octets are a copy of `wire`.
fn item_of(mark: Option<Mark>, hops: u32, wire: &Bytes) -> Result<Item, Memory>
    ensures { IfOk result (λ item. item ≡ item_with mark hops wire.now) }
{
    Ok(Item {
        mark,
        hops,
        wire: wire.clone()?,
    })
}

/// Appends an item to its class and a copy of it to the copies, or neither if an allocation failed.
fn push_twice(
    queues: &mut PortQueues,
    copies: &mut PortQueues,
    class: u8,
    item: Item,
) -> Result<(), Memory>
    requires class { class < 8 }
    requires room { length (slice_index_or queues.old class []) < 4096 }
    requires copies { copies.old ≡ queues.old }
    ensures ok { OnOk result (queues.new ≡ put_in class item queues.old) }
    ensures err { OnErr result (queues.new ≡ queues.old) }
    ensures copies { copies.new ≡ queues.new }
{
    let copy = item_of(item.mark, item.hops, &item.wire)?;
    queues.push(class, item)?;
    if let Err(fault) = copies.push(class, copy) {
        queues.take_back(class);
        return Err(fault);
    }
    Ok(())
}

/// Returns Memory as the cause if the item was not queued, and None if it was.
#[inline(always)]
fn word_for(pushed: Result<(), Memory>) -> Option<NoRoom>
    ensures { result ≡ word_for pushed }
{
    match pushed {
        Ok(()) => None,
        Err(_) => Some(NoRoom::Memory),
    }
}
