//! A customer's access to its bridge: the place of a customer port, with its ring ends.

ghost use Rattle.std.specs.Prelude.{◌≡◌, ◌++◌, ◌∷◌, [], true, false, Ok, Some, if◌then◌else◌};
ghost use Rattle.std.specs.Prelude.{IsSome, OnOk, OnErr, option_to_list};
ghost use Rattle.rtrb.specs.Ring.{sent, received};
ghost use Rattle.pb_lan.specs.Counts.{entered, left};
ghost use Rattle.pb_lan.specs.Events.{is_hand_empty};
ghost use Rattle.pb_lan.specs.PortLists.{fed, delivered};

use crate::refusal::{Refusal, Taken};
use bytes::Bytes;
use pb_lan::Item;
use pb_link::CustomerPlace;
use pb_port::PortFault;
use pb_ring::{Inlet, Outlet, Wiring};

/// The result of the newest poll of a port.
#[derive(Clone, Copy, PartialEq, Eq, Debug)]
pub enum Last {
    /// More frames may come.
    More,
    /// The end of the input: no more frames come.
    End,
    /// A fault of the input: no more frames come.
    Fault(PortFault),
}

/// The number and the limit of an access, and the result of the newest poll.
#[derive(Clone, Copy, PartialEq, Eq, Debug)]
pub struct Book {
    /// The customer port's number in the plan, from 1.
    pub number: u8,
    /// The greatest number of steps.
    pub limit: usize,
    /// The result of the newest poll.
    pub last: Last,
}

/// The access of a customer to its bridge: the place of a customer port, the two rings between it and its bridge, and
/// the item that was offered to the port outside and not yet taken.
#[derive(Drop)]
pub struct Access<W: Wiring> {
    /// The place.
    pub place: CustomerPlace,
    /// The ring end onto which it feeds its bridge.
    pub feed: Outlet<W>,
    /// The ring end from which it takes what its bridge sent.
    pub drain: Inlet<W>,
    /// The item that waits to be taken by the port outside.
    pub offered: Option<Item>,
    /// The number, the limit and the newest poll.
    pub book: Book,
    pub ghost fed: { sent feed.end ≡ fed place.steps },
    pub ghost drained: { received drain.end ≡ delivered place.steps ++ option_to_list offered },
    pub ghost kept: { W.keeps ≡ true → place.is_kept ≡ true },
}

/// Reserves a step of a place that may take `limit` steps.
///
/// # Errors
///
/// `Memory` if an allocation failed, `Limit` if the place has taken as many steps as it may. The place is unchanged
/// then.
fn reserve(place: &mut CustomerPlace, limit: usize) -> Result<(), Refusal>
    ensures ok { OnOk result (place.new ≡ record place.old { is_reserved = true }) }
    ensures err { OnErr result (place.new ≡ place.old) }
{
    if place.step_count() >= limit as u64 {
        return Err(Refusal::Limit);
    }
    Ok(place.reserve_step()?)
}

impl<W: Wiring> Access<W> {
    ghost use Rattle.pb_workers.specs.Ports.{given_up};
    ghost use Rattle.pb_workers.specs.Workers.{IsSameAccess};

    /// Returns the access of a customer port that has taken no step, over rings that nothing has passed. It may take
    /// `limit` steps. Allocates nothing.
    pub fn new(
        number: u8,
        place: CustomerPlace,
        feed: Outlet<W>,
        drain: Inlet<W>,
        limit: usize,
    ) -> Access<W>
        requires steps { place.steps ≡ [] }
        requires kept { W.keeps ≡ true → place.is_kept ≡ true }
        requires rings { (sent feed.end ≡ []) × (received drain.end ≡ []) }
        ensures place { result.place ≡ place }
        ensures rings { (result.feed.number ≡ feed.number) × (result.drain.number ≡ drain.number) }
        ensures book { result.book ≡ record { number = number; limit = limit; last = Last.More } }
    {
        Access {
            place,
            feed,
            drain,
            offered: None,
            book: Book {
                number,
                limit,
                last: Last::More,
            },
        }
    }

    /// Checks whether a frame may be polled: none is in hand, and more may come. A step is reserved then.
    ///
    /// # Errors
    ///
    /// `Memory` if an allocation failed, `Limit` if the place has taken as many steps as it may.
    pub(crate) fn asks(&mut self) -> Taken
        ensures same { IsSameAccess self.old self.new }
        ensures steps { self.new.place.steps ≡ self.old.place.steps }
        ensures ready { result ≡ Ok true
            → (self.new.place.is_reserved ≡ true) × (is_hand_empty self.new.place.steps ≡ true) }
        ensures more { result ≡ Ok true → self.old.book.last ≡ Last.More }
    {
        if !self.place.is_hand_empty() || self.book.last != Last::More {
            return Ok(false);
        }
        reserve(&mut self.place, self.book.limit)?;
        Ok(true)
    }

    /// Takes a frame from outside. It is in hand then.
    pub(crate) fn take_in(&mut self, frame: Bytes)
        requires reserved { self.old.place.is_reserved ≡ true }
        requires empty { is_hand_empty self.old.place.steps ≡ true }
        ensures same { IsSameAccess self.old self.new }
        ensures entered { entered self.new.place.steps ≡ entered self.old.place.steps ++ frame ∷ [] }
        ensures left { left self.new.place.steps ≡ left self.old.place.steps }
        ensures given_up { given_up self.new.place.steps ≡ given_up self.old.place.steps }
    {
        self.place.poll(frame);
    }

    /// Feeds the frame in hand to the bridge, if there is one and the ring is not full. Returns whether it did.
    ///
    /// # Errors
    ///
    /// `Memory` if an allocation failed, `Limit` if the place has taken as many steps as it may.
    pub(crate) fn hand_on(&mut self) -> Taken
        ensures same { IsSameAccess self.old self.new }
        ensures entered { entered self.new.place.steps ≡ entered self.old.place.steps }
        ensures left { left self.new.place.steps ≡ left self.old.place.steps }
        ensures given_up { given_up self.new.place.steps ≡ given_up self.old.place.steps }
    {
        if self.place.is_hand_empty() || !self.feed.has_room() {
            return Ok(false);
        }
        reserve(&mut self.place, self.book.limit)?;
        let item = self.place.feed()?;
        self.feed.push(item);
        Ok(true)
    }

    /// Checks whether an item waits to be offered, and takes one off the ring if none does. A step is reserved if the
    /// result is `true`.
    ///
    /// # Errors
    ///
    /// `Memory` if an allocation failed, `Limit` if the place has taken as many steps as it may.
    pub(crate) fn fetch(&mut self) -> Taken
        ensures same { IsSameAccess self.old self.new }
        ensures steps { self.new.place.steps ≡ self.old.place.steps }
        ensures ready { result ≡ Ok true → (self.new.place.is_reserved ≡ true) × IsSome self.new.offered }
    {
        if self.offered.is_none() && !self.drain.has_item() {
            return Ok(false);
        }
        reserve(&mut self.place, self.book.limit)?;
        if self.offered.is_none() {
            self.offered = self.drain.pop();
        }
        Ok(self.offered.is_some())
    }

    /// Delivers the offered item: it has left, or the port takes no more frames (`gone`).
    pub(crate) fn let_out(&mut self, gone: bool)
        requires reserved { self.old.place.is_reserved ≡ true }
        requires some { IsSome self.old.offered }
        ensures same { IsSameAccess self.old self.new }
        ensures entered { entered self.new.place.steps ≡ entered self.old.place.steps }
        ensures left { (item : _) → self.old.offered ≡ Some item
            → left self.new.place.steps ≡ left self.old.place.steps ++ (if gone then [] else item.wire ∷ []) }
        ensures given_up { (item : _) → self.old.offered ≡ Some item
            → given_up self.new.place.steps ≡ given_up self.old.place.steps ++ (if gone then item.wire ∷ [] else []) }
    {
        let Some(item) = self.offered.take() else {
            unreachable!();
        };
        self.place.deliver(item, gone);
    }
}
