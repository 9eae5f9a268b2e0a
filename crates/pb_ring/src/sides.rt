//! The ring ends of a bridge, by index.

ghost use Rattle.std.specs.Prelude.{◌≡◌, ◌<◌, ◌++◌, ◌∷◌, [], ◌↔◌, ◌==◌, ℕ, IsTrue, None, if◌then◌else◌};
ghost use Rattle.std.specs.Prelude.{length, map, vec_len, slice_get, slice_index_or, option_to_list, Some};
ghost use Rattle.rtrb.specs.Ring.{sent, received, known_free, known_items};
ghost use Rattle.pb_frame.specs.Lists.{IsBeginning};
ghost use Rattle.pb_ring.specs.Rings.{shown_at};

use crate::ends::{Inlet, Outlet, Wiring, meet};
use pb_lan::Item;

/// The ends through which a bridge receives, by index.
#[derive(Drop)]
pub struct Inlets<W: Wiring> {
    /// The receiving ends. The first index is 0.
    pub ends: Vec<Inlet<W>>,
}

/// The ends through which a bridge sends, by index.
#[derive(Drop)]
pub struct Outlets<W: Wiring> {
    /// The sending ends. The first index is 0.
    pub ends: Vec<Outlet<W>>,
}

impl<W: Wiring> Inlets<W> {
    /// Checks whether an item was sent to the end at index `place` and not yet received. The other end may send one
    /// at any time.
    pub fn has_item(&mut self, place: usize) -> bool
        requires { place < vec_len self.old.ends }
        ensures item { IsTrue result ↔ (0 < length (shown_at (λ i. known_items i.end) self.new.ends.items place)) }
        ensures received { map (λ i. received i.end) self.new.ends.items
            ≡ map (λ i. received i.end) self.old.ends.items }
        ensures numbers { map (λ i. i.number) self.new.ends.items ≡ map (λ i. i.number) self.old.ends.items }
        ensures count { vec_len self.new.ends ≡ vec_len self.old.ends }
    {
        self.ends[place].has_item()
    }

    /// Returns the oldest item that was sent to the end at index `place` and not yet received, and leaves it on the
    /// ring. An item must be known to be there.
    pub fn first(&self, place: usize) -> &Item
        requires place { place < vec_len self.now.ends }
        requires item { 0 < length (shown_at (λ i. known_items i.end) self.now.ends.items place) }
        ensures { slice_get (shown_at (λ i. known_items i.end) self.now.ends.items place) 0 ≡ Some result.now }
    {
        self.ends[place].first()
    }

    /// Receives the oldest item that was sent to the end at index `place` and not yet received, or `None` if there is
    /// none. The other end may send one at any time.
    pub fn pop(&mut self, place: usize) -> Option<Item>
        requires { place < vec_len self.old.ends }
        ensures first { (item : Item) → slice_get (shown_at (λ i. known_items i.end) self.old.ends.items place) 0
            ≡ Some item → result ≡ Some item }
        ensures received { (p : ℕ) → shown_at (λ i. received i.end) self.new.ends.items p
            ≡ shown_at (λ i. received i.end) self.old.ends.items p
            ++ (if place == p then option_to_list result else []) }
        ensures none { result ≡ None → shown_at (λ i. known_items i.end) self.new.ends.items place ≡ [] }
        ensures numbers { map (λ i. i.number) self.new.ends.items ≡ map (λ i. i.number) self.old.ends.items }
        ensures count { vec_len self.new.ends ≡ vec_len self.old.ends }
    {
        self.ends[place].pop()
    }

    /// Shows for both ends of one ring in one thread, the receiving one at index `place`, that the received items are
    /// a beginning of the sent ones. It sends and receives nothing.
    pub fn meet(&mut self, place: usize, outlet: &mut Outlet<W>)
        requires place { place < vec_len self.old.ends }
        requires same { slice_index_or (map (λ i. i.number) self.old.ends.items) place 0 ≡ outlet.old.number }
        ensures begins { IsBeginning (shown_at (λ i. received i.end) self.old.ends.items place) (sent outlet.old.end) }
        ensures received { map (λ i. received i.end) self.new.ends.items
            ≡ map (λ i. received i.end) self.old.ends.items }
        ensures numbers { map (λ i. i.number) self.new.ends.items ≡ map (λ i. i.number) self.old.ends.items }
        ensures count { vec_len self.new.ends ≡ vec_len self.old.ends }
        ensures sent { sent outlet.new.end ≡ sent outlet.old.end }
        ensures number { outlet.new.number ≡ outlet.old.number }
    {
        meet(&mut self.ends[place], outlet);
    }
}

impl<W: Wiring> Outlets<W> {
    /// Checks whether the ring of the end at index `place` has space for one more item. The other end may free space
    /// at any time.
    pub fn has_room(&mut self, place: usize) -> bool
        requires { place < vec_len self.old.ends }
        ensures room { IsTrue result ↔ (0 < slice_index_or (map (λ o. known_free o.end) self.new.ends.items) place 0) }
        ensures sent { map (λ o. sent o.end) self.new.ends.items ≡ map (λ o. sent o.end) self.old.ends.items }
        ensures numbers { map (λ o. o.number) self.new.ends.items ≡ map (λ o. o.number) self.old.ends.items }
        ensures count { vec_len self.new.ends ≡ vec_len self.old.ends }
    {
        self.ends[place].has_room()
    }

    /// Sends an item through the end at index `place`, whose ring has space for it. Allocates nothing.
    pub fn push(&mut self, place: usize, item: Item)
        requires place { place < vec_len self.old.ends }
        requires room { 0 < slice_index_or (map (λ o. known_free o.end) self.old.ends.items) place 0 }
        ensures sent { (p : ℕ) → shown_at (λ o. sent o.end) self.new.ends.items p
            ≡ shown_at (λ o. sent o.end) self.old.ends.items p ++ (if place == p then item ∷ [] else []) }
        ensures numbers { map (λ o. o.number) self.new.ends.items ≡ map (λ o. o.number) self.old.ends.items }
        ensures count { vec_len self.new.ends ≡ vec_len self.old.ends }
    {
        self.ends[place].push(item);
    }

    /// Shows for both ends of one ring in one thread, the sending one at index `place`, that the received items are a
    /// beginning of the sent ones. It sends and receives nothing.
    pub fn meet(&mut self, place: usize, inlet: &mut Inlet<W>)
        requires place { place < vec_len self.old.ends }
        requires same { slice_index_or (map (λ o. o.number) self.old.ends.items) place 0 ≡ inlet.old.number }
        ensures begins { IsBeginning (received inlet.old.end) (shown_at (λ o. sent o.end) self.old.ends.items place) }
        ensures sent { map (λ o. sent o.end) self.new.ends.items ≡ map (λ o. sent o.end) self.old.ends.items }
        ensures numbers { map (λ o. o.number) self.new.ends.items ≡ map (λ o. o.number) self.old.ends.items }
        ensures count { vec_len self.new.ends ≡ vec_len self.old.ends }
        ensures received { received inlet.new.end ≡ received inlet.old.end }
        ensures number { inlet.new.number ≡ inlet.old.number }
    {
        meet(inlet, &mut self.ends[place]);
    }
}
