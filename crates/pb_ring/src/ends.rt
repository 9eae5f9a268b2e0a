//! The two ends of a ring, and their meeting.

ghost use Rattle.std.specs.Prelude.{Bool, false, ◌≡◌, ◌<◌, ◌++◌, ◌∷◌, [], ◌↔◌, List, Some, None};
ghost use Rattle.std.specs.Prelude.{IsTrue, IsSome, length, slice_get, option_to_list};
ghost use Rattle.std.specs.declared.alloc.Global.{Global};
ghost use Rattle.rtrb.specs.Ring.{sent, received, known_free, known_items};
ghost use Rattle.pb_frame.specs.Lists.{IsBeginning};
ghost use Rattle.pb_ring.specs.Rings.{RingName, writer_name, reader_name};

use pb_lan::Item;
use rtrb::{Consumer, Producer};
use std::marker::{Brand, PhantomData};

/// The wiring of a run as a type: its rings by number, whether the places between them keep their steps, whether ports
/// may be disabled and enabled during the run, and whether an item waits on its ring while a queue is full to which a
/// bridge may copy it. The maker of the rings decides all four.
pub trait Wiring {
    ghost rings: { List (RingName Global) };

    ghost keeps: { Bool };

    ghost sets: { Bool };

    ghost waits: { Bool };
}

impl Wiring for Brand {
    ghost rings = { [] };

    ghost keeps = { false };

    ghost sets = { false };

    ghost waits = { false };
}

/// The end of a ring through which items are sent.
#[derive(Drop)]
pub struct Outlet<W: Wiring> {
    /// The sending end.
    pub end: Producer<Item>,
    /// The number of the ring.
    pub number: usize,
    of: PhantomData<W>,
    pub ghost is: { slice_get W.rings number ≡ Some (writer_name end) },
}

/// The end of a ring through which items are received.
#[derive(Drop)]
pub struct Inlet<W: Wiring> {
    /// The receiving end.
    pub end: Consumer<Item>,
    /// The number of the ring.
    pub number: usize,
    of: PhantomData<W>,
    pub ghost is: { slice_get W.rings number ≡ Some (reader_name end) },
}

impl<W: Wiring> Outlet<W> {
    /// Wraps the sending end of the ring with this number. Allocates nothing.
    pub fn new(end: Producer<Item>, number: usize) -> Outlet<W>
        requires { slice_get W.rings number ≡ Some (writer_name end) }
        ensures end { result.end ≡ end }
        ensures number { result.number ≡ number }
    {
        Outlet {
            end,
            number,
            of: PhantomData,
        }
    }

    /// Checks whether the ring has space for one more item. The other end may free space at any time.
    pub fn has_room(&mut self) -> bool
        ensures room { IsTrue result ↔ (0 < known_free self.new.end) }
        ensures sent { sent self.new.end ≡ sent self.old.end }
        ensures number { self.new.number ≡ self.old.number }
    {
        !self.end.is_full()
    }

    /// Sends an item, for which the ring has space. Allocates nothing.
    pub fn push(&mut self, item: Item)
        requires { 0 < known_free self.old.end }
        ensures sent { sent self.new.end ≡ sent self.old.end ++ item ∷ [] }
        ensures number { self.new.number ≡ self.old.number }
    {
        self.end.push_reserved(item);
    }
}

impl<W: Wiring> Inlet<W> {
    /// Wraps the receiving end of the ring with this number. Allocates nothing.
    pub fn new(end: Consumer<Item>, number: usize) -> Inlet<W>
        requires { slice_get W.rings number ≡ Some (reader_name end) }
        ensures end { result.end ≡ end }
        ensures number { result.number ≡ number }
    {
        Inlet {
            end,
            number,
            of: PhantomData,
        }
    }

    /// Checks whether an item was sent and not yet received. The other end may send one at any time.
    pub fn has_item(&mut self) -> bool
        ensures item { IsTrue result ↔ (0 < length (known_items self.new.end)) }
        ensures received { received self.new.end ≡ received self.old.end }
        ensures number { self.new.number ≡ self.old.number }
    {
        !self.end.is_empty()
    }

    /// Returns the oldest item that was sent and not yet received, and leaves it on the ring. An item must be known to
    /// be there.
    pub fn first(&self) -> &Item
        requires { 0 < length (known_items self.now.end) }
        ensures { slice_get (known_items self.now.end) 0 ≡ Some result.now }
    {
        self.end.peek_known()
    }

    /// Receives the oldest item that was sent and not yet received, or `None` if there is none. The other end may
    /// send one at any time.
    pub fn pop(&mut self) -> Option<Item>
        ensures received { received self.new.end ≡ received self.old.end ++ option_to_list result }
        ensures first { (item : Item) → slice_get (known_items self.old.end) 0 ≡ Some item → result ≡ Some item }
        ensures none { result ≡ None → known_items self.new.end ≡ [] }
        ensures known { 0 < length (known_items self.old.end) → IsSome result }
        ensures number { self.new.number ≡ self.old.number }
    {
        self.end.pop().ok()
    }
}

/// Shows for both ends of one ring in one thread that the received items are a beginning of the sent ones. It sends
/// and receives nothing.
pub fn meet<W: Wiring>(inlet: &mut Inlet<W>, outlet: &mut Outlet<W>)
    requires { inlet.old.number ≡ outlet.old.number }
    ensures begins { IsBeginning (received inlet.old.end) (sent outlet.old.end) }
    ensures received { received inlet.new.end ≡ received inlet.old.end }
    ensures sent { sent outlet.new.end ≡ sent outlet.old.end }
    ensures numbers { (inlet.new.number ≡ inlet.old.number) × (outlet.new.number ≡ outlet.old.number) }
{
    inlet.end.slots_beside(&mut outlet.end);
}
