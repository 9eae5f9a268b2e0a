//! The network, and its steps.

ghost use Rattle.std.specs.Prelude.{◌≡◌, true, IfErr, OnOk};
ghost use Rattle.pb_lan.specs.Events.{has_place, steps_at};
ghost use Rattle.pb_lan.specs.Records.{IsLawfulRecord};
ghost use Rattle.pb_relay.specs.Protocol.{spanning_tree};
ghost use Rattle.pb_net.specs.Answers.{IsAnswer, HaveRun, HasStopped};
ghost use Rattle.pb_lan.specs.Headline.{IsFaithful};

use crate::did::Did;
use crate::fault::NetFault;
use crate::lists::{Lists, bridge_steps, customer_steps, lane_steps};
use crate::slots::Slots;
use crate::spots::is_number;
use pb_frame::index_of;
use pb_lan::{Event, Item, Place, Plan, Record, Step};
use pb_link::{CustomerPlace, Lane};
use pb_relay::Bridge;
use std::collections::VecDeque;
use std::marker::Model;

/// A network of a plan, in one thread. Contracts see its plan, the record of its steps, and whether it keeps them.
///
/// The network keeps the steps of its places or only counts them. Besides it keeps the queues between the places, and
/// nothing else that does not follow from these.
#[derive(Drop)]
pub struct Net {
    /// The plan.
    pub(crate) plan: Plan,
    /// The greatest number of steps of a place, as the plan says.
    pub(crate) limit: u64,
    /// The greatest number of items in a queue between two places, as the plan says.
    pub(crate) ring: usize,
    /// Whether the places keep their steps, or only count them.
    pub(crate) is_kept: bool,
    /// The bridges, in the plan's order.
    pub(crate) bridges: Vec<Bridge>,
    /// The lanes: that from a to b of each link, and the one back.
    pub(crate) lanes: Vec<Lane>,
    /// The customer ports, in the plan's order.
    pub(crate) customers: Vec<CustomerPlace>,
    /// By slot, the items that were sent to the bridge's port and not yet received.
    pub(crate) inboxes: Vec<VecDeque<Item>>,
    /// By slot, the items that the bridge transmitted at the port and nobody fetched yet.
    pub(crate) outboxes: Vec<VecDeque<Item>>,
    /// The neighbours at the bridges' ports, and the slots of lanes and customer ports.
    pub(crate) slots: Slots,
    /// The lists for the record.
    pub(crate) lists: Lists,
}

impl Model for Net {
    ghost use Rattle.std.specs.Prelude.{map, length, ◌*◌};
    ghost use Rattle.pb_net.specs.Answers.{NetView};
    ghost use Rattle.pb_net.specs.Nets.{record_of, IsSoundPlan, ArePlaced, IsKept, HasNumbers};
    ghost use Rattle.pb_net.specs.Lists.{AreEmpty};
    ghost use Rattle.pb_net.specs.Slots.{AreTables};

    ghost Value = { NetView };

    ghost view = { λ n. record {
      plan = n.plan;
      rec = record_of n.bridges.items n.lanes.items n.customers.items;
      is_kept = n.is_kept;
    } };

    ghost invariant = { λ n. IsSoundPlan n.plan
        × ArePlaced n.plan n.is_kept n.bridges.items n.lanes.items n.customers.items
        × IsKept n.plan (record_of n.bridges.items n.lanes.items n.customers.items)
        (map (λ q. q.items) n.inboxes.items) (map (λ q. q.items) n.outboxes.items)
        × AreTables n.plan n.slots
        × HasNumbers n.plan n.limit n.ring
        × AreEmpty (length n.plan.bridges) (2 * length n.plan.links) (length n.plan.customers) n.lists };
}

impl Net {
    /// Performs an event: its place takes one step of the event's kind, or the event is idle because there is nothing
    /// to do.
    ///
    /// # Errors
    ///
    /// `NoSuch` if a number of the event names no place or port, or if the port of an `Admin` is no provider port.
    /// `StepLimit` if there is something to do and the place has taken the plan's number of steps. `Memory` if an
    /// allocation failed. The network is unchanged after each of them.
    ///
    /// # Examples
    ///
    /// ```
    /// use bytes::Bytes;
    /// use pb_lan::Place;
    /// use pb_net::{Did, Event, Net, NetFault};
    /// use pb_service::read_plan;
    ///
    /// let file = b"
    ///     bridge = [{ name = 'B1', address = '02-00-00-00-00-01' }]
    ///     service = [{ name = 'red', vid = 100 }]
    ///     port = [{ name = 'C1', bridge = 'B1', port = 1, service = 'red' }]";
    /// let (plan, _) = read_plan(rt.alloc(), file)?;
    /// let mut net = Net::new(rt.alloc(), plan)?;
    /// let frame = Bytes::from_static(b"\xff\xff\xff\xff\xff\xff\x02\0\0\0\0\x01\x08\0");
    /// let done = Ok(Did::Done(Place::Customer(1)));
    /// assert_eq!(rt; net.step(Event::Poll { port: 1, frame }), done);
    /// assert_eq!(rt; net.step(Event::Feed { port: 1 }), done);
    /// // The frame is at the bridge, and the customer port has no other.
    /// assert_eq!(rt; net.step(Event::Feed { port: 1 }), Ok(Did::Idle));
    /// assert_eq!(rt; net.step(Event::Feed { port: 2 }), Err(NetFault::NoSuch));
    /// ```
    pub fn step(&mut self, event: Event) -> Result<Did, NetFault>
        ensures { IsAnswer self.old event result self.new }
    {
        match event {
            Event::Poll { port, frame } => self.poll(port, frame),
            other => self.act(&other),
        }
    }

    /// Performs events, one after the other, up to the first fault.
    ///
    /// # Errors
    ///
    /// The number of events that were performed, and the fault of the next. The faults are those of
    /// [`step`](Net::step). The performed events keep their effect.
    pub fn run(&mut self, events: &[Event]) -> Result<(), (u64, NetFault)>
        ensures ok { OnOk result (HaveRun self.old events.now self.new) }
        ensures fault { IfErr result (λ e. HasStopped self.old events.now e.0 e.1 self.new) }
    {
        for (count, event) in events.iter().enumerate() {
            if let Err(fault) = self.act(event) {
                return Err((count as u64, fault));
            }
        }
        Ok(())
    }

    /// Checks whether the plan has this place, as [`steps`](Net::steps) requires.
    pub fn has_place(&self, place: Place) -> bool
        ensures { result ≡ has_place self.now.plan place }
    {
        match place {
            Place::Bridge(number) => is_number(number, self.bridges.len()),
            Place::Lane(number) => is_number(number, self.lanes.len()),
            Place::Customer(number) => is_number(number, self.customers.len()),
        }
    }

    /// Checks whether the network keeps its steps, as [`steps`](Net::steps) and [`finish`](Net::finish) require. If
    /// not, it only counts them.
    pub fn keeps_steps(&self) -> bool
        ensures { result ≡ self.now.is_kept }
    {
        self.is_kept
    }

    /// Returns the steps of a place of a network that keeps them. Those of all places are a lawful record.
    pub fn steps(&self, place: Place) -> &[Step]
        requires has { has_place self.now.plan place ≡ true }
        requires kept { self.now.is_kept ≡ true }
        ensures steps { result.now ≡ steps_at self.now.rec place }
        ensures lawful { IsLawfulRecord spanning_tree self.now.plan self.now.rec }
    {
        match place {
            Place::Bridge(number) => self.bridges[index_of(number)].steps(),
            Place::Customer(number) => self.customers[index_of(number)].steps(),
            Place::Lane(number) => self.lanes[index_of(number)].steps(),
        }
    }

    /// Ends a network that keeps its steps, and returns their record, which is lawful. Allocates nothing.
    ///
    /// The guarantee holds whatever the events were. Each departure has the octets of an arrival at a port of the same
    /// service, less a priority S-tag. A frame that was handled under a forest leaves each other port at most once,
    /// never its own port, and no port outside its tree. A group frame that was neither refused nor lost, and has
    /// drained, leaves each port of its service in its tree once. No frame is multiplied. Frames of one port and one
    /// priority keep their order.
    pub fn finish(self) -> Record
        requires { self.is_kept ≡ true }
        ensures record { result ≡ self.rec }
        ensures lawful { IsLawfulRecord spanning_tree self.plan result }
        ensures headline { IsFaithful self.plan result }
    {
        let Net {
            plan: _,
            limit: _,
            ring: _,
            is_kept: _,
            bridges,
            lanes,
            customers,
            inboxes: _,
            outboxes: _,
            slots: _,
            lists,
        } = self;
        let Lists {
            bridges: bridge_lists,
            lanes: lane_lists,
            customers: customer_lists,
        } = lists;
        Record {
            bridges: bridge_steps(bridges, bridge_lists),
            lanes: lane_steps(lanes, lane_lists),
            customers: customer_steps(customers, customer_lists),
        }
    }
}
