//! A network at its start.

ghost use Rattle.std.specs.Prelude.{◌≡◌, ◌<◌, ◌*◌, ◌+◌, ◌-◌, ◌||◌, [], length, true, false, IfOk};
ghost use Rattle.std.specs.List.{list_any};
ghost use Rattle.pb_lan.specs.Events.{empty_record};
ghost use Rattle.pb_lan.specs.Plans.{IsSound, IsNumber};
ghost use Rattle.pb_frame.specs.Lists.{Rises};
ghost use Rattle.pb_lan.specs.Ports.{is_customer_at, is_end_at, port_at};
ghost use Rattle.pb_net.specs.Lists.{AreEmpty};
ghost use Rattle.pb_net.specs.Slots.{use_of, AreTables};
ghost use Rattle.pb_net.specs.Starts.{fresh_bridge, fresh_lane, fresh_customer, AreFreshBridges, AreFreshLanes};
ghost use Rattle.pb_net.specs.Starts.{AreFreshCustomers, AreEmptyBoxes};
ghost use Rattle.pb_net.specs.Starts.{AreUses, AreLaneSlots, AreCustomerSlots};

use crate::lists::Lists;
use crate::net::Net;
use crate::slots::{LaneSlots, PortUse, Slots};
use pb_frame::{Memory, Seq};
use pb_lan::{CustomerPlan, End, Item, LinkPlan, Plan};
use pb_link::{CustomerPlace, Lane};
use pb_relay::Bridge;
use std::alloc::Global;
use std::collections::VecDeque;

/// Returns the bridge with this number, which has taken no step. It keeps its steps, or only counts them.
///
/// # Errors
///
/// `Memory` if an allocation failed.
fn fresh_bridge(alloc: Global, plan: &Plan, is_kept: bool, number: u8) -> Result<Bridge, Memory>
    requires sound { IsSound plan.now }
    requires bridge { IsNumber number (length plan.now.bridges) }
    ensures { IfOk result (λ bridge. bridge ≡ fresh_bridge plan.now is_kept number) }
{
    if is_kept {
        return Bridge::new(alloc, plan, number);
    }
    Bridge::counting(alloc, plan, number)
}

/// Returns the bridges of a plan, none of which has taken a step. They keep their steps, or only count them.
///
/// # Errors
///
/// `Memory` if an allocation failed.
fn fresh_bridges(alloc: Global, plan: &Plan, is_kept: bool) -> Result<Vec<Bridge>, Memory>
    requires { IsSound plan.now }
    ensures { IfOk result (λ bridges. AreFreshBridges plan.now is_kept (length plan.now.bridges) bridges.items) }
{
    let mut bridges = Vec::with_capacity(alloc, plan.bridges.len())?;
    for place in 0..plan.bridges.len() {
        bridges.push(fresh_bridge(alloc, plan, is_kept, place as u8 + 1)?)?;
    }
    Ok(bridges)
}

/// Returns a lane that loses the items of these numbers, and has taken no step. It keeps its steps, or only counts
/// them.
///
/// # Errors
///
/// `Memory` if an allocation failed.
fn fresh_lane(alloc: Global, is_kept: bool, losses: &Seq<u64>) -> Result<Lane, Memory>
    requires { Rises losses.now }
    ensures { IfOk result (λ lane. lane ≡ fresh_lane is_kept losses.now) }
{
    let losses = losses.clone()?;
    if is_kept {
        return Ok(Lane::new(alloc, losses));
    }
    Ok(Lane::counting(alloc, losses))
}

/// Returns the lanes of a plan, two to a link, none of which has taken a step. They keep their steps, or only count
/// them.
///
/// # Errors
///
/// `Memory` if an allocation failed.
fn fresh_lanes(alloc: Global, plan: &Plan, is_kept: bool) -> Result<Vec<Lane>, Memory>
    requires { IsSound plan.now }
    ensures { IfOk result (λ lanes. AreFreshLanes plan.now is_kept (2 * length plan.now.links) lanes.items) }
{
    let links = plan.links.as_slice();
    let mut lanes = Vec::with_capacity(alloc, 2 * links.len())?;
    for link in links {
        lanes.push(fresh_lane(alloc, is_kept, &link.lost_ab)?)?;
        lanes.push(fresh_lane(alloc, is_kept, &link.lost_ba)?)?;
    }
    Ok(lanes)
}

/// Returns the customer port of this number, which has taken no step. It keeps its steps, or only counts them.
fn fresh_customer(alloc: Global, is_kept: bool, number: u8) -> CustomerPlace
    ensures { result ≡ fresh_customer is_kept number }
{
    if is_kept {
        return CustomerPlace::new(alloc, number);
    }
    CustomerPlace::counting(alloc, number)
}

/// Returns `count` customer ports, none of which has taken a step. They keep their steps, or only count them.
///
/// # Errors
///
/// `Memory` if an allocation failed.
fn fresh_customers(alloc: Global, is_kept: bool, count: usize) -> Result<Vec<CustomerPlace>, Memory>
    requires { count < 256 }
    ensures { IfOk result (λ customers. AreFreshCustomers is_kept count customers.items) }
{
    let mut customers = Vec::with_capacity(alloc, count)?;
    for place in 0..count {
        customers.push(fresh_customer(alloc, is_kept, place as u8 + 1))?;
    }
    Ok(customers)
}

/// Returns `count` empty queues.
///
/// # Errors
///
/// `Memory` if an allocation failed.
fn empty_boxes(alloc: Global, count: usize) -> Result<Vec<VecDeque<Item>>, Memory>
    ensures { IfOk result (λ boxes. AreEmptyBoxes count boxes.items) }
{
    let mut boxes = Vec::with_capacity(alloc, count)?;
    for _ in 0..count {
        boxes.push(VecDeque::new(alloc))?;
    }
    Ok(boxes)
}

/// Checks whether a customer port is at a bridge's port.
fn is_customer_there(customers: &[CustomerPlan], bridge: u8, port: u8) -> bool
    ensures { result ≡ list_any (is_customer_at bridge port) customers.now }
{
    customers.iter().any(|customer| customer.bridge == bridge && customer.port == port)
}

/// Checks whether a link ends at a bridge's port.
fn is_end_there(links: &[LinkPlan], bridge: u8, port: u8) -> bool
    ensures { result ≡ list_any (λ l. is_end_at bridge port l.a || is_end_at bridge port l.b) links.now }
{
    links.iter().any(|link| {
        (link.a.bridge == bridge && link.a.port == port)
            || (link.b.bridge == bridge && link.b.port == port)
    })
}

/// Returns the neighbour at a bridge's port.
fn use_at(plan: &Plan, bridge: u8, port: u8) -> PortUse
    ensures { result ≡ use_of (port_at plan.now bridge port) }
{
    if is_customer_there(plan.customers.as_slice(), bridge, port) {
        return PortUse::ToCustomer;
    }
    if is_end_there(plan.links.as_slice(), bridge, port) {
        return PortUse::ToBridge;
    }
    PortUse::ToNobody
}

/// Returns the neighbour of each slot.
///
/// # Errors
///
/// `Memory` if an allocation failed.
fn uses(alloc: Global, plan: &Plan) -> Result<Vec<PortUse>, Memory>
    requires { IsSound plan.now }
    ensures { IfOk result (λ uses. AreUses plan.now (16 * length plan.now.bridges) uses.items) }
{
    let mut uses = Vec::with_capacity(alloc, 16 * plan.bridges.len())?;
    for slot in 0..16 * plan.bridges.len() {
        uses.push(use_at(plan, (slot / 16) as u8 + 1, (slot % 16) as u8 + 1))?;
    }
    Ok(uses)
}

/// Returns the slot of a bridge's port.
fn slot_of(bridge: u8, port: u8) -> usize
    requires bridge { 0 < bridge }
    requires port { 0 < port }
    ensures { result ≡ 16 * (bridge - 1) + (port - 1) }
{
    16 * (usize::from(bridge) - 1) + (usize::from(port) - 1)
}

/// Returns the slot of an end of a link.
fn slot_of_end(end: &End) -> usize
    requires bridge { 0 < end.now.bridge }
    requires port { 0 < end.now.port }
    ensures { result ≡ 16 * (end.now.bridge - 1) + (end.now.port - 1) }
{
    slot_of(end.bridge, end.port)
}

/// Returns the slots at which each lane begins and ends.
///
/// # Errors
///
/// `Memory` if an allocation failed.
fn lane_slots(alloc: Global, plan: &Plan) -> Result<Vec<LaneSlots>, Memory>
    requires { IsSound plan.now }
    ensures { IfOk result (λ slots. AreLaneSlots plan.now (2 * length plan.now.links) slots.items) }
{
    let links = plan.links.as_slice();
    let mut slots = Vec::with_capacity(alloc, 2 * links.len())?;
    for link in links {
        let (from, to) = (slot_of_end(&link.a), slot_of_end(&link.b));
        slots.push(LaneSlots { from, to })?;
        slots.push(LaneSlots { from: to, to: from })?;
    }
    Ok(slots)
}

/// Returns the slot of each customer port.
///
/// # Errors
///
/// `Memory` if an allocation failed.
fn customer_slots(alloc: Global, plan: &Plan) -> Result<Vec<usize>, Memory>
    requires { IsSound plan.now }
    ensures { IfOk result (λ slots. AreCustomerSlots plan.now (length plan.now.customers) slots.items) }
{
    let customers = plan.customers.as_slice();
    let mut slots = Vec::with_capacity(alloc, customers.len())?;
    for customer in customers {
        slots.push(slot_of(customer.bridge, customer.port))?;
    }
    Ok(slots)
}

/// Returns the tables of the plan's slots.
///
/// # Errors
///
/// `Memory` if an allocation failed.
fn slots_of(alloc: Global, plan: &Plan) -> Result<Slots, Memory>
    requires { IsSound plan.now }
    ensures { IfOk result (AreTables plan.now) }
{
    Ok(Slots {
        uses: uses(alloc, plan)?,
        lanes: lane_slots(alloc, plan)?,
        customers: customer_slots(alloc, plan)?,
    })
}

/// Allocates the lists of the record.
///
/// # Errors
///
/// `Memory` if an allocation failed.
fn empty_lists(alloc: Global, plan: &Plan) -> Result<Lists, Memory>
    requires { length plan.now.links < 256 }
    ensures { IfOk result (AreEmpty (length plan.now.bridges) (2 * length plan.now.links) (length plan.now.customers)) }
{
    Ok(Lists {
        bridges: Vec::with_capacity(alloc, plan.bridges.len())?,
        lanes: Vec::with_capacity(alloc, 2 * plan.links.len())?,
        customers: Vec::with_capacity(alloc, plan.customers.len())?,
    })
}

/// Returns the network of a plan, in which no place has taken a step. It keeps its steps, or only counts them.
///
/// # Errors
///
/// `Memory` if an allocation failed.
fn started(alloc: Global, plan: Plan, is_kept: bool) -> Result<Net, Memory>
    requires { IsSound plan }
    ensures { IfOk result (λ net. net ≡ record { plan = plan; rec = empty_record plan; is_kept = is_kept }) }
{
    let slots = 16 * plan.bridges.len();
    Ok(Net {
        limit: plan.steps,
        ring: usize::from(plan.ring),
        is_kept,
        bridges: fresh_bridges(alloc, &plan, is_kept)?,
        lanes: fresh_lanes(alloc, &plan, is_kept)?,
        customers: fresh_customers(alloc, is_kept, plan.customers.len())?,
        inboxes: empty_boxes(alloc, slots)?,
        outboxes: empty_boxes(alloc, slots)?,
        slots: slots_of(alloc, &plan)?,
        lists: empty_lists(alloc, &plan)?,
        plan,
    })
}

impl Net {
    /// Returns the network of a sound plan (IEEE 802.1Q clause 15), in which no place has taken a step. The plan gives
    /// the states of the ports, or a spanning tree at each bridge decides them. The network keeps the plan and all
    /// steps.
    ///
    /// # Errors
    ///
    /// `Memory` if an allocation failed. There is no other error.
    ///
    /// # Examples
    ///
    /// ```
    /// use pb_lan::Place;
    /// use pb_net::Net;
    /// use pb_service::read_plan;
    ///
    /// let file = b"bridge = [{ name = 'B1', address = '02-00-00-00-00-01' }]";
    /// let (plan, _) = read_plan(rt.alloc(), file)?;
    /// let net = Net::new(rt.alloc(), plan)?;
    /// assert!(rt; net.has_place(Place::Bridge(1)));
    /// assert!(rt; !net.has_place(Place::Bridge(2)));
    /// ```
    pub fn new(alloc: Global, plan: Plan) -> Result<Net, Memory>
        requires { IsSound plan }
        ensures { IfOk result (λ net. net ≡ record { plan = plan; rec = empty_record plan; is_kept = true }) }
    {
        started(alloc, plan, true)
    }

    /// Returns the network of a sound plan, as [`Net::new`] does. It only counts its steps: its memory does not grow
    /// with them, and a copy of it has no steps to copy. [`Net::tallies`] returns the counts.
    ///
    /// # Errors
    ///
    /// `Memory` if an allocation failed. There is no other error.
    pub fn counting(alloc: Global, plan: Plan) -> Result<Net, Memory>
        requires { IsSound plan }
        ensures { IfOk result (λ net. net ≡ record { plan = plan; rec = empty_record plan; is_kept = false }) }
    {
        started(alloc, plan, false)
    }
}
