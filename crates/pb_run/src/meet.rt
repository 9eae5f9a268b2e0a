//! Lets both ends of each ring meet in one thread, once all workers are back.

ghost use Rattle.std.specs.Prelude.{◌≡◌, ◌<◌, ◌+◌, ◌*◌, ℕ, List, Some, length, map, slice_get};
ghost use Rattle.pb_frame.specs.Lists.{IsBeginning};
ghost use Rattle.pb_lan.specs.LaneLists.{taken, put};
ghost use Rattle.pb_lan.specs.Plans.{IsSound, IsSoundEnd};
ghost use Rattle.pb_lan.specs.Records.{MeetsCustomer, MeetsOver, steps_of, received, transmitted};
ghost use Rattle.pb_lan.specs.declared.plan.CustomerPlan.{CustomerPlan};
ghost use Rattle.pb_lan.specs.declared.plan.LinkPlan.{LinkPlan};
ghost use Rattle.pb_run.specs.Gifts.{AreBridges, AreLanes, AreAccesses};
ghost use Rattle.pb_run.specs.Gifts.{given_bridge, given_lane, given_access, lane_over};
ghost use Rattle.pb_run.specs.Meetings.{of_customers, of_lanes};
ghost use Rattle.pb_run.specs.Wires.{ring_into, ring_out};
ghost use Rattle.pb_run.specs.Workers.{AreSameBridges, AreSameLanes, AreSameAccesses};

use pb_frame::index_of;
use pb_lan::{End, Plan};
use pb_ring::Wiring;
use pb_workers::{Access, BridgeWorker, LaneWorker};

/// Lets the rings of a customer port meet.
fn meet_access<W: Wiring>(
    plan: &Plan,
    bridges: &mut Vec<BridgeWorker<W>>,
    accesses: &mut Vec<Access<W>>,
    place: usize,
)
    requires sound { IsSound plan.now }
    requires place { place < length plan.now.customers }
    requires bridges { AreBridges plan.now (length plan.now.bridges) (map given_bridge bridges.old.items) }
    requires accesses { AreAccesses plan.now (length plan.now.customers) (map given_access accesses.old.items) }
    ensures bridges { AreSameBridges bridges.old.items bridges.new.items }
    ensures accesses { AreSameAccesses accesses.old.items accesses.new.items }
    ensures meets { (c : CustomerPlan) → slice_get plan.now.customers place ≡ Some c
        → MeetsCustomer (of_customers (map (λ b. b.bridge.steps) bridges.old.items)
        (map (λ d. d.place.steps) accesses.old.items)) (place + 1) c }
{
    let customer = &plan.customers.as_slice()[place];
    let bridge = &mut bridges[index_of(customer.bridge)];
    bridge.meet_customer(customer.port, &mut accesses[place]);
}

/// Lets the rings of all customer ports meet.
pub(crate) fn meet_accesses<W: Wiring>(
    plan: &Plan,
    bridges: &mut Vec<BridgeWorker<W>>,
    accesses: &mut Vec<Access<W>>,
)
    requires sound { IsSound plan.now }
    requires bridges { AreBridges plan.now (length plan.now.bridges) (map given_bridge bridges.old.items) }
    requires accesses { AreAccesses plan.now (length plan.now.customers) (map given_access accesses.old.items) }
    ensures bridges { AreSameBridges bridges.old.items bridges.new.items }
    ensures accesses { AreSameAccesses accesses.old.items accesses.new.items }
    ensures meet { (k : ℕ) (c : CustomerPlan) → k < length plan.now.customers → slice_get plan.now.customers k ≡ Some c
        → MeetsCustomer (of_customers (map (λ b. b.bridge.steps) bridges.old.items)
        (map (λ d. d.place.steps) accesses.old.items)) (k + 1) c }
{
    for place in 0..plan.customers.len() {
        meet_access(plan, bridges, accesses, place);
    }
}

/// Lets the ends of the ring from a bridge's port to the lane that leads away from it meet.
fn meet_away<W: Wiring, P>(
    plan: &Plan,
    bridges: &mut Vec<BridgeWorker<W>>,
    lanes: &mut Vec<LaneWorker<W, P>>,
    place: usize,
    from: &End,
)
    requires end { IsSoundEnd plan.now from.now }
    requires bridges { AreBridges plan.now (length plan.now.bridges) (map given_bridge bridges.old.items) }
    requires lane { (number to : ℕ) × (losses : List ℕ) × (slice_get (map given_lane lanes.old.items) place
        ≡ Some (lane_over number (ring_out from.now.bridge from.now.port) to losses)) }
    ensures bridges { AreSameBridges bridges.old.items bridges.new.items }
    ensures lanes { AreSameLanes lanes.old.items lanes.new.items }
    ensures onto { IsBeginning (taken (steps_of (map (λ l. l.lane.steps) lanes.old.items) (place + 1)))
        (transmitted from.now.port (steps_of (map (λ b. b.bridge.steps) bridges.old.items) from.now.bridge)) }
{
    let bridge = &mut bridges[index_of(from.bridge)];
    bridge.meet_lane_away(from.port, &mut lanes[place]);
}

/// Lets the ends of the ring from a lane to the bridge's port to which it leads meet.
fn meet_here<W: Wiring, P>(
    plan: &Plan,
    bridges: &mut Vec<BridgeWorker<W>>,
    lanes: &mut Vec<LaneWorker<W, P>>,
    place: usize,
    to: &End,
)
    requires end { IsSoundEnd plan.now to.now }
    requires bridges { AreBridges plan.now (length plan.now.bridges) (map given_bridge bridges.old.items) }
    requires lane { (number from : ℕ) × (losses : List ℕ) × (slice_get (map given_lane lanes.old.items) place
        ≡ Some (lane_over number from (ring_into to.now.bridge to.now.port) losses)) }
    ensures bridges { AreSameBridges bridges.old.items bridges.new.items }
    ensures lanes { AreSameLanes lanes.old.items lanes.new.items }
    ensures off { IsBeginning
        (received to.now.port (steps_of (map (λ b. b.bridge.steps) bridges.old.items) to.now.bridge))
        (put (steps_of (map (λ l. l.lane.steps) lanes.old.items) (place + 1))) }
{
    let bridge = &mut bridges[index_of(to.bridge)];
    bridge.meet_lane_here(to.port, &mut lanes[place]);
}

/// Lets the rings of a link's two lanes meet.
fn meet_link<W: Wiring, P>(
    plan: &Plan,
    bridges: &mut Vec<BridgeWorker<W>>,
    lanes: &mut Vec<LaneWorker<W, P>>,
    place: usize,
)
    requires sound { IsSound plan.now }
    requires place { place < length plan.now.links }
    requires bridges { AreBridges plan.now (length plan.now.bridges) (map given_bridge bridges.old.items) }
    requires lanes { AreLanes plan.now (length plan.now.links) (map given_lane lanes.old.items) }
    ensures bridges { AreSameBridges bridges.old.items bridges.new.items }
    ensures lanes { AreSameLanes lanes.old.items lanes.new.items }
    ensures meets { (link : LinkPlan) → slice_get plan.now.links place ≡ Some link
        → MeetsOver (of_lanes (map (λ b. b.bridge.steps) bridges.old.items) (map (λ l. l.lane.steps) lanes.old.items))
        (2 * place + 1) link.a link.b
        × MeetsOver (of_lanes (map (λ b. b.bridge.steps) bridges.old.items) (map (λ l. l.lane.steps) lanes.old.items))
        (2 * place + 2) link.b link.a }
{
    let link = &plan.links.as_slice()[place];
    meet_away(plan, bridges, lanes, 2 * place, &link.a);
    meet_here(plan, bridges, lanes, 2 * place, &link.b);
    meet_away(plan, bridges, lanes, 2 * place + 1, &link.b);
    meet_here(plan, bridges, lanes, 2 * place + 1, &link.a);
}

/// Lets the rings of all lanes meet.
pub(crate) fn meet_links<W: Wiring, P>(
    plan: &Plan,
    bridges: &mut Vec<BridgeWorker<W>>,
    lanes: &mut Vec<LaneWorker<W, P>>,
)
    requires sound { IsSound plan.now }
    requires bridges { AreBridges plan.now (length plan.now.bridges) (map given_bridge bridges.old.items) }
    requires lanes { AreLanes plan.now (length plan.now.links) (map given_lane lanes.old.items) }
    ensures bridges { AreSameBridges bridges.old.items bridges.new.items }
    ensures lanes { AreSameLanes lanes.old.items lanes.new.items }
    ensures meet { (k : ℕ) (link : LinkPlan) → k < length plan.now.links → slice_get plan.now.links k ≡ Some link
        → MeetsOver (of_lanes (map (λ b. b.bridge.steps) bridges.old.items) (map (λ l. l.lane.steps) lanes.old.items))
        (2 * k + 1) link.a link.b
        × MeetsOver (of_lanes (map (λ b. b.bridge.steps) bridges.old.items) (map (λ l. l.lane.steps) lanes.old.items))
        (2 * k + 2) link.b link.a }
{
    for place in 0..plan.links.len() {
        meet_link(plan, bridges, lanes, place);
    }
}
