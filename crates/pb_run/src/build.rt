//! Builds the workers of a plan, and the rings between them.

ghost use Rattle.std.specs.Prelude.{◌≡◌, ◌≢◌, ◌<◌, ◌+◌, ℕ, [], true, IfOk, All, length, map, vec_len, slice_index_or};
ghost use Rattle.std.specs.List.{AllByRecursion};
ghost use Rattle.rtrb.specs.Ring.{sent, received};
ghost use Rattle.pb_lan.specs.Plans.{IsSound, IsNumber, ports_in};
ghost use Rattle.pb_frame.specs.Lists.{Rises};
ghost use Rattle.pb_link.specs.Hands.{at_start as new_customer};
ghost use Rattle.pb_link.specs.Lanes.{at_start as new_lane};
ghost use Rattle.pb_ring.specs.Rings.{shown_at};
ghost use Rattle.pb_run.specs.Gifts.{IsBridgeGift, AreBridges, AreLanes, access_gift, AreAccesses};
ghost use Rattle.pb_run.specs.Gifts.{given_bridge, given_lane, given_access, lane_over};
ghost use Rattle.pb_run.specs.Wires.{ring_into, ring_out, AreRingsOf, HasInner, HasOuter};
ghost use Rattle.pb_run.specs.Workers.{IsBuilt};
ghost use Rattle.pb_workers.specs.Workers.{IsModeFor};

use crate::taps::{LaneTaps, next_taps};
use crate::wires::{Ends, Ring};
use pb_frame::{Memory, Seq};
use pb_lan::{CustomerPlan, Plan};
use pb_link::{CustomerPlace, Lane};
use pb_ring::{Inlet, Inlets, Outlet, Outlets, Wiring};
use pb_workers::{Access, BridgeWorker, LaneWorker, Last, Mode};
use std::alloc::Global;
use std::collections::VecDeque;

/// The places of a run without their ports outside.
#[derive(Drop)]
pub(crate) struct Built<W: Wiring, P> {
    /// The accesses of customer ports, without the ports outside.
    pub accesses: VecDeque<Access<W>>,
    /// The workers of lanes, with their taps.
    pub lanes: Vec<LaneWorker<W, P>>,
    /// The workers of bridges.
    pub bridges: Vec<BridgeWorker<W>>,
}

/// Returns the ring ends of a bridge, by local port: those from which it receives, and those onto which it sends.
///
/// # Errors
///
/// `Memory` if an allocation failed.
fn sides_of<W: Wiring>(
    alloc: Global,
    ends: &mut Ends<W>,
    bridge: u8,
) -> Result<(Inlets<W>, Outlets<W>), Memory>
    requires { (port : ℕ) → IsNumber port 16 → HasInner ends.old.outlets.items ends.old.inlets.items (bridge, port) }
    ensures count { IfOk result (λ sides. (vec_len sides.0.ends ≡ 16) × (vec_len sides.1.ends ≡ 16)) }
    ensures into { IfOk result (λ sides. (q : ℕ) → q < 16
        → slice_index_or (map (λ i. i.number) sides.0.ends.items) q 0 ≡ ring_into bridge (q + 1)) }
    ensures out { IfOk result (λ sides. (q : ℕ) → q < 16
        → slice_index_or (map (λ o. o.number) sides.1.ends.items) q 0 ≡ ring_out bridge (q + 1)) }
    ensures received { IfOk result (λ sides. (q : ℕ) → shown_at (λ i. received i.end) sides.0.ends.items q ≡ []) }
    ensures sent { IfOk result (λ sides. (q : ℕ) → shown_at (λ o. sent o.end) sides.1.ends.items q ≡ []) }
    ensures inner { IfOk result (λ sides. (at : ℕ × ℕ) → at.0 ≢ bridge
        → HasInner ends.old.outlets.items ends.old.inlets.items at
        → HasInner ends.new.outlets.items ends.new.inlets.items at) }
    ensures outer { IfOk result (λ sides. (at : ℕ × ℕ) → HasOuter ends.old.outlets.items ends.old.inlets.items at
        → HasOuter ends.new.outlets.items ends.new.inlets.items at) }
{
    let mut inlets = Vec::with_capacity(alloc, 16)?;
    let mut outlets = Vec::with_capacity(alloc, 16)?;
    for place in 0..16u8 {
        let (inlet, outlet) = ends.inner(bridge, place + 1);
        inlets.push(inlet)?;
        outlets.push(outlet)?;
    }
    Ok((Inlets { ends: inlets }, Outlets { ends: outlets }))
}

/// Returns the worker of the bridge of this number.
///
/// # Errors
///
/// `Memory` if an allocation failed.
fn bridge_worker<W: Wiring>(
    alloc: Global,
    plan: &Plan,
    ends: &mut Ends<W>,
    number: u8,
    mode: Mode,
) -> Result<BridgeWorker<W>, Memory>
    requires mode { IsModeFor W.keeps W.sets W.waits mode }
    requires sound { IsSound plan.now }
    requires bridge { IsNumber number (length plan.now.bridges) }
    requires there { (port : ℕ) → IsNumber port 16
        → HasInner ends.old.outlets.items ends.old.inlets.items (number, port) }
    ensures gift { IfOk result (λ worker. IsBridgeGift plan.now number (given_bridge worker)) }
    ensures unset { IfOk result (λ worker. worker.bridge.steps ≡ []) }
    ensures inner { IfOk result (λ worker. (at : ℕ × ℕ) → at.0 ≢ number
        → HasInner ends.old.outlets.items ends.old.inlets.items at
        → HasInner ends.new.outlets.items ends.new.inlets.items at) }
    ensures outer { IfOk result (λ worker. (at : ℕ × ℕ) → HasOuter ends.old.outlets.items ends.old.inlets.items at
        → HasOuter ends.new.outlets.items ends.new.inlets.items at) }
{
    let (ins, outs) = sides_of(alloc, ends, number)?;
    BridgeWorker::new(alloc, plan, number, ins, outs, mode)
}

/// Returns the workers of a plan's bridges.
///
/// # Errors
///
/// `Memory` if an allocation failed.
fn bridge_workers<W: Wiring>(
    alloc: Global,
    plan: &Plan,
    ends: &mut Ends<W>,
    mode: Mode,
) -> Result<Vec<BridgeWorker<W>>, Memory>
    requires mode { IsModeFor W.keeps W.sets W.waits mode }
    requires sound { IsSound plan.now }
    requires there { (at : ℕ × ℕ) → IsNumber at.0 (length plan.now.bridges) → IsNumber at.1 16
        → HasInner ends.old.outlets.items ends.old.inlets.items at }
    ensures gifts { IfOk result (λ workers. AreBridges plan.now (length plan.now.bridges)
        (map given_bridge workers.items)) }
    ensures unset { IfOk result (λ workers. All (λ b. b.bridge.steps ≡ []) workers.items) }
    ensures outer { IfOk result (λ workers. (at : ℕ × ℕ) → HasOuter ends.old.outlets.items ends.old.inlets.items at
        → HasOuter ends.new.outlets.items ends.new.inlets.items at) }
{
    let mut workers = Vec::with_capacity(alloc, plan.bridges.len())?;
    for place in 0..plan.bridges.len() {
        workers.push(bridge_worker(alloc, plan, ends, place as u8 + 1, mode)?)?;
    }
    Ok(workers)
}

/// Returns the lane that loses the items of these numbers. It keeps its steps, or only counts them.
///
/// # Errors
///
/// `Memory` if an allocation failed.
fn new_lane(alloc: Global, losses: &Seq<u64>, keeps: bool) -> Result<Lane, Memory>
    requires { Rises losses.now }
    ensures { IfOk result (λ lane. lane ≡ new_lane losses.now keeps) }
{
    let losses = losses.clone()?;
    if keeps {
        return Ok(Lane::new(alloc, losses));
    }
    Ok(Lane::counting(alloc, losses))
}

/// Returns the worker of a lane from one ring onto another, which loses the items of these numbers and has these taps.
///
/// # Errors
///
/// `Memory` if an allocation failed.
fn lane_worker<W: Wiring, P: Drop>(
    alloc: Global,
    number: u8,
    limit: usize,
    from: Inlet<W>,
    to: Outlet<W>,
    losses: &Seq<u64>,
    taps: LaneTaps<P>,
    keeps: bool,
) -> Result<LaneWorker<W, P>, Memory>
    requires kept { W.keeps ≡ true → keeps ≡ true }
    requires rings { (received from.end ≡ []) × (sent to.end ≡ []) }
    requires losses { Rises losses.now }
    ensures { IfOk result (λ worker. given_lane worker ≡ lane_over number from.number to.number losses.now) }
{
    let lane = new_lane(alloc, losses, keeps)?;
    Ok(LaneWorker::new(number, lane, from, to, taps.list, limit))
}

/// Returns the workers of a plan's lanes, two to a link, with their taps.
///
/// # Errors
///
/// `Memory` if an allocation failed.
fn lane_workers<W: Wiring, P: Drop>(
    alloc: Global,
    plan: &Plan,
    ends: &mut Ends<W>,
    mut taps: VecDeque<LaneTaps<P>>,
    keeps: bool,
) -> Result<Vec<LaneWorker<W, P>>, Memory>
    requires kept { W.keeps ≡ true → keeps ≡ true }
    requires sound { IsSound plan.now }
    requires there { AllByRecursion (HasOuter ends.old.outlets.items ends.old.inlets.items)
        (ports_in plan.now.links plan.now.customers) }
    ensures gifts { IfOk result (λ workers. AreLanes plan.now (length plan.now.links) (map given_lane workers.items)) }
    ensures there { IfOk result (λ workers. AllByRecursion (HasOuter ends.new.outlets.items ends.new.inlets.items)
        (ports_in [] plan.now.customers)) }
{
    let links = plan.links.as_slice();
    let limit = plan.steps as usize;
    let mut workers = Vec::with_capacity(alloc, 2 * links.len())?;
    for link in links {
        let number = workers.len() as u8 + 1;
        let (to_a, from_a) = ends.outer(link.a.bridge, link.a.port);
        let (to_b, from_b) = ends.outer(link.b.bridge, link.b.port);
        let (there, back) = (&link.lost_ab, &link.lost_ba);
        let (taps_ab, taps_ba) = next_taps(alloc, &mut taps);
        workers.push(lane_worker(alloc, number, limit, from_a, to_b, there, taps_ab, keeps)?)?;
        workers.push(lane_worker(alloc, number + 1, limit, from_b, to_a, back, taps_ba, keeps)?)?;
    }
    Ok(workers)
}

/// Returns the customer port of this number. It keeps its steps, or only counts them.
fn new_customer(alloc: Global, number: u8, keeps: bool) -> CustomerPlace
    ensures { result ≡ new_customer number keeps }
{
    if keeps {
        return CustomerPlace::new(alloc, number);
    }
    CustomerPlace::counting(alloc, number)
}

/// Returns the access of the customer port of this number.
fn access_of<W: Wiring>(
    alloc: Global,
    ends: &mut Ends<W>,
    number: u8,
    limit: usize,
    customer: &CustomerPlan,
    keeps: bool,
) -> Access<W>
    requires kept { W.keeps ≡ true → keeps ≡ true }
    requires outer { HasOuter ends.old.outlets.items ends.old.inlets.items (customer.now.bridge, customer.now.port) }
    ensures gift { given_access result ≡ access_gift number customer.now }
    ensures fresh { (result.place.steps ≡ []) × (result.book.last ≡ Last.More) × (result.book.number ≡ number) }
    ensures outer { (at : ℕ × ℕ) → at ≢ (customer.now.bridge, customer.now.port)
        → HasOuter ends.old.outlets.items ends.old.inlets.items at
        → HasOuter ends.new.outlets.items ends.new.inlets.items at }
{
    let (feed, drain) = ends.outer(customer.bridge, customer.port);
    let place = new_customer(alloc, number, keeps);
    Access::new(number, place, feed, drain, limit)
}

/// Returns the accesses of a plan's customer ports.
///
/// # Errors
///
/// `Memory` if an allocation failed.
fn accesses_of<W: Wiring>(
    alloc: Global,
    plan: &Plan,
    ends: &mut Ends<W>,
    keeps: bool,
) -> Result<VecDeque<Access<W>>, Memory>
    requires kept { W.keeps ≡ true → keeps ≡ true }
    requires sound { IsSound plan.now }
    requires there { AllByRecursion (HasOuter ends.old.outlets.items ends.old.inlets.items)
        (ports_in [] plan.now.customers) }
    ensures gifts { IfOk result (λ accesses. AreAccesses plan.now (length plan.now.customers)
        (map given_access accesses.items)) }
    ensures fresh { IfOk result (λ accesses.
        All (λ d. (d.place.steps ≡ []) × (d.book.last ≡ Last.More)) accesses.items) }
{
    let customers = plan.customers.as_slice();
    let limit = plan.steps as usize;
    let mut accesses = VecDeque::with_capacity(alloc, customers.len())?;
    for customer in customers {
        let number = accesses.len() as u8 + 1;
        accesses.push_back(access_of(alloc, ends, number, limit, customer, keeps))?;
    }
    Ok(accesses)
}

/// Returns the places of a plan, none of which has taken a step, over rings that nothing has passed, with the taps of
/// the lanes. The mode says whether they keep their steps, whether bridges fulfil wishes, and whether items wait for
/// full queues.
///
/// # Errors
///
/// `Memory` if an allocation failed.
pub(crate) fn places_of<W: Wiring, P: Drop>(
    alloc: Global,
    plan: &Plan,
    rings: Vec<Ring>,
    taps: VecDeque<LaneTaps<P>>,
    mode: Mode,
) -> Result<Built<W, P>, Memory>
    requires mode { IsModeFor W.keeps W.sets W.waits mode }
    requires sound { IsSound plan.now }
    requires rings { AreRingsOf plan.now W.rings rings }
    ensures { IfOk result (IsBuilt plan.now) }
{
    let mut ends = Ends::<W>::of(alloc, rings)?;
    let bridges = bridge_workers(alloc, plan, &mut ends, mode)?;
    let lanes = lane_workers(alloc, plan, &mut ends, taps, mode.keeps)?;
    let accesses = accesses_of(alloc, plan, &mut ends, mode.keeps)?;
    Ok(Built {
        accesses,
        lanes,
        bridges,
    })
}
