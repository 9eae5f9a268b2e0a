//! A run of a whole plan.

ghost use Rattle.std.specs.Prelude.{◌≡◌, IfOk, IfErr, length, map, vec_len};
ghost use Rattle.pb_lan.specs.Plans.{IsSound};
ghost use Rattle.pb_run.specs.Modes.{FollowsMode};
ghost use Rattle.pb_run.specs.Rooms.{HasPlaceRooms, HasRooms};
ghost use Rattle.pb_run.specs.Runs.{IsTrueRecord, IsRun, HasNotRun};
ghost use Rattle.pb_run.specs.Settings.{AreWished};
ghost use Rattle.pb_run.specs.Taps.{ComesBack};
ghost use Rattle.pb_run.specs.Wires.{AreRingsOf};
ghost use Rattle.pb_run.specs.Workers.{IsBuilt, AreBack};
ghost use Rattle.pb_workers.specs.Ports.{port_frames};
ghost use Rattle.pb_workers.specs.Workers.{IsModeFor};

use crate::build::{Built, places_of};
use crate::ended::{Causes, Ended, ended_by};
use crate::fault::{RunCause, RunFault, cause_of};
use crate::meet::{meet_accesses, meet_links};
use crate::outside::{Held, Parts, apart, attended};
use crate::record::{access_lists, bridge_lists, lane_lists};
use crate::rooms::{GatheredPlaces, RoomsOf, rooms_of};
use crate::settled::whether_settled;
use crate::taps::{TapPort, taps_of};
use crate::wires::{Ring, new_rings};
use pb_frame::{Memory, Seq};
use pb_history::Tallies;
use pb_lan::{Limits, Plan, Record};
use pb_port::Port;
use pb_ring::Wiring;
use pb_tap::Tap;
use pb_threads::{Gate, Places, Worked, run_all};
use pb_workers::{Access, BridgeWorker, CustomerWorker, LaneWorker, Last, Mode, has_drained};
use std::alloc::Global;
use std::marker::Brand;
use std::sync::Wait;
use std::thread::Threads;
use std::time::Clock;

/// The result of a run.
#[derive(Drop)]
pub struct Ran<P = Held> {
    /// The counts of the steps of all places. Contracts see the record of these steps.
    pub counts: Tallies,
    /// The ports outside, in the plan's order.
    pub ports: Vec<P>,
    /// The result of the newest poll of each port.
    pub last: Vec<Last>,
    /// The end of the run.
    pub ended: Ended,
    /// Whether the bridges are settled, or `None` if the plan gives the states of the ports. `Memory` if the allocation
    /// of a list of the bridges failed.
    pub settled: Result<Option<bool>, Memory>,
}

/// The result of a run whose places keep their steps.
#[derive(Drop)]
pub struct KeptRun {
    /// The result that each run has.
    pub ran: Ran,
    /// The steps of all places.
    pub rec: Record,
}

/// The result of a run with taps.
#[derive(Drop)]
pub struct TappedRun<P = Held, T = Held> {
    /// The result that each run has.
    pub ran: Ran<P>,
    /// The taps of each lane, in the order of the lanes: two of each link, first that from `a` to `b`. The taps of one
    /// lane are in the order in which they were given.
    pub taps: Vec<Vec<Tap<T>>>,
}

/// The result of a run, whether its places keep their steps and have taps or not.
#[derive(Drop)]
pub(crate) struct WholeRun<P, T> {
    pub ran: Ran<P>,
    pub rec: Record,
    pub taps: Vec<Vec<Tap<T>>>,
}

/// The counts and the record of the places that are back, and the taps of the lanes.
#[derive(Drop)]
struct Told<T> {
    counts: Tallies,
    rec: Record,
    taps: Vec<Vec<Tap<T>>>,
}

/// The places of a run over rings of this wiring, with these ports outside and these of taps.
type PlacesOf<W, P, T> = Places<CustomerWorker<W, P>, LaneWorker<W, T>, BridgeWorker<W>>;

/// Returns the reasons for which the workers ended.
fn causes_of<W: Wiring, P, T>(places: &PlacesOf<W, P, T>) -> Causes {
    let mut causes = Causes {
        memory: false,
        limit: false,
    };
    for worker in places.customers.as_slice() {
        causes = causes.and(worker.finish);
    }
    for worker in places.lanes.as_slice() {
        causes = causes.and(worker.finish);
    }
    for worker in places.bridges.as_slice() {
        causes = causes.and(worker.finish);
    }
    causes
}

/// Returns the counts and the record of places that are back, after the ends of all rings have met, and the taps of the
/// lanes. Allocates nothing.
fn told_of<W: Wiring, T: Drop>(
    plan: &Plan,
    accesses: Vec<Access<W>>,
    lanes: Vec<LaneWorker<W, T>>,
    bridges: Vec<BridgeWorker<W>>,
    rooms: GatheredPlaces<T>,
) -> Told<T>
    requires sound { IsSound plan.now }
    requires back { AreBack plan.now accesses.items lanes.items bridges.items }
    requires rooms { HasPlaceRooms plan.now rooms }
    ensures steps { IsTrueRecord plan.now result.counts }
    ensures mode { FollowsMode W.sets W.waits result.counts }
    ensures customers { result.counts.customers ≡ map (λ d. d.place.steps) accesses.items }
    ensures bridges { result.counts.bridges ≡ map (λ b. b.bridge.steps) bridges.items }
    ensures back { ComesBack W.keeps result.counts result.rec result.taps.items }
{
    let (mut accesses, mut lanes, mut bridges) = (accesses, lanes, bridges);
    meet_accesses(plan, &mut bridges, &mut accesses);
    meet_links(plan, &mut bridges, &mut lanes);
    let mut taps = rooms.taps;
    let bridges = bridge_lists(bridges, rooms.bridges);
    let lanes = lane_lists(lanes, rooms.lanes, &mut taps);
    let customers = access_lists(accesses, rooms.customers);
    Told {
        counts: Tallies::new(bridges.tallies, lanes.tallies, customers.tallies),
        rec: Record {
            bridges: Seq::from_vec(bridges.lists),
            lanes: Seq::from_vec(lanes.lists),
            customers: Seq::from_vec(customers.lists),
        },
        taps,
    }
}

/// Runs the workers of a plan, and gathers their results.
///
/// # Errors
///
/// `Memory` if an allocation failed before the workers were started, `Spawn` if a worker could not be started. The
/// ports come back unchanged.
fn run_built<
    W: Wiring + Send,
    P: Port + Send,
    T: Port + Send,
    G: Gate,
    R: Threads + Wait + Clock + Sync,
>(
    rt: &R,
    alloc: Global,
    plan: &Plan,
    ports: Vec<P>,
    built: Built<W, T>,
    rooms: RoomsOf<W, P, T>,
    gate: &G,
    limits: Limits,
) -> Result<WholeRun<P, T>, RunFault<P>>
    requires plan { IsSound plan.now × (vec_len ports ≡ length plan.now.customers) }
    requires built { IsBuilt plan.now built }
    requires rooms { HasRooms plan.now rooms }
    ensures run { IfOk result (λ kept. IsRun (port_frames P.Port)
        plan.now ports kept.ran.ports kept.ran.counts kept.ran.last.items kept.ran.ended kept.ran.settled) }
    ensures mode { IfOk result (λ kept. FollowsMode W.sets W.waits kept.ran.counts) }
    ensures wishes { IfOk result (λ kept. AreWished (G.gives gate.now) kept.ran.counts) }
    ensures back { IfOk result (λ kept. ComesBack W.keeps kept.ran.counts kept.rec kept.taps.items) }
    ensures failed { IfErr result (λ fault. (fault.cause ≡ RunCause.PortCount → ⊥)
        × (fault.ports.items ≡ ports.items)) }
{
    let left = ports.len() as u64;
    let customers = attended(ports, built.accesses, rooms.workers);
    let places = Places {
        customers,
        lanes: built.lanes,
        bridges: built.bridges,
    };
    let Worked { places, verdict } = run_all(rt, alloc, places, gate, limits, left);
    let causes = causes_of(&places);
    let Parts {
        ports,
        accesses,
        lasts: last,
    } = apart(places.customers, rooms.parts);
    if let Err(fault) = verdict {
        let cause = cause_of(fault);
        return Err(RunFault { cause, ports });
    }
    let settled = whether_settled(alloc, plan, places.bridges.as_slice());
    let Told { counts, rec, taps } = told_of(
        plan,
        accesses,
        places.lanes,
        places.bridges,
        rooms.gathered,
    );
    let ended = ended_by(has_drained(last.as_slice(), &counts), causes);
    let ran = Ran {
        counts,
        ports,
        last,
        ended,
        settled,
    };
    Ok(WholeRun { ran, rec, taps })
}

/// Returns the places of a plan over rings, with the taps of its lanes.
///
/// # Errors
///
/// `Memory` if an allocation failed.
fn tapped_places<W: Wiring, T: Drop>(
    alloc: Global,
    plan: &Plan,
    rings: Vec<Ring>,
    taps: Vec<TapPort<T>>,
    mode: Mode,
) -> Result<Built<W, T>, Memory>
    requires mode { IsModeFor W.keeps W.sets W.waits mode }
    requires sound { IsSound plan.now }
    requires rings { AreRingsOf plan.now W.rings rings }
    ensures { IfOk result (IsBuilt plan.now) }
{
    let taps = taps_of(alloc, 2 * plan.links.len(), taps)?;
    places_of::<W, T>(alloc, plan, rings, taps, mode)
}

/// Builds the workers of a plan over rings, whose ends are known by number, and runs them.
///
/// # Errors
///
/// `Memory` if an allocation failed before the workers were started, `Spawn` if a worker could not be started. The
/// ports come back unchanged.
fn run_wired<
    W: Wiring + Send,
    P: Port + Send,
    T: Port + Send,
    G: Gate,
    R: Threads + Wait + Clock + Sync,
>(
    rt: &R,
    alloc: Global,
    plan: &Plan,
    ports: Vec<P>,
    rings: Vec<Ring>,
    taps: Vec<TapPort<T>>,
    gate: &G,
    limits: Limits,
    mode: Mode,
) -> Result<WholeRun<P, T>, RunFault<P>>
    requires mode { IsModeFor W.keeps W.sets W.waits mode }
    requires plan { IsSound plan.now × (vec_len ports ≡ length plan.now.customers) }
    requires rings { AreRingsOf plan.now W.rings rings }
    ensures run { IfOk result (λ kept. IsRun (port_frames P.Port)
        plan.now ports kept.ran.ports kept.ran.counts kept.ran.last.items kept.ran.ended kept.ran.settled) }
    ensures mode { IfOk result (λ kept. FollowsMode W.sets W.waits kept.ran.counts) }
    ensures wishes { IfOk result (λ kept. AreWished (G.gives gate.now) kept.ran.counts) }
    ensures back { IfOk result (λ kept. ComesBack W.keeps kept.ran.counts kept.rec kept.taps.items) }
    ensures failed { IfErr result (λ fault. (fault.cause ≡ RunCause.PortCount → ⊥)
        × (fault.ports.items ≡ ports.items)) }
{
    let (Ok(built), Ok(rooms)) = (
        tapped_places::<W, T>(alloc, plan, rings, taps, mode),
        rooms_of::<W, P, T>(alloc, plan),
    ) else {
        let cause = RunCause::Memory;
        return Err(RunFault { cause, ports });
    };
    run_built(rt, alloc, plan, ports, built, rooms, gate, limits)
}

/// Runs a plan whose places work in this mode, with these taps.
///
/// # Errors
///
/// Those of [`run`](crate::run).
pub(crate) fn run_places<P: Port + Send, T: Port + Send, G: Gate, R: Threads + Wait + Clock + Sync>(
    rt: &R,
    alloc: Global,
    plan: &Plan,
    ports: Vec<P>,
    taps: Vec<TapPort<T>>,
    gate: &G,
    limits: Limits,
    mode: Mode,
) -> Result<WholeRun<P, T>, RunFault<P>>
    requires { IsSound plan.now }
    ensures run { IfOk result (λ kept. IsRun (port_frames P.Port)
        plan.now ports kept.ran.ports kept.ran.counts kept.ran.last.items kept.ran.ended kept.ran.settled) }
    ensures mode { IfOk result (λ kept. FollowsMode mode.sets mode.waits kept.ran.counts) }
    ensures wishes { IfOk result (λ kept. AreWished (G.gives gate.now) kept.ran.counts) }
    ensures back { IfOk result (λ kept. ComesBack mode.keeps kept.ran.counts kept.rec kept.taps.items) }
    ensures failed { IfErr result (λ fault. HasNotRun plan.now ports fault.ports fault.cause) }
{
    if ports.len() != plan.customers.len() {
        let cause = RunCause::PortCount;
        return Err(RunFault { cause, ports });
    }
    let Ok(rings) = new_rings(alloc, plan) else {
        let cause = RunCause::Memory;
        return Err(RunFault { cause, ports });
    };
    run_wired::<Brand, P, T, G, R>(rt, alloc, plan, ports, rings, taps, gate, limits, mode)
}
