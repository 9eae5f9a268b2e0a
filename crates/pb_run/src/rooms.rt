//! Lists with capacity for what comes back of the places of a run.

ghost use Rattle.std.specs.Prelude.{IfOk};
ghost use Rattle.pb_lan.specs.Plans.{IsSound};
ghost use Rattle.pb_run.specs.Rooms.{HasPartRooms, HasPlaceRooms, HasRooms};

use crate::outside::Parts;
use crate::record::Gathered;
use pb_frame::Memory;
use pb_lan::Plan;
use pb_ring::Wiring;
use pb_tap::Tap;
use pb_workers::{Access, CustomerWorker};
use std::alloc::Global;

/// The counts and steps of customer ports, lanes and bridges, and the taps of lanes.
#[derive(Drop)]
pub(crate) struct GatheredPlaces<P> {
    pub customers: Gathered,
    pub lanes: Gathered,
    pub bridges: Gathered,
    pub taps: Vec<Vec<Tap<P>>>,
}

/// Empty lists with capacity for what comes back: ports outside of type `P`, and those of taps of type `T`.
#[derive(Drop)]
pub(crate) struct Rooms<C, A, P, T> {
    /// The workers of customer ports.
    pub workers: Vec<C>,
    /// The parts of these workers.
    pub parts: Parts<A, P>,
    /// The counts and steps of all places.
    pub gathered: GatheredPlaces<T>,
}

/// The lists for places over rings of this wiring, with these ports outside and these of taps.
pub(crate) type RoomsOf<W, P, T> = Rooms<CustomerWorker<W, P>, Access<W>, P, T>;

/// Allocates lists for the parts of `customers` workers of customer ports.
///
/// # Errors
///
/// `Memory` if an allocation failed.
fn part_rooms<W: Wiring, P: Drop>(
    alloc: Global,
    customers: usize,
) -> Result<Parts<Access<W>, P>, Memory>
    ensures { IfOk result (HasPartRooms customers) }
{
    let lasts = Vec::with_capacity(alloc, customers)?;
    let accesses = Vec::with_capacity(alloc, customers)?;
    Ok(Parts {
        ports: Vec::with_capacity(alloc, customers)?,
        accesses,
        lasts,
    })
}

/// Allocates lists for the counts and steps of a plan's places.
///
/// # Errors
///
/// `Memory` if an allocation failed.
fn place_rooms<P>(alloc: Global, plan: &Plan) -> Result<GatheredPlaces<P>, Memory>
    requires { IsSound plan.now }
    ensures { IfOk result (HasPlaceRooms plan.now) }
{
    let bridges = Gathered::with_room(alloc, plan.bridges.len())?;
    let lanes = Gathered::with_room(alloc, 2 * plan.links.len())?;
    let customers = Gathered::with_room(alloc, plan.customers.len())?;
    let taps = Vec::with_capacity(alloc, 2 * plan.links.len())?;
    Ok(GatheredPlaces {
        customers,
        lanes,
        bridges,
        taps,
    })
}

/// Allocates the lists for all that comes back of a plan's places, before a worker is started.
///
/// # Errors
///
/// `Memory` if an allocation failed.
pub(crate) fn rooms_of<W: Wiring, P: Drop, T: Drop>(
    alloc: Global,
    plan: &Plan,
) -> Result<RoomsOf<W, P, T>, Memory>
    requires { IsSound plan.now }
    ensures { IfOk result (HasRooms plan.now) }
{
    let customers = plan.customers.len();
    let gathered = place_rooms(alloc, plan)?;
    let parts = part_rooms(alloc, customers)?;
    Ok(Rooms {
        workers: Vec::with_capacity(alloc, customers)?,
        parts,
        gathered,
    })
}
