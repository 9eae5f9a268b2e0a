//! Starts and joins the workers.

ghost use Rattle.std.specs.Prelude.{◌≡◌, IfOk, IfErr};
ghost use Rattle.pb_threads.specs.Rooms.{HasRooms, HasSlots};
ghost use Rattle.pb_threads.specs.Together.{AllFit, AreBack, AreUntouched, ArePlacesOf, NoneFulfilled};
ghost use Rattle.pb_threads.specs.Wishes.{AreForGate, HasFulfilledGiven};

use crate::floor::{Floor, collect_row, fill_row, floor_for, run_place};
use crate::gate::Gate;
use crate::slot::{Roster, Slot};
use crate::turns::Work;
use pb_lan::Limits;
use std::alloc::{AllocError, Global};
use std::marker::Brand;
use std::sync::Wait;
use std::thread;
use std::thread::{Scope, Threads};
use std::time::Clock;
use thiserror::Error;

/// The reason why no worker took a turn.
#[derive(Clone, Copy, PartialEq, Eq, Debug, Error)]
pub enum WorkFault {
    /// An allocation failed before the workers were started.
    #[error("out of memory")]
    Memory,
    /// A thread could not be started.
    #[error("a thread could not be started")]
    Spawn,
}

/// Places of three kinds.
#[derive(Drop)]
pub struct Places<C, L, B> {
    /// The customer ports.
    pub customers: Vec<C>,
    /// The lanes.
    pub lanes: Vec<L>,
    /// The bridges.
    pub bridges: Vec<B>,
}

/// The result of `run_all`.
#[derive(Drop)]
pub struct Worked<C, L, B> {
    /// The places, in the order in which they were given.
    pub places: Places<C, L, B>,
    /// The reason why no worker took a turn, if none did.
    pub verdict: Result<(), WorkFault>,
}

/// Returns empty lists with room for the places that come back.
///
/// # Errors
///
/// `AllocError` if an allocation failed.
fn rooms_for<C: Drop, L: Drop, B: Drop>(
    alloc: Global,
    places: &Places<C, L, B>,
) -> Result<Places<C, L, B>, AllocError>
    ensures { IfOk result (HasRooms places.now) }
{
    Ok(Places {
        customers: Vec::with_capacity(alloc, places.customers.len())?,
        lanes: Vec::with_capacity(alloc, places.lanes.len())?,
        bridges: Vec::with_capacity(alloc, places.bridges.len())?,
    })
}

/// Starts a worker for each slot, in order, until a thread can't be started. Returns whether all were started.
fn start_row<'s, E, K, T, KC, KL, KB, C, L, B, G, R>(
    scope: &'s Scope<'s, E>,
    rt: &'s R,
    slots: &'s [Slot<K, T>],
    floor: &'s Floor<KC, KL, KB, C, L, B>,
    gate: &'s G,
    limits: Limits,
) -> bool
where
    K: Roster<T> + Send + 's,
    T: Work + Send + 's,
    KC: Roster<C> + Send + 's,
    KL: Roster<L> + Send + 's,
    KB: Roster<B> + Send + 's,
    C: Work + Send + 's,
    L: Work + Send + 's,
    B: Work + Send + 's,
    G: Gate,
    R: Threads + Wait + Clock + Sync,
    requires own { K.gives ≡ G.gives gate.now }
    requires wishes { AreForGate KC.gives KL.gives KB.gives (G.gives gate.now) }
{
    for slot in slots {
        let started = scope.spawn(
            move ||
                requires own { K.gives ≡ G.gives gate.now }
                requires wishes { AreForGate KC.gives KL.gives KB.gives (G.gives gate.now) }
            { run_place(rt, slot, floor, gate, limits) },
        );
        if started.is_err() {
            return false;
        }
    }
    true
}

/// Starts a worker for each place, puts the places into their slots and lets the workers begin.
///
/// # Errors
///
/// The places, unchanged, if a thread could not be started. No worker begins then.
fn start_all<'s, E, KC, KL, KB, C, L, B, G, R>(
    scope: &'s Scope<'s, E>,
    rt: &'s R,
    floor: &'s Floor<KC, KL, KB, C, L, B>,
    places: Places<C, L, B>,
    gate: &'s G,
    limits: Limits,
) -> Result<(), Places<C, L, B>>
where
    KC: Roster<C> + Send + 's,
    KL: Roster<L> + Send + 's,
    KB: Roster<B> + Send + 's,
    C: Work + Send + 's,
    L: Work + Send + 's,
    B: Work + Send + 's,
    G: Gate,
    R: Threads + Wait + Clock + Sync,
    requires fits { AllFit C.fits L.fits B.fits places }
    requires known { ArePlacesOf KC.places KL.places KB.places places }
    requires fresh { NoneFulfilled C.fulfilled L.fulfilled B.fulfilled places }
    requires wishes { AreForGate KC.gives KL.gives KB.gives (G.gives gate.now) }
    requires slots { HasSlots places floor.now.customers floor.now.lanes floor.now.bridges }
    ensures { IfErr result (λ back. back ≡ places) }
{
    let are_started = start_row(scope, rt, &floor.customers, floor, gate, limits)
        && start_row(scope, rt, &floor.lanes, floor, gate, limits)
        && start_row(scope, rt, &floor.bridges, floor, gate, limits);
    if !are_started {
        floor.words.leave();
        return Err(places);
    }
    fill_row(rt, &floor.customers, places.customers, limits);
    fill_row(rt, &floor.lanes, places.lanes, limits);
    fill_row(rt, &floor.bridges, places.bridges, limits);
    floor.words.begin();
    Ok(())
}

/// Runs a worker for each place in a scope of threads, and waits for all of them.
///
/// # Errors
///
/// The places, unchanged, if a thread could not be started. No worker begins then.
fn run_on<KC, KL, KB, C, L, B, G, R>(
    rt: &R,
    floor: &Floor<KC, KL, KB, C, L, B>,
    places: Places<C, L, B>,
    gate: &G,
    limits: Limits,
) -> Result<(), Places<C, L, B>>
where
    KC: Roster<C> + Send,
    KL: Roster<L> + Send,
    KB: Roster<B> + Send,
    C: Work + Send,
    L: Work + Send,
    B: Work + Send,
    G: Gate,
    R: Threads + Wait + Clock + Sync,
    requires fits { AllFit C.fits L.fits B.fits places }
    requires known { ArePlacesOf KC.places KL.places KB.places places }
    requires fresh { NoneFulfilled C.fulfilled L.fulfilled B.fulfilled places }
    requires wishes { AreForGate KC.gives KL.gives KB.gives (G.gives gate.now) }
    requires slots { HasSlots places floor.now.customers floor.now.lanes floor.now.bridges }
    ensures { IfErr result (λ back. back ≡ places) }
{
    thread::scope(
        thread::scope_env(),
        rt,
        move |scope| -> Result<(), Places<C, L, B>>
            requires fits { AllFit C.fits L.fits B.fits places }
            requires known { ArePlacesOf KC.places KL.places KB.places places }
            requires fresh { NoneFulfilled C.fulfilled L.fulfilled B.fulfilled places }
            requires wishes { AreForGate KC.gives KL.gives KB.gives (G.gives gate.now) }
            requires slots { HasSlots places floor.now.customers floor.now.lanes floor.now.bridges }
            ensures { IfErr result (λ back. back ≡ places) }
        { start_all(scope, rt, floor, places, gate, limits) },
    )
}

/// Runs a worker for each place, as [`run_all`] does. The rosters have the places, and know the wishes of the gate.
fn run_known<KC, KL, KB, C, L, B, G, R>(
    rt: &R,
    alloc: Global,
    places: Places<C, L, B>,
    gate: &G,
    limits: Limits,
    left: u64,
) -> Worked<C, L, B>
where
    KC: Roster<C> + Send,
    KL: Roster<L> + Send,
    KB: Roster<B> + Send,
    C: Work + Send,
    L: Work + Send,
    B: Work + Send,
    G: Gate,
    R: Threads + Wait + Clock + Sync,
    requires fits { AllFit C.fits L.fits B.fits places }
    requires rosters { ArePlacesOf KC.places KL.places KB.places places
        × AreForGate KC.gives KL.gives KB.gives (G.gives gate.now) }
    requires fresh { NoneFulfilled C.fulfilled L.fulfilled B.fulfilled places }
    ensures customers { AreBack C.given C.fits places.customers.items result.places.customers.items }
    ensures lanes { AreBack L.given L.fits places.lanes.items result.places.lanes.items }
    ensures bridges { AreBack B.given B.fits places.bridges.items result.places.bridges.items }
    ensures wishes { AllFit
        (HasFulfilledGiven (G.gives gate.now) C.named C.given C.fulfilled)
        (HasFulfilledGiven (G.gives gate.now) L.named L.given L.fulfilled)
        (HasFulfilledGiven (G.gives gate.now) B.named B.given B.fulfilled) result.places }
    ensures untouched { IfErr result.verdict (λ fault. AreUntouched places result.places) }
{
    let floor = floor_for::<KC, KL, KB, C, L, B>(alloc, &places, left);
    let (Ok(floor), Ok(rooms)) = (floor, rooms_for(alloc, &places)) else {
        let verdict = Err(WorkFault::Memory);
        return Worked { places, verdict };
    };
    let started = run_on(rt, &floor, places, gate, limits);
    if let Err(places) = started {
        let verdict = Err(WorkFault::Spawn);
        return Worked { places, verdict };
    }
    let places = Places {
        customers: collect_row(rt, floor.customers, rooms.customers),
        lanes: collect_row(rt, floor.lanes, rooms.lanes),
        bridges: collect_row(rt, floor.bridges, rooms.bridges),
    };
    Worked {
        places,
        verdict: Ok(()),
    }
}

/// Runs a worker for each place in a thread of its own, and joins them all. Workers sleep on the bells of the gate;
/// meanwhile the workers of places beside theirs may take turns of their places. `left` counts what there is to do at
/// the start. Each turn reports how that count changes, and all workers end when it is 0.
///
/// Each place comes back with what it was given, and as it may be between turns. Each wish that it has fulfilled is one
/// that the gate returned for it, in order.
///
/// The verdict is `Memory` if an allocation failed before the workers were started, and `Spawn` if a thread could not
/// be started. No worker takes a turn then, and the places come back unchanged.
pub fn run_all<
    C: Work + Send,
    L: Work + Send,
    B: Work + Send,
    G: Gate,
    R: Threads + Wait + Clock + Sync,
>(
    rt: &R,
    alloc: Global,
    places: Places<C, L, B>,
    gate: &G,
    limits: Limits,
    left: u64,
) -> Worked<C, L, B>
    requires fits { AllFit C.fits L.fits B.fits places }
    requires fresh { NoneFulfilled C.fulfilled L.fulfilled B.fulfilled places }
    ensures customers { AreBack C.given C.fits places.customers.items result.places.customers.items }
    ensures lanes { AreBack L.given L.fits places.lanes.items result.places.lanes.items }
    ensures bridges { AreBack B.given B.fits places.bridges.items result.places.bridges.items }
    ensures wishes { AllFit
        (HasFulfilledGiven (G.gives gate.now) C.named C.given C.fulfilled)
        (HasFulfilledGiven (G.gives gate.now) L.named L.given L.fulfilled)
        (HasFulfilledGiven (G.gives gate.now) B.named B.given B.fulfilled) result.places }
    ensures untouched { IfErr result.verdict (λ fault. AreUntouched places result.places) }
{
    run_known::<Brand, Brand, Brand, C, L, B, G, R>(rt, alloc, places, gate, limits, left)
}
