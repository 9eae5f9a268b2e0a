//! What workers share: the slots of all places, and their counters.

ghost use Rattle.std.specs.Prelude.{◌≡◌, ◌≤◌, [], length, vec_len, All, IfOk};
ghost use Rattle.std.specs.Vec.{vec_capacity};
ghost use Rattle.pb_threads.specs.Rooms.{HasSlots};
ghost use Rattle.pb_threads.specs.Together.{AreBack};
ghost use Rattle.pb_threads.specs.Wishes.{AreForGate, HasFulfilledGiven, HasFulfilledNone};

use crate::gate::Gate;
use crate::helping::{Helper, help_at};
use crate::slot::{Roster, Slot};
use crate::threads::Places;
use crate::turns::Work;
use crate::words::Words;
use crate::worker::{Next, Worker};
use pb_lan::Limits;
use std::alloc::{AllocError, Global};
use std::sync::Wait;
use std::time::Clock;

/// The most places that a worker helps before it returns to its own.
const MOST_PLACES: u32 = 256;

/// What workers share: the slots of all places, and their counters.
#[derive(Drop)]
pub(crate) struct Floor<KC: Roster<C>, KL: Roster<L>, KB: Roster<B>, C: Work, L: Work, B: Work> {
    pub customers: Vec<Slot<KC, C>>,
    pub lanes: Vec<Slot<KL, L>>,
    pub bridges: Vec<Slot<KB, B>>,
    pub words: Words,
}

impl<KC, KL, KB, C, L, B> Floor<KC, KL, KB, C, L, B>
where
    KC: Roster<C>,
    KL: Roster<L>,
    KB: Roster<B>,
    C: Work,
    L: Work,
    B: Work,
{
    /// Takes turns of the place of the worker of this index until there is nothing to do. Returns whether its worker
    /// may sleep on. If not, it has to be woken.
    fn help<G: Gate, R: Clock>(
        &self,
        rt: &R,
        worker: usize,
        gate: &G,
        limits: Limits,
        helper: &mut Helper,
    ) -> bool
        requires { AreForGate KC.gives KL.gives KB.gives (G.gives gate.now) }
    {
        if let Some(slot) = self.customers.get(worker) {
            return help_at(rt, slot, gate, &self.words, limits, helper);
        }
        let lane = worker.wrapping_sub(self.customers.len());
        if let Some(slot) = self.lanes.get(lane) {
            return help_at(rt, slot, gate, &self.words, limits, helper);
        }
        let bridge = lane.wrapping_sub(self.lanes.len());
        match self.bridges.get(bridge) {
            Some(slot) => help_at(rt, slot, gate, &self.words, limits, helper),
            None => false,
        }
    }

    /// Helps the places that a worker has noted, and those beside them in turn.
    fn help_all<G: Gate, R: Clock>(&self, rt: &R, gate: &G, limits: Limits, helper: &mut Helper)
        requires { AreForGate KC.gives KL.gives KB.gives (G.gives gate.now) }
    {
        for _ in 0..MOST_PLACES {
            let Some(worker) = helper.next_errand() else {
                break;
            };
            if !self.help(rt, worker, gate, limits, helper) {
                if let Some(bells) = gate.bells() {
                    bells.wake(gate, worker);
                }
            }
        }
        helper.hand_over(gate);
    }
}

/// Waits for the start, takes turn after turn of the place in a slot, and closes the place. Helps the places beside it,
/// and sleeps on the bell of the place while there is nothing to do.
pub(crate) fn run_place<K, T, KC, KL, KB, C, L, B, G, R>(
    rt: &R,
    slot: &Slot<K, T>,
    floor: &Floor<KC, KL, KB, C, L, B>,
    gate: &G,
    limits: Limits,
)
where
    K: Roster<T>,
    T: Work,
    KC: Roster<C>,
    KL: Roster<L>,
    KB: Roster<B>,
    C: Work,
    L: Work,
    B: Work,
    G: Gate,
    R: Wait + Clock,
    requires own { K.gives ≡ G.gives gate.now }
    requires wishes { AreForGate KC.gives KL.gives KB.gives (G.gives gate.now) }
{
    if !floor.words.wait(rt) {
        return;
    }
    let mut worker = Worker::new();
    for _ in rt.forever() {
        match worker.work(rt, slot, gate, &floor.words, limits) {
            Next::End => return,
            Next::Help => floor.help_all(rt, gate, limits, &mut worker.helper),
            Next::Sleep(sleep) => worker.sleep(rt, gate, sleep),
        }
    }
}

/// Returns empty slots for as many places.
///
/// # Errors
///
/// `AllocError` if an allocation failed.
fn new_slots<K: Roster<T>, T: Work>(
    alloc: Global,
    count: usize,
) -> Result<Vec<Slot<K, T>>, AllocError>
    ensures { IfOk result (λ slots. vec_len slots ≡ count) }
{
    let mut slots = Vec::with_capacity(alloc, count)?;
    for _index in 0..count {
        slots.push(Slot::new())?;
    }
    Ok(slots)
}

/// Returns an empty slot for each place, and the counters of a run with this much left to do.
///
/// # Errors
///
/// `AllocError` if an allocation failed.
pub(crate) fn floor_for<KC, KL, KB, C, L, B>(
    alloc: Global,
    places: &Places<C, L, B>,
    left: u64,
) -> Result<Floor<KC, KL, KB, C, L, B>, AllocError>
where
    KC: Roster<C>,
    KL: Roster<L>,
    KB: Roster<B>,
    C: Work,
    L: Work,
    B: Work,
    ensures { IfOk result (λ floor. HasSlots places.now floor.customers floor.lanes floor.bridges) }
{
    Ok(Floor {
        customers: new_slots(alloc, places.customers.len())?,
        lanes: new_slots(alloc, places.lanes.len())?,
        bridges: new_slots(alloc, places.bridges.len())?,
        words: Words::new(left),
    })
}

/// Puts each place into its slot.
pub(crate) fn fill_row<K: Roster<T>, T: Work, R: Wait + Clock>(
    rt: &R,
    slots: &[Slot<K, T>],
    places: Vec<T>,
    limits: Limits,
)
    requires count { length slots.now ≡ vec_len places }
    requires places { places.items ≡ K.places }
    requires fits { All T.fits places.items }
    requires fresh { All (HasFulfilledNone T.fulfilled) places.items }
{
    let mut index = 0;
    for place in places {
        slots[index].put(rt, index, place, limits);
        index += 1;
    }
}

/// Takes each place out of its slot. Allocates nothing.
pub(crate) fn collect_row<K: Roster<T>, T: Work, R: Wait>(
    rt: &R,
    slots: Vec<Slot<K, T>>,
    room: Vec<T>,
) -> Vec<T>
    requires room { (room.items ≡ []) × (vec_len slots ≤ vec_capacity room) }
    requires count { vec_len slots ≡ length K.places }
    ensures back { AreBack T.given T.fits K.places result.items }
    ensures wishes { All (HasFulfilledGiven K.gives T.named T.given T.fulfilled) result.items }
{
    let mut places = room;
    for slot in slots {
        let place = slot.take(rt, places.len());
        places.push_reserved(place);
    }
    places
}
