//! The counts and steps of the places of a run once they are back.

ghost use Rattle.std.specs.Prelude.{◌≡◌, ◌≤◌, ◌<◌, ◌++◌, ◌∷◌, [], All, true, false, map, vec_len, vec_capacity, IfOk};
ghost use Rattle.std.specs.List.{AllByRecursion, AllZip, list_any};
ghost use Rattle.pb_lan.specs.BridgeLists.{IsLawfulBridge};
ghost use Rattle.pb_lan.specs.LaneLists.{IsLawfulLane};
ghost use Rattle.pb_lan.specs.Laws.{is_setting};
ghost use Rattle.pb_lan.specs.PortLists.{IsLawfulPort};
ghost use Rattle.pb_relay.specs.Protocol.{spanning_tree};
ghost use Rattle.pb_run.specs.Rooms.{HasRoomFor};
ghost use Rattle.pb_workers.specs.Lossless.{refuses_when_full};
ghost use Rattle.pb_workers.specs.Recording.{AreRecorded};

use pb_frame::{Memory, Seq};
use pb_history::{Steps, Tally};
use pb_lan::Step;
use pb_ring::Wiring;
use pb_tap::Tap;
use pb_workers::{Access, BridgeWorker, LaneWorker};
use std::alloc::Global;

/// The counts of each place, and the steps of those places that keep them.
#[derive(Drop)]
pub(crate) struct Gathered {
    /// The counts of each place.
    pub tallies: Vec<Tally>,
    /// The steps of each place that keeps them, and an empty list for any other.
    pub lists: Vec<Seq<Step>>,
}

impl Gathered {
    /// Returns empty lists with capacity for `places` places.
    ///
    /// # Errors
    ///
    /// `Memory` if an allocation failed.
    pub(crate) fn with_room(alloc: Global, places: usize) -> Result<Gathered, Memory>
        ensures { IfOk result (HasRoomFor places) }
    {
        let tallies = Vec::with_capacity(alloc, places)?;
        Ok(Gathered {
            tallies,
            lists: Vec::with_capacity(alloc, places)?,
        })
    }

    /// Appends the counts and steps of one place. Allocates nothing.
    fn push(&mut self, steps: Steps)
        requires tallies { vec_len self.old.tallies < vec_capacity self.old.tallies }
        requires lists { vec_len self.old.lists < vec_capacity self.old.lists }
        ensures tallies { self.new.tallies.items ≡ self.old.tallies.items ++ steps.steps ∷ [] }
        ensures lists { (kept : _) × (self.new.lists.items ≡ self.old.lists.items ++ kept ∷ [])
            × (steps.is_kept ≡ true → kept ≡ steps.steps) }
        ensures tallies_room { vec_capacity self.new.tallies ≡ vec_capacity self.old.tallies }
        ensures lists_room { vec_capacity self.new.lists ≡ vec_capacity self.old.lists }
    {
        let (tally, kept) = steps.into_parts();
        self.tallies.push_reserved(tally);
        self.lists.push_reserved(Seq::from_vec(kept));
    }
}

/// Gathers the counts and steps of bridges. Allocates nothing.
pub(crate) fn bridge_lists<W: Wiring>(workers: Vec<BridgeWorker<W>>, mut room: Gathered) -> Gathered
    requires empty { (room.tallies.items ≡ []) × (room.lists.items ≡ []) }
    requires room { (vec_len workers ≤ vec_capacity room.tallies) × (vec_len workers ≤ vec_capacity room.lists) }
    ensures steps { result.tallies.items ≡ map (λ b. b.bridge.steps) workers.items }
    ensures kept { W.keeps ≡ true → result.lists.items ≡ map (λ b. b.bridge.steps) workers.items }
    ensures lawful { All (λ b. IsLawfulBridge spanning_tree b.bridge.plan b.bridge.number b.bridge.steps)
        workers.items }
    ensures unset { W.sets ≡ false → AllByRecursion (λ steps. list_any is_setting steps ≡ false) result.tallies.items }
    ensures whole { W.waits ≡ true
        → AllByRecursion (λ steps. list_any refuses_when_full steps ≡ false) result.tallies.items }
{
    for worker in workers {
        room.push(worker.bridge.into_steps());
    }
    room
}

/// Gathers the counts and steps of lanes, and their taps. Allocates nothing.
pub(crate) fn lane_lists<W: Wiring, P: Drop>(
    workers: Vec<LaneWorker<W, P>>,
    mut room: Gathered,
    taps_room: &mut Vec<Vec<Tap<P>>>,
) -> Gathered
    requires empty { (room.tallies.items ≡ []) × (room.lists.items ≡ []) × (taps_room.old.items ≡ []) }
    requires room { (vec_len workers ≤ vec_capacity room.tallies) × (vec_len workers ≤ vec_capacity room.lists)
        × (vec_len workers ≤ vec_capacity taps_room.old) }
    ensures steps { result.tallies.items ≡ map (λ l. l.lane.steps) workers.items }
    ensures kept { W.keeps ≡ true → result.lists.items ≡ map (λ l. l.lane.steps) workers.items }
    ensures lawful { All (λ l. IsLawfulLane l.lane.losses l.lane.steps) workers.items }
    ensures taps { AllZip (λ taps steps. AreRecorded taps.items steps) taps_room.new.items result.tallies.items }
{
    for worker in workers {
        let LaneWorker {
            number: _,
            lane,
            from: _,
            to: _,
            taps,
            limit: _,
            finish: _,
        } = worker;
        taps_room.push_reserved(taps);
        room.push(lane.into_steps());
    }
    room
}

/// Returns the steps of a customer port.
fn access_steps<W: Wiring>(access: Access<W>) -> Steps
    ensures steps { result.steps ≡ access.place.steps }
    ensures kept { W.keeps ≡ true → result.is_kept ≡ true }
    ensures lawful { IsLawfulPort access.place.number access.place.steps }
{
    let Access {
        place,
        feed: _,
        drain: _,
        offered: _,
        book: _,
    } = access;
    place.into_steps()
}

/// Gathers the counts and steps of customer ports. Allocates nothing.
pub(crate) fn access_lists<W: Wiring>(accesses: Vec<Access<W>>, mut room: Gathered) -> Gathered
    requires empty { (room.tallies.items ≡ []) × (room.lists.items ≡ []) }
    requires room { (vec_len accesses ≤ vec_capacity room.tallies) × (vec_len accesses ≤ vec_capacity room.lists) }
    ensures steps { result.tallies.items ≡ map (λ d. d.place.steps) accesses.items }
    ensures kept { W.keeps ≡ true → result.lists.items ≡ map (λ d. d.place.steps) accesses.items }
    ensures lawful { All (λ d. IsLawfulPort d.place.number d.place.steps) accesses.items }
{
    for access in accesses {
        room.push(access_steps(access));
    }
    room
}
