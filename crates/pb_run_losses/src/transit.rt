//! The line for customers' frames that a run left in its network.

ghost use Rattle.std.specs.Prelude.{◌≡◌, ◌≤◌, ◌*◌, ◌^◌, ◌↔◌, IsTrue, IfOk, length, string_bytes};
ghost use Rattle.pb_forest.specs.Draining.{gains, losses};
ghost use Rattle.pb_run_losses.specs.Transit.{HasFewPlaces, in_transit, transit_line};

use pb_frame::Memory;
use pb_history::{Tallies, Tally};
use std::alloc::Global;

/// The most places of one kind in a record of a sound plan.
const MOST_PLACES: usize = 128;

/// The numbers of customers' frames that steps added to a network and removed from it.
#[derive(Clone, Copy)]
struct Flow {
    gained: u128,
    parted: u128,
}

/// Returns the flow of the steps of some places.
fn flow_of(places: &[Tally]) -> Flow
    requires { length places.now ≤ 128 }
    ensures gained { result.gained ≡ gains places.now }
    ensures parted { result.parted ≡ losses places.now }
    ensures few { result.gained ≤ 2048 * 2 ^ 64 }
    ensures fewer { result.parted ≤ 2048 * 2 ^ 64 }
{
    let mut flow = Flow {
        gained: 0,
        parted: 0,
    };
    for tally in places {
        flow.gained += tally.gained();
        flow.parted += tally.parted();
    }
    flow
}

/// Returns how many customers' frames the steps of a network left in it.
fn in_transit(counts: &Tallies) -> u128
    requires { HasFewPlaces counts.now }
    ensures { result ≡ in_transit counts.now }
{
    let bridges = flow_of(counts.bridges());
    let lanes = flow_of(counts.lanes());
    let customers = flow_of(counts.customers());
    let gained = bridges.gained + lanes.gained + customers.gained;
    gained.saturating_sub(bridges.parted + lanes.parted + customers.parted)
}

/// Checks whether there are no more places of a kind than a sound plan has.
fn has_few_places(counts: &Tallies) -> bool
    ensures { IsTrue result ↔ HasFewPlaces counts.now }
{
    counts.bridges().len() <= MOST_PLACES
        && counts.lanes().len() <= MOST_PLACES
        && counts.customers().len() <= MOST_PLACES
}

/// Returns the line `frames in transit: N`, which counts the customers' frames that a run left in its network: in
/// queues, on links, and on the way between bridges and customer ports. It is empty if there are none.
///
/// A frame and each copy of it count once. BPDUs of the bridges do not count. A record with more than 128 bridges,
/// lanes or customer ports, which no sound plan has, has no line.
///
/// # Errors
///
/// `Memory` if an allocation failed.
pub fn transit_of(alloc: Global, counts: &Tallies) -> Result<String, Memory>
    ensures { IfOk result (λ text. HasFewPlaces counts.now
        → string_bytes text ≡ transit_line (in_transit counts.now)) }
{
    let mut out = String::new(alloc);
    if !has_few_places(counts) {
        return Ok(out);
    }
    let count = in_transit(counts);
    if count > 0 {
        writeln!(out, "frames in transit: {count}")?;
    }
    Ok(out)
}
