//! The stations of a bridge while it works.

ghost use Rattle.std.specs.List.{filter};
ghost use Rattle.std.specs.Prelude.{◌≡◌, map, IfOk, IfSome};
ghost use Rattle.pb_fdb.specs.Entries.{sighting_of};
ghost use Rattle.pb_frame.specs.Stations.{is_fresh};
ghost use Rattle.pb_workers.specs.Stations.{stations_of, station_seen};

use pb_frame::Memory;
use pb_relay::{Bridge, Entries, Entry, KnownStations};
use pb_threads::StationView;
use std::alloc::Global;

/// Checks whether an entry of the learning table has not aged out at the moment `now`.
fn is_live(entry: &Entry, ageing: u32, now: u64) -> bool
    ensures { result ≡ is_fresh ageing now (sighting_of entry.now) }
{
    now.saturating_sub(entry.learnt) < u64::from(ageing)
}

/// Returns the station of an entry at the moment `now`.
fn station_of(entry: &Entry, now: u64) -> StationView
    ensures { result ≡ station_seen now (sighting_of entry.now) }
{
    StationView {
        vid: entry.vid,
        address: entry.mac,
        port: entry.port,
        age: now.saturating_sub(entry.learnt),
    }
}

/// Returns the stations of the entries that have not aged out at the moment `now`, in their order.
///
/// # Errors
///
/// `Memory` if an allocation failed.
fn live_in(
    alloc: Global,
    entries: Entries<'_>,
    ageing: u32,
    now: u64,
) -> Result<Vec<StationView>, Memory>
    ensures { IfOk result (λ list. list.items ≡ map (station_seen now) (filter (is_fresh ageing now) entries.entry)) }
{
    let (mut list, mut rest) = (Vec::new(alloc), entries);
    while let Some(entry) = rest.next() {
        if is_live(&entry, ageing, now) {
            list.push(station_of(&entry, now))?;
        }
    }
    Ok(list)
}

/// Returns the stations that a bridge has learnt and not forgotten, in the order in which they were last seen, oldest
/// first. `None` if an allocation failed.
pub(crate) fn stations_of(alloc: Global, bridge: &Bridge) -> Option<Vec<StationView>>
    ensures { IfSome result (λ list. list.items ≡ stations_of bridge.now) }
{
    let KnownStations {
        entries,
        now,
        ageing,
    } = bridge.stations();
    match live_in(alloc, entries, ageing, now) {
        Ok(list) => Some(list),
        Err(Memory) => None,
    }
}
