//! Entries in the order of last learning, with an index by station.

ghost use Rattle.indexmap.specs.IndexMap.{get, keys, values, index_map_len};
ghost use Rattle.std.specs.List.{filter};
ghost use Rattle.std.specs.Option.{option_to_list};
ghost use Rattle.std.specs.Prelude.{◌≡◌, ◌==◌, ◌<◌, ◌≤◌, ◌+◌, ◌^◌, ◌++◌, ◌∷◌, [], List, Some, None, not, length, drop};
ghost use Rattle.std.specs.Prelude.{slice_get, IfOk, OnOk, OnErr, OnSome, IfSome, IfNone};
ghost use Rattle.std.specs.VecDeque.{deque_len, deque_capacity};
ghost use Rattle.pb_frame.specs.Stations.{is_sighted};
ghost use Rattle.pb_fdb.specs.Entries.{sighting_of, sightings, without_station};
ghost use Rattle.pb_fdb.specs.Journals.{is_same, entry_at, entries_from, place_after, stations, stays, HasEach};
ghost use Rattle.pb_fdb.specs.Journals.{HasTurned, IsIndexWith};
ghost use Rattle.pb_fdb.specs.declared.station.Station.{Station};

use crate::entries::Entries;
use crate::entry::Entry;
use crate::station::{LastSeen, LogEntry, Station};
use indexmap::IndexMap;
use pb_frame::Mac;
use std::alloc::{AllocError, Global};
use std::collections::VecDeque;
use std::marker::Model;

/// An index of stations: where each was last seen. A look-up takes constant time. The hash has no secret key.
/// Somebody who chooses the addresses can make a look-up as slow as a search through all stations, but no slower.
pub(crate) type Index = IndexMap<Station, LastSeen>;

/// Entries in the order of last learning, oldest first. Each is found by its station in constant time. Contracts see
/// the list of entries. An empty journal allocates nothing.
///
/// The log has a place for each time that a station was learnt. The index has the latest place of each station, and
/// only that place counts. A station that is learnt again gets a place at the end of the log, without a search for
/// its old one. When the log is full, the places that no longer count are dropped. Each place keeps the slot at which
/// the index had its station. The station is looked up only if the index has moved it to another slot.
#[derive(Drop)]
pub struct Journal {
    index: Index,
    log: VecDeque<LogEntry>,
    first: u64,
}

impl Model for Journal {
    ghost use Rattle.indexmap.specs.IndexMap.{get, index_map_len};
    ghost use Rattle.std.specs.Prelude.{List};
    ghost use Rattle.std.specs.VecDeque.{deque_capacity};
    ghost use Rattle.pb_fdb.specs.declared.entry.Entry.{Entry};
    ghost use Rattle.pb_fdb.specs.Journals.{entries_from, is_same, stations, IsJournal};

    ghost Value = { List Entry };

    ghost view = { λ j. entries_from (get is_same j.index) j.first (stations j.log.items) };

    ghost invariant = { λ j. IsJournal (get is_same j.index) (index_map_len j.index) (deque_capacity j.log)
        (entries_from (get is_same j.index) j.first (stations j.log.items)) };
}

/// Looks up the slot at which the index has a station. It is never inlined, which keeps its caller `slot_of` short.
#[inline(never)]
fn find_slot(index: &Index, station: &Station) -> Option<usize>
    ensures station { IfSome result (λ slot. slice_get (keys index.now) slot ≡ Some station.now) }
    ensures seen { IfSome result (λ slot. slice_get (values index.now) slot ≡ get is_same index.now station.now) }
    ensures within { IfSome result (λ slot. slot < index_map_len index.now) }
    ensures absent { IfNone result (get is_same index.now station.now ≡ None) }
{
    index.get_index_of(station)
}

/// Returns the slot at which the index has the station of a place. Mostly it is the slot that the place keeps.
/// Otherwise it looks the station up.
fn slot_of(index: &Index, place: &LogEntry) -> Option<usize>
    ensures station { IfSome result (λ slot. slice_get (keys index.now) slot ≡ Some place.now.station) }
    ensures seen { IfSome result (λ slot. slice_get (values index.now) slot ≡ get is_same index.now place.now.station) }
    ensures within { IfSome result (λ slot. slot < index_map_len index.now) }
    ensures absent { IfNone result (get is_same index.now place.now.station ≡ None) }
{
    let slot = place.slot as usize;
    match index.get_index(slot) {
        Some((station, _)) if *station == place.station => Some(slot),
        _ => find_slot(index, &place.station),
    }
}

/// Returns the entry of a place of the log, if this is the latest place of its station.
pub(crate) fn entry_there(index: &Index, at: u64, place: &LogEntry) -> Option<Entry>
    ensures { entry_at at place.now.station (get is_same index.now place.now.station) ≡ option_to_list result }
{
    let slot = slot_of(index, place)?;
    let seen = index[slot];
    if seen.at != at {
        return None;
    }
    Some(Entry {
        vid: place.station.vid,
        mac: place.station.mac,
        port: seen.port,
        learnt: seen.learnt,
    })
}

/// Sets where the station at a slot of the index was last seen, and returns where it was last seen before.
fn note(index: &mut Index, slot: usize, seen: LastSeen) -> LastSeen
    requires { slot < index_map_len index.old }
    ensures old { slice_get (values index.old) slot ≡ Some result }
    ensures noted { (s : Station) → slice_get (keys index.old) slot ≡ Some s
        → IsIndexWith s (Some seen) (get is_same index.old) (get is_same index.new) }
    ensures len { index_map_len index.new ≡ index_map_len index.old }
{
    let (_, last) = index.pair_mut(slot);
    let old = *last;
    *last = seen;
    old
}

/// Drops the places at the front of a log that do not count, and returns the entry of the first that does.
fn front(index: &Index, log: &mut VecDeque<LogEntry>, first: &mut u64) -> Option<Entry>
    ensures entries { entries_from (get is_same index.now) first.new (stations log.new.items)
        ≡ entries_from (get is_same index.now) first.old (stations log.old.items) }
    ensures oldest { result ≡ slice_get (entries_from (get is_same index.now) first.old (stations log.old.items)) 0 }
    ensures capacity { deque_capacity log.new ≡ deque_capacity log.old }
{
    while let Some(place) = log.front() {
        let entry = entry_there(index, *first, place);
        if entry.is_some() {
            return entry;
        }
        let _ = log.pop_front();
        *first = first.wrapping_add(1);
    }
    None
}

/// Drops the first place of a log. If the place counts, its entry is removed if it is at `port`, and otherwise moved
/// to the end of the log.
fn turn(index: &mut Index, log: &mut VecDeque<LogEntry>, first: &mut u64, port: Option<u8>)
    requires some { 0 < deque_len log.old }
    requires each { HasEach (get is_same index.old)
        (entries_from (get is_same index.old) first.old (stations log.old.items)) }
    ensures first { first.new ≡ place_after first.old 1 }
    ensures turned { (s : Station) (rest : List Station) → stations log.old.items ≡ s ∷ rest
        → HasTurned (stays port) (get is_same index.old) (get is_same index.new) first.old s rest
        (stations log.new.items) }
    ensures each { HasEach (get is_same index.new)
        (entries_from (get is_same index.new) first.new (stations log.new.items)) }
    ensures count { length (entries_from (get is_same index.old) first.old (stations log.old.items))
        ≡ index_map_len index.old
        → length (entries_from (get is_same index.new) first.new (stations log.new.items)) ≡ index_map_len index.new }
    ensures capacity { deque_capacity log.new ≡ deque_capacity log.old }
{
    let Some(place) = log.pop_front() else {
        unreachable!();
    };
    let at = *first;
    *first = at.wrapping_add(1);
    let Some(slot) = slot_of(index, &place) else {
        return;
    };
    let seen = index[slot];
    if seen.at != at {
        return;
    }
    if port == Some(seen.port) {
        let _ = index.swap_remove_index(slot);
        return;
    }
    let last = LastSeen {
        at: first.wrapping_add(log.len() as u64),
        ..seen
    };
    let _ = note(index, slot, last);
    log.push_back_reserved(LogEntry::new(place.station, slot));
}

/// Drops the places of a log that do not count, and the entries at `port`. It takes each place once, and moves those
/// that remain to the end in their order.
fn rotate(index: &mut Index, log: &mut VecDeque<LogEntry>, first: &mut u64, port: Option<u8>)
    requires each { HasEach (get is_same index.old)
        (entries_from (get is_same index.old) first.old (stations log.old.items)) }
    requires count { length (entries_from (get is_same index.old) first.old (stations log.old.items))
        ≡ index_map_len index.old }
    ensures entries { entries_from (get is_same index.new) first.new (stations log.new.items)
        ≡ filter (stays port) (entries_from (get is_same index.old) first.old (stations log.old.items)) }
    ensures each { HasEach (get is_same index.new)
        (entries_from (get is_same index.new) first.new (stations log.new.items)) }
    ensures count { length (entries_from (get is_same index.new) first.new (stations log.new.items))
        ≡ index_map_len index.new }
    ensures len { deque_len log.new ≡ index_map_len index.new }
    ensures capacity { deque_capacity log.new ≡ deque_capacity log.old }
{
    for _turn in 0..log.len() {
        turn(index, log, first, port);
    }
}

/// Frees places of a full log by dropping those that do not count, if there are any.
#[tactic(auto, using(crate::proofs::LogLemmas::all_stay))]
fn free_place(index: &mut Index, log: &mut VecDeque<LogEntry>, first: &mut u64)
    requires each { HasEach (get is_same index.old)
        (entries_from (get is_same index.old) first.old (stations log.old.items)) }
    requires count { length (entries_from (get is_same index.old) first.old (stations log.old.items))
        ≡ index_map_len index.old }
    ensures entries { entries_from (get is_same index.new) first.new (stations log.new.items)
        ≡ entries_from (get is_same index.old) first.old (stations log.old.items) }
    ensures each { HasEach (get is_same index.new)
        (entries_from (get is_same index.new) first.new (stations log.new.items)) }
    ensures len { index_map_len index.new ≡ index_map_len index.old }
    ensures place { index_map_len index.old < deque_capacity log.old → deque_len log.new < deque_capacity log.new }
    ensures capacity { deque_capacity log.new ≡ deque_capacity log.old }
{
    if log.len() == log.capacity() {
        rotate(index, log, first, None);
    }
}

/// Grows a log to at least two places for each of `count + 1` stations, and to at least one free place.
///
/// # Errors
///
/// `AllocError` if an allocation failed. The log is unchanged then.
fn make_room(log: &mut VecDeque<LogEntry>, count: usize) -> Result<(), AllocError>
    requires { count < 2 ^ 63 }
    ensures items { log.new.items ≡ log.old.items }
    ensures place { OnOk result (deque_len log.new < deque_capacity log.new) }
    ensures room { OnOk result (count + 2 ≤ deque_capacity log.new) }
    ensures capacity { deque_capacity log.old ≤ deque_capacity log.new }
{
    let room = count.saturating_add(1).saturating_mul(2);
    if log.capacity() < room || log.len() == log.capacity() {
        log.reserve(room.saturating_mul(2))?;
    }
    Ok(())
}

impl Journal {
    /// Returns a journal without entries. Allocates nothing.
    pub fn new(alloc: Global) -> Journal
        ensures { result ≡ [] }
    {
        Journal {
            index: IndexMap::new(alloc),
            log: VecDeque::new(alloc),
            first: 0,
        }
    }

    /// Returns the number of entries.
    pub fn len(&self) -> usize
        ensures { result ≡ length self.now }
    {
        self.index.len()
    }

    /// Returns the entry of the station, which has at most one. It makes one look-up.
    pub fn find(&self, vid: u16, mac: Mac) -> Option<Entry>
        ensures { filter (λ e. is_sighted vid mac.0 (sighting_of e)) self.now ≡ option_to_list result }
    {
        let seen = self.index.get(&Station { vid, mac })?;
        Some(Entry {
            vid,
            mac,
            port: seen.port,
            learnt: seen.learnt,
        })
    }

    /// Returns the entry that was learnt longest ago.
    pub fn oldest(&mut self) -> Option<Entry>
        ensures entries { self.new ≡ self.old }
        ensures oldest { result ≡ slice_get self.old 0 }
    {
        front(&self.index, &mut self.log, &mut self.first)
    }

    /// Removes the entry that was learnt longest ago.
    pub fn forget_oldest(&mut self)
        ensures { self.new ≡ drop 1 self.old }
    {
        let Some(entry) = front(&self.index, &mut self.log, &mut self.first) else {
            return;
        };
        let _ = self.index.swap_remove(&Station {
            vid: entry.vid,
            mac: entry.mac,
        });
    }

    /// Replaces the entry of the same station by `new`, at the end, and returns the old entry. If the station has no
    /// entry, the entries are unchanged and it returns `None`. It makes one look-up, or more if the log is full.
    /// Allocates nothing.
    pub fn renew(&mut self, new: Entry) -> Option<Entry>
        ensures old { filter (λ e. is_sighted new.vid new.mac.0 (sighting_of e)) self.old ≡ option_to_list result }
        ensures renewed { OnSome result (self.new ≡ without_station new self.old ++ new ∷ []) }
        ensures absent { IfNone result (self.new ≡ self.old) }
    {
        free_place(&mut self.index, &mut self.log, &mut self.first);
        let station = Station {
            vid: new.vid,
            mac: new.mac,
        };
        let slot = self.index.get_index_of(&station)?;
        let seen = LastSeen {
            at: self.first.wrapping_add(self.log.len() as u64),
            learnt: new.learnt,
            port: new.port,
        };
        let old = note(&mut self.index, slot, seen);
        self.log.push_back_reserved(LogEntry::new(station, slot));
        Some(Entry {
            vid: new.vid,
            mac: new.mac,
            port: old.port,
            learnt: old.learnt,
        })
    }

    /// Appends an entry at the end, and removes the one of the same station if there is one.
    ///
    /// # Errors
    ///
    /// `AllocError` if an allocation failed. The entries are unchanged then.
    pub fn replace(&mut self, entry: Entry) -> Result<(), AllocError>
        ensures ok { OnOk result (self.new ≡ without_station entry self.old ++ entry ∷ []) }
        ensures err { OnErr result (self.new ≡ self.old) }
    {
        make_room(&mut self.log, self.index.len())?;
        let station = Station {
            vid: entry.vid,
            mac: entry.mac,
        };
        let seen = LastSeen {
            at: self.first.wrapping_add(self.log.len() as u64),
            learnt: entry.learnt,
            port: entry.port,
        };
        let (slot, _) = self.index.insert_full(station, seen)?;
        self.log.push_back_reserved(LogEntry::new(station, slot));
        Ok(())
    }

    /// Removes the entries at a port.
    pub fn flush(&mut self, port: u8)
        ensures { self.new ≡ filter (λ e. not (port == e.port)) self.old }
    {
        rotate(&mut self.index, &mut self.log, &mut self.first, Some(port));
    }

    /// Iterates over the entries in the order of last learning, oldest first.
    pub fn entries(&self) -> Entries<'_>
        ensures { result ≡ sightings self.now }
    {
        Entries::of(&self.index, self.log.iter(), self.first)
    }
}

/// Returns a copy of an index.
fn copied_index(index: &Index) -> Result<Index, AllocError>
    ensures { IfOk result (λ copy. copy.entries ≡ index.now.entries) }
{
    index.clone()
}

/// Returns a copy of a log, with the capacity of the log at least.
fn copied_log(log: &VecDeque<LogEntry>) -> Result<VecDeque<LogEntry>, AllocError>
    ensures items { IfOk result (λ copy. copy.items ≡ log.now.items) }
    ensures room { IfOk result (λ copy. deque_capacity log.now ≤ deque_capacity copy) }
{
    let mut copy = log.clone()?;
    copy.reserve(log.capacity().saturating_sub(copy.len()))?;
    Ok(copy)
}

/// The copy is equal.
impl Clone for Journal {
    ghost is_clone = { λ journal copy. copy ≡ journal };

    fn clone(&self) -> Result<Journal, AllocError> {
        let index = copied_index(&self.index)?;
        let log = copied_log(&self.log)?;
        Ok(Journal {
            index,
            log,
            first: self.first,
        })
    }
}
