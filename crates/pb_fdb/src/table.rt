//! The filtering database.

ghost use Rattle.std.specs.List.{AllByRecursion};
ghost use Rattle.std.specs.Prelude.{◌≡◌, ◌<◌, ◌≤◌, ◌++◌, ◌∷◌, [], length, nat_le, OnOk, OnErr, if◌then◌else◌};
ghost use Rattle.pb_frame.specs.Frames.{is_group};
ghost use Rattle.pb_frame.specs.Stations.{is_fresh, IsLearnt};
ghost use Rattle.pb_fdb.specs.Entries.{sighting_of, without_station, fresh_entries, entries_with_room, InOrder};
ghost use Rattle.pb_fdb.specs.Tables.{empty_table, sighting_at, where_in, is_full, expired, flushed, learnt_table};

use crate::entries::Entries;
use crate::entry::Entry;
use crate::journal::Journal;
use pb_frame::{Learnt, Mac};
use std::alloc::{AllocError, Global};
use std::marker::Model;

/// The filtering database: where stations were last seen, by service and address, in the order of last learning,
/// oldest first (IEEE 802.1Q clause 8). Moments are in ticks.
#[derive(Drop)]
pub struct Fdb {
    limit: usize,
    ageing: u32,
    clock: u64,
    journal: Journal,
}

impl Model for Fdb {
    ghost use Rattle.pb_fdb.specs.Tables.{Table};

    ghost Value = { Table };

    ghost use Rattle.pb_fdb.specs.Entries.{table_of, IsKept};

    ghost view = { λ f. table_of f.limit f.ageing f.clock f.journal };

    ghost invariant = { λ f. IsKept f.limit f.ageing f.clock f.journal };
}

/// Checks whether the entry is younger than the ageing time.
fn is_fresh(entry: &Entry, ageing: u32, now: u64) -> bool
    ensures { result ≡ is_fresh ageing now (sighting_of entry.now) }
{
    now.saturating_sub(entry.learnt) < u64::from(ageing)
}

/// Removes the entries that have aged out. They come first.
fn forget_old(journal: &mut Journal, ageing: u32, now: u64)
    requires { InOrder journal.old }
    ensures { journal.new ≡ fresh_entries ageing now journal.old }
{
    while let Some(entry) = journal.oldest() {
        if is_fresh(&entry, ageing, now) {
            return;
        }
        journal.forget_oldest();
    }
}

/// Removes the entries that have aged out, if `full` is set.
fn sweep(journal: &mut Journal, full: bool, ageing: u32, now: u64)
    requires { InOrder journal.old }
    ensures { journal.new ≡ (if full then fresh_entries ageing now journal.old else journal.old) }
{
    if full {
        forget_old(journal, ageing, now);
    }
}

/// Checks whether as many stations are live as the limit allows. If the journal has as many entries as that, all of
/// them are live exactly if the oldest is.
fn is_full(journal: &mut Journal, limit: usize, ageing: u32, now: u64) -> bool
    requires order { InOrder journal.old }
    requires fits { length journal.old ≤ limit }
    ensures entries { journal.new ≡ journal.old }
    ensures full { result ≡ nat_le limit (length (fresh_entries ageing now journal.old)) }
{
    if journal.len() < limit {
        return false;
    }
    match journal.oldest() {
        Some(entry) => is_fresh(&entry, ageing, now),
        None => true,
    }
}

/// Appends an entry, and removes the one of the same station if there is one. If there were as many entries as the
/// limit allows, it also removes those that have aged out. It allocates first.
///
/// # Errors
///
/// `AllocError` if an allocation failed. The entries are unchanged then.
fn add(journal: &mut Journal, entry: Entry, limit: usize, ageing: u32) -> Result<(), AllocError>
    requires order { InOrder journal.old }
    requires before { AllByRecursion (λ e. e.learnt ≤ entry.learnt) journal.old }
    requires ageing { 0 < ageing }
    ensures ok { OnOk result (journal.new
        ≡ without_station entry (entries_with_room limit ageing entry.learnt journal.old) ++ entry ∷ []) }
    ensures err { OnErr result (journal.new ≡ journal.old) }
{
    let full = journal.len() >= limit;
    journal.replace(entry)?;
    sweep(journal, full, ageing, entry.learnt);
    Ok(())
}

impl Fdb {
    /// Returns an empty table. It keeps at most `limit` stations, each for fewer than `ageing` ticks after it was
    /// last seen. Allocates nothing.
    pub fn new(alloc: Global, limit: usize, ageing: u32) -> Fdb
        requires { 0 < ageing }
        ensures { result ≡ empty_table limit ageing }
    {
        Fdb {
            limit,
            ageing,
            clock: 0,
            journal: Journal::new(alloc),
        }
    }

    /// Returns the port at which the station was last seen in the service, if that is fewer than `ageing` ticks ago.
    ///
    /// # Examples
    ///
    /// ```
    /// use pb_fdb::{Fdb, Learnt};
    /// use pb_frame::Mac;
    ///
    /// let station = Mac([2, 0, 0, 0, 0, 1]);
    /// let mut fdb = Fdb::new(rt.alloc(), 4096, 300);
    /// assert_eq!(rt; fdb.learn(100, station, 1, 0), Learnt::New);
    /// assert_eq!(rt; fdb.find(100, station, 299), Some(1));
    /// assert_eq!(rt; fdb.find(100, station, 300), None);
    /// assert_eq!(rt; fdb.find(200, station, 0), None);
    /// ```
    pub fn find(&self, vid: u16, mac: Mac, now: u64) -> Option<u8>
        ensures { result ≡ where_in self.now now vid mac.0 }
    {
        let entry = self.journal.find(vid, mac)?;
        if is_fresh(&entry, self.ageing, now) {
            return Some(entry.port);
        }
        None
    }

    /// Records that a station was seen in a service at a port, at the moment `now`. `now` is not before the moment of
    /// any earlier call.
    ///
    /// Returns `Group` exactly for a group address, and `Full` exactly if `limit` other stations are live and this
    /// one is not. Returns `Kept` or `Moved` if the station is live, without an allocation. Otherwise it returns
    /// `New`, or `Memory` if an allocation failed. If the table has `limit` entries and the station is added, entries
    /// that have aged out are removed. `Full`, `Group` and `Memory` leave the entries unchanged.
    ///
    /// # Examples
    ///
    /// ```
    /// use pb_fdb::{Fdb, Learnt};
    /// use pb_frame::Mac;
    ///
    /// let station = Mac([2, 0, 0, 0, 0, 1]);
    /// let mut fdb = Fdb::new(rt.alloc(), 4096, 300);
    /// assert_eq!(rt; fdb.learn(100, station, 1, 0), Learnt::New);
    /// assert_eq!(rt; fdb.learn(100, station, 1, 5), Learnt::Kept);
    /// assert_eq!(rt; fdb.learn(100, station, 2, 9), Learnt::Moved);
    /// ```
    pub fn learn(&mut self, vid: u16, mac: Mac, port: u8, now: u64) -> Learnt
        requires { self.old.clock ≤ now }
        ensures answer { IsLearnt (is_group mac.0) (where_in self.old now vid mac.0) (is_full self.old now) port
            result }
        ensures table { self.new ≡ learnt_table self.old (sighting_at vid mac.0 port now) result }
    {
        self.clock = now;
        if mac.is_group() {
            return Learnt::Group;
        }
        let entry = Entry {
            vid,
            mac,
            port,
            learnt: now,
        };
        let full = self.journal.len() >= self.limit;
        let Some(old) = self.journal.renew(entry) else {
            if is_full(&mut self.journal, self.limit, self.ageing, now) {
                return Learnt::Full;
            }
            let Ok(()) = add(&mut self.journal, entry, self.limit, self.ageing) else {
                return Learnt::Memory;
            };
            return Learnt::New;
        };
        if !is_fresh(&old, self.ageing, now) {
            sweep(&mut self.journal, full, self.ageing, now);
            return Learnt::New;
        }
        if old.port == port {
            Learnt::Kept
        } else {
            Learnt::Moved
        }
    }

    /// Removes the entries of stations that were last seen at a port.
    pub fn flush(&mut self, port: u8)
        ensures { self.new ≡ flushed self.old port }
    {
        self.journal.flush(port);
    }

    /// Removes the entries that have aged out at the moment `now`. `now` is not before the moment of any earlier
    /// call.
    pub fn expire(&mut self, now: u64)
        requires { self.old.clock ≤ now }
        ensures { self.new ≡ expired self.old now }
    {
        self.clock = now;
        forget_old(&mut self.journal, self.ageing, now);
    }

    /// Iterates over the entries in the order of last learning, oldest first. Entries that have aged out and are not
    /// removed yet are among them.
    pub fn entries(&self) -> Entries<'_>
        ensures { result ≡ self.now.sightings }
    {
        self.journal.entries()
    }
}

/// The copy is equal.
impl Clone for Fdb {
    ghost is_clone = { λ table copy. copy ≡ table };

    fn clone(&self) -> Result<Fdb, AllocError> {
        Ok(Fdb {
            limit: self.limit,
            ageing: self.ageing,
            clock: self.clock,
            journal: self.journal.clone()?,
        })
    }
}
