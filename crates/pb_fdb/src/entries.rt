//! Iteration over the entries of the table.

ghost use Rattle.indexmap.specs.IndexMap.{get};
ghost use Rattle.std.specs.Iterator.{YieldsFirstBy, item_count};
ghost use Rattle.std.specs.Prelude.{◌≡◌};
ghost use Rattle.std.specs.VecDeque.Iter.{deque_iter_rest};
ghost use Rattle.pb_fdb.specs.Entries.{sighting_of, sightings};
ghost use Rattle.pb_fdb.specs.Journals.{entries_from, is_same, stations};

use crate::entry::Entry;
use crate::journal::{Index, entry_there};
use crate::station::LogEntry;
use std::collections::vec_deque::Iter;
use std::marker::Model;

/// The remaining entries of a table, in the order of last learning, oldest first. Contracts see them as sightings.
#[derive(Drop)]
pub struct Entries<'a> {
    index: &'a Index,
    log: Iter<'a, LogEntry>,
    at: u64,
}

impl<'a> Model for Entries<'a> {
    ghost use Rattle.indexmap.specs.IndexMap.{get};
    ghost use Rattle.std.specs.Prelude.{List};
    ghost use Rattle.std.specs.VecDeque.Iter.{deque_iter_rest};
    ghost use Rattle.pb_frame.specs.Stations.{Sighting};
    ghost use Rattle.pb_fdb.specs.Entries.{sightings};
    ghost use Rattle.pb_fdb.specs.Journals.{entries_from, is_same, stations};

    ghost Value = { List Sighting };

    ghost view = { λ e. sightings (entries_from (get is_same e.index.now) e.at (stations (deque_iter_rest e.log))) };
}

impl<'a> Entries<'a> {
    /// Iterates over the entries of a log that begins at this place.
    pub(crate) fn of(index: &'a Index, log: Iter<'a, LogEntry>, at: u64) -> Entries<'a>
        ensures { result ≡ sightings (entries_from (get is_same index.now) at (stations (deque_iter_rest log.entry))) }
    {
        Entries { index, log, at }
    }
}

impl<'a> Iterator for Entries<'a> {
    type Item = Entry;

    ghost next_gives = { YieldsFirstBy sighting_of (λ rest. rest) };

    ghost remaining = { item_count (λ rest. rest) };

    fn next(&mut self) -> Option<Entry> {
        while let Some(place) = self.log.next() {
            let entry = entry_there(self.index, self.at, place);
            self.at = self.at.wrapping_add(1);
            if entry.is_some() {
                return entry;
            }
        }
        None
    }
}
