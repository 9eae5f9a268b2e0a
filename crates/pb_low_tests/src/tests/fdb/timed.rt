//! A table and the moment, walked through rows.

ghost use Rattle.std.specs.Prelude.{◌<◌, ◌≤◌};

use pb_fdb::{Entry, Fdb, Learnt};
use pb_frame::Mac;
use std::alloc::{AllocError, Global};
use std::process::Abort;

/// A command to a table, or a check of it.
#[derive(Clone, Copy)]
pub enum Row {
    /// This many ticks have passed since the first moment.
    At(u64),
    /// A station is seen in a service at a port, with this result of learning.
    Learns(u16, Mac, u8, Learnt),
    /// This many stations 02-00-00-00-XX-XX, from number 0 on, are new in a service at a port.
    LearnsFirst(u16, u16, u8),
    /// A station is found in a service at this port, or not at all.
    Finds(u16, Mac, Option<u8>),
    /// A port is flushed.
    Flushes(u8),
    /// The old ones are dropped.
    Expires,
    /// These entries are kept, in this order.
    Has(&'static [Entry]),
    /// This many entries are kept.
    Counts(usize),
}

/// A table, and the moment.
#[derive(Drop)]
pub struct Timed {
    table: Fdb,
    now: u64,
    ghost in_time: { table.clock ≤ now },
}

impl Timed {
    pub fn new(alloc: Global, limit: usize, ageing: u32) -> Timed
        requires { 0 < ageing }
    {
        Timed {
            table: Fdb::new(alloc, limit, ageing),
            now: 0,
        }
    }

    /// Returns a copy of the table at the same moment.
    pub fn copied(&self) -> Result<Timed, AllocError> {
        Ok(Timed {
            table: self.table.clone()?,
            now: self.now,
        })
    }

    /// Walks the rows. A row that does not hold is named by its number from 0.
    pub fn walk(&mut self, rt: &impl Abort, rows: &[Row]) {
        for (place, row) in rows.iter().enumerate() {
            assert!(rt; self.holds(*row), "row {place}");
        }
    }

    /// Checks whether a row holds.
    fn holds(&mut self, row: Row) -> bool {
        match row {
            Row::At(moment) => self.now = self.now.max(moment),
            Row::Flushes(port) => self.table.flush(port),
            Row::Expires => self.table.expire(self.now),
            Row::Learns(vid, mac, port, wanted) => {
                return self.table.learn(vid, mac, port, self.now) == wanted;
            }
            Row::LearnsFirst(stations, vid, port) => return self.learns(stations, vid, port),
            Row::Finds(vid, mac, wanted) => return self.table.find(vid, mac, self.now) == wanted,
            Row::Has(entries) => return has(&self.table, entries),
            Row::Counts(wanted) => return count(&self.table) == wanted,
        }
        true
    }

    /// Checks whether this many stations, from number 0 on, are new in a service at a port.
    fn learns(&mut self, stations: u16, vid: u16, port: u8) -> bool {
        for number in 0..stations {
            if self.table.learn(vid, station(number), port, self.now) != Learnt::New {
                return false;
            }
        }
        true
    }
}

/// Returns the station 02-00-00-00-XX-XX of this number.
fn station(number: u16) -> Mac {
    let [high, low] = number.to_be_bytes();
    Mac([2, 0, 0, 0, high, low])
}

/// Checks whether the table has these entries in this order.
fn has(table: &Fdb, wanted: &[Entry]) -> bool {
    let mut entries = table.entries();
    for entry in wanted {
        if entries.next() != Some(*entry) {
            return false;
        }
    }
    entries.next().is_none()
}

/// Returns how many entries the table has.
fn count(table: &Fdb) -> usize {
    let mut count = 0usize;
    for _entry in table.entries() {
        count = count.saturating_add(1);
    }
    count
}
