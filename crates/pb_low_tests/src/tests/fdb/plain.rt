//! The table again, as a list that is searched from end to end: an independent model.

use pb_fdb::{Entry, Learnt};
use pb_frame::Mac;
use std::alloc::Global;

/// Entries in the order of last learning.
#[derive(Drop)]
pub struct Plain {
    limit: usize,
    ageing: u32,
    pub entries: Vec<Entry>,
    /// The number of times that old entries were dropped for a new station.
    pub sweeps: u32,
}

impl Plain {
    pub fn new(alloc: Global, limit: usize, ageing: u32) -> Plain {
        Plain {
            limit,
            ageing,
            entries: Vec::new(alloc),
            sweeps: 0,
        }
    }

    pub fn find(&self, vid: u16, mac: Mac, now: u64) -> Option<u8> {
        for entry in &self.entries {
            if is_of(entry, vid, mac) && is_live(entry, self.ageing, now) {
                return Some(entry.port);
            }
        }
        None
    }

    pub fn learn(&mut self, vid: u16, mac: Mac, port: u8, now: u64) -> Learnt {
        if mac.is_group() {
            return Learnt::Group;
        }
        let entry = Entry {
            vid,
            mac,
            port,
            learnt: now,
        };
        match self.find(vid, mac, now) {
            Some(at) if at == port => self.replace(entry, Learnt::Kept),
            Some(_) => self.replace(entry, Learnt::Moved),
            None => {
                if !self.makes_room(now) {
                    return Learnt::Full;
                }
                self.replace(entry, Learnt::New)
            }
        }
    }

    /// Returns how many entries are not too old.
    fn live(&self, now: u64) -> usize {
        let mut live = 0usize;
        for entry in &self.entries {
            if is_live(entry, self.ageing, now) {
                live = live.saturating_add(1);
            }
        }
        live
    }

    /// Drops old entries if the list is full. Returns whether one more entry fits.
    fn makes_room(&mut self, now: u64) -> bool {
        if self.live(now) >= self.limit {
            return false;
        }
        if self.entries.len() >= self.limit {
            self.expire(now);
            self.sweeps = self.sweeps.saturating_add(1);
        }
        true
    }

    fn replace(&mut self, new: Entry, answer: Learnt) -> Learnt {
        let (vid, mac) = (new.vid, new.mac);
        self.entries.retain(|entry| !is_of(entry, vid, mac));
        match self.entries.push(new) {
            Ok(()) => answer,
            Err(_) => Learnt::Memory,
        }
    }

    pub fn flush(&mut self, port: u8) {
        self.entries.retain(|entry| entry.port != port);
    }

    pub fn expire(&mut self, now: u64) {
        let ageing = self.ageing;
        self.entries.retain(|entry| is_live(entry, ageing, now));
    }
}

/// Checks whether an entry is that of a station in a service.
fn is_of(entry: &Entry, vid: u16, mac: Mac) -> bool {
    entry.vid == vid && entry.mac == mac
}

/// Checks whether an entry is not too old.
fn is_live(entry: &Entry, ageing: u32, now: u64) -> bool {
    now.saturating_sub(entry.learnt) < u64::from(ageing)
}
