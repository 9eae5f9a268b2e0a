//! Gates.

use super::activity::PortActivity;
use super::told::slot_of;
use pb_lan::{Place, PortState};
use pb_run::{Gate, Go, Past, PortView, Wish};
use std::alloc::{AllocError, Global};
use std::sync::Arc;
use std::sync::atomic::{AtomicU64, Ordering};
use std::thread;

/// Waits until a number is reached, and yields at most this often. Returns whether it was reached.
fn comes_within(count: &AtomicU64, wanted: u64, yields: u32) -> bool {
    for _ in 0..yields {
        if count.load(Ordering::SeqCst) >= wanted {
            return true;
        }
        thread::yield_now();
    }
    false
}

/// Waits very long until a number is reached. Returns whether it was reached.
pub(super) fn comes_to(count: &AtomicU64, wanted: u64) -> bool {
    comes_within(count, wanted, 100_000_000)
}

/// Returns `Go` if the condition holds.
fn go_if(condition: bool) -> Go {
    if condition { Go::Go } else { Go::Stop }
}

/// A gate that stops nobody.
#[derive(Clone, Copy)]
pub(super) struct Open;

impl Gate for Open {
    fn pass(&self, _place: Place, _turn: u64) -> Go {
        Go::Go
    }
}

/// A gate that stops each worker at a turn.
#[derive(Drop)]
pub(super) struct StopAt(pub(super) u64);

impl Gate for StopAt {
    fn pass(&self, _place: Place, turn: u64) -> Go {
        go_if(turn < self.0)
    }
}

/// A gate that wishes once, before the first turn of B1, to disable its port 2. It counts the views of that port.
#[derive(Drop)]
pub(super) struct Parting {
    wished: AtomicU64,
    /// The number of times that the port was shown Forwarding without a role.
    forwarding: AtomicU64,
    /// The number of times that it was shown Discarding without a role, after it was last shown Forwarding.
    discarding: AtomicU64,
}

impl Parting {
    /// Returns a gate at which nothing was wished or shown.
    pub(super) fn new() -> Parting {
        Parting {
            wished: AtomicU64::new(0),
            forwarding: AtomicU64::new(0),
            discarding: AtomicU64::new(0),
        }
    }

    /// Returns how often the port was shown Forwarding, and how often Discarding after that.
    pub(super) fn shown(&self) -> (u64, u64) {
        let forwarding = self.forwarding.load(Ordering::SeqCst);
        (forwarding, self.discarding.load(Ordering::SeqCst))
    }
}

impl Gate for Parting {
    fn pass(&self, _place: Place, _turn: u64) -> Go {
        Go::Go
    }

    fn wish(&self, place: Place, _now: u32, _past: Past<Wish>) -> Option<Wish> {
        if place != Place::Bridge(1) || self.wished.swap(1, Ordering::SeqCst) == 1 {
            return None;
        }
        Some(Wish { port: 2, up: false })
    }

    fn shows(&self, place: Place, port: u8, view: PortView) {
        if place != Place::Bridge(1) || port != 2 || view.role.is_some() {
            return;
        }
        if view.state == PortState::Discarding {
            self.discarding.fetch_add(1, Ordering::SeqCst);
        } else {
            self.discarding.store(0, Ordering::SeqCst);
            self.forwarding.fetch_add(1, Ordering::SeqCst);
        }
    }
}

/// A gate at whose turn 0 each pass waits for all others, and yields at most a million times. It counts the passes of
/// all turns.
#[derive(Drop)]
pub(super) struct Meeting {
    here: AtomicU64,
    passes: Vec<AtomicU64>,
}

impl Meeting {
    /// Returns the meeting of this many places, which have the slots below that number.
    pub(super) fn of(alloc: Global, all: u64) -> Result<Meeting, AllocError> {
        let mut passes = Vec::new(alloc);
        for _ in 0..all {
            passes.push(AtomicU64::new(0))?;
        }
        Ok(Meeting {
            here: AtomicU64::new(0),
            passes,
        })
    }

    /// Returns how many have come.
    pub(super) fn here(&self) -> u64 {
        self.here.load(Ordering::SeqCst)
    }

    /// Returns how often the place of a slot has passed.
    pub(super) fn passes_of(&self, slot: usize) -> u64 {
        match self.passes.get(slot) {
            Some(passes) => passes.load(Ordering::SeqCst),
            None => 0,
        }
    }
}

impl Gate for Meeting {
    fn pass(&self, place: Place, turn: u64) -> Go {
        if let Some(passes) = self.passes.get(slot_of(place)) {
            passes.fetch_add(1, Ordering::SeqCst);
        }
        if turn > 0 {
            return Go::Go;
        }
        self.here.fetch_add(1, Ordering::SeqCst);
        go_if(comes_within(&self.here, self.passes.len() as u64, 1_000_000))
    }
}

/// A gate that holds B4 at its first turn until a port of the tests' own has taken a frame.
#[derive(Drop)]
pub(super) struct Holding(pub(super) Arc<PortActivity, Global>);

impl Gate for Holding {
    fn pass(&self, place: Place, turn: u64) -> Go {
        if turn > 0 || place != Place::Bridge(4) {
            return Go::Go;
        }
        go_if(comes_to(&self.0.taken, 1))
    }
}

/// A gate at which each turn waits until all have come to it.
#[derive(Drop)]
pub(super) struct Lockstep {
    all: u64,
    here: AtomicU64,
}

impl Lockstep {
    /// Returns the lockstep of this many places.
    pub(super) fn of(all: u64) -> Lockstep {
        Lockstep {
            all,
            here: AtomicU64::new(0),
        }
    }
}

impl Gate for Lockstep {
    fn pass(&self, _place: Place, turn: u64) -> Go {
        self.here.fetch_add(1, Ordering::SeqCst);
        let wanted = turn.saturating_add(1).saturating_mul(self.all);
        go_if(comes_to(&self.here, wanted))
    }
}
