//! Ports of the tests' own: their frames are in memory, and they have habits.

ghost use Rattle.std.specs.Prelude.{◌≡◌, ◌++◌, Some, None, true, false, if◌then◌else◌};
ghost use Rattle.pb_port.specs.declared.answers.Ending.TheVariants.{End as ending_end};

use super::activity::PortActivity;
use bytes::Bytes;
use pb_lan::Past;
use pb_port::{MemoryPort, Offered, Polled, Port, PortFault, Pumped, Shelf};
use std::alloc::Global;
use std::collections::VecDeque;
use std::sync::Arc;
use std::sync::atomic::Ordering;

/// A call of a port, by its number among those of its kind. The first has number 1, and pumps are counted if something
/// waits.
#[derive(Clone, Copy, PartialEq)]
pub(super) enum Call {
    Poll(u64),
    Offer(u64),
    Pump(u64),
}

/// What a guest does in addition to giving its script and taking frames.
#[derive(Clone, Copy, PartialEq)]
pub(super) enum Habit {
    /// Nothing more.
    Plain,
    /// Its first poll waits for that of another guest.
    Meets,
    /// It has nothing to give for this many polls, and never comes to an end.
    Waits(u64),
    /// An allocation of one of its calls fails.
    Refuses(Call),
}

/// A port with a habit.
#[derive(Drop)]
pub(super) struct Guest {
    script: VecDeque<Bytes>,
    given: Past<Bytes>,
    lan: MemoryPort,
    habit: Habit,
    activity: Arc<PortActivity, Global>,
    polls: u64,
    offers: u64,
    pumps: u64,
    is_over: bool,
    is_shelved: bool,
    ghost room: { lan.capacity ≡ 4096 },
    ghost shelved: { lan.shelved ≡ is_shelved },
}

impl Guest {
    /// Returns a guest that gives the frames of a script.
    pub(super) fn new(
        alloc: Global,
        script: VecDeque<Bytes>,
        habit: Habit,
        activity: Arc<PortActivity, Global>,
    ) -> Guest {
        Guest {
            script,
            given: Past::new(),
            lan: MemoryPort::new(alloc, 4_096, VecDeque::new(alloc)),
            habit,
            activity,
            polls: 0,
            offers: 0,
            pumps: 0,
            is_over: false,
            is_shelved: false,
        }
    }
}

impl Port for Guest {
    ghost script = { λ p. None };

    ghost given = { λ p. p.given.items };

    ghost tally = { λ p. p.lan.sent.items ++ p.lan.unsent.items };

    ghost keeps_sent = { λ p. true };

    ghost waiting = { λ p. p.lan.unsent.items };

    ghost capacity = { λ p. p.lan.capacity };

    ghost ended = { λ p. if p.is_over then Some ending_end else None };

    ghost is_shelved = { λ p. p.lan.shelved };

    ghost is_failed = { λ p. false };

    ghost failed = { λ p. 0 };

    fn poll(&mut self) -> Polled {
        self.polls = self.polls.saturating_add(1);
        self.activity.polls.fetch_add(1, Ordering::SeqCst);
        if self.is_over {
            return Polled::End;
        }
        match self.habit {
            Habit::Meets if self.polls == 1 => self.activity.meet(),
            Habit::Waits(polls) if self.polls <= polls => return Polled::Nothing,
            Habit::Refuses(Call::Poll(number)) if self.polls == number => {
                return Polled::Fault(PortFault::Memory);
            }
            _ => {}
        }
        match self.script.pop_front() {
            Some(frame) => {
                self.given.note(&frame);
                Polled::Frame(frame)
            }
            None if matches!(self.habit, Habit::Waits(_)) => Polled::Nothing,
            None => {
                self.is_over = true;
                Polled::End
            }
        }
    }

    fn offer(&mut self, f: &Bytes) -> Offered {
        self.offers = self.offers.saturating_add(1);
        let has_room = !self.is_shelved && self.lan.unsent().len() < 4_096;
        if has_room && self.habit == Habit::Refuses(Call::Offer(self.offers)) {
            return Offered::Memory;
        }
        let offered = self.lan.offer(f);
        if offered == Offered::Taken {
            self.activity.taken.fetch_add(1, Ordering::SeqCst);
        }
        offered
    }

    fn pump(&mut self, now: u32) -> Pumped {
        if self.lan.unsent().is_empty() {
            return Pumped::Nothing;
        }
        self.pumps = self.pumps.saturating_add(1);
        if self.habit == Habit::Refuses(Call::Pump(self.pumps)) {
            return Pumped::Fault(PortFault::Memory);
        }
        self.lan.pump(now)
    }

    fn unsent(&self) -> &VecDeque<Bytes> {
        self.lan.unsent()
    }

    fn shelve(&mut self, home: &mut Shelf) {
        self.lan.shelve(home);
        self.is_shelved = true;
    }
}
