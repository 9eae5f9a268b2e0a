//! Ports whose frames are counted.

use bytes::Bytes;
use pb_port::{Offered, Polled, Port, Pumped, Shelf};
use pb_run_control::Traffic;
use std::alloc::Global;
use std::collections::VecDeque;
use std::sync::Arc;

/// A port that counts the frames that enter and leave at it. In all else it is the port that it contains.
#[derive(Drop)]
pub(crate) struct Watched<P: Port> {
    pub port: P,
    /// Its number in the plan, from 1.
    pub number: u8,
    pub traffic: Arc<Traffic, Global>,
    /// The highest number of ticks so far. A write without a clock goes on from there.
    pub latest: u32,
}

impl<P: Port> Port for Watched<P> {
    ghost script = { λ w. P.script w.port };

    ghost unread = { λ w. P.unread w.port };

    ghost output = { λ w. P.output w.port };

    ghost given = { λ w. P.given w.port };

    ghost tally = { λ w. P.tally w.port };

    ghost keeps_sent = { λ w. P.keeps_sent w.port };

    ghost waiting = { λ w. P.waiting w.port };

    ghost capacity = { λ w. P.capacity w.port };

    ghost ended = { λ w. P.ended w.port };

    ghost is_shelved = { λ w. P.is_shelved w.port };

    ghost is_failed = { λ w. P.is_failed w.port };

    ghost failed = { λ w. P.failed w.port };

    fn poll(&mut self) -> Polled {
        let polled = self.port.poll();
        if matches!(&polled, Polled::Frame(_)) {
            self.traffic.enter(self.number);
        }
        polled
    }

    fn offer(&mut self, f: &Bytes) -> Offered {
        let offered = self.port.offer(f);
        if offered == Offered::Taken {
            self.traffic.leave(self.number);
        }
        offered
    }

    fn pump(&mut self, now: u32) -> Pumped {
        self.latest = self.latest.max(now);
        self.port.pump(self.latest)
    }

    fn unsent(&self) -> &VecDeque<Bytes> {
        self.port.unsent()
    }

    fn shelve(&mut self, home: &mut Shelf) {
        self.port.shelve(home)
    }
}
