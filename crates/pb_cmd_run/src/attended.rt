//! The gate of a run with sockets.

use crate::datagram_drops::DatagramDrops;
use crate::door::GateDoor;
use crate::pacing::GateClock;
use crate::telling::name_at;
use crate::watch::Watches;
use pb_lan::{CustomerPlan, Place};
use pb_run::{Bells, Dropped, Gate, Go, Past, PortView, StationView, Wish};
use pb_run_control::{Opening, PeerChange, RunProgress, SocketFailure};
use std::alloc::Global;
use std::net::{Net, TcpListener, TcpStream};
use std::sync::{Arc, Mutex};
use std::time::{Clock, Duration};

/// The number of turns of the first bridge's worker between two looks at the doors, while it has something to do.
const LOOK: u64 = 16;

/// The number of changes that one look reports at most.
const MOST: u32 = 256;

/// What the gate inside receives of the customer port at a place of the plan, from 0.
#[derive(Drop)]
enum News {
    /// The change of its peer.
    Peer(usize, PeerChange),
    /// Failed calls of its socket for datagrams.
    Socket(usize, SocketFailure),
}

/// A gate that attends to sockets. The workers of their ports sleep in it until the sockets have octets or room. It
/// reports how the peers of ports that stay come and go, connects to the next peer, and reports failed calls of sockets
/// for datagrams. The worker of the first bridge does this before its turns. In all else it is the gate inside.
#[derive(Drop)]
pub(crate) struct Attended<'a, R, G> {
    pub rt: &'a R,
    pub gate: &'a G,
    pub customers: &'a [CustomerPlan],
    pub doors: Mutex<Vec<GateDoor>>,
    pub watches: Watches,
    /// The clocks of ports whose frames enter by the times of their records.
    pub clocks: Vec<GateClock>,
    /// What ports for datagrams dropped.
    pub drops: Arc<DatagramDrops, Global>,
}

impl<R: Net + Clock, G> Attended<'_, R, G> {
    /// Returns what the gate inside has not received yet of a port, if there is something: failed calls of sockets, of
    /// each kind and port once in a second of the gate's clock, else a change of a peer. Connects for ports that wait
    /// for a peer.
    fn next_news(&self, second: u64) -> Option<News> {
        if let Some((place, failure)) = self.drops.next_failure(second) {
            return Some(News::Socket(place, failure));
        }
        let mut doors = self.doors.try_lock()?;
        for door in doors.iter_mut() {
            if let Some(change) = door.next_change() {
                let place = usize::from(door.number).wrapping_sub(1);
                return Some(News::Peer(place, change));
            }
            if door.connect(self.rt) {
                self.watches.rouse(door.number);
            }
        }
        None
    }

    /// Sets the clock of a place, if it is a port that has one.
    fn set_clock(&self, place: Place) {
        let Place::Customer(number) = place else {
            return;
        };
        for clock in &self.clocks {
            if clock.number == number {
                clock.set(self.rt);
            }
        }
    }

    /// Returns the name of the port at a place of the plan, from 0.
    fn name(&self, place: usize) -> &str {
        name_at(self.customers, place)
    }
}

impl<R, G: RunProgress> Gate for Attended<'_, R, G>
where
    R: Net<Listener = TcpListener, Stream = TcpStream> + Clock + Sync,
{
    ghost gives = { λ a. G.gives a.gate.now };

    fn pass(&self, place: Place, turn: u64) -> Go {
        self.set_clock(place);
        if turn % LOOK == 0 && place == Place::Bridge(1) {
            for _ in 0..MOST {
                match self.next_news(self.gate.seconds()) {
                    Some(News::Peer(port, change)) => self.gate.peer(self.name(port), change),
                    Some(News::Socket(port, failure)) => {
                        self.gate.socket(self.name(port), failure)
                    }
                    None => break,
                }
            }
        }
        self.gate.pass(place, turn)
    }

    fn pass_when_idle(&self, place: Place, turn: u64) -> Go {
        self.set_clock(place);
        if place == Place::Bridge(1) {
            for _ in 0..MOST {
                match self.next_news(self.gate.seconds()) {
                    Some(News::Peer(port, change)) => self.gate.peer(self.name(port), change),
                    Some(News::Socket(port, failure)) => {
                        self.gate.socket(self.name(port), failure)
                    }
                    None => break,
                }
            }
        }
        self.gate.pass_when_idle(place, turn)
    }

    fn wish(&self, place: Place, now: u32, past: Past<Wish>) -> Option<Wish> {
        self.gate.wish(place, now, past)
    }

    fn is_passed_seldom(&self) -> bool {
        self.gate.is_passed_seldom()
    }

    fn lets_sleep(&self, place: Place) -> bool {
        self.gate.lets_sleep(place)
    }

    fn bells(&self) -> Option<&Bells> {
        self.gate.bells()
    }

    fn is_watched(&self, place: Place) -> bool {
        match place {
            Place::Customer(number) if self.watches.has(number) => true,
            _ => self.gate.is_watched(place),
        }
    }

    fn sleep(&self, place: Place, time: Duration) -> Option<bool> {
        match place {
            Place::Customer(number) => self.watches.sleep(number, time),
            _ => None,
        }
    }

    fn rouse(&self, place: Place) {
        if let Place::Customer(number) = place {
            self.watches.rouse(number);
        }
    }

    fn is_open(&self) -> bool {
        self.gate.is_open()
    }

    fn refused(&self, place: Place, copies: u64) {
        self.gate.refused(place, copies);
    }

    fn dropped(&self, place: Place, port: u8, dropped: Dropped) {
        self.gate.dropped(place, port, dropped);
    }

    fn shows(&self, place: Place, port: u8, view: PortView) {
        self.gate.shows(place, port, view);
    }

    fn asks_stations(&self, place: Place) -> bool {
        self.gate.asks_stations(place)
    }

    fn shows_stations(&self, place: Place, stations: Option<Vec<StationView>>) {
        self.gate.shows_stations(place, stations);
    }
}

impl<R, G: RunProgress> RunProgress for Attended<'_, R, G>
where
    R: Net<Listener = TcpListener, Stream = TcpStream> + Clock + Sync,
{
    fn open(&self, opening: Opening) {
        self.gate.open(opening);
    }

    /// Reports what nobody has reported yet, and closes the gate inside.
    fn close(&self) {
        for _ in 0..MOST {
            match self.next_news(self.gate.seconds()) {
                Some(News::Peer(port, change)) => self.gate.peer(self.name(port), change),
                Some(News::Socket(port, failure)) => { self.gate.socket(self.name(port), failure) }
                None => break,
            }
        }
        self.gate.close();
    }

    fn peer(&self, port: &str, change: PeerChange) {
        self.gate.peer(port, change);
    }

    fn socket(&self, port: &str, failure: SocketFailure) {
        self.gate.socket(port, failure);
    }

    fn seconds(&self) -> u64 {
        self.gate.seconds()
    }
}
