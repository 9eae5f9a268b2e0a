//! The gate that steers a run.

ghost use Rattle.std.specs.Prelude.{◌≤◌, length};
ghost use Rattle.pb_lan.specs.Plans.{IsSound};

use crate::course::{Course, courses_of};
use crate::peers::Peers;
use crate::progress::{Opening, PeerChange, RunProgress, SocketFailure};
use crate::traffic::Traffic;
use pb_control_socket::Control;
use pb_frame::Memory;
use pb_lan::{Place, Plan};
use pb_service::{PortEvent, PortSpec};
use pb_threads::{Bells, Dropped, Gate, Go, Past, PortView, StationView, Wish};
use std::alloc::Global;
use std::fs::Files;
use std::sync::Mutex;
use std::sync::atomic::{AtomicU64, Ordering};
use std::time::Duration;

/// The number of turns of the first bridge's worker between two turns of the control socket.
const LOOK: u64 = 16;

/// The number of ticks of each bridge after which frames enter even if the bridges have not converged.
const PATIENCE: u64 = 200;

/// The gate that steers a run. It hands bridges the wishes that are due, serves the control socket, counts, has the
/// bells that wake workers, and otherwise passes calls to the gate inside.
#[derive(Drop)]
pub struct Steering<'a, G> {
    gate: &'a G,
    plan: &'a Plan,
    pub(crate) traffic: &'a Traffic,
    /// The course of each bridge, in the order of the plan.
    courses: Vec<Course>,
    /// The bells of the workers.
    pub(crate) bells: Bells,
    /// The peers of the customer ports.
    pub(crate) peers: Peers,
    /// The control socket, while there is one.
    control: Mutex<Option<Control>>,
    /// 1 once the run is to end.
    pub(crate) stop: AtomicU64,
    /// The second of the clock at the newest turn of the control socket.
    pub(crate) now: AtomicU64,
    /// 1 once frames may enter.
    open: AtomicU64,
    ghost few_bridges: { length plan.now.bridges ≤ 32 },
    ghost few_links: { length plan.now.links ≤ 64 },
    ghost few_customers: { length plan.now.customers ≤ 128 },
}

impl<'a, G> Steering<'a, G> {
    /// Returns the gate that steers a run of a sound plan with these events, around the caller's gate. It has no
    /// control socket. If it `waits` for the bridges, no frame enters before each bridge has ports in the states of
    /// their roles (IEEE 802.1D-2004 clause 17.10) of which none has changed for four ticks, or before each bridge has
    /// ticked 200 times. No contract says so.
    ///
    /// # Errors
    ///
    /// `Memory` if an allocation failed.
    pub fn new(
        alloc: Global,
        gate: &'a G,
        plan: &'a Plan,
        traffic: &'a Traffic,
        events: Vec<PortEvent>,
        waits: bool,
    ) -> Result<Steering<'a, G>, Memory>
        requires { IsSound plan.now }
    {
        let courses = courses_of(alloc, plan, events)?;
        Ok(Steering {
            gate,
            plan,
            traffic,
            courses,
            bells: Bells::new(alloc, plan)?,
            peers: Peers::new(alloc, plan.customers.len())?,
            control: Mutex::new(None),
            stop: AtomicU64::new(0),
            now: AtomicU64::new(0),
            open: AtomicU64::new(if waits { 0 } else { 1 }),
        })
    }

    /// Notes which customer ports stay when their peer leaves, by the specs of all ports in the order of the plan. None
    /// of them has a peer yet. The reply to `counts` names the peers of these ports alone.
    pub fn expect_peers(&self, specs: &[PortSpec]) {
        for (index, spec) in specs.iter().enumerate() {
            if let PortSpec::Socket { stays: true, .. } = spec {
                self.peers.expect(index);
            }
        }
    }

    /// Returns the course of the bridge of this number, from 1, if there is one.
    pub(crate) fn course(&self, bridge: u8) -> Option<&Course> {
        self.courses.get(usize::from(bridge).wrapping_sub(1))
    }

    /// Returns how many events have not come.
    pub fn left(&self) -> u64 {
        let mut left = 0u64;
        for course in &self.courses {
            left = left.saturating_add(course.agenda.left());
        }
        left
    }

    /// Wakes the worker of the first bridge, which takes a turn of the control socket.
    fn ring_first(&self) {
        self.bells.ring(Place::Bridge(1));
    }

    /// Adds a control socket. Its peers steer the run too.
    pub fn plug(&self, control: Control) {
        if let Some(mut held) = self.control.try_lock() {
            *held = Some(control);
        }
    }

    /// Closes the control socket, if there is one, and removes its file.
    pub fn unplug<R: Files>(&self, rt: &R) {
        if let Some(mut held) = self.control.try_lock() {
            if let Some(control) = held.take() {
                control.close(rt);
            }
        }
    }

    /// Returns the wish that is due at the bridge of this number, from 1, whose clock has ticked `now` times: that of
    /// the next planned event, else one from the control socket.
    fn due(&self, bridge: u8, now: u32) -> Option<Wish> {
        let course = self.course(bridge)?;
        match course.agenda.take(now) {
            Some(wish) => Some(wish),
            None => course.mailbox.take(),
        }
    }

    /// Checks whether all bridges seem to have converged, by their own clocks.
    fn have_converged(&self) -> bool {
        let mut bridge = 0u8;
        for course in &self.courses {
            bridge = bridge.wrapping_add(1);
            let (_, ticks) = self.traffic.at_bridge(bridge);
            if !course.views.are_quiet(ticks) {
                return false;
            }
        }
        true
    }

    /// Returns the ticks of the bridge that ticked least.
    fn slowest(&self) -> u64 {
        let (mut bridge, mut least) = (0u8, u64::MAX);
        for _ in &self.courses {
            bridge = bridge.wrapping_add(1);
            let (_, ticks) = self.traffic.at_bridge(bridge);
            least = least.min(ticks);
        }
        least
    }

    /// Returns the reason why frames that were held back may enter. `None` if they may not yet enter, or already may.
    fn opening(&self) -> Option<Opening> {
        if self.open.load(Ordering::SeqCst) != 0 {
            return None;
        }
        if self.have_converged() {
            return Some(Opening::Converged(self.traffic.ticks()));
        }
        let ticks = self.slowest();
        if ticks >= PATIENCE {
            return Some(Opening::NotConverged(ticks));
        }
        None
    }

    /// Lets frames enter, if they were held back and may enter now, and wakes all workers. Returns the reason why they
    /// may.
    fn let_in(&self) -> Option<Opening> {
        let opening = self.opening()?;
        self.open.store(1, Ordering::SeqCst);
        self.bells.ring_all();
        Some(opening)
    }

    /// Takes a turn of the control socket at this second of the clock, and returns whether the run goes on.
    fn attend(&self, now: u64) -> Go {
        self.now.store(now, Ordering::SeqCst);
        if let Some(mut held) = self.control.try_lock() {
            if let Some(control) = held.as_mut() {
                control.make_way(now);
                control.turn(self.plan, self);
            }
        }
        if self.stop.load(Ordering::SeqCst) == 0 {
            Go::Go
        } else {
            Go::Stop
        }
    }
}

impl<G: RunProgress> Gate for Steering<'_, G> {
    fn pass(&self, place: Place, turn: u64) -> Go {
        if turn % LOOK == 0 && place == Place::Bridge(1) {
            if let Some(opening) = self.let_in() {
                self.gate.open(opening);
            }
            if self.attend(self.gate.seconds()) == Go::Stop {
                return Go::Stop;
            }
        }
        self.gate.pass(place, turn)
    }

    fn pass_when_idle(&self, place: Place, turn: u64) -> Go {
        if place == Place::Bridge(1) {
            if let Some(opening) = self.let_in() {
                self.gate.open(opening);
            }
            if self.attend(self.gate.seconds()) == Go::Stop {
                return Go::Stop;
            }
        }
        self.gate.pass_when_idle(place, turn)
    }

    fn is_passed_seldom(&self) -> bool {
        self.gate.is_passed_seldom()
    }

    fn lets_sleep(&self, place: Place) -> bool {
        self.gate.lets_sleep(place)
    }

    fn bells(&self) -> Option<&Bells> {
        Some(&self.bells)
    }

    /// Checks whether something from outside may come for a place. The worker of the first bridge serves the control
    /// socket, so that it sleeps no longer than that of a watched port.
    fn is_watched(&self, place: Place) -> bool {
        place == Place::Bridge(1) || self.gate.is_watched(place)
    }

    fn sleep(&self, place: Place, time: Duration) -> Option<bool> {
        self.gate.sleep(place, time)
    }

    fn rouse(&self, place: Place) {
        self.gate.rouse(place);
    }

    fn is_open(&self) -> bool {
        self.open.load(Ordering::SeqCst) != 0
    }

    fn shows(&self, place: Place, port: u8, view: PortView) {
        if let Place::Bridge(bridge) = place {
            if let Some(course) = self.course(bridge) {
                let (_, ticks) = self.traffic.at_bridge(bridge);
                course.views.show(port, view, ticks);
            }
        }
    }

    fn asks_stations(&self, place: Place) -> bool {
        match place {
            Place::Bridge(bridge) => match self.course(bridge) {
                Some(course) => course.census.hear(),
                None => false,
            },
            _ => false,
        }
    }

    /// Keeps the stations for the control socket, and wakes the worker that serves it.
    fn shows_stations(&self, place: Place, stations: Option<Vec<StationView>>) {
        if let Place::Bridge(bridge) = place {
            if let Some(course) = self.course(bridge) {
                course.census.give(stations);
                self.ring_first();
            }
        }
    }

    fn wish(&self, place: Place, now: u32, _past: Past<Wish>) -> Option<Wish> {
        match place {
            Place::Bridge(bridge) => {
                self.traffic.tick(bridge, now);
                self.due(bridge, now)
            }
            _ => None,
        }
    }

    fn refused(&self, place: Place, copies: u64) {
        if let Place::Bridge(bridge) = place {
            self.traffic.refuse(bridge, copies);
        }
    }

    fn dropped(&self, place: Place, port: u8, dropped: Dropped) {
        if let Place::Bridge(bridge) = place {
            self.traffic.drop(bridge, port, dropped);
        }
    }
}

impl<G: RunProgress> RunProgress for Steering<'_, G> {
    fn open(&self, opening: Opening) {
        self.gate.open(opening);
    }

    fn close(&self) {
        self.gate.close();
    }

    fn waits(&self, user: &str) {
        self.gate.waits(user);
    }

    fn peer(&self, port: &str, change: PeerChange) {
        for (index, customer) in self.plan.customers.as_slice().iter().enumerate() {
            if customer.name.as_str() == port {
                self.peers.change(index, change);
            }
        }
        self.gate.peer(port, change);
    }

    fn socket(&self, port: &str, failure: SocketFailure) {
        self.gate.socket(port, failure);
    }

    fn seconds(&self) -> u64 {
        self.gate.seconds()
    }
}
