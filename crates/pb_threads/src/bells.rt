//! What wakes workers that sleep. No contract speaks of it: a wake that is missed is a delay, and ends nothing.

use crate::gate::Gate;
use pb_lan::{Place, Plan};
use std::alloc::{AllocError, Global};
use std::sync::Wait;
use std::sync::atomic::{AtomicU64, Ordering};
use std::time::Duration;

/// The state of a worker for which there may be something to do.
const AWAKE: u64 = 0;

/// The state of a worker that found nothing to do. It sleeps if it then finds nothing again.
const DROWSY: u64 = 1;

/// The state of a drowsy worker whose place has an item for a ring that was full.
const HELD_UP: u64 = 2;

/// The number of local ports of a bridge.
const PORTS: usize = 16;

/// The index of no worker.
const NOBODY: usize = usize::MAX;

/// The bell of one worker.
#[derive(Drop)]
struct Bell {
    state: AtomicU64,
}

impl Bell {
    /// Makes the worker drowsy, or held up. Returns whether it already was: no bell has rung since.
    fn nods(&self, is_held_up: bool) -> bool {
        let state = if is_held_up { HELD_UP } else { DROWSY };
        let was = self.state.load(Ordering::SeqCst) == state;
        if !was {
            self.state.store(state, Ordering::SeqCst);
        }
        was
    }

    /// Checks whether the worker is drowsy or sleeps.
    fn is_drowsy(&self) -> bool {
        self.state.load(Ordering::SeqCst) != AWAKE
    }

    /// Checks whether the worker is drowsy or sleeps, and its place has an item for a ring that was full.
    fn is_held_up(&self) -> bool {
        self.state.load(Ordering::SeqCst) == HELD_UP
    }

    /// Sleeps until the bell rings, at most this long, if the worker is drowsy. Returns whether no bell rang. The
    /// worker of a place that the gate watches sleeps in the gate.
    fn sleep<R: Wait, G: Gate>(&self, rt: &R, gate: &G, place: Place, time: Duration) -> bool {
        let state = match self.state.load(Ordering::SeqCst) {
            AWAKE => return false,
            HELD_UP => HELD_UP as u32,
            _ => DROWSY as u32,
        };
        let is_woken = gate.sleep(place, time);
        if is_woken.is_none() {
            self.state.park_timeout(rt, state, time);
        }
        is_woken != Some(true) && self.is_drowsy()
    }

    /// Wakes the worker, if it sleeps or is drowsy. Returns whether it was.
    fn ring(&self) -> bool {
        let is_drowsy = self.is_drowsy() && self.state.swap(AWAKE, Ordering::SeqCst) != AWAKE;
        if is_drowsy {
            self.state.wake_one();
        }
        is_drowsy
    }
}

/// The bells of the workers of a plan: first those of the customer ports, then those of the lanes and of the bridges.
#[derive(Drop)]
pub struct Bells {
    bells: Vec<Bell>,
    /// The number of customer ports.
    customers: usize,
    /// The number of lanes.
    lanes: usize,
    /// The indices of the workers beside each customer port, each lane, and each local port of each bridge: first that
    /// of the place to which items go from there, then that of the place from which they come, if it is another one.
    beside: Vec<[usize; 2]>,
}

impl Bells {
    /// Returns the bells of the workers of a plan.
    ///
    /// # Errors
    ///
    /// `AllocError` if an allocation failed.
    pub fn new(alloc: Global, plan: &Plan) -> Result<Bells, AllocError> {
        let (customers, lanes) = (plan.customers.len(), plan.links.len().wrapping_mul(2));
        let (places, bridges) = (customers.wrapping_add(lanes), plan.bridges.len());
        let mut bells = Vec::new(alloc);
        for _ in 0..places.wrapping_add(bridges) {
            bells.push(Bell {
                state: AtomicU64::new(AWAKE),
            })?;
        }
        let mut beside = Vec::new(alloc);
        for _ in 0..places.wrapping_add(bridges.wrapping_mul(PORTS)) {
            beside.push([NOBODY, NOBODY])?;
        }
        let mut bells = Bells {
            bells,
            customers,
            lanes,
            beside,
        };
        bells.join_customers(plan);
        bells.join_links(plan);
        Ok(bells)
    }

    /// Notes for each customer port its bridge, and for the bridge's local port the customer port.
    fn join_customers(&mut self, plan: &Plan) {
        for (index, customer) in plan.customers.as_slice().iter().enumerate() {
            let bridge = self.worker(Place::Bridge(customer.bridge));
            self.set_beside(index, bridge, NOBODY);
            let at = self.row(Place::Bridge(customer.bridge), customer.port);
            self.set_beside(at, index, NOBODY);
        }
    }

    /// Notes for the two lanes of each link its bridges, and for the local ports at its ends the lanes.
    fn join_links(&mut self, plan: &Plan) {
        for (index, link) in plan.links.as_slice().iter().enumerate() {
            let away = self.customers.wrapping_add(index.wrapping_mul(2));
            let back = away.wrapping_add(1);
            let a = self.worker(Place::Bridge(link.a.bridge));
            let b = self.worker(Place::Bridge(link.b.bridge));
            self.set_beside(away, b, a);
            self.set_beside(back, a, b);
            let at = self.row(Place::Bridge(link.a.bridge), link.a.port);
            self.set_beside(at, away, back);
            let at = self.row(Place::Bridge(link.b.bridge), link.b.port);
            self.set_beside(at, back, away);
        }
    }

    /// Notes the workers beside a customer port, a lane, or a local port of a bridge.
    fn set_beside(&mut self, row: usize, first: usize, second: usize) {
        if let Some(workers) = self.beside.get_mut(row) {
            *workers = [first, second];
        }
    }

    /// Returns the index of a place's worker.
    fn worker(&self, place: Place) -> usize {
        match place {
            Place::Customer(number) => usize::from(number).wrapping_sub(1),
            Place::Lane(number) => self
                .customers
                .wrapping_add(usize::from(number).wrapping_sub(1)),
            Place::Bridge(number) => self
                .customers
                .wrapping_add(self.lanes)
                .wrapping_add(usize::from(number).wrapping_sub(1)),
        }
    }

    /// Returns the index in `beside` of a customer port, a lane, or a local port of a bridge.
    fn row(&self, place: Place, port: u8) -> usize {
        match place {
            Place::Customer(_) | Place::Lane(_) => self.worker(place),
            Place::Bridge(number) => self
                .customers
                .wrapping_add(self.lanes)
                .wrapping_add(usize::from(number).wrapping_sub(1).wrapping_mul(PORTS))
                .wrapping_add(usize::from(port).wrapping_sub(1)),
        }
    }

    /// Makes the worker of a place drowsy, or held up if its place has an item for a ring that was full. Returns
    /// whether it already was: no bell of it has rung since.
    pub(crate) fn nods(&self, place: Place, is_held_up: bool) -> bool {
        match self.bells.get(self.worker(place)) {
            Some(bell) => bell.nods(is_held_up),
            None => false,
        }
    }

    /// Notes that the worker of a place is not drowsy.
    pub(crate) fn stay_awake(&self, place: Place) {
        if let Some(bell) = self.bells.get(self.worker(place)) {
            bell.state.store(AWAKE, Ordering::SeqCst);
        }
    }

    /// Sleeps until the bell of a place rings, at most this long, if its worker is drowsy. Returns whether no bell
    /// rang.
    pub(crate) fn sleep<R: Wait, G: Gate>(
        &self,
        rt: &R,
        gate: &G,
        place: Place,
        time: Duration,
    ) -> bool {
        match self.bells.get(self.worker(place)) {
            Some(bell) => bell.sleep(rt, gate, place, time),
            None => false,
        }
    }

    /// Checks whether the worker of this index sleeps or is drowsy. There may be no such worker.
    fn is_drowsy(&self, worker: usize) -> bool {
        match self.bells.get(worker) {
            Some(bell) => bell.is_drowsy(),
            None => false,
        }
    }

    /// Checks whether the worker of this index sleeps or is drowsy, and its place has an item for a ring that was full.
    fn is_held_up(&self, worker: usize) -> bool {
        match self.bells.get(worker) {
            Some(bell) => bell.is_held_up(),
            None => false,
        }
    }

    /// Returns the indices of the sleeping workers that may have something to do after a step of a customer port, a
    /// lane, or a bridge at a local port: the one to which items go, and the one from which they come if it is held up.
    pub(crate) fn called(&self, place: Place, port: u8) -> [Option<usize>; 2] {
        let Some([to, from]) = self.beside.get(self.row(place, port)) else {
            return [None, None];
        };
        let (to, from) = (*to, *from);
        [
            self.is_drowsy(to).then_some(to),
            self.is_held_up(from).then_some(from),
        ]
    }

    /// Wakes the worker of this index, also if it sleeps in the gate. Only those of customer ports do.
    pub(crate) fn wake<G: Gate>(&self, gate: &G, worker: usize) {
        let Some(bell) = self.bells.get(worker) else {
            return;
        };
        if bell.ring() && worker < self.customers {
            if let Ok(number) = u8::try_from(worker.wrapping_add(1)) {
                gate.rouse(Place::Customer(number));
            }
        }
    }

    /// Wakes all workers that sleep, also those that sleep in the gate.
    pub(crate) fn wake_all<G: Gate>(&self, gate: &G) {
        for worker in 0..self.bells.len() {
            self.wake(gate, worker);
        }
    }

    /// Wakes the worker of a place, if the plan has it and it sleeps on its bell. If it is about to sleep, it takes one
    /// more turn.
    pub fn ring(&self, place: Place) {
        if let Some(bell) = self.bells.get(self.worker(place)) {
            bell.ring();
        }
    }

    /// Wakes all workers that sleep on their bells.
    pub fn ring_all(&self) {
        for bell in self.bells.as_slice() {
            bell.ring();
        }
    }
}
