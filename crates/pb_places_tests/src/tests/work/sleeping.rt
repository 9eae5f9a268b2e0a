//! Runs of workers that sleep.

use super::{office, together};
use crate::tests::floor::plan;
use pb_frame::Memory;
use pb_lan::{Limits, Place};
use pb_threads::{Bells, Finish, Gate, Go, Worked, run_all};
use std::alloc::Global;
use std::sync::atomic::{AtomicU64, Ordering};
use std::test::Fail;
use std::thread;
use std::time::{Clock, Duration};

/// A gate that lets workers sleep, and stops them once the first customer port has found nothing so many times.
#[derive(Drop)]
struct Quiet {
    bells: Bells,
    /// Whether the first customer port is watched.
    is_watched: bool,
    /// How many times the first customer port may still find nothing.
    left: AtomicU64,
}

/// Returns a gate that lets the first customer port find nothing so many times.
fn quiet_gate(alloc: Global, is_watched: bool, left: u64) -> Result<Quiet, Memory> {
    Ok(Quiet {
        bells: Bells::new(alloc, &plan(alloc)?)?,
        is_watched,
        left: AtomicU64::new(left),
    })
}

impl Gate for Quiet {
    fn pass(&self, _place: Place, _turn: u64) -> Go {
        Go::Go
    }

    fn pass_when_idle(&self, place: Place, _turn: u64) -> Go {
        if place != Place::Customer(1) {
            return Go::Go;
        }
        let left = self.left.load(Ordering::SeqCst).saturating_sub(1);
        self.left.store(left, Ordering::SeqCst);
        if left == 0 { Go::Stop } else { Go::Go }
    }

    fn lets_sleep(&self, _place: Place) -> bool {
        true
    }

    fn bells(&self) -> Option<&Bells> {
        Some(&self.bells)
    }

    fn is_watched(&self, place: Place) -> bool {
        self.is_watched && place == Place::Customer(1)
    }
}

/// Returns limits of this many turns, for clocks of this many milliseconds.
fn limits_of(turns: u64, tick_ms: u64) -> Limits {
    Limits {
        turns,
        tick_every: 0,
        tick_ms,
        hold: 0,
    }
}

/// Checks that workers end as soon as nothing is left, though some have nothing to do from the start and sleep, with
/// and without a clock.
#[test]
fn workers_that_sleep_end_with_the_others(rt: HostRuntime) -> Result<(), Fail> {
    for tick_ms in [0, 2u64] {
        let limits = limits_of(1_000_000_000, tick_ms);
        let gate = quiet_gate(rt.alloc(), false, u64::MAX)?;
        let mut places = office(rt.alloc(), 0)?;
        if let Some(desk) = places.bridges.last_mut() {
            desk.jobs = 100_000;
        }
        let Worked { places, verdict } = run_all(&rt, rt.alloc(), places, &gate, limits, 100_000);
        assert!(rt; verdict.is_ok());
        for desk in together(places)? {
            assert!(rt; desk.jobs == 0 && desk.finish == Some(Finish::Told));
        }
    }
    Ok(())
}

/// Checks that the turns that pass while a worker sleeps count.
#[test]
fn a_worker_that_sleeps_comes_to_its_last_turn(rt: HostRuntime) -> Result<(), Fail> {
    let gate = quiet_gate(rt.alloc(), false, u64::MAX)?;
    let places = office(rt.alloc(), 0)?;
    let limits = limits_of(400, 0);
    let Worked { places, verdict } = run_all(&rt, rt.alloc(), places, &gate, limits, 1);
    assert!(rt; verdict.is_ok());
    let mut is_limit = false;
    for desk in together(places)? {
        assert!(rt; desk.turns <= 400);
        is_limit = is_limit || (desk.finish == Some(Finish::Limit) && desk.turns < 100);
    }
    assert!(rt; is_limit);
    Ok(())
}

/// Rings for the first customer port once a millisecond, at most so many times, until its gate has stopped it. Returns
/// how many times it still might have rung.
fn ring_on<R: Clock>(rt: &R, gate: &Quiet, most: u32) -> u32 {
    for rung in 0..most {
        if gate.left.load(Ordering::SeqCst) == 0 {
            return most - rung;
        }
        gate.bells.ring(Place::Customer(1));
        thread::sleep(rt, Duration::from_millis(1));
    }
    0
}

/// Checks that the worker of a watched place wakes when its bell rings: in 2,000 milliseconds it finds nothing 400
/// times, and it sleeps for 50 milliseconds if nobody rings. A watched place whose bell nobody rings goes on.
#[test]
fn a_watched_place_wakes_when_its_bell_rings(rt: HostRuntime) -> Result<(), Fail> {
    for (most, left) in [(2_000u32, 400u64), (0, 4)] {
        let alloc = rt.alloc();
        let gate = quiet_gate(alloc, true, left)?;
        let places = office(alloc, 0)?;
        let limits = limits_of(1_000_000_000, 0);
        let run = || run_all(&rt, alloc, places, &gate, limits, 1);
        let (rings, Worked { places, verdict }) = thread::join(
            &rt,
            || ring_on(&rt, &gate, most),
            run,
        );
        assert!(rt; verdict.is_ok() && (rings > 0 || most == 0));
        for desk in together(places)? {
            assert!(rt; desk.finish == Some(Finish::Told));
        }
    }
    Ok(())
}

/// The number of times that a sleeper looks whether it was roused.
const LOOKS: u32 = 10_000_000;

/// A gate in which the worker of the first customer port sleeps until it is roused.
#[derive(Drop)]
struct Bedroom {
    bells: Bells,
    /// How many times the port was roused.
    rouses: AtomicU64,
    /// How many times its worker went to sleep and was not roused.
    overslept: AtomicU64,
}

impl Gate for Bedroom {
    fn pass(&self, _place: Place, _turn: u64) -> Go {
        Go::Go
    }

    fn lets_sleep(&self, _place: Place) -> bool {
        true
    }

    fn bells(&self) -> Option<&Bells> {
        Some(&self.bells)
    }

    fn is_watched(&self, place: Place) -> bool {
        place == Place::Customer(1)
    }

    fn sleep(&self, place: Place, _time: Duration) -> Option<bool> {
        if place != Place::Customer(1) {
            return None;
        }
        for _ in 0..LOOKS {
            if self.rouses.load(Ordering::SeqCst) > 0 {
                return Some(true);
            }
            thread::yield_now();
        }
        self.overslept.fetch_add(1, Ordering::SeqCst);
        Some(false)
    }

    fn rouse(&self, place: Place) {
        if place == Place::Customer(1) {
            self.rouses.fetch_add(1, Ordering::SeqCst);
        }
    }
}

/// Checks that a worker that sleeps in the gate is roused, at the latest when nothing is left to do.
#[test]
fn a_worker_that_sleeps_in_the_gate_is_roused(rt: HostRuntime) -> Result<(), Fail> {
    let gate = Bedroom {
        bells: Bells::new(rt.alloc(), &plan(rt.alloc())?)?,
        rouses: AtomicU64::new(0),
        overslept: AtomicU64::new(0),
    };
    let mut places = office(rt.alloc(), 0)?;
    if let Some(desk) = places.bridges.last_mut() {
        desk.jobs = 100_000;
    }
    let limits = limits_of(1_000_000_000, 0);
    let Worked { places, verdict } = run_all(&rt, rt.alloc(), places, &gate, limits, 100_000);
    assert!(rt; verdict.is_ok());
    assert!(rt; gate.overslept.load(Ordering::SeqCst) == 0);
    for desk in together(places)? {
        assert!(rt; desk.finish == Some(Finish::Told));
    }
    Ok(())
}

/// A gate in which the worker of the first lane sleeps until another one has taken a turn of the lane. The first bridge
/// begins when it sleeps.
#[derive(Drop)]
struct Nursery {
    bells: Bells,
    /// 1 while the lane's worker sleeps.
    asleep: AtomicU64,
    /// How many turns of the lane were taken meanwhile.
    helped: AtomicU64,
}

/// Waits until a number is not 0, for so many looks at most. Returns whether it came to that.
fn comes(number: &AtomicU64) -> bool {
    for _ in 0..LOOKS {
        if number.load(Ordering::SeqCst) > 0 {
            return true;
        }
        thread::yield_now();
    }
    false
}

impl Gate for Nursery {
    fn pass(&self, place: Place, turn: u64) -> Go {
        if place == Place::Lane(1) && self.asleep.load(Ordering::SeqCst) == 1 {
            self.helped.fetch_add(1, Ordering::SeqCst);
        }
        if place == Place::Bridge(1) && turn == 0 && !comes(&self.asleep) {
            return Go::Stop;
        }
        Go::Go
    }

    fn lets_sleep(&self, _place: Place) -> bool {
        true
    }

    fn bells(&self) -> Option<&Bells> {
        Some(&self.bells)
    }

    fn sleep(&self, place: Place, _time: Duration) -> Option<bool> {
        if place != Place::Lane(1) {
            return None;
        }
        self.asleep.store(1, Ordering::SeqCst);
        let is_helped = comes(&self.helped);
        self.asleep.store(0, Ordering::SeqCst);
        Some(is_helped)
    }
}

/// Checks that the worker of a bridge takes turns of the lane to which it sends, while the lane's worker sleeps.
#[test]
fn a_worker_helps_a_place_whose_worker_sleeps(rt: HostRuntime) -> Result<(), Fail> {
    let gate = Nursery {
        bells: Bells::new(rt.alloc(), &plan(rt.alloc())?)?,
        asleep: AtomicU64::new(0),
        helped: AtomicU64::new(0),
    };
    let mut places = office(rt.alloc(), 0)?;
    if let Some(desk) = places.bridges.first_mut() {
        desk.jobs = 2;
    }
    let limits = limits_of(1_000_000_000, 0);
    let Worked { places, verdict } = run_all(&rt, rt.alloc(), places, &gate, limits, 2);
    assert!(rt; verdict.is_ok());
    assert!(rt; gate.helped.load(Ordering::SeqCst) > 0);
    for desk in together(places)? {
        assert!(rt; desk.jobs == 0 && desk.finish == Some(Finish::Told));
    }
    Ok(())
}
