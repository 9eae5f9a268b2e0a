//! A gate that is passed only before some turns.

use super::{office, together};
use pb_lan::{Limits, Place};
use pb_threads::{Finish, Gate, Go, Worked, run_all};
use std::alloc::Global;
use std::sync::Wait;
use std::sync::atomic::{AtomicU64, Ordering};
use std::test::Fail;
use std::thread::Threads;
use std::time::Clock;

/// A gate that workers with much to do pass only before turns whose number is a multiple of 64. It counts all passes,
/// and those before other turns than these and the first 17.
#[derive(Drop)]
struct Seldom {
    passes: AtomicU64,
    between: AtomicU64,
}

impl Gate for Seldom {
    fn pass(&self, _place: Place, turn: u64) -> Go {
        self.passes.fetch_add(1, Ordering::SeqCst);
        if turn > 16 && turn % 64 != 0 {
            self.between.fetch_add(1, Ordering::SeqCst);
        }
        Go::Go
    }

    fn is_passed_seldom(&self) -> bool {
        true
    }
}

/// Runs six places with 160 jobs each for 100 turns each. Their clocks tick every so many turns, or never if it is 0.
/// Returns the gate, and whether the run ended as it should: one place reached the limit, and no place passed it.
fn run_office<R: Threads + Wait + Clock + Sync>(
    rt: &R,
    alloc: Global,
    tick_every: u64,
) -> Result<(Seldom, bool), Fail> {
    let gate = Seldom {
        passes: AtomicU64::new(0),
        between: AtomicU64::new(0),
    };
    let limits = Limits {
        turns: 100,
        tick_every,
        tick_ms: 0,
        hold: 0,
    };
    let places = office(alloc, 160)?;
    let Worked { places, verdict } = run_all(rt, alloc, places, &gate, limits, 960);
    let (mut is_right, mut is_limit) = (verdict.is_ok(), false);
    for desk in together(places)? {
        let ticks = desk.turns.checked_div(tick_every).unwrap_or(0);
        is_right = is_right && desk.turns <= 100 && desk.ticks == ticks;
        is_right = is_right && desk.jobs.saturating_add(desk.turns) == 160;
        is_limit = is_limit || (desk.finish == Some(Finish::Limit) && desk.turns == 100);
    }
    Ok((gate, is_right && is_limit))
}

#[test]
fn a_busy_worker_passes_such_a_gate_once_in_64_turns(rt: HostRuntime) -> Result<(), Fail> {
    let (gate, is_right) = run_office(&rt, rt.alloc(), 0)?;
    assert!(rt; is_right);
    assert_eq!(rt; gate.between.load(Ordering::SeqCst), 0);
    assert!(rt; gate.passes.load(Ordering::SeqCst) <= 108);
    Ok(())
}

#[test]
fn a_worker_whose_clock_counts_turns_passes_it_before_each(rt: HostRuntime) -> Result<(), Fail> {
    let (gate, is_right) = run_office(&rt, rt.alloc(), 5)?;
    assert!(rt; is_right);
    assert!(rt; gate.passes.load(Ordering::SeqCst) >= 100);
    Ok(())
}
