//! All places run at once.

use super::activity::PortActivity;
use super::frames::Frames;
use super::gates::{Holding, Meeting};
use super::guests::Habit;
use super::networks::LINE;
use super::runs::{LONG, Outer, Setup, Way, ran, ran_under};
use super::told::Told;
use pb_frame::Memory;
use pb_run::Ended;
use std::alloc::Global;
use std::sync::{Arc, Wait};
use std::test::Fail;
use std::thread::Threads;
use std::time::Clock;

/// The frames that have to leave if C1 sends one broadcast.
const ONE_EACH: &[Frames] = &[
    Frames::First(0),
    Frames::First(1),
    Frames::First(1),
    Frames::First(1),
];

/// Checks whether each place passed the gate of a meeting, and took no more steps than it passed.
fn have_passed(told: &Told, gate: &Meeting) -> bool {
    told.steps.iter().enumerate().all(|(slot, steps)| {
        let passes = gate.passes_of(slot);
        0 < passes && *steps as u64 <= passes
    })
}

#[test]
fn all_places_run_at_once(rt: HostRuntime) -> Result<(), Fail> {
    const SETUP: Setup<'static> = Setup {
        draft: LINE,
        ports: &[
            Outer::Memory(100),
            Outer::Memory(0),
            Outer::Memory(0),
            Outer::Memory(0),
        ],
        limits: LONG,
        left: &[
            Frames::First(0),
            Frames::First(100),
            Frames::First(100),
            Frames::First(100),
        ],
    };
    let gate = Meeting::of(rt.alloc(), 14)?;
    let told = ran(&rt, rt.alloc(), &SETUP, &gate, Way::Kept)?;
    let seen = (told.ended, told.is_left, gate.here());
    assert_eq!(rt; seen, (Some(Ended::Drained), true, 14));
    assert!(rt; have_passed(&told, &gate));
    Ok(())
}

/// Runs a setup with B4 held until a port of the tests' own has taken a frame.
fn ran_held<R: Threads + Wait + Clock + Sync>(
    rt: &R,
    alloc: Global,
    setup: &Setup,
) -> Result<Told, Memory> {
    let activity = Arc::new(alloc, PortActivity::new())?;
    let gate = Holding(Arc::try_clone(&activity)?);
    ran_under(rt, alloc, setup, &gate, &activity, Way::Kept)
}

#[test]
fn first_polls_meet_while_a_bridge_is_held(rt: HostRuntime) -> Result<(), Fail> {
    const SETUP: Setup<'static> = Setup {
        draft: LINE,
        ports: &[
            Outer::Guest(1, Habit::Meets),
            Outer::Guest(0, Habit::Meets),
            Outer::Memory(0),
            Outer::Memory(0),
        ],
        limits: LONG,
        left: ONE_EACH,
    };
    let told = ran_held(&rt, rt.alloc(), &SETUP)?;
    let seen = (told.ended, told.is_left, told.met, told.taken);
    assert_eq!(rt; seen, (Some(Ended::Drained), true, 2, 1));
    Ok(())
}
