//! Bridges that run the spanning tree during a run.

use super::draft::Draft;
use super::frames::Frames;
use super::gates::{Lockstep, Open};
use super::guests::Habit;
use super::networks::{RING, STAR};
use super::runs::{Outer, Setup, Way, ran};
use super::told::Told;
use pb_lan::Limits;
use pb_run::Ended;
use std::test::Fail;

/// Checks whether a run with three ports came to its limit, the expected frames left, and all `script` frames of the
/// first port entered or remain.
fn is_limited(told: &Told, script: usize) -> bool {
    told.ended == Some(Ended::Limit)
        && told.ports == 3
        && told.is_left
        && told.outside[0].script == Some(script)
}

/// The first port gives three broadcasts once it was polled often enough, and no port comes to an end.
const LATE: &[Outer] = &[
    Outer::Guest(3, Habit::Waits(1_500)),
    Outer::Guest(0, Habit::Waits(0)),
    Outer::Guest(0, Habit::Waits(0)),
];

#[test]
fn a_ring_that_has_settled_carries_broadcasts(rt: HostRuntime) -> Result<(), Fail> {
    const SETUP: Setup<'static> = Setup {
        draft: RING,
        ports: LATE,
        limits: Limits {
            turns: 2_000,
            tick_every: 100,
            tick_ms: 0,
            hold: 0,
        },
        left: &[Frames::First(0), Frames::First(3), Frames::First(3)],
    };
    let gate = Lockstep::of(12);
    let told = ran(&rt, rt.alloc(), &SETUP, &gate, Way::Kept)?;
    assert!(rt; is_limited(&told, 3) && told.settled == Some(true));
    Ok(())
}

#[test]
fn a_ring_tells_whether_it_has_settled(rt: HostRuntime) -> Result<(), Fail> {
    const SETUP: Setup<'static> = Setup {
        draft: RING,
        ports: LATE,
        limits: Limits {
            turns: 3_000,
            tick_every: 3,
            tick_ms: 0,
            hold: 0,
        },
        left: &[],
    };
    let told = ran(&rt, rt.alloc(), &SETUP, &Open, Way::Kept)?;
    assert!(rt; is_limited(&told, 3) && told.settled.is_some());
    Ok(())
}

/// The first port gives three broadcasts as soon as it is polled, and no port comes to an end.
const EARLY: &[Outer] = &[
    Outer::Guest(3, Habit::Waits(0)),
    Outer::Guest(0, Habit::Waits(0)),
    Outer::Guest(0, Habit::Waits(0)),
];

#[test]
fn frames_are_held_until_there_is_a_tree(rt: HostRuntime) -> Result<(), Fail> {
    const SETUP: Setup<'static> = Setup {
        draft: RING,
        ports: EARLY,
        limits: Limits {
            turns: 2_000,
            tick_every: 100,
            tick_ms: 0,
            hold: 15,
        },
        left: &[Frames::First(0), Frames::First(3), Frames::First(3)],
    };
    let gate = Lockstep::of(12);
    let told = ran(&rt, rt.alloc(), &SETUP, &gate, Way::Kept)?;
    assert!(rt; is_limited(&told, 3) && told.settled == Some(true));
    Ok(())
}

/// The first port gives five broadcasts as soon as it is polled, and no port comes to an end.
const FIVE: &[Outer] = &[
    Outer::Guest(5, Habit::Waits(0)),
    Outer::Guest(0, Habit::Waits(0)),
    Outer::Guest(0, Habit::Waits(0)),
];

#[test]
fn a_bridge_that_ticks_at_each_turn_relays(rt: HostRuntime) -> Result<(), Fail> {
    const SETUP: Setup<'static> = Setup {
        draft: STAR,
        ports: FIVE,
        limits: Limits {
            turns: 200,
            tick_every: 1,
            tick_ms: 0,
            hold: 0,
        },
        left: &[Frames::First(0), Frames::First(5), Frames::First(5)],
    };
    let gate = Lockstep::of(4);
    let told = ran(&rt, rt.alloc(), &SETUP, &gate, Way::Kept)?;
    assert!(rt; is_limited(&told, 5));
    Ok(())
}

#[test]
fn a_run_whose_clocks_tick_every_few_turns_drains(rt: HostRuntime) -> Result<(), Fail> {
    // (the bridge is never idle for long, and has many turns before the others have had theirs)
    const SETUP: Setup<'static> = Setup {
        draft: Draft {
            steps: 1_000_000,
            ..STAR
        },
        ports: &[Outer::Memory(3), Outer::Memory(0), Outer::Memory(0)],
        limits: Limits {
            turns: 5_000_000,
            tick_every: 5,
            tick_ms: 0,
            hold: 0,
        },
        left: &[Frames::First(0), Frames::First(3), Frames::First(3)],
    };
    let told = ran(&rt, rt.alloc(), &SETUP, &Open, Way::Kept)?;
    assert!(rt; told.ended == Some(Ended::Drained) && told.is_left);
    Ok(())
}
