//! Runs that are stopped, and runs that come to a limit.

use super::draft::Draft;
use super::frames::Frames;
use super::gates::{Open, StopAt};
use super::networks::{LINE, PAIR, STAR};
use super::runs::{LONG, Outer, Setup, Way, ran};
use super::told::Told;
use pb_lan::Limits;
use pb_run::Ended;
use std::test::Fail;

/// Checks whether no place took more than `most` steps.
fn are_within(told: &Told, most: u64) -> bool {
    told.steps.iter().all(|steps| *steps as u64 <= most)
}

/// Checks whether at most one frame left each port but the first, and none left the first.
fn is_one_at_most(told: &Told) -> bool {
    told.outside[0].left == 0 && told.outside.iter().all(|outside| outside.left <= 1)
}

/// Checks whether a run of four bridges in a line ended as one that is stopped at a turn, and its frame is not lost.
fn is_stopped(told: &Told, turns: u64) -> bool {
    matches!(told.ended, Some(Ended::Drained | Ended::Stopped))
        && told.ports == 4
        && are_within(told, turns)
        && told.outside[0].script == Some(1)
        && is_one_at_most(told)
        && told.is_kept()
}

#[test]
fn a_gate_stops_a_run_at_any_turn(rt: HostRuntime) -> Result<(), Fail> {
    const SETUP: Setup<'static> = Setup {
        draft: LINE,
        ports: &[
            Outer::Memory(1),
            Outer::Memory(0),
            Outer::Memory(0),
            Outer::Memory(0),
        ],
        limits: LONG,
        left: &[Frames::First(0)],
    };
    for turns in 0..201u64 {
        let told = ran(&rt, rt.alloc(), &SETUP, &StopAt(turns), Way::Kept)?;
        assert!(rt; is_stopped(&told, turns), "{turns}");
    }
    Ok(())
}

/// Three memory ports, of which the first has one broadcast to give.
const THREE: &[Outer] = &[Outer::Memory(1), Outer::Memory(0), Outer::Memory(0)];

/// Checks whether a run with three ports came to its limit of steps or turns, and its frame is not lost.
fn is_limited(told: &Told, most: u64) -> bool {
    told.ended == Some(Ended::Limit)
        && told.ports == 3
        && told.is_left
        && are_within(told, most)
        && told.outside[0].script == Some(1)
}

#[test]
fn two_steps_a_place_are_too_few(rt: HostRuntime) -> Result<(), Fail> {
    const SETUP: Setup<'static> = Setup {
        draft: Draft { steps: 2, ..STAR },
        ports: THREE,
        limits: LONG,
        left: &[Frames::First(0)],
    };
    let told = ran(&rt, rt.alloc(), &SETUP, &Open, Way::Kept)?;
    assert!(rt; is_limited(&told, 2) && !told.is_drained);
    Ok(())
}

#[test]
fn one_turn_a_worker_is_too_few(rt: HostRuntime) -> Result<(), Fail> {
    const SETUP: Setup<'static> = Setup {
        draft: PAIR,
        ports: THREE,
        limits: Limits {
            turns: 1,
            tick_every: 0,
            tick_ms: 0,
            hold: 0,
        },
        left: &[Frames::First(0), Frames::First(0), Frames::First(0)],
    };
    // (the first port may or may not have come to its turn before another worker ended the run, and the record may or
    // may not be drained)
    let told = ran(&rt, rt.alloc(), &SETUP, &Open, Way::Kept)?;
    assert!(rt; is_limited(&told, 1));
    Ok(())
}
