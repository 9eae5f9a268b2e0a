//! Runs in which an allocation fails.

use super::frames::Frames;
use super::gates::Open;
use super::guests::{Call, Habit};
use super::networks::{LINE, STAR};
use super::runs::{LONG, Outer, Setup, Way, ran};
use super::told::Told;
use pb_frame::Memory;
use pb_run::{Ended, RunCause};
use std::alloc::Global;
use std::process::Abort;
use std::sync::Wait;
use std::test::Fail;
use std::thread::Threads;
use std::time::Clock;

/// How a run ended, how many ports came back, whether the frames that have to leave do, how many of the first port's
/// script exist, and whether each port keeps what left.
type Seen = (Option<Ended>, usize, bool, Option<usize>, bool);

/// Returns the result of a run with a port that meets a failed allocation at a call.
fn seen<R: Threads + Wait + Clock + Sync>(
    rt: &R,
    alloc: Global,
    ports: &[Outer],
    left: &[Frames],
) -> Result<Seen, Memory> {
    let setup = Setup {
        draft: STAR,
        ports,
        limits: LONG,
        left,
    };
    let told = ran(rt, alloc, &setup, &Open, Way::Kept)?;
    let script = told.outside[0].script;
    Ok((told.ended, told.ports, told.is_left, script, told.is_kept()))
}

/// Checks runs with a port that meets a failed allocation at a call. They end out of memory. No frame of the first
/// port's script is lost, and the frames that have to leave do.
fn all_run_out<R: Abort + Threads + Wait + Clock + Sync>(
    rt: &R,
    alloc: Global,
    script: usize,
    rows: &[(&[Outer], &[Frames])],
) -> Result<(), Fail> {
    let wanted = (Some(Ended::NoMemory), 3, true, Some(script), true);
    for (number, (ports, left)) in rows.iter().enumerate() {
        assert_eq!(rt; seen(rt, alloc, ports, left)?, wanted, "row {number}");
    }
    Ok(())
}

#[test]
fn a_port_that_is_refused_memory_ends_the_run(rt: HostRuntime) -> Result<(), Fail> {
    const ROWS: &[(&[Outer], &[Frames])] = &[
        (
            &[
                Outer::Guest(3, Habit::Refuses(Call::Poll(1))),
                Outer::Memory(0),
                Outer::Memory(0),
            ],
            &[Frames::First(0), Frames::First(0), Frames::First(0)],
        ),
        (
            &[
                Outer::Guest(3, Habit::Refuses(Call::Poll(2))),
                Outer::Memory(0),
                Outer::Memory(0),
            ],
            &[Frames::First(0)],
        ),
        (
            &[
                Outer::Guest(3, Habit::Refuses(Call::Poll(4))),
                Outer::Memory(0),
                Outer::Memory(0),
            ],
            &[Frames::First(0)],
        ),
        (
            &[
                Outer::Memory(3),
                Outer::Guest(0, Habit::Refuses(Call::Offer(1))),
                Outer::Memory(0),
            ],
            &[Frames::First(0), Frames::First(0)],
        ),
        (
            &[
                Outer::Memory(3),
                Outer::Guest(0, Habit::Refuses(Call::Offer(3))),
                Outer::Memory(0),
            ],
            &[Frames::First(0), Frames::First(2)],
        ),
    ];
    all_run_out(&rt, rt.alloc(), 3, ROWS)
}

#[test]
fn a_port_that_is_refused_memory_as_it_writes_ends_the_run(rt: HostRuntime) -> Result<(), Fail> {
    // (a port writes after a number of turns at most: it writes a hundred frames in at least three parts)
    const ROWS: &[(&[Outer], &[Frames])] = &[
        (
            &[
                Outer::Memory(100),
                Outer::Guest(0, Habit::Refuses(Call::Pump(1))),
                Outer::Memory(0),
            ],
            &[Frames::First(0), Frames::Least(1)],
        ),
        (
            &[
                Outer::Memory(100),
                Outer::Guest(0, Habit::Refuses(Call::Pump(2))),
                Outer::Memory(0),
            ],
            &[Frames::First(0), Frames::Least(2)],
        ),
    ];
    all_run_out(&rt, rt.alloc(), 100, ROWS)
}

/// Checks whether a run of four bridges in a line, with one broadcast to carry, ended as it may after a failed
/// allocation.
fn is_named(told: &Told) -> bool {
    let is_whole = told.ports == 4 && told.outside[0].script == Some(1);
    let is_carried = told.is_left && told.is_kept();
    match (told.cause, told.ended) {
        (Some(RunCause::Memory | RunCause::Spawn), None) => is_whole,
        (None, Some(Ended::NoMemory)) => is_whole,
        (None, Some(Ended::Drained)) => is_whole && (is_carried || told.short > 0),
        _ => false,
    }
}

#[test]
fn a_run_names_what_it_was_refused(rt: HostRuntime) -> Result<(), Fail> {
    const SETUP: Setup<'static> = Setup {
        draft: LINE,
        ports: &[
            Outer::Memory(1),
            Outer::Memory(0),
            Outer::Memory(0),
            Outer::Memory(0),
        ],
        limits: LONG,
        left: &[
            Frames::First(0),
            Frames::First(1),
            Frames::First(1),
            Frames::First(1),
        ],
    };
    let told = ran(&rt, rt.alloc(), &SETUP, &Open, Way::Kept)?;
    assert!(rt; is_named(&told));
    Ok(())
}
