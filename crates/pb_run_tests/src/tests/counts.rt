//! Runs with a wrong number of ports.

use super::draft::Draft;
use super::gates::Open;
use super::guests::Habit;
use super::networks::{PAIR, STAR};
use super::runs::{LONG, Outer, Setup, Way, ran};
use super::told::Told;
use pb_frame::Memory;
use pb_run::{Ended, RunCause};
use std::alloc::Global;
use std::sync::Wait;
use std::test::Fail;
use std::thread::Threads;
use std::time::Clock;

/// Checks whether each port still has all its frames.
fn are_whole(told: &Told, ports: &[Outer]) -> bool {
    told.outside.iter().zip(ports).all(|(outside, outer)| outside.script == Some(outer.count())
        && outside.kept == 0)
}

/// Why a run did not begin, how it ended, how many ports came back, how often they were polled, and whether each still
/// has all its frames.
type Seen = (Option<RunCause>, Option<Ended>, usize, u64, bool);

fn seen<R: Threads + Wait + Clock + Sync>(
    rt: &R,
    alloc: Global,
    draft: Draft,
    ports: &[Outer],
) -> Result<Seen, Memory> {
    let setup = Setup {
        draft,
        ports,
        limits: LONG,
        left: &[],
    };
    let told = ran(rt, alloc, &setup, &Open, Way::Kept)?;
    let is_whole = are_whole(&told, ports);
    Ok((told.cause, told.ended, told.ports, told.polls, is_whole))
}

#[test]
fn ports_have_to_be_as_many_as_in_the_plan(rt: HostRuntime) -> Result<(), Fail> {
    const TWO: &[Outer] = &[Outer::Guest(2, Habit::Plain), Outer::Guest(1, Habit::Plain)];
    const ROWS: &[(Draft, &[Outer])] = &[
        (STAR, &[]),
        (STAR, &[Outer::Guest(2, Habit::Plain)]),
        (STAR, TWO),
        (PAIR, TWO),
        (
            STAR,
            &[
                Outer::Guest(2, Habit::Plain),
                Outer::Guest(1, Habit::Plain),
                Outer::Guest(0, Habit::Plain),
                Outer::Guest(3, Habit::Plain),
            ],
        ),
    ];
    for (number, (draft, ports)) in ROWS.iter().enumerate() {
        let wanted = (Some(RunCause::PortCount), None, ports.len(), 0, true);
        assert_eq!(rt;
            seen(&rt, rt.alloc(), *draft, ports)?,
            wanted,
            "row {number}"
        );
    }
    Ok(())
}
