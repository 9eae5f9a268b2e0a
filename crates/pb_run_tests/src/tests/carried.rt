//! Runs that drain.

use super::draft::{Draft, Joint};
use super::frames::Frames;
use super::gates::Open;
use super::guests::Habit;
use super::networks::{LINE, PAIR};
use super::runs::{LONG, Outer, Setup, Way, ran};
use super::told::{Outside, Told};
use pb_lan::Limits;
use pb_run::{Ended, Last};
use std::alloc::Global;
use std::process::Abort;
use std::sync::Wait;
use std::test::Fail;
use std::thread::Threads;
use std::time::Clock;

/// A run that drains.
#[derive(Drop)]
struct Row {
    setup: Setup<'static>,
    /// The number of polls of ports of the tests' own.
    polls: u64,
    /// By lane of the first link, the number of items that it takes, and of those that it loses.
    link: [(usize, usize); 2],
    /// The number of steps of the busiest place.
    most: usize,
}

/// Checks whether a customer port came to its end, gave all its frames, and keeps what left.
fn is_at_end(outside: &Outside, outer: Outer) -> bool {
    outside.last == Some(Last::End)
        && outside.script == Some(outer.count())
        && outside.gone == 0
        && outside.kept == outside.left
}

/// Checks whether all customer ports came to their end.
fn are_at_end(told: &Told, ports: &[Outer]) -> bool {
    told.ports == ports.len()
        && told
            .outside
            .iter()
            .zip(ports)
            .all(|(outside, outer)| is_at_end(outside, *outer))
}

/// Checks whether a run drained as the row says.
fn has_drained(told: &Told, row: &Row) -> bool {
    told.ended == Some(Ended::Drained)
        && told.settled.is_none()
        && told.is_drained
        && told.is_left
        && are_at_end(told, row.setup.ports)
        && told.link == row.link
        && told.polls == row.polls
        && told.steps.iter().copied().max() == Some(row.most)
}

/// Checks whether a run that only counted its steps drained too, with the same frames entered and left.
fn has_counted(counted: &Told, told: &Told) -> bool {
    counted.ended == Some(Ended::Drained)
        && counted.settled.is_none()
        && counted.is_drained
        && counted.ports == told.ports
        && counted.passed == told.passed
}

/// Checks that the run drains as the row says, both if it keeps its steps and if it only counts them.
fn drains<R: Abort + Threads + Wait + Clock + Sync>(
    rt: &R,
    alloc: Global,
    row: &Row,
) -> Result<(), Fail> {
    let told = ran(rt, alloc, &row.setup, &Open, Way::Kept)?;
    assert!(rt; has_drained(&told, row), "steps that are kept");
    let counted = ran(rt, alloc, &row.setup, &Open, Way::Counted)?;
    assert!(rt; has_counted(&counted, &told), "steps that are counted");
    Ok(())
}

#[test]
fn a_line_carries_a_hundred_broadcasts(rt: HostRuntime) -> Result<(), Fail> {
    const ROW: Row = Row {
        setup: Setup {
            draft: LINE,
            ports: &[
                Outer::Memory(100),
                Outer::Memory(0),
                Outer::Memory(0),
                Outer::Memory(0),
            ],
            limits: Limits {
                turns: 10_000_000,
                tick_every: 0,
                tick_ms: 0,
                hold: 0,
            },
            left: &[
                Frames::First(0),
                Frames::First(100),
                Frames::First(100),
                Frames::First(100),
            ],
        },
        polls: 0,
        link: [(100, 0), (0, 0)],
        most: 300,
    };
    drains(&rt, rt.alloc(), &ROW)
}

#[test]
fn a_lossless_line_with_queues_for_one_frame_carries_all(rt: HostRuntime) -> Result<(), Fail> {
    const SETUP: Setup<'static> = Setup {
        draft: Draft {
            queue: 1,
            ring: 1,
            ..LINE
        },
        ports: &[
            Outer::Memory(200),
            Outer::Memory(0),
            Outer::Memory(0),
            Outer::Memory(0),
        ],
        limits: LONG,
        left: &[
            Frames::First(0),
            Frames::First(200),
            Frames::First(200),
            Frames::First(200),
        ],
    };
    let told = ran(&rt, rt.alloc(), &SETUP, &Open, Way::Lossless)?;
    assert!(rt; told.ended == Some(Ended::Drained) && told.is_left);
    Ok(())
}

#[test]
fn a_line_carries_four_thousand_broadcasts(rt: HostRuntime) -> Result<(), Fail> {
    const ROW: Row = Row {
        setup: Setup {
            draft: Draft {
                queue: 4_096,
                ring: 4_096,
                steps: 20_000,
                ..LINE
            },
            ports: &[
                Outer::Memory(4_000),
                Outer::Memory(0),
                Outer::Memory(0),
                Outer::Memory(0),
            ],
            limits: LONG,
            left: &[
                Frames::First(0),
                Frames::First(4_000),
                Frames::First(4_000),
                Frames::First(4_000),
            ],
        },
        polls: 0,
        link: [(4_000, 0), (0, 0)],
        most: 12_000,
    };
    drains(&rt, rt.alloc(), &ROW)
}

#[test]
fn broadcasts_go_both_ways(rt: HostRuntime) -> Result<(), Fail> {
    const ROW: Row = Row {
        setup: Setup {
            draft: LINE,
            ports: &[
                Outer::Memory(0),
                Outer::Memory(5),
                Outer::Memory(0),
                Outer::Memory(0),
            ],
            limits: LONG,
            left: &[
                Frames::First(5),
                Frames::First(0),
                Frames::First(5),
                Frames::First(5),
            ],
        },
        polls: 0,
        link: [(0, 0), (5, 0)],
        most: 15,
    };
    drains(&rt, rt.alloc(), &ROW)
}

#[test]
fn a_lane_loses_the_second_of_three(rt: HostRuntime) -> Result<(), Fail> {
    const ROW: Row = Row {
        setup: Setup {
            draft: Draft {
                links: &[Joint {
                    a: (1, 1),
                    b: (2, 1),
                    lost: &[1],
                }],
                ..PAIR
            },
            ports: &[Outer::Memory(3), Outer::Memory(0), Outer::Memory(0)],
            limits: LONG,
            left: &[Frames::First(0), Frames::These(&[0, 2]), Frames::First(0)],
        },
        polls: 0,
        link: [(3, 1), (0, 0)],
        most: 6,
    };
    drains(&rt, rt.alloc(), &ROW)
}

/// A thousand broadcasts over the link, in at most ten million turns.
const THOUSAND: Setup<'static> = Setup {
    draft: Draft {
        queue: 1_024,
        ring: 1_024,
        ..PAIR
    },
    ports: &[Outer::Memory(1_000), Outer::Memory(0), Outer::Memory(0)],
    limits: Limits {
        turns: 10_000_000,
        tick_every: 0,
        tick_ms: 0,
        hold: 0,
    },
    left: &[],
};

/// Checks that a thousand broadcasts over these links leave as these frames, and that the first lane loses one.
fn loses_one<R: Abort + Threads + Wait + Clock + Sync>(
    rt: &R,
    alloc: Global,
    links: &'static [Joint],
    left: &'static [Frames],
) -> Result<(), Fail> {
    let row = Row {
        setup: Setup {
            draft: Draft {
                links,
                ..THOUSAND.draft
            },
            left,
            ..THOUSAND
        },
        polls: 0,
        link: [(1_000, 1), (0, 0)],
        most: 2_000,
    };
    drains(rt, alloc, &row)
}

/// Shows that a list with 0 loses exactly the first frame.
#[test]
fn a_lane_loses_the_first_of_a_thousand_and_no_other(rt: HostRuntime) -> Result<(), Fail> {
    const LINKS: &[Joint] = &[Joint {
        a: (1, 1),
        b: (2, 1),
        lost: &[0],
    }];
    const LEFT: &[Frames] = &[
        Frames::First(0),
        Frames::Without(1_000, 0),
        Frames::First(0),
    ];
    loses_one(&rt, rt.alloc(), LINKS, LEFT)
}

/// Shows that a list with 1 loses exactly the second frame.
#[test]
fn a_lane_loses_the_second_of_a_thousand_and_no_other(rt: HostRuntime) -> Result<(), Fail> {
    const LINKS: &[Joint] = &[Joint {
        a: (1, 1),
        b: (2, 1),
        lost: &[1],
    }];
    const LEFT: &[Frames] = &[
        Frames::First(0),
        Frames::Without(1_000, 1),
        Frames::First(0),
    ];
    loses_one(&rt, rt.alloc(), LINKS, LEFT)
}

#[test]
fn a_run_without_frames_ends_once_each_port_was_polled(rt: HostRuntime) -> Result<(), Fail> {
    const ROW: Row = Row {
        setup: Setup {
            draft: PAIR,
            ports: &[
                Outer::Memory(0),
                Outer::Guest(0, Habit::Plain),
                Outer::Guest(0, Habit::Plain),
            ],
            limits: LONG,
            left: &[Frames::First(0), Frames::First(0), Frames::First(0)],
        },
        polls: 2,
        link: [(0, 0), (0, 0)],
        most: 0,
    };
    drains(&rt, rt.alloc(), &ROW)
}
