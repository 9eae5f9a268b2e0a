//! Reports of runs over memory.

use super::plans::{LOSSY, NEVER, NO_TURN, ONE_STEP, RSTP, SET_DOWN, UNLISTED};
use super::{PLAIN, Row, Told, check_under, run};
use pb_cmd_run::{NetworkFault, Strictness};
use pb_fakes::plans::PAIR;
use pb_fakes::{Full, Unflushed};
use std::test::Fail;

/// Runs over memory, and the exit status of each if it is strict.
const ROWS: &[(Row, u8)] = &[
    (
        Row {
            parts: ["", LOSSY],
            told: Told {
                result: Ok(0),
                traffic: (3, 4),
                closed: 1,
            },
            report: "ended drained\nport C1 entered 3 left 0 filtered 0\nport C2 entered 0 left 2 filtered 0\n\
                port C3 entered 0 left 2 filtered 0\nlink L1 ab taken 3 lost 1 ba taken 0 lost 0\nforest yes\n",
        },
        0,
    ),
    (
        Row {
            parts: ["", PAIR],
            told: Told {
                result: Ok(0),
                traffic: (0, 0),
                closed: 1,
            },
            report: "ended drained\nport C1 entered 0 left 0 filtered 0\nport C2 entered 0 left 0 filtered 0\n\
                link L1 ab taken 0 lost 0 ba taken 0 lost 0\nforest yes\n",
        },
        0,
    ),
    (
        Row {
            parts: [ONE_STEP, LOSSY],
            told: Told {
                result: Ok(0),
                traffic: (1, 0),
                closed: 1,
            },
            report: "ended limit\nport C1 entered 1 left 0 filtered 0\nport C2 entered 0 left 0 filtered 0\n\
                port C3 entered 0 left 0 filtered 0\nlink L1 ab taken 0 lost 0 ba taken 0 lost 0\nforest yes\n",
        },
        4,
    ),
    (
        Row {
            parts: [NO_TURN, LOSSY],
            told: Told {
                result: Ok(1),
                traffic: (0, 0),
                closed: 0,
            },
            report: "plan: 5 range network.turns\n",
        },
        1,
    ),
];

#[test]
fn runs_over_memory_are_reported(rt: HostRuntime) -> Result<(), Fail> {
    for (row, _) in ROWS {
        check_under(&rt, rt.alloc(), row, Strictness::Lenient, remarks_on(row))?;
    }
    Ok(())
}

/// Runs with events, and the remark about events that had not come.
const EVENTS: &[(Row, &str)] = &[
    (
        Row {
            parts: [SET_DOWN, LOSSY],
            told: Told {
                result: Ok(0),
                traffic: (3, 0),
                closed: 1,
            },
            report: "ended drained\nport C1 entered 3 left 0 filtered 0\nport C2 entered 0 left 0 filtered 0\n\
                port C3 entered 0 left 0 filtered 0\nlink L1 ab taken 0 lost 0 ba taken 0 lost 0\nforest yes\n",
        },
        "bridge B1 port 2: 3 frames dropped: no-port\nwarning: 1 event did not take place\n",
    ),
    (
        Row {
            parts: [NEVER, LOSSY],
            told: Told {
                result: Ok(0),
                traffic: (3, 4),
                closed: 1,
            },
            report: "ended drained\nport C1 entered 3 left 0 filtered 0\nport C2 entered 0 left 2 filtered 0\n\
                port C3 entered 0 left 2 filtered 0\nlink L1 ab taken 3 lost 1 ba taken 0 lost 0\nforest yes\n",
        },
        "warning: 2 events did not take place\n",
    ),
];

#[test]
fn events_set_ports_while_a_network_runs(rt: HostRuntime) -> Result<(), Fail> {
    for (row, remarks) in EVENTS {
        check_under(&rt, rt.alloc(), row, Strictness::Strict, remarks)?;
    }
    Ok(())
}

/// Bridges that decide the states of ports themselves, and never tick.
const UNSETTLED: Row = Row {
    parts: [RSTP, LOSSY],
    told: Told {
        result: Ok(0),
        traffic: (3, 0),
        closed: 1,
    },
    report: "ended drained\nport C1 entered 3 left 0 filtered 0\nport C2 entered 0 left 0 filtered 0\n\
        port C3 entered 0 left 0 filtered 0\nlink L1 ab taken 0 lost 0 ba taken 0 lost 0\nforest yes\nsettled no\n",
};

/// What standard error has of such a run. The tree has no way from C1.
const UNSETTLED_LINES: &str =
    "bridges not converged\nbridge B1 port 2: 3 frames dropped: no-port\n";

#[test]
fn bridges_that_have_not_settled_are_told(rt: HostRuntime) -> Result<(), Fail> {
    check_under(
        &rt,
        rt.alloc(),
        &UNSETTLED,
        Strictness::Lenient,
        UNSETTLED_LINES,
    )
}

/// Returns the remarks on a row's network. The run that ends at its limit leaves one frame in the network.
fn remarks_on(row: &Row) -> &'static str {
    if row.report.starts_with("ended limit") {
        "frames in transit: 1\n"
    } else {
        ""
    }
}

/// Returns the same run, with the status of a strict one.
fn strictly(row: &Row, status: u8) -> Row {
    Row {
        told: Told {
            result: Ok(status),
            ..row.told
        },
        ..*row
    }
}

#[test]
fn strict_runs_have_a_status_of_their_own(rt: HostRuntime) -> Result<(), Fail> {
    for (row, status) in ROWS {
        let row = strictly(row, *status);
        let remarks = remarks_on(&row);
        check_under(&rt, rt.alloc(), &row, Strictness::Strict, remarks)?;
    }
    let row = strictly(&UNSETTLED, 4);
    check_under(&rt, rt.alloc(), &row, Strictness::Strict, UNSETTLED_LINES)
}

/// A broadcast that the second bridge drops, and a frame for a reserved address that the first one drops.
const UNLISTED_END: Row = Row {
    parts: ["", UNLISTED],
    told: Told {
        result: Ok(0),
        traffic: (2, 0),
        closed: 1,
    },
    report: "ended drained\nport C1 entered 2 left 0 filtered 1\nport C2 entered 0 left 0 filtered 0\n\
        link L1 ab taken 1 lost 0 ba taken 0 lost 0\nforest yes\n",
};

#[test]
fn dropped_frames_are_counted_by_reason(rt: HostRuntime) -> Result<(), Fail> {
    let lines =
        "bridge B2 port 1: 1 frames dropped: not-member\nbridge B1 port 2: 1 frames dropped: reserved\n";
    check_under(&rt, rt.alloc(), &UNLISTED_END, Strictness::Lenient, lines)?;
    let row = strictly(&UNLISTED_END, 4);
    check_under(&rt, rt.alloc(), &row, Strictness::Strict, lines)
}

#[test]
fn a_report_that_cannot_be_written_is_told(rt: HostRuntime) -> Result<(), Fail> {
    for (front, closed) in [("", 1u64), (NO_TURN, 0)] {
        let (parts, mut full) = ([front, LOSSY], Full { room: 5 });
        let told = run(&rt, rt.alloc(), parts, PLAIN, &mut full, &mut Unflushed)?;
        assert_eq!(rt;
            (told.result, told.closed),
            (Err(NetworkFault::Write), closed)
        );
    }
    Ok(())
}

#[test]
fn a_report_that_cannot_be_flushed_is_told(rt: HostRuntime) -> Result<(), Fail> {
    for front in ["", NO_TURN] {
        let parts = [front, LOSSY];
        let told = run(
            &rt,
            rt.alloc(),
            parts,
            PLAIN,
            &mut Unflushed,
            &mut Unflushed,
        )?;
        assert_eq!(rt; told.result, Err(NetworkFault::Write));
    }
    Ok(())
}
