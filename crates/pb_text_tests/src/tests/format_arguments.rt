//! The format of reports, and further options of `run`.

use super::asked::all_ask;
use super::wanted::{RUN, Row, Run, WRONG, Wanted};
use pb_cli::ReportFormat;
use std::test::Fail;

/// A report as text.
const TEXT: Wanted = Wanted::Form(ReportFormat::Text);

/// A report as JSON.
const JSON: Wanted = Wanted::Form(ReportFormat::Json);

/// A report as CSV.
const CSV: Wanted = Wanted::Form(ReportFormat::Csv);

#[test]
fn reports_have_forms(rt: HostRuntime) -> Result<(), Fail> {
    const ROWS: &[Row] = &[
        (&["check", "a"], TEXT),
        (&["check", "--format", "text", "a"], TEXT),
        (&["check", "a", "--format=json"], JSON),
        (&["check", "a", "--format=csv"], WRONG),
        (&["check", "a", "--format=JSON"], WRONG),
        (&["check", "a", "--format"], WRONG),
        (&["step", "a", "--format=json"], JSON),
        (&["step", "a", "--format=csv"], CSV),
        (&["run", "a"], TEXT),
        (&["run", "a", "--format=json"], JSON),
        (&["run", "--format", "csv", "a"], CSV),
        (&["tree", "a", "--format=json"], JSON),
        (&["tree", "a", "--format=csv"], WRONG),
        (&["trace", "a", "C1", "ff", "--format=json"], JSON),
        (&["trace", "a", "C1", "ff", "--format=csv"], WRONG),
        (
            &["trace", "a", "C1", "ff", "--format=svg"],
            Wanted::TracePicture("a"),
        ),
        (&["survive", "a", "--format=json"], JSON),
        (&["survive", "a", "--format=csv"], CSV),
        (&["diff", "a", "b", "--format=json"], JSON),
        (&["survive", "a", "--format=svg"], WRONG),
        (&["flat", "3", "--format=json"], WRONG),
        (&["show", "--format=json"], WRONG),
    ];
    all_ask(&rt, rt.alloc(), ROWS)
}

#[test]
fn runs_settle_and_linger_and_reach_the_network(rt: HostRuntime) -> Result<(), Fail> {
    const ROWS: &[Row] = &[
        (&["run", "a"], Wanted::Run(RUN)),
        (
            &["run", "--settle", "a"],
            Wanted::Run(Run {
                settles: true,
                ..RUN
            }),
        ),
        (
            &["run", "a", "--linger", "0"],
            Wanted::Run(Run { linger: 0, ..RUN }),
        ),
        (
            &["run", "a", "--linger=60000", "--settle"],
            Wanted::Run(Run {
                settles: true,
                linger: 60_000,
                ..RUN
            }),
        ),
        (&["run", "a", "--linger=60001"], WRONG),
        (&["run", "a", "--linger=-1"], WRONG),
        (&["run", "a", "--linger"], WRONG),
        (&["run", "a", "--settle=1"], WRONG),
        (
            &["run", "--allow-network", "a"],
            Wanted::Run(Run {
                allows_network: true,
                ..RUN
            }),
        ),
        (&["run", "a", "--allow-network=1"], WRONG),
        (&["check", "a", "--allow-network"], WRONG),
        (&["tree", "a", "--linger=1"], WRONG),
    ];
    all_ask(&rt, rt.alloc(), ROWS)
}
