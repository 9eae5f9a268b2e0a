//! The options of `diff`.

use super::asked::all_ask;
use super::wanted::{Change, HELP, Row, WRONG, Wanted};
use std::test::Fail;

/// A comparison of the files `a` and `b` under the failures of single links, for all services.
const LINKS: Change = Change {
    old: "a",
    new: "b",
    pairs: false,
    bridges: false,
    service: None,
    all_failures: false,
    ticks: 200,
};

/// Arguments of `diff`.
const CHANGES: &[Row] = &[
    (&["diff", "a", "b"], Wanted::Diff(LINKS)),
    (
        &["diff", "--pairs", "a", "b"],
        Wanted::Diff(Change {
            pairs: true,
            ..LINKS
        }),
    ),
    (
        &["diff", "a", "--bridges", "b"],
        Wanted::Diff(Change {
            bridges: true,
            ..LINKS
        }),
    ),
    (
        &["diff", "a", "b", "--service", "red", "--ticks=1"],
        Wanted::Diff(Change {
            service: Some("red"),
            ticks: 1,
            ..LINKS
        }),
    ),
    (
        &["diff", "b", "a"],
        Wanted::Diff(Change {
            old: "b",
            new: "a",
            ..LINKS
        }),
    ),
    (
        &["diff", "a", "b", "--all-failures"],
        Wanted::Diff(Change {
            all_failures: true,
            ..LINKS
        }),
    ),
    (&["diff"], WRONG),
    (&["diff", "a"], WRONG),
    (&["diff", "a", "b", "c"], WRONG),
    (&["diff", "a", "b", "--ticks", "0"], WRONG),
    (&["diff", "a", "b", "--own"], WRONG),
    (&["diff", "a", "b", "--from", "C1"], WRONG),
    (&["diff", "a", "b", "--format", "csv"], WRONG),
    (&["diff", "--help"], HELP),
];

#[test]
fn compares_two_files(rt: HostRuntime) -> Result<(), Fail> {
    all_ask(&rt, rt.alloc(), CHANGES)
}
