//! The options of `report`.

use super::asked::all_ask;
use super::wanted::{HELP, Page, Row, WRONG, Wanted};
use std::test::Fail;

/// A page on the file `a` on standard output, with single links alone.
const PAGE: Page = Page {
    path: "a",
    bridges: false,
    pairs: false,
    ticks: 200,
    old: None,
    output: None,
};

/// Arguments of `report`.
const PAGES: &[Row] = &[
    (&["report", "a"], Wanted::Report(PAGE)),
    (
        &["report", "a", "--bridges"],
        Wanted::Report(Page {
            bridges: true,
            ..PAGE
        }),
    ),
    (
        &["report", "--pairs", "a", "--ticks", "1"],
        Wanted::Report(Page {
            pairs: true,
            ticks: 1,
            ..PAGE
        }),
    ),
    (
        &["report", "a", "-o", "b.html"],
        Wanted::Report(Page {
            output: Some("b.html"),
            ..PAGE
        }),
    ),
    (
        &["report", "--output=b.html", "a"],
        Wanted::Report(Page {
            output: Some("b.html"),
            ..PAGE
        }),
    ),
    (
        &["report", "a", "--diff", "c"],
        Wanted::Report(Page {
            old: Some("c"),
            ..PAGE
        }),
    ),
    (
        &["report", "--diff=c", "--pairs", "-o", "b.html", "a"],
        Wanted::Report(Page {
            pairs: true,
            old: Some("c"),
            output: Some("b.html"),
            ..PAGE
        }),
    ),
    (&["report"], WRONG),
    (&["report", "a", "b"], WRONG),
    (&["report", "a", "--ticks", "0"], WRONG),
    (&["report", "a", "--diff"], WRONG),
    (&["report", "a", "--diff", "c", "--diff", "d"], WRONG),
    (&["report", "a", "--format", "json"], WRONG),
    (&["report", "--help"], HELP),
];

#[test]
fn writes_a_page_on_one_file(rt: HostRuntime) -> Result<(), Fail> {
    all_ask(&rt, rt.alloc(), PAGES)
}
