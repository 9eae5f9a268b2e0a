//! The options of `survive`.

use super::asked::all_ask;
use super::wanted::{Look, Of, Row, WRONG, Wanted};
use std::test::Fail;

/// A survey of the single links of the file `a`, for all services.
const LINKS: Look = Look {
    path: "a",
    pairs: false,
    bridges: false,
    own: false,
    of: Of::All,
    accept: None,
    strict: false,
    prints_accept: false,
    all_failures: false,
    ticks: 200,
};

/// Arguments of `survive`.
const LOOKS: &[Row] = &[
    (&["survive", "a"], Wanted::Survive(LINKS)),
    (
        &["survive", "--pairs", "a"],
        Wanted::Survive(Look {
            pairs: true,
            ..LINKS
        }),
    ),
    (
        &["survive", "a", "--bridges"],
        Wanted::Survive(Look {
            bridges: true,
            ..LINKS
        }),
    ),
    (
        &["survive", "a", "--own", "--bridges"],
        Wanted::Survive(Look {
            bridges: true,
            own: true,
            ..LINKS
        }),
    ),
    (
        &["survive", "a", "--ticks", "1"],
        Wanted::Survive(Look { ticks: 1, ..LINKS }),
    ),
    (
        &["survive", "a", "--ticks=1000000"],
        Wanted::Survive(Look {
            ticks: 1_000_000,
            ..LINKS
        }),
    ),
    (
        &["survive", "a", "--service", "red"],
        Wanted::Survive(Look {
            of: Of::Service("red"),
            ..LINKS
        }),
    ),
    (
        &["survive", "--from", "C1", "a"],
        Wanted::Survive(Look {
            of: Of::From("C1"),
            ..LINKS
        }),
    ),
    (
        &["survive", "--", "--pairs"],
        Wanted::Survive(Look {
            path: "--pairs",
            ..LINKS
        }),
    ),
    (
        &["survive", "a", "--accept", "b", "--strict"],
        Wanted::Survive(Look {
            accept: Some("b"),
            strict: true,
            ..LINKS
        }),
    ),
    (
        &["survive", "--print-accept", "a"],
        Wanted::Survive(Look {
            prints_accept: true,
            ..LINKS
        }),
    ),
    (
        &["survive", "--all-failures", "a"],
        Wanted::Survive(Look {
            all_failures: true,
            ..LINKS
        }),
    ),
    (&["survive", "a", "--accept"], WRONG),
    (&["survive", "a", "--print-accept", "--all-failures"], WRONG),
    (
        &["survive", "a", "--print-accept", "--format", "json"],
        WRONG,
    ),
    (&["survive"], WRONG),
    (&["survive", "--pairs"], WRONG),
    (&["survive", "a", "b"], WRONG),
    (&["survive", "a", "--ticks", "0"], WRONG),
    (&["survive", "a", "--ticks", "1000001"], WRONG),
    (&["survive", "a", "--service"], WRONG),
    (&["survive", "a", "--service", "red", "--from", "C1"], WRONG),
    (&["survive", "a", "--format", "dot"], WRONG),
];

#[test]
fn looks_at_failures(rt: HostRuntime) -> Result<(), Fail> {
    all_ask(&rt, rt.alloc(), LOOKS)
}
