//! The options of `draw`.

use super::asked::all_ask;
use super::wanted::{Picture, Row, WRONG, Wanted};
use pb_cli::PictureFormat;
use std::test::Fail;

/// A picture of the file `a` on standard output.
const PICTURE: Picture = Picture {
    path: "a",
    service: None,
    downs: &[],
    lists: false,
    format: PictureFormat::Svg,
    ticks: 200,
    output: None,
};

/// Arguments of `draw`.
const PICTURES: &[Row] = &[
    (&["draw", "a"], Wanted::Draw(PICTURE)),
    (
        &["draw", "a", "--service", "red"],
        Wanted::Draw(Picture {
            service: Some("red"),
            ..PICTURE
        }),
    ),
    (
        &["draw", "--format", "dot", "a"],
        Wanted::Draw(Picture {
            format: PictureFormat::Dot,
            ..PICTURE
        }),
    ),
    (&["draw", "a", "--format=svg"], Wanted::Draw(PICTURE)),
    (
        &["draw", "a", "--lists"],
        Wanted::Draw(Picture {
            lists: true,
            ..PICTURE
        }),
    ),
    (&["draw", "a", "--lists=1"], WRONG),
    (
        &["draw", "--down", "B1:1", "a", "--down", "B2:16"],
        Wanted::Draw(Picture {
            downs: &["B1:1", "B2:16"],
            ..PICTURE
        }),
    ),
    (
        &["draw", "a", "--ticks", "1"],
        Wanted::Draw(Picture {
            ticks: 1,
            ..PICTURE
        }),
    ),
    (
        &["draw", "a", "--ticks=1000000"],
        Wanted::Draw(Picture {
            ticks: 1_000_000,
            ..PICTURE
        }),
    ),
    (
        &["draw", "--", "--format"],
        Wanted::Draw(Picture {
            path: "--format",
            ..PICTURE
        }),
    ),
    (&["draw"], WRONG),
    (&["draw", "a", "b"], WRONG),
    (&["draw", "a", "--format", "png"], WRONG),
    (&["draw", "a", "--format"], WRONG),
    (&["draw", "a", "--service"], WRONG),
    (&["draw", "a", "--ticks", "0"], WRONG),
    (&["draw", "a", "--ticks", "1000001"], WRONG),
    (&["draw", "a", "--pairs"], WRONG),
];

#[test]
fn draws_one_file(rt: HostRuntime) -> Result<(), Fail> {
    all_ask(&rt, rt.alloc(), PICTURES)
}

#[test]
fn draws_to_a_file(rt: HostRuntime) -> Result<(), Fail> {
    const ROWS: &[Row] = &[
        (&["draw", "a"], Wanted::Draw(PICTURE)),
        (
            &["draw", "a", "-o", "b.svg"],
            Wanted::Draw(Picture {
                output: Some("b.svg"),
                ..PICTURE
            }),
        ),
        (
            &["draw", "-ob.svg", "a"],
            Wanted::Draw(Picture {
                output: Some("b.svg"),
                ..PICTURE
            }),
        ),
        (
            &["draw", "a", "--output", "b.svg"],
            Wanted::Draw(Picture {
                output: Some("b.svg"),
                ..PICTURE
            }),
        ),
        (
            &["draw", "a", "--output=-"],
            Wanted::Draw(Picture {
                output: Some("-"),
                ..PICTURE
            }),
        ),
    ];
    all_ask(&rt, rt.alloc(), ROWS)
}
