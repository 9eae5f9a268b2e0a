//! The arguments of the command line.

use super::asked::all_ask;
use super::wanted::{DESCRIBED, Described, HELP, RUN, Row, Run, WRONG, Wanted};
use pb_cli::InitNetwork;
use std::test::Fail;

#[test]
fn takes_two_to_sixteen_ports(rt: HostRuntime) -> Result<(), Fail> {
    const ROWS: &[Row] = &[
        (&["flat", "2"], Wanted::Flat(2)),
        (&["flat", "3"], Wanted::Flat(3)),
        (&["flat", "03"], Wanted::Flat(3)),
        (&["flat", "+3"], Wanted::Flat(3)),
        (&["flat", "16"], Wanted::Flat(16)),
        (&["flat", "1"], WRONG),
        (&["flat", "17"], WRONG),
        (&["flat", "0"], WRONG),
        (&["flat", "-3"], WRONG),
        (&["flat", "258"], WRONG),
        (&["flat", ""], WRONG),
        (&["flat", "x"], WRONG),
        (&["flat", "3 "], WRONG),
        (&["flat", "3.0"], WRONG),
        (&["flat", "٣"], WRONG),
    ];
    all_ask(&rt, rt.alloc(), ROWS)
}

#[test]
fn checks_one_file(rt: HostRuntime) -> Result<(), Fail> {
    const ROWS: &[Row] = &[
        (&["check", "metro.toml"], Wanted::Check("metro.toml", false)),
        (
            &["check", "a plan.toml"],
            Wanted::Check("a plan.toml", false),
        ),
        (&["check", "-"], Wanted::Check("-", false)),
        (&["check", "--strict", "a"], Wanted::Check("a", true)),
        (&["check", "a", "--strict"], Wanted::Check("a", true)),
        (&["check", "--settle", "a"], Wanted::Converged("a", 200)),
        (
            &["check", "a", "--settle", "--ticks", "1"],
            Wanted::Converged("a", 1),
        ),
        (&["check", "--converge", "a"], Wanted::Converged("a", 200)),
        (
            &["check", "a", "--converge", "--ticks=2"],
            Wanted::Converged("a", 2),
        ),
        (&["check", "a", "--converge", "--settle"], WRONG),
        (&["check", "a", "--converge", "--format=json"], WRONG),
        (&["check", "a", "--ticks", "1"], WRONG),
        (&["check", "a", "--settle", "--ticks", "0"], WRONG),
        (&["check", "a", "--settle", "--format=json"], WRONG),
        (&["check", "--all", "a"], Wanted::CheckAll("a")),
        (&["check", "a", "--all"], Wanted::CheckAll("a")),
        (&["check", "--strict"], WRONG),
        (&["check"], WRONG),
        (&["check", "a", "b"], WRONG),
    ];
    all_ask(&rt, rt.alloc(), ROWS)
}

#[test]
fn steps_by_one_file(rt: HostRuntime) -> Result<(), Fail> {
    const ROWS: &[Row] = &[
        (&["step", "metro.toml"], Wanted::Step("metro.toml")),
        (&["step", "a plan.toml"], Wanted::Step("a plan.toml")),
        (&["step", "-"], Wanted::Step("-")),
        (&["step", "--test", "a"], Wanted::Test("a")),
        (&["step", "a", "--test"], Wanted::Test("a")),
        (&["step", "a", "--test=1"], WRONG),
        (&["step"], WRONG),
        (&["step", "a", "b"], WRONG),
        (&["step", "--help"], HELP),
    ];
    all_ask(&rt, rt.alloc(), ROWS)
}

#[test]
fn draws_the_trees_of_one_file(rt: HostRuntime) -> Result<(), Fail> {
    const ROWS: &[Row] = &[
        (&["tree", "a"], Wanted::Tree("a", &[], 200)),
        (&["tree", "--ticks", "1", "a"], Wanted::Tree("a", &[], 1)),
        (
            &["tree", "a", "--ticks=1000000"],
            Wanted::Tree("a", &[], 1_000_000),
        ),
        (
            &["tree", "--down", "B1:1", "a", "--down", "B2:16"],
            Wanted::Tree("a", &["B1:1", "B2:16"], 200),
        ),
        (&["tree", "a", "--down=x"], Wanted::Tree("a", &["x"], 200)),
        (&["tree"], WRONG),
        (&["tree", "a", "b"], WRONG),
        (&["tree", "a", "--down"], WRONG),
        (&["tree", "a", "--ticks", "0"], WRONG),
        (&["tree", "a", "--ticks", "1000001"], WRONG),
        (&["tree", "--help"], HELP),
    ];
    all_ask(&rt, rt.alloc(), ROWS)
}

/// Frames of `trace` in digits.
const TRACED: &[Row] = &[
    (
        &["trace", "a", "C1", "ff"],
        Wanted::Trace("a", &[("C1", "ff")], &[], None),
    ),
    (
        &["trace", "--settle", "a", "C1", "ff"],
        Wanted::Trace("a", &[("C1", "ff")], &[], Some(200)),
    ),
    (
        &["trace", "a", "C1", "ff", "--then", "C2", "00"],
        Wanted::Trace("a", &[("C1", "ff"), ("C2", "00")], &[], None),
    ),
    (
        &[
            "trace", "--then", "C2", "00", "a", "--then", "C3", "x", "C1", "",
        ],
        Wanted::Trace("a", &[("C1", ""), ("C2", "00"), ("C3", "x")], &[], None),
    ),
    (
        &[
            "trace",
            "a",
            "C1",
            "ff",
            "--down",
            "L1",
            "--down=B1:2",
            "--ticks",
            "1000000",
            "--settle",
        ],
        Wanted::Trace("a", &[("C1", "ff")], &["L1", "B1:2"], Some(1_000_000)),
    ),
    (
        &["trace", "a", "C1", "ff", "--down", "L1"],
        Wanted::Trace("a", &[("C1", "ff")], &["L1"], None),
    ),
    (&["trace", "a", "C1", "ff", "--ticks", "5"], WRONG),
    (
        &["trace", "a", "C1", "ff", "--settle", "--ticks", "0"],
        WRONG,
    ),
    (
        &["trace", "a", "C1", "ff", "--settle", "--ticks", "1000001"],
        WRONG,
    ),
    (&["trace", "a", "C1", "ff", "--down"], WRONG),
    (&["trace", "a"], WRONG),
    (&["trace"], WRONG),
    (&["trace", "a", "C1", "ff", "C2", "00"], WRONG),
    (&["trace", "a", "C1", "ff", "--then", "C2"], WRONG),
    (&["trace", "a", "C1", "ff", "--then"], WRONG),
    (&["trace", "a", "C1", "ff", "--settle=1"], WRONG),
    (&["trace", "--help"], HELP),
];

#[test]
fn traces_frames_in_one_file(rt: HostRuntime) -> Result<(), Fail> {
    all_ask(&rt, rt.alloc(), TRACED)
}

/// Options of `trace` that describe a frame.
const DESCRIPTIONS: &[Row] = &[
    (
        &["trace", "a", "C1"],
        Wanted::Described("a", "C1", DESCRIBED),
    ),
    (
        &["trace", "a", "C1", "--to", "C2", "--from=02-00-00-00-00-01"],
        Wanted::Described(
            "a",
            "C1",
            Described {
                to: Some("C2"),
                from: Some("02-00-00-00-00-01"),
                ..DESCRIBED
            },
        ),
    ),
    (
        &["trace", "a", "C1", "--ctag", "5000:9", "--pcp", "7"],
        Wanted::Described(
            "a",
            "C1",
            Described {
                ctag: Some("5000:9"),
                pcp: Some(7),
                ..DESCRIBED
            },
        ),
    ),
    (
        &["trace", "a", "C1", "--bpdu", "--length", "64"],
        Wanted::Described(
            "a",
            "C1",
            Described {
                bpdu: true,
                length: Some(64),
                ..DESCRIBED
            },
        ),
    ),
    (
        &["trace", "a", "C1", "--ethertype", "88cc"],
        Wanted::Described(
            "a",
            "C1",
            Described {
                ethertype: Some("88cc"),
                ..DESCRIBED
            },
        ),
    ),
    (&["trace", "a", "C1", "ff", "--to", "C2"], WRONG),
    (&["trace", "a", "C1", "ff", "--bpdu"], WRONG),
    (&["trace", "a", "C1", "--bpdu", "--to", "C2"], WRONG),
    (
        &["trace", "a", "C1", "--bpdu", "--ethertype", "0800"],
        WRONG,
    ),
    (&["trace", "a", "C1", "--pcp", "8"], WRONG),
    (
        &["trace", "a", "C1", "--pcp", "0", "--length", "14"],
        Wanted::Described(
            "a",
            "C1",
            Described {
                pcp: Some(0),
                length: Some(14),
                ..DESCRIBED
            },
        ),
    ),
    (
        &["trace", "a", "C1", "--length", "65535"],
        Wanted::Described(
            "a",
            "C1",
            Described {
                length: Some(65_535),
                ..DESCRIBED
            },
        ),
    ),
    (&["trace", "a", "C1", "--length", "13"], WRONG),
    (&["trace", "a", "C1", "--length", "65536"], WRONG),
];

#[test]
fn traces_frames_that_options_describe(rt: HostRuntime) -> Result<(), Fail> {
    all_ask(&rt, rt.alloc(), DESCRIPTIONS)
}

#[test]
fn runs_one_file(rt: HostRuntime) -> Result<(), Fail> {
    const ROWS: &[Row] = &[
        (
            &["run", "metro.toml"],
            Wanted::Run(Run {
                path: "metro.toml",
                ..RUN
            }),
        ),
        (
            &["run", "a plan.toml"],
            Wanted::Run(Run {
                path: "a plan.toml",
                ..RUN
            }),
        ),
        (&["run", "-"], Wanted::Run(Run { path: "-", ..RUN })),
        (&["run"], WRONG),
        (&["run", "a", "b"], WRONG),
        (&["run", "--help"], HELP),
    ];
    all_ask(&rt, rt.alloc(), ROWS)
}

/// Options of `run` with its file.
const BESIDE: &[Row] = &[
    (
        &["run", "--seconds", "1", "a"],
        Wanted::Run(Run {
            seconds: Some(1),
            ..RUN
        }),
    ),
    (
        &["run", "a", "--seconds=1000000000"],
        Wanted::Run(Run {
            seconds: Some(1_000_000_000),
            ..RUN
        }),
    ),
    (
        &["run", "--progress", "a"],
        Wanted::Run(Run {
            progress: true,
            ..RUN
        }),
    ),
    (
        &["run", "a", "--strict"],
        Wanted::Run(Run {
            strict: true,
            ..RUN
        }),
    ),
    (
        &["run", "--strict", "--seconds", "20", "a", "--progress"],
        Wanted::Run(Run {
            seconds: Some(20),
            progress: true,
            strict: true,
            ..RUN
        }),
    ),
    (
        &["run", "a", "--control", "b.sock"],
        Wanted::Run(Run {
            control: Some("b.sock"),
            ..RUN
        }),
    ),
    (&["run", "a", "--control"], WRONG),
    (&["step", "a", "--control", "b.sock"], WRONG),
    (
        &["run", "--", "--strict"],
        Wanted::Run(Run {
            path: "--strict",
            ..RUN
        }),
    ),
    (&["run", "--seconds", "0", "a"], WRONG),
    (&["run", "--seconds", "1000000001", "a"], WRONG),
    (&["run", "--seconds", "-1", "a"], WRONG),
    (&["run", "--seconds", "1.5", "a"], WRONG),
    (&["run", "--seconds", "a"], WRONG),
    (&["run", "--seconds"], WRONG),
    (&["run", "--strict"], WRONG),
    (&["run", "--strict=yes", "a"], WRONG),
    (&["run", "--slow", "a"], WRONG),
    (&["step", "--strict", "a"], WRONG),
];

#[test]
fn runs_have_options_beside_the_file(rt: HostRuntime) -> Result<(), Fail> {
    all_ask(&rt, rt.alloc(), BESIDE)
}

#[test]
fn shows_without_further_arguments(rt: HostRuntime) -> Result<(), Fail> {
    const ROWS: &[Row] = &[(&["show"], Wanted::Show)];
    all_ask(&rt, rt.alloc(), ROWS)
}

/// Networks of `init`, with their services.
const NETWORKS: &[Row] = &[
    (&["init"], Wanted::Init(InitNetwork::Line(2), 1)),
    (
        &["init", "--line", "1"],
        Wanted::Init(InitNetwork::Line(1), 1),
    ),
    (
        &["init", "--line=32"],
        Wanted::Init(InitNetwork::Line(32), 1),
    ),
    (
        &["init", "--ring", "3"],
        Wanted::Init(InitNetwork::Ring(3), 1),
    ),
    (
        &["init", "--ring", "32"],
        Wanted::Init(InitNetwork::Ring(32), 1),
    ),
    (
        &["init", "--star", "2"],
        Wanted::Init(InitNetwork::Star(2), 1),
    ),
    (
        &["init", "--star", "17"],
        Wanted::Init(InitNetwork::Star(17), 1),
    ),
    (
        &["init", "--dual-homed", "2"],
        Wanted::Init(InitNetwork::DualHomed(2), 1),
    ),
    (
        &["init", "--services", "4", "--dual-homed", "24"],
        Wanted::Init(InitNetwork::DualHomed(24), 4),
    ),
    (
        &["init", "--services", "1"],
        Wanted::Init(InitNetwork::Line(2), 1),
    ),
    (
        &["init", "--ring=3", "--services=2"],
        Wanted::Init(InitNetwork::Ring(3), 2),
    ),
    (&["init", "--line", "0"], WRONG),
    (&["init", "--line", "33"], WRONG),
    (&["init", "--ring", "2"], WRONG),
    (&["init", "--ring", "33"], WRONG),
    (&["init", "--star", "1"], WRONG),
    (&["init", "--star", "18"], WRONG),
    (&["init", "--ring", "258"], WRONG),
    (&["init", "--ring"], WRONG),
    (&["init", "--ring", "3", "--line", "3"], WRONG),
    (&["init", "--ring", "3", "--star", "3"], WRONG),
    (&["init", "--line", "3", "--star", "3"], WRONG),
    (&["init", "--dual-homed", "3", "--ring", "3"], WRONG),
    (&["init", "--dual-homed", "3", "--line", "3"], WRONG),
    (&["init", "--dual-homed", "3", "--star", "3"], WRONG),
    (&["init", "--dual-homed", "1"], WRONG),
    (&["init", "--dual-homed", "25"], WRONG),
    (&["init", "--services", "0"], WRONG),
    (&["init", "--services", "5"], WRONG),
    (&["init", "--ring", "3", "--ring", "4"], WRONG),
    (&["init", "3"], WRONG),
    (&["init", "--help"], HELP),
];

#[test]
fn begins_with_a_network(rt: HostRuntime) -> Result<(), Fail> {
    all_ask(&rt, rt.alloc(), NETWORKS)
}

#[test]
fn controls_a_run(rt: HostRuntime) -> Result<(), Fail> {
    const ROWS: &[Row] = &[
        (
            &["control", "a.sock", "stop"],
            Wanted::Control("a.sock", &["stop"]),
        ),
        (
            &["control", "a.sock", "down", "B1", "2"],
            Wanted::Control("a.sock", &["down", "B1", "2"]),
        ),
        (
            &["control", "a", "down", "-B", "2", "--", "--x", "--", "stop"],
            Wanted::Control("a", &["down", "-B", "2", "--", "--x", "--", "stop"]),
        ),
        (&["control", "a", "-"], Wanted::Control("a", &["-"])),
        (
            &["control", "a", "stop", "--help"],
            Wanted::Control("a", &["stop", "--help"]),
        ),
        (&["control", "a"], WRONG),
        (&["control"], WRONG),
        (&["control", "--help"], HELP),
    ];
    all_ask(&rt, rt.alloc(), ROWS)
}

#[test]
fn refuses_other_arguments_and_helps(rt: HostRuntime) -> Result<(), Fail> {
    const ROWS: &[Row] = &[
        (&[], WRONG),
        (&["flat"], WRONG),
        (&["flat", "3", "4"], WRONG),
        (&["flap", "3"], WRONG),
        (&["show", "3"], WRONG),
        (&["show", "--help"], HELP),
        (&["--help"], HELP),
        (&["help"], HELP),
        (&["help", "check"], HELP),
        (&["help", "plan"], HELP),
        (&["plan", "--help"], HELP),
        (&["plan"], WRONG),
        (&["plan", "a"], WRONG),
        (&["help", "plans"], WRONG),
        (&["--version"], HELP),
        (&["flat", "--help"], HELP),
    ];
    all_ask(&rt, rt.alloc(), ROWS)
}
