//! The options of `run`.

ghost use Rattle.std.specs.Prelude.{◌≡◌, ◌≤◌, IfOk, IfSome, string_bytes};
ghost use Rattle.pb_cli.specs.CommandLines.{AreSeconds, IsLinger};

use crate::arguments::{AS_TABLE, PLAN_FILE, ReportFormat, report_format_of, text_of};
use crate::table::{Argument, Takes};
use clap::ArgMatches;
use std::alloc::{AllocError, Global};

/// The largest value of `--seconds`.
const MOST: u32 = 1_000_000_000;

/// The milliseconds that ports have for their remaining frames without `--linger`.
const LINGER: u32 = 100;

/// The largest value of `--linger`.
const MOST_LINGER: u32 = 60_000;

/// The help of `run`.
pub(crate) const RUN: &str = "Run a network in threads between captures and sockets";

/// The help of `--seconds`.
const SECONDS: &str =
    "Stop after N seconds and print the report [default: no limit] [range: 1-1000000000]";

/// The help of `--progress`.
const PROGRESS: &str = "Report progress on standard error once a second, also without a terminal";

/// The help of `--control`.
const CONTROL: &str = "Create a Unix socket at PATH for the commands of `pbnet control`";

/// The help of `--settle`.
const SETTLE: &str =
    "Keep frames out until the bridges have converged (RSTP), for at most 200 ticks";

/// The help of `--linger`.
const LINGER_HELP: &str =
    "Let ports write remaining frames at the end for MS milliseconds [default: 100] [range: 0-60000]";

/// The help of `--allow-network`.
const NETWORK: &str = "Let udp ports bind addresses at which other hosts reach them";

/// The help of `--strict`.
const STRICT: &str =
    "Exit with status 4 if something was lost, or the run did not drain or converge";

/// The arguments of `run`.
pub(crate) const ARGUMENTS: &[Argument] = &[
    Argument {
        name: "seconds",
        value: "N",
        help: SECONDS,
        takes: Takes::Number(1, 1_000_000_000),
        excludes: &[],
    },
    Argument {
        name: "progress",
        value: "",
        help: PROGRESS,
        takes: Takes::Nothing,
        excludes: &[],
    },
    Argument {
        name: "control",
        value: "PATH",
        help: CONTROL,
        takes: Takes::Text,
        excludes: &[],
    },
    Argument {
        name: "settle",
        value: "",
        help: SETTLE,
        takes: Takes::Nothing,
        excludes: &[],
    },
    Argument {
        name: "linger",
        value: "MS",
        help: LINGER_HELP,
        takes: Takes::Number(0, 60_000),
        excludes: &[],
    },
    Argument {
        name: "allow-network",
        value: "",
        help: NETWORK,
        takes: Takes::Nothing,
        excludes: &[],
    },
    AS_TABLE,
    Argument {
        name: "strict",
        value: "",
        help: STRICT,
        takes: Takes::Nothing,
        excludes: &[],
    },
    PLAN_FILE,
];

/// The options of `run`: a run of the network of a plan file.
#[derive(PartialEq, Eq, Debug, Drop)]
pub struct RunOptions {
    /// The path of the plan file.
    pub path: String,
    /// The seconds after which the run is stopped, 1 to 1,000,000,000. None: no limit.
    pub seconds: Option<u32>,
    /// Whether progress is reported once a second, also if standard error is no terminal.
    pub progress: bool,
    /// The path of the control socket. None: no control socket.
    pub control: Option<String>,
    /// Whether a run with losses has an exit status of its own.
    pub strict: bool,
    /// Whether frames are kept out until the bridges have converged.
    pub settles: bool,
    /// The milliseconds that all ports have at the end to write their remaining frames, 0 to 60,000.
    pub linger: u32,
    /// Whether ports may bind addresses that are not loopback.
    pub allows_network: bool,
    /// The form in which the report is printed.
    pub format: ReportFormat,
}

/// Returns the seconds after which a run is stopped.
fn seconds_of(given: &ArgMatches<'_>) -> Option<u32>
    ensures { AreSeconds result }
{
    let seconds = given.get_one::<u32>("seconds")?;
    if 1 <= seconds && seconds <= MOST {
        Some(seconds)
    } else {
        None
    }
}

/// Returns the milliseconds that ports have for their remaining frames.
fn linger_of(given: &ArgMatches<'_>) -> u32
    ensures { IsLinger result }
{
    match given.get_one::<u32>("linger") {
        Some(linger) if linger <= MOST_LINGER => linger,
        _ => LINGER,
    }
}

/// Returns the options of `run` for the plan file at a path.
///
/// # Errors
///
/// `AllocError` if an allocation failed.
pub(crate) fn run_options(
    alloc: Global,
    path: &str,
    given: &ArgMatches<'_>,
) -> Result<RunOptions, AllocError>
    ensures path { IfOk result (λ run. string_bytes run.path ≡ path.now) }
    ensures seconds { IfOk result (λ run. AreSeconds run.seconds) }
    ensures linger { IfOk result (λ run. IsLinger run.linger) }
{
    Ok(RunOptions {
        path: String::from_str(alloc, path)?,
        seconds: seconds_of(given),
        progress: given.get_flag("progress"),
        control: text_of(alloc, given, "control")?,
        strict: given.get_flag("strict"),
        settles: given.get_flag("settle"),
        linger: linger_of(given),
        allows_network: given.get_flag("allow-network"),
        format: report_format_of(given),
    })
}
