//! The options of `check`.

ghost use Rattle.std.specs.Prelude.{◌≡◌, IfOk, IfSome, string_bytes};
ghost use Rattle.pb_cli.specs.CommandLines.{AreTicks};

use crate::arguments::{
    AS_DOCUMENT, PLAN_FILE, ReportFormat, SETTLE_LIMIT, report_format_of, settle_of,
};
use crate::table::{Argument, Takes};
use clap::ArgMatches;
use std::alloc::{AllocError, Global};

/// The help of `check`.
pub(crate) const CHECK: &str = "Validate a plan and report forwarding loops";

/// The help of `--strict`.
const STRICT: &str = "Exit with status 4 if there is a warning";

/// The help of `--settle`, which is `--converge` too.
const SETTLE: &str = "Also report the forest after convergence; --ticks limits the wait";

/// The help of `--all`.
const ALL: &str = "Report all errors of the plan, at most 50";

/// The arguments of `check`.
pub(crate) const ARGUMENTS: &[Argument] = &[
    Argument {
        name: "strict",
        value: "",
        help: STRICT,
        takes: Takes::Nothing,
        excludes: &[],
    },
    Argument {
        name: "settle",
        value: "",
        help: SETTLE,
        takes: Takes::NothingBy(&["converge"]),
        excludes: &["format"],
    },
    SETTLE_LIMIT,
    Argument {
        name: "all",
        value: "",
        help: ALL,
        takes: Takes::Nothing,
        excludes: &[],
    },
    AS_DOCUMENT,
    PLAN_FILE,
];

/// The options of `check`.
#[derive(PartialEq, Eq, Debug, Drop)]
pub struct CheckOptions {
    /// The path of the plan file.
    pub path: String,
    /// Whether a plan with warnings has an exit status of its own.
    pub strict: bool,
    /// The most ticks of each bridge until convergence, 1 to 1,000,000. None: the bridges do not converge.
    pub settle: Option<u32>,
    /// Whether all errors of a plan are reported.
    pub all: bool,
    /// The form in which the report is printed.
    pub format: ReportFormat,
}

/// Returns the options of `check` for the plan file at a path.
///
/// # Errors
///
/// `AllocError` if an allocation failed.
pub(crate) fn check_options(
    alloc: Global,
    path: &str,
    given: &ArgMatches<'_>,
) -> Result<CheckOptions, AllocError>
    ensures path { IfOk result (λ options. string_bytes options.path ≡ path.now) }
    ensures ticks { IfOk result (λ options. IfSome options.settle AreTicks) }
{
    Ok(CheckOptions {
        path: String::from_str(alloc, path)?,
        strict: given.get_flag("strict"),
        settle: settle_of(given),
        all: given.get_flag("all"),
        format: report_format_of(given),
    })
}
