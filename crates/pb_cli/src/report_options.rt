//! The options of `step`.

ghost use Rattle.std.specs.Prelude.{◌≡◌, IfOk, string_bytes};

use crate::arguments::{AS_TABLE, PLAN_FILE, ReportFormat, report_format_of};
use crate::table::{Argument, Takes};
use clap::ArgMatches;
use std::alloc::{AllocError, Global};

/// The help of `step`.
pub(crate) const STEP: &str = "Drive a network event by event from a script on standard input";

/// The help of `--test`.
const TEST: &str =
    "Skip lines `# ..`, check lines `expect ANSWER`, and exit with status 4 if there is a finding";

/// The arguments of `step`.
pub(crate) const ARGUMENTS: &[Argument] = &[
    Argument {
        name: "test",
        value: "",
        help: TEST,
        takes: Takes::Nothing,
        excludes: &[],
    },
    AS_TABLE,
    PLAN_FILE,
];

/// The options of `step`: a report over a plan file.
#[derive(PartialEq, Eq, Debug, Drop)]
pub struct ReportOptions {
    /// The path of the plan file.
    pub path: String,
    /// Whether the script is a test.
    pub test: bool,
    /// The form in which the report is printed.
    pub format: ReportFormat,
}

/// Returns the options of `step` for the plan file at a path.
///
/// # Errors
///
/// `AllocError` if an allocation failed.
pub(crate) fn report_options(
    alloc: Global,
    path: &str,
    given: &ArgMatches<'_>,
) -> Result<ReportOptions, AllocError>
    ensures { IfOk result (λ report. string_bytes report.path ≡ path.now) }
{
    Ok(ReportOptions {
        path: String::from_str(alloc, path)?,
        test: given.get_flag("test"),
        format: report_format_of(given),
    })
}
