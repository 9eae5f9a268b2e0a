//! The options of `diff`.

ghost use Rattle.std.specs.Prelude.{◌≡◌, IfOk, string_bytes};
ghost use Rattle.pb_cli.specs.CommandLines.{AreTicks};

use crate::arguments::{
    ALL_FAILURES, AS_DOCUMENT, BRIDGES, PAIRS, ReportFormat, TICK_LIMIT, report_format_of, text_of,
    ticks_of,
};
use crate::table::{Argument, Takes};
use clap::ArgMatches;
use std::alloc::{AllocError, Global};

/// The help of `diff`.
pub(crate) const DIFF: &str = "Compare two plans and what their networks do under failures";

/// The arguments of `diff`.
pub(crate) const ARGUMENTS: &[Argument] = &[
    PAIRS,
    BRIDGES,
    Argument {
        name: "service",
        value: "NAME",
        help: "Compare the customer ports of only this service",
        takes: Takes::Text,
        excludes: &[],
    },
    ALL_FAILURES,
    AS_DOCUMENT,
    TICK_LIMIT,
    Argument {
        name: "OLD",
        value: "",
        help: "Path of the plan file before the change",
        takes: Takes::Place,
        excludes: &[],
    },
    Argument {
        name: "NEW",
        value: "",
        help: "Path of the plan file after the change",
        takes: Takes::Place,
        excludes: &[],
    },
];

/// The options of `diff`: two plans, the failures, and the service that is compared.
#[derive(PartialEq, Eq, Debug, Drop)]
pub struct DiffOptions {
    /// The path of the plan file before the change.
    pub old: String,
    /// The path of the plan file after the change.
    pub new: String,
    /// Whether each pair of links fails too.
    pub pairs: bool,
    /// Whether each bridge fails too.
    pub bridges: bool,
    /// The name of the only service that is compared, or `None` for all.
    pub service: Option<String>,
    /// Whether failures that change nothing are reported too.
    pub all_failures: bool,
    /// The most ticks of each bridge until convergence, 1 to 1,000,000.
    pub ticks: u32,
    /// The form in which the report is printed, text or JSON.
    pub format: ReportFormat,
}

/// Returns the options of `diff` for the plan files at two paths.
///
/// # Errors
///
/// `AllocError` if an allocation failed.
pub(crate) fn diff_options(
    alloc: Global,
    old: &str,
    new: &str,
    given: &ArgMatches<'_>,
) -> Result<DiffOptions, AllocError>
    ensures old { IfOk result (λ options. string_bytes options.old ≡ old.now) }
    ensures new { IfOk result (λ options. string_bytes options.new ≡ new.now) }
    ensures ticks { IfOk result (λ options. AreTicks options.ticks) }
{
    let service = text_of(alloc, given, "service")?;
    let old = String::from_str(alloc, old)?;
    Ok(DiffOptions {
        old,
        new: String::from_str(alloc, new)?,
        pairs: given.get_flag("pairs"),
        bridges: given.get_flag("bridges"),
        service,
        all_failures: given.get_flag("all-failures"),
        ticks: ticks_of(given),
        format: report_format_of(given),
    })
}
