//! The options of `survive`.

ghost use Rattle.std.specs.Prelude.{◌≡◌, IfOk, string_bytes};
ghost use Rattle.pb_cli.specs.CommandLines.{AreTicks};

use crate::arguments::{
    ALL_FAILURES, AS_TABLE, BRIDGES, DOWNS, PAIRS, PLAN_FILE, ReportFormat, TICK_LIMIT, downs_of,
    report_format_of, text_of, ticks_of,
};
use crate::table::{Argument, Takes};
use clap::ArgMatches;
use std::alloc::{AllocError, Global};

/// The help of `survive`.
pub(crate) const SURVIVE: &str = "Fail each link in turn and report disconnected sites";

/// The help of `--own`.
const OWN: &str = "Count the customer ports of a failed bridge as disconnected too";

/// The help of `--service`.
const SERVICE: &str = "Analyse only this service";

/// The help of `--from`.
const FROM: &str = "Report only failures that disconnect this customer port from others";

/// The help of `--accept`.
const ACCEPT: &str = "Accept the disconnections that this TOML file lists in [[accept]]";

/// The help of `--strict`.
const STRICT: &str = "Exit with status 4 if an acceptance is stale";

/// The help of `--print-accept`.
const PRINT_ACCEPT: &str = "Print the tables [[accept]] of what was found, and no report";

/// The arguments of `survive`.
pub(crate) const ARGUMENTS: &[Argument] = &[
    PAIRS,
    BRIDGES,
    Argument {
        name: "own",
        value: "",
        help: OWN,
        takes: Takes::Nothing,
        excludes: &[],
    },
    Argument {
        name: "service",
        value: "NAME",
        help: SERVICE,
        takes: Takes::Text,
        excludes: &["from"],
    },
    Argument {
        name: "from",
        value: "PORT",
        help: FROM,
        takes: Takes::Text,
        excludes: &["service"],
    },
    Argument {
        name: "accept",
        value: "PATH",
        help: ACCEPT,
        takes: Takes::Text,
        excludes: &[],
    },
    Argument {
        name: "strict",
        value: "",
        help: STRICT,
        takes: Takes::Nothing,
        excludes: &[],
    },
    Argument {
        name: "print-accept",
        value: "",
        help: PRINT_ACCEPT,
        takes: Takes::Nothing,
        excludes: &["format", "all-failures"],
    },
    ALL_FAILURES,
    DOWNS,
    AS_TABLE,
    TICK_LIMIT,
    PLAN_FILE,
];

/// The services that are analysed.
#[derive(PartialEq, Eq, Debug, Drop)]
pub enum SurviveScope {
    /// All of them.
    All,
    /// The service of this name.
    Service(String),
    /// The service of the customer port of this name, as seen from that port.
    From(String),
}

/// The options of `survive`: the failures, and the services that are analysed.
#[derive(PartialEq, Eq, Debug, Drop)]
pub struct SurviveOptions {
    /// The path of the plan file.
    pub path: String,
    /// Whether each pair of links fails too.
    pub pairs: bool,
    /// Whether each bridge fails too.
    pub bridges: bool,
    /// Whether the customer ports of a failed bridge count as disconnected too.
    pub own: bool,
    /// The services that are analysed.
    pub scope: SurviveScope,
    /// The names of links, bridges and ports that are down before anything fails.
    pub downs: Vec<String>,
    /// The path of a file of acceptances besides those of the plan file.
    pub accept: Option<String>,
    /// Whether a stale acceptance changes the exit status.
    pub strict: bool,
    /// Whether the tables that accept what was found are printed in place of the report.
    pub prints_accept: bool,
    /// Whether failures that change nothing are reported too.
    pub all_failures: bool,
    /// The most ticks of each bridge until convergence, 1 to 1,000,000.
    pub ticks: u32,
    /// The form in which the report is printed.
    pub format: ReportFormat,
}

/// Returns the services that are analysed.
///
/// # Errors
///
/// `AllocError` if an allocation failed.
fn scope_of(alloc: Global, given: &ArgMatches<'_>) -> Result<SurviveScope, AllocError> {
    if let Some(name) = text_of(alloc, given, "service")? {
        return Ok(SurviveScope::Service(name));
    }
    if let Some(name) = text_of(alloc, given, "from")? {
        return Ok(SurviveScope::From(name));
    }
    Ok(SurviveScope::All)
}

/// Returns the options of `survive` for the plan file at a path.
///
/// # Errors
///
/// `AllocError` if an allocation failed.
pub(crate) fn survive_options(
    alloc: Global,
    path: &str,
    given: &ArgMatches<'_>,
) -> Result<SurviveOptions, AllocError>
    ensures path { IfOk result (λ options. string_bytes options.path ≡ path.now) }
    ensures ticks { IfOk result (λ options. AreTicks options.ticks) }
{
    let scope = scope_of(alloc, given)?;
    let downs = downs_of(alloc, given)?;
    Ok(SurviveOptions {
        path: String::from_str(alloc, path)?,
        pairs: given.get_flag("pairs"),
        bridges: given.get_flag("bridges"),
        own: given.get_flag("own"),
        scope,
        downs,
        accept: text_of(alloc, given, "accept")?,
        strict: given.get_flag("strict"),
        prints_accept: given.get_flag("print-accept"),
        all_failures: given.get_flag("all-failures"),
        ticks: ticks_of(given),
        format: report_format_of(given),
    })
}
