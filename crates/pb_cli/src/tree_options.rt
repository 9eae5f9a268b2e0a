//! The options of `tree`.

ghost use Rattle.std.specs.Prelude.{◌≡◌, IfOk, string_bytes};
ghost use Rattle.pb_cli.specs.CommandLines.{AreTicks};

use crate::arguments::{
    AS_DOCUMENT, DOWNS, PLAN_FILE, ReportFormat, TICK_LIMIT, downs_of, report_format_of, ticks_of,
};
use crate::table::Argument;
use clap::ArgMatches;
use std::alloc::{AllocError, Global};

/// The help of `tree`.
pub(crate) const TREE: &str = "Print the spanning tree after convergence";

/// The arguments of `tree`.
pub(crate) const ARGUMENTS: &[Argument] = &[DOWNS, AS_DOCUMENT, TICK_LIMIT, PLAN_FILE];

/// The options of `tree`: the spanning trees of the network of a plan file.
#[derive(PartialEq, Eq, Debug, Drop)]
pub struct TreeOptions {
    /// The path of the plan file.
    pub path: String,
    /// What is disabled first: names of links and bridges, and ports as BRIDGE:PORT.
    pub downs: Vec<String>,
    /// The most ticks of each bridge, 1 to 1,000,000.
    pub ticks: u32,
    /// The form in which the trees are printed, text or JSON.
    pub format: ReportFormat,
}

/// Returns the options of `tree` for the plan file at a path.
///
/// # Errors
///
/// `AllocError` if an allocation failed.
pub(crate) fn tree_options(
    alloc: Global,
    path: &str,
    given: &ArgMatches<'_>,
) -> Result<TreeOptions, AllocError>
    ensures path { IfOk result (λ tree. string_bytes tree.path ≡ path.now) }
    ensures ticks { IfOk result (λ tree. AreTicks tree.ticks) }
{
    let downs = downs_of(alloc, given)?;
    Ok(TreeOptions {
        path: String::from_str(alloc, path)?,
        downs,
        ticks: ticks_of(given),
        format: report_format_of(given),
    })
}
