//! The options of `report`.

ghost use Rattle.std.specs.Prelude.{◌≡◌, IfOk, string_bytes};
ghost use Rattle.pb_cli.specs.CommandLines.{AreTicks};

use crate::arguments::{BRIDGES, PAIRS, PLAN_FILE, TICK_LIMIT, text_of, ticks_of};
use crate::table::{Argument, Takes};
use clap::ArgMatches;
use std::alloc::{AllocError, Global};

/// The help of `report`.
pub(crate) const REPORT: &str = "Write a page in HTML about the network and its failures";

/// The arguments of `report`.
pub(crate) const ARGUMENTS: &[Argument] = &[
    PAIRS,
    BRIDGES,
    Argument {
        name: "diff",
        value: "OLD",
        help: "Also show the change from this plan file, as diff does",
        takes: Takes::Text,
        excludes: &[],
    },
    Argument {
        name: "output",
        value: "PATH",
        help: "Write the page to this file [default: standard output]",
        takes: Takes::TextBy('o'),
        excludes: &[],
    },
    TICK_LIMIT,
    PLAN_FILE,
];

/// The options of `report`: a page about the network of a plan file.
#[derive(PartialEq, Eq, Debug, Drop)]
pub struct PageOptions {
    /// The plan file's path.
    pub path: String,
    /// Whether each pair of links fails too.
    pub pairs: bool,
    /// Whether each bridge fails too.
    pub bridges: bool,
    /// The most ticks of each bridge until convergence, 1 to 1,000,000.
    pub ticks: u32,
    /// The path of the plan file before the change, if the page describes one.
    pub old: Option<String>,
    /// The path of the file for the page. None: standard output.
    pub output: Option<String>,
}

/// Returns the options of `report` for the plan file at a path.
///
/// # Errors
///
/// `AllocError` if an allocation failed.
pub(crate) fn page_options(
    alloc: Global,
    path: &str,
    given: &ArgMatches<'_>,
) -> Result<PageOptions, AllocError>
    ensures path { IfOk result (λ options. string_bytes options.path ≡ path.now) }
    ensures ticks { IfOk result (λ options. AreTicks options.ticks) }
{
    let old = text_of(alloc, given, "diff")?;
    let output = text_of(alloc, given, "output")?;
    Ok(PageOptions {
        path: String::from_str(alloc, path)?,
        pairs: given.get_flag("pairs"),
        bridges: given.get_flag("bridges"),
        ticks: ticks_of(given),
        old,
        output,
    })
}
