//! Arguments of several commands.

ghost use Rattle.std.specs.Prelude.{◌≡◌, ◌↔◌, IfSome, codes};
ghost use Rattle.pb_cli.specs.CommandLines.{AreTicks};

use crate::table::{Argument, Takes};
use clap::ArgMatches;
use std::alloc::{AllocError, Global};

/// The help of `--down`.
const DOWN: &str =
    "First disable a link, a bridge with all of its links, or one port BRIDGE:PORT; may be repeated";

/// The most ticks of each bridge without `--ticks`.
const TICKS: u32 = 200;

/// The largest value of `--ticks`.
const MOST_TICKS: u32 = 1_000_000;

/// The help of `--ticks`.
const TICKS_HELP: &str = "Wait at most N ticks for convergence [default: 200] [range: 1-1000000]";

/// The help of `--format` for text and JSON.
const DOCUMENT: &str = "Format of the report [default: text]";

/// The help of `--format` for text, JSON and CSV.
const TABLE: &str = "Format of the report; csv prints its table alone [default: text]";

/// The form in which a report is printed.
#[derive(Clone, Copy, PartialEq, Eq, Debug)]
pub enum ReportFormat {
    /// Lines of text.
    Text,
    /// One JSON document.
    Json,
    /// A table of comma-separated values.
    Csv,
}

/// The argument for the path of the plan file.
pub(crate) const PLAN_FILE: Argument = Argument {
    name: "FILE",
    value: "",
    help: "Path of the plan file",
    takes: Takes::Place,
    excludes: &[],
};

/// The argument for what is disabled first.
pub(crate) const DOWNS: Argument = Argument {
    name: "down",
    value: "NAME",
    help: DOWN,
    takes: Takes::Texts,
    excludes: &[],
};

/// The argument for the most ticks of each bridge.
pub(crate) const TICK_LIMIT: Argument = Argument {
    name: "ticks",
    value: "N",
    help: TICKS_HELP,
    takes: Takes::Number(1, 1_000_000),
    excludes: &[],
};

/// The argument for the most ticks of each bridge, if the bridges converge by `--settle` alone.
pub(crate) const SETTLE_LIMIT: Argument = Argument {
    name: "ticks",
    value: "N",
    help: TICKS_HELP,
    takes: Takes::NumberWith(1, 1_000_000, &["settle"]),
    excludes: &[],
};

/// The argument by which each pair of links fails too.
pub(crate) const PAIRS: Argument = Argument {
    name: "pairs",
    value: "",
    help: "Also fail each pair of links",
    takes: Takes::Nothing,
    excludes: &[],
};

/// The argument by which each bridge fails too.
pub(crate) const BRIDGES: Argument = Argument {
    name: "bridges",
    value: "",
    help: "Also fail each bridge, with all of its links",
    takes: Takes::Nothing,
    excludes: &[],
};

/// The argument for a report of all failures.
pub(crate) const ALL_FAILURES: Argument = Argument {
    name: "all-failures",
    value: "",
    help: "Report every failure, also those that change nothing; JSON always does",
    takes: Takes::Nothing,
    excludes: &[],
};

/// The argument for the form of a report: text or JSON.
pub(crate) const AS_DOCUMENT: Argument = Argument {
    name: "format",
    value: "FORM",
    help: DOCUMENT,
    takes: Takes::Name(&["text", "json"]),
    excludes: &[],
};

/// The argument for the form of a report: text, JSON or CSV.
pub(crate) const AS_TABLE: Argument = Argument {
    name: "format",
    value: "FORM",
    help: TABLE,
    takes: Takes::Name(&["text", "json", "csv"]),
    excludes: &[],
};

/// Returns the form of a name: text for any name but `json` and `csv`.
fn report_format_named(name: &str) -> ReportFormat
    ensures json { (result ≡ ReportFormat.Json) ↔ (name.now ≡ codes "json") }
    ensures csv { (result ≡ ReportFormat.Csv) ↔ (name.now ≡ codes "csv") }
{
    if name == "json" {
        return ReportFormat::Json;
    }
    if name == "csv" {
        return ReportFormat::Csv;
    }
    ReportFormat::Text
}

/// Returns the form in which a report is printed: text without `--format`.
pub(crate) fn report_format_of(given: &ArgMatches<'_>) -> ReportFormat {
    match given.get_str("format") {
        Some(name) => report_format_named(name),
        None => ReportFormat::Text,
    }
}

/// Returns the value of an argument, if it is present.
///
/// # Errors
///
/// `AllocError` if an allocation failed.
pub(crate) fn text_of(
    alloc: Global,
    given: &ArgMatches<'_>,
    name: &str,
) -> Result<Option<String>, AllocError> {
    match given.get_str(name) {
        Some(text) => Ok(Some(String::from_str(alloc, text)?)),
        None => Ok(None),
    }
}

/// Returns the most ticks of each bridge.
pub(crate) fn ticks_of(given: &ArgMatches<'_>) -> u32
    ensures { AreTicks result }
{
    match given.get_one::<u32>("ticks") {
        Some(ticks) if 1 <= ticks && ticks <= MOST_TICKS => ticks,
        _ => TICKS,
    }
}

/// Returns the most ticks of each bridge until convergence, if the bridges converge first.
pub(crate) fn settle_of(given: &ArgMatches<'_>) -> Option<u32>
    ensures { IfSome result AreTicks }
{
    if given.get_flag("settle") {
        Some(ticks_of(given))
    } else {
        None
    }
}

/// Returns what is disabled first: names of links and bridges, and ports as BRIDGE:PORT.
///
/// # Errors
///
/// `AllocError` if an allocation failed.
pub(crate) fn downs_of(alloc: Global, given: &ArgMatches<'_>) -> Result<Vec<String>, AllocError> {
    let mut downs = Vec::new(alloc);
    if let Some(values) = given.get_strs("down") {
        for value in values {
            downs.push(String::from_str(alloc, value)?)?;
        }
    }
    Ok(downs)
}
