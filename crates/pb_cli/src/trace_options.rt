//! The options of `trace`.

ghost use Rattle.std.specs.Prelude.{◌≡◌, IfOk, IfSome, string_bytes};
ghost use Rattle.pb_cli.specs.CommandLines.{AreTraceOptions};

use crate::arguments::{
    DOWNS, PLAN_FILE, ReportFormat, SETTLE_LIMIT, downs_of, report_format_of, settle_of,
};
use crate::frame_arguments::{self, TraceFrame, trace_frame};
use crate::table::{Argument, Takes};
use clap::ArgMatches;
use std::alloc::{AllocError, Global};

/// The help of `trace`.
pub(crate) const TRACE: &str = "Trace a frame hop by hop";

/// The help of PORT.
const PORT: &str = "Customer port at which the frame enters";

/// The help of HEX.
const HEX: &str =
    "Frame from the destination address on, as pairs of hexadecimal digits; without it \
    options describe the frame";

/// The help of `--then`.
const THEN: &str = "Inject another frame once the one before is traced; may be repeated";

/// The help of `--format`.
const FORMAT: &str = "Format of the trace; svg is a picture [default: text]";

/// The help of `--settle`.
const SETTLE: &str = "Let the bridges converge first (RSTP), for at most N ticks of --ticks";

/// The arguments of `trace`.
pub(crate) const ARGUMENTS: &[Argument] = &[
    PLAN_FILE,
    Argument {
        name: "PORT",
        value: "",
        help: PORT,
        takes: Takes::Place,
        excludes: &[],
    },
    Argument {
        name: "HEX",
        value: "",
        help: HEX,
        takes: Takes::MayPlace,
        excludes: &[],
    },
    frame_arguments::TO,
    frame_arguments::FROM,
    frame_arguments::CTAG,
    frame_arguments::PCP,
    frame_arguments::BPDU,
    frame_arguments::ETHERTYPE,
    frame_arguments::LENGTH,
    Argument {
        name: "then",
        value: "",
        help: THEN,
        takes: Takes::Frames,
        excludes: &[],
    },
    DOWNS,
    Argument {
        name: "format",
        value: "FORM",
        help: FORMAT,
        takes: Takes::Name(&["text", "json", "svg"]),
        excludes: &[],
    },
    Argument {
        name: "settle",
        value: "",
        help: SETTLE,
        takes: Takes::Nothing,
        excludes: &[],
    },
    SETTLE_LIMIT,
];

/// A frame to inject.
#[derive(PartialEq, Eq, Debug, Drop)]
pub struct TraceEntry {
    /// The name of the customer port at which it enters.
    pub port: String,
    /// Its octets as pairs of hexadecimal digits. Empty for the first frame if options describe it.
    pub hex: String,
}

/// The options of `trace`: the frames that enter the network of a plan file.
#[derive(PartialEq, Eq, Debug, Drop)]
pub struct TraceOptions {
    /// The path of the plan file.
    pub path: String,
    /// The frames, in order.
    pub entries: Vec<TraceEntry>,
    /// The first frame if options describe it.
    pub frame: Option<TraceFrame>,
    /// What is disabled first: names of links and bridges, and ports as BRIDGE:PORT.
    pub downs: Vec<String>,
    /// The most ticks of each bridge until convergence, 1 to 1,000,000. None: the bridges do not converge first.
    pub settle: Option<u32>,
    /// Whether the trace is drawn as an SVG picture.
    pub picture: bool,
    /// The form in which the trace is printed, text or JSON. Text for a picture.
    pub format: ReportFormat,
}

/// Appends a frame.
///
/// # Errors
///
/// `AllocError` if an allocation failed. The frames are unchanged then.
fn push_entry(
    alloc: Global,
    entries: &mut Vec<TraceEntry>,
    port: &str,
    hex: &str,
) -> Result<(), AllocError> {
    let port = String::from_str(alloc, port)?;
    let hex = String::from_str(alloc, hex)?;
    entries.push(TraceEntry { port, hex })?;
    Ok(())
}

/// Appends the frames of `--then`: each is two values, a port and its digits.
///
/// # Errors
///
/// `AllocError` if an allocation failed.
fn push_further(
    alloc: Global,
    entries: &mut Vec<TraceEntry>,
    given: &ArgMatches<'_>,
) -> Result<(), AllocError> {
    let mut port = None;
    if let Some(values) = given.get_strs("then") {
        for value in values {
            match port {
                None => port = Some(value),
                Some(name) => {
                    push_entry(alloc, entries, name, value)?;
                    port = None;
                }
            }
        }
    }
    Ok(())
}

/// Returns all frames to inject, in order.
///
/// # Errors
///
/// `AllocError` if an allocation failed.
fn entries_of(
    alloc: Global,
    port: &str,
    hex: &str,
    given: &ArgMatches<'_>,
) -> Result<Vec<TraceEntry>, AllocError> {
    let mut entries = Vec::new(alloc);
    push_entry(alloc, &mut entries, port, hex)?;
    push_further(alloc, &mut entries, given)?;
    Ok(entries)
}

/// Checks whether the trace is drawn as an SVG picture.
fn is_picture(given: &ArgMatches<'_>) -> bool {
    match given.get_str("format") {
        Some(name) => name == "svg",
        None => false,
    }
}

/// Returns the options of `trace` for the plan file at a path. None is never returned, because a required argument has
/// a value; no contract says so.
///
/// # Errors
///
/// `AllocError` if an allocation failed.
pub(crate) fn trace_options(
    alloc: Global,
    path: &str,
    given: &ArgMatches<'_>,
) -> Result<Option<TraceOptions>, AllocError>
    ensures path { IfOk result (λ o. IfSome o (λ trace. string_bytes trace.path ≡ path.now)) }
    ensures numbers { IfOk result (λ o. IfSome o AreTraceOptions) }
{
    let Some(port) = given.get_str("PORT") else {
        return Ok(None);
    };
    let (hex, frame) = match given.get_str("HEX") {
        Some(hex) => (hex, None),
        None => ("", Some(trace_frame(alloc, given)?)),
    };
    let entries = entries_of(alloc, port, hex, given)?;
    let downs = downs_of(alloc, given)?;
    Ok(Some(TraceOptions {
        path: String::from_str(alloc, path)?,
        entries,
        frame,
        downs,
        settle: settle_of(given),
        picture: is_picture(given),
        format: report_format_of(given),
    }))
}
