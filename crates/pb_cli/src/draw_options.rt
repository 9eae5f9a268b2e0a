//! The options of `draw`.

ghost use Rattle.std.specs.Prelude.{◌≡◌, IfOk, string_bytes};
ghost use Rattle.pb_cli.specs.CommandLines.{AreTicks};

use crate::arguments::{DOWNS, PLAN_FILE, TICK_LIMIT, downs_of, text_of, ticks_of};
use crate::table::{Argument, Takes};
use clap::ArgMatches;
use std::alloc::{AllocError, Global};

/// The help of `draw`.
pub(crate) const DRAW: &str = "Draw the network as SVG or Graphviz";

/// The help of `--service`.
const SERVICE: &str = "Highlight this service and its tree";

/// The help of `--lists`.
const LISTS: &str = "Show the services of each link that does not carry all";

/// The help of `--output`.
const OUTPUT: &str = "Write the picture to this file [default: standard output]";

/// The help of `--format`.
const FORMAT: &str = "Format of the picture; dot is a graph for Graphviz [default: svg]";

/// The arguments of `draw`.
pub(crate) const ARGUMENTS: &[Argument] = &[
    Argument {
        name: "service",
        value: "NAME",
        help: SERVICE,
        takes: Takes::Text,
        excludes: &[],
    },
    DOWNS,
    Argument {
        name: "lists",
        value: "",
        help: LISTS,
        takes: Takes::Nothing,
        excludes: &[],
    },
    Argument {
        name: "format",
        value: "FORM",
        help: FORMAT,
        takes: Takes::Name(&["svg", "dot"]),
        excludes: &[],
    },
    Argument {
        name: "output",
        value: "PATH",
        help: OUTPUT,
        takes: Takes::TextBy('o'),
        excludes: &[],
    },
    TICK_LIMIT,
    PLAN_FILE,
];

/// The form in which a picture is written.
#[derive(Clone, Copy, PartialEq, Eq, Debug)]
pub enum PictureFormat {
    /// A standalone SVG picture.
    Svg,
    /// A graph for the programs of Graphviz.
    Dot,
}

/// The options of `draw`: a picture of the network of a plan file.
#[derive(PartialEq, Eq, Debug, Drop)]
pub struct DrawOptions {
    /// The plan file's path.
    pub path: String,
    /// The name of the service to highlight, if any.
    pub service: Option<String>,
    /// What is disabled first: names of links and bridges, and ports as BRIDGE:PORT.
    pub downs: Vec<String>,
    /// Whether links show their lists of services.
    pub lists: bool,
    /// The form in which the picture is written.
    pub format: PictureFormat,
    /// The most ticks of each bridge, 1 to 1,000,000.
    pub ticks: u32,
    /// The path of the file for the picture. None: standard output.
    pub output: Option<String>,
}

/// Returns the form in which the picture is written: SVG without `--format`.
fn format_of(given: &ArgMatches<'_>) -> PictureFormat {
    match given.get_str("format") {
        Some("dot") => PictureFormat::Dot,
        _ => PictureFormat::Svg,
    }
}

/// Returns the options of `draw` for the plan file at a path.
///
/// # Errors
///
/// `AllocError` if an allocation failed.
pub(crate) fn draw_options(
    alloc: Global,
    path: &str,
    given: &ArgMatches<'_>,
) -> Result<DrawOptions, AllocError>
    ensures path { IfOk result (λ options. string_bytes options.path ≡ path.now) }
    ensures ticks { IfOk result (λ options. AreTicks options.ticks) }
{
    let downs = downs_of(alloc, given)?;
    let service = text_of(alloc, given, "service")?;
    let output = text_of(alloc, given, "output")?;
    Ok(DrawOptions {
        path: String::from_str(alloc, path)?,
        service,
        downs,
        lists: given.get_flag("lists"),
        format: format_of(given),
        ticks: ticks_of(given),
        output,
    })
}
