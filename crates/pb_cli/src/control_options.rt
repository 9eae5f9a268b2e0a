//! The options of `control`.

ghost use Rattle.std.specs.Prelude.{◌≡◌, IfOk, string_bytes};

use crate::table::{Argument, Takes};
use clap::ArgMatches;
use std::alloc::{AllocError, Global};

/// The help of `control`.
pub(crate) const CONTROL: &str = "Send commands to a running network by its control socket";

/// The help of PATH.
const PATH: &str = "Path of the run's control socket, as in `run --control PATH`";

/// The help of COMMAND.
const COMMAND: &str =
    "stop, counts, tree, drops, stations BRIDGE, help, down NAME, up NAME; `--` between commands, \
    `-` for standard input";

/// The arguments of `control`.
pub(crate) const ARGUMENTS: &[Argument] = &[
    Argument {
        name: "PATH",
        value: "",
        help: PATH,
        takes: Takes::Place,
        excludes: &[],
    },
    Argument {
        name: "COMMAND",
        value: "",
        help: COMMAND,
        takes: Takes::Rest,
        excludes: &[],
    },
];

/// The options of `control`: commands for a control socket.
#[derive(PartialEq, Eq, Debug, Drop)]
pub struct ControlOptions {
    /// The path of the socket.
    pub path: String,
    /// The arguments of all commands, with `--` between two commands.
    pub arguments: Vec<String>,
}

/// Returns the arguments from COMMAND on.
///
/// # Errors
///
/// `AllocError` if an allocation failed.
fn arguments_of(alloc: Global, given: &ArgMatches<'_>) -> Result<Vec<String>, AllocError> {
    let mut arguments = Vec::new(alloc);
    if let Some(values) = given.get_strs("COMMAND") {
        for value in values {
            arguments.push(String::from_str(alloc, value)?)?;
        }
    }
    Ok(arguments)
}

/// Returns the options of `control` for the control socket at a path.
///
/// # Errors
///
/// `AllocError` if an allocation failed.
pub(crate) fn control_options(
    alloc: Global,
    path: &str,
    given: &ArgMatches<'_>,
) -> Result<ControlOptions, AllocError>
    ensures { IfOk result (λ control. string_bytes control.path ≡ path.now) }
{
    let arguments = arguments_of(alloc, given)?;
    Ok(ControlOptions {
        path: String::from_str(alloc, path)?,
        arguments,
    })
}
