//! The rows of all commands.

use crate::check_options::{self, CHECK};
use crate::control_options::{self, CONTROL};
use crate::diff_options::{self, DIFF};
use crate::draw_options::{self, DRAW};
use crate::init_options::{self, INIT};
use crate::page_options::{self, REPORT};
use crate::report_options::{self, STEP};
use crate::run_options::{self, RUN};
use crate::survive_options::{self, SURVIVE};
use crate::table::{Argument, CommandRow, Takes, with_commands};
use crate::trace_options::{self, TRACE};
use crate::tree_options::{self, TREE};
use clap::{Command, Error};
use std::alloc::Global;

/// The help of `flat`.
const FLAT: &str = "Run one bridge on `in PORT HEX` lines from standard input";

/// The help of `show`.
const SHOW: &str = "Print how reserved group addresses are handled";

/// The argument of `flat`.
const PORTS: Argument = Argument {
    name: "PORTS",
    value: "",
    help: "Number of ports of the bridge [range: 2-16]",
    takes: Takes::SmallPlace(2, 16),
    excludes: &[],
};

/// The commands that validate or drive a network, in the order of the help.
const RUNNING: &[CommandRow] = &[
    CommandRow {
        name: "flat",
        about: FLAT,
        arguments: &[PORTS],
    },
    CommandRow {
        name: "check",
        about: CHECK,
        arguments: check_options::ARGUMENTS,
    },
    CommandRow {
        name: "step",
        about: STEP,
        arguments: report_options::ARGUMENTS,
    },
    CommandRow {
        name: "run",
        about: RUN,
        arguments: run_options::ARGUMENTS,
    },
    CommandRow {
        name: "control",
        about: CONTROL,
        arguments: control_options::ARGUMENTS,
    },
];

/// The commands that analyse a network or help to plan one, in the order of the help.
const PLANNING: &[CommandRow] = &[
    CommandRow {
        name: "tree",
        about: TREE,
        arguments: tree_options::ARGUMENTS,
    },
    CommandRow {
        name: "survive",
        about: SURVIVE,
        arguments: survive_options::ARGUMENTS,
    },
    CommandRow {
        name: "diff",
        about: DIFF,
        arguments: diff_options::ARGUMENTS,
    },
    CommandRow {
        name: "draw",
        about: DRAW,
        arguments: draw_options::ARGUMENTS,
    },
    CommandRow {
        name: "report",
        about: REPORT,
        arguments: page_options::ARGUMENTS,
    },
    CommandRow {
        name: "trace",
        about: TRACE,
        arguments: trace_options::ARGUMENTS,
    },
    CommandRow {
        name: "show",
        about: SHOW,
        arguments: &[],
    },
    CommandRow {
        name: "init",
        about: INIT,
        arguments: init_options::ARGUMENTS,
    },
];

/// Adds the commands that validate or drive a network.
///
/// # Errors
///
/// `Error` of kind `OutOfMemory` if an allocation failed.
pub(crate) fn with_running<'a>(alloc: Global, program: Command<'a>) -> Result<Command<'a>, Error> {
    with_commands(alloc, program, RUNNING)
}

/// Adds the commands that analyse a network or help to plan one.
///
/// # Errors
///
/// `Error` of kind `OutOfMemory` if an allocation failed.
pub(crate) fn with_planning<'a>(alloc: Global, program: Command<'a>) -> Result<Command<'a>, Error> {
    with_commands(alloc, program, PLANNING)
}
