//! The command line, and its parser.

ghost use Rattle.std.specs.Prelude.{IfOk, IfSome};
ghost use Rattle.pb_cli.specs.CommandLines.{HasValidArguments, IsPlanCommandLine};

use crate::check_options::{CheckOptions, check_options};
use crate::commands::{with_planning, with_running};
use crate::control_options::{ControlOptions, control_options};
use crate::diff_options::{DiffOptions, diff_options};
use crate::draw_options::{DrawOptions, draw_options};
use crate::init_options::{InitOptions, init_options};
use crate::page_options::{PageOptions, page_options};
use crate::plan_help::plan_help;
use crate::report_options::{ReportOptions, report_options};
use crate::run_options::{RunOptions, run_options};
use crate::survive_options::{SurviveOptions, survive_options};
use crate::trace_options::{TraceOptions, trace_options};
use crate::tree_options::{TreeOptions, tree_options};
use clap::{ArgMatches, Command, Error};
use std::alloc::{AllocError, Global};

/// The version of the program.
pub const VERSION: &str = "0.20.0";

/// A parsed command line: the command with its options.
#[derive(PartialEq, Eq, Debug, Drop)]
pub enum CommandLine {
    /// `flat`: one bridge with so many ports, driven by the lines of standard input.
    Flat(u8),
    /// `check`: the validation of a plan file.
    Check(CheckOptions),
    /// `step`: the network of a plan file, driven by the script on standard input.
    Step(ReportOptions),
    /// `run`: the network of a plan file in threads.
    Run(RunOptions),
    /// `tree`: the spanning trees of the network of a plan file.
    Tree(TreeOptions),
    /// `trace`: frames hop by hop through the network of a plan file.
    Trace(TraceOptions),
    /// `show`: how frames for reserved group addresses are handled.
    Show,
    /// `init`: a starter plan.
    Init(InitOptions),
    /// `survive`: the network of a plan file under failures.
    Survive(SurviveOptions),
    /// `diff`: the networks of two plan files, compared.
    Diff(DiffOptions),
    /// `draw`: a picture of the network of a plan file.
    Draw(DrawOptions),
    /// `report`: a page about the network of a plan file.
    Report(PageOptions),
    /// `control`: commands for a running network.
    Control(ControlOptions),
}

/// Returns the parser of the program, with all commands.
///
/// # Errors
///
/// `Error` of kind `OutOfMemory` if an allocation failed.
fn commands<'a>(alloc: Global) -> Result<Command<'a>, Error> {
    let program = Command::new(alloc, "pbnet")
        .version(VERSION)
        .about("A provider bridged Ethernet network in one process")
        .after_help("`pbnet help plan` prints the keys of a plan file.")
        .subcommand_required(true);
    let program = with_planning(alloc, with_running(alloc, program)?)?;
    Ok(program.subcommand(plan_help(alloc))?)
}

/// Returns the command line of a command that reads the plan file at a path. None if the command reads no plan file, or
/// if a required argument of `trace` is missing.
///
/// # Errors
///
/// `AllocError` if an allocation failed.
fn plan_command_line(
    alloc: Global,
    command: &str,
    path: &str,
    given: &ArgMatches<'_>,
) -> Result<Option<CommandLine>, AllocError>
    ensures { IfOk result (λ o. IfSome o (λ line. IsPlanCommandLine command.now path.now line)) }
{
    if command == "check" {
        return Ok(Some(CommandLine::Check(check_options(alloc, path, given)?)));
    }
    if command == "step" {
        return Ok(Some(CommandLine::Step(report_options(alloc, path, given)?)));
    }
    if command == "run" {
        return Ok(Some(CommandLine::Run(run_options(alloc, path, given)?)));
    }
    if command == "tree" {
        return Ok(Some(CommandLine::Tree(tree_options(alloc, path, given)?)));
    }
    if command == "draw" {
        return Ok(Some(CommandLine::Draw(draw_options(alloc, path, given)?)));
    }
    if command == "report" {
        return Ok(Some(CommandLine::Report(page_options(alloc, path, given)?)));
    }
    if command == "survive" {
        return Ok(Some(CommandLine::Survive(survive_options(alloc, path, given)?)));
    }
    if command == "trace" {
        if let Some(options) = trace_options(alloc, path, given)? {
            return Ok(Some(CommandLine::Trace(options)));
        }
    }
    Ok(None)
}

/// Parses the arguments of the program. The first one is the name of the program.
///
/// The numbers among them are in the ranges of the help. `None` would mean that the arguments are valid and name no
/// command. It is never returned, because a required argument has a value; no contract says so.
///
/// # Errors
///
/// A message for the user: why the arguments are refused, or the help or the version if they ask for it. Its kind is
/// `OutOfMemory` if an allocation failed.
pub fn command_line_of(alloc: Global, arguments: &[String]) -> Result<Option<CommandLine>, Error>
    ensures { IfOk result (λ o. IfSome o HasValidArguments) }
{
    let matches = commands(alloc)?.try_get_matches_from(arguments)?;
    match matches.subcommand() {
        Some(("flat", given)) => match given.get_one::<u8>("PORTS") {
            Some(ports) if 2 <= ports && ports <= 16 => Ok(Some(CommandLine::Flat(ports))),
            _ => Ok(None),
        },
        Some(("show", _)) => Ok(Some(CommandLine::Show)),
        Some(("init", given)) => match init_options(given) {
            Some(options) => Ok(Some(CommandLine::Init(options))),
            None => Ok(None),
        },
        Some(("control", given)) => match given.get_str("PATH") {
            Some(path) => Ok(Some(CommandLine::Control(control_options(alloc, path, given)?))),
            None => Ok(None),
        },
        Some(("diff", given)) => match (given.get_str("OLD"), given.get_str("NEW")) {
            (Some(old), Some(new)) => {
                Ok(Some(CommandLine::Diff(diff_options(alloc, old, new, given)?)))
            }
            _ => Ok(None),
        },
        Some((command, given)) => match given.get_str("FILE") {
            Some(path) => Ok(plan_command_line(alloc, command, path, given)?),
            None => Ok(None),
        },
        None => Ok(None),
    }
}
