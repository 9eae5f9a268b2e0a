//! Tables of commands and their arguments, and the parser that they make.

use clap::builder::ValueParser;
use clap::{Arg, ArgAction, Command, Error};
use std::alloc::Global;

/// The value that an argument takes.
#[derive(Clone, Copy)]
pub(crate) enum Takes {
    /// No value: a flag.
    Nothing,
    /// No value: a flag. It has these other long names too.
    NothingBy(&'static [&'static str]),
    /// A text.
    Text,
    /// A text. This letter is the short name of the argument.
    TextBy(char),
    /// A text. The argument may be repeated.
    Texts,
    /// The name of a port and the digits of a frame. The argument may be repeated.
    Frames,
    /// One of these names.
    Name(&'static [&'static str]),
    /// A number from the first to the second, below 2^32.
    Number(i64, i64),
    /// A number from the first to the second, below 2^32. The argument requires these other ones.
    NumberWith(i64, i64, &'static [&'static str]),
    /// A number from the first to the second, below 256.
    Small(i64, i64),
    /// A text. The argument is positional and required.
    Place,
    /// A text. The argument is positional.
    MayPlace,
    /// A number from the first to the second, below 256. The argument is positional and required.
    SmallPlace(i64, i64),
    /// All arguments from its place on, one or more, also those that begin with a hyphen.
    Rest,
}

/// An argument of a command.
#[derive(Clone, Copy)]
pub(crate) struct Argument {
    /// The name of `--NAME`, or the name of a positional argument in the help.
    pub name: &'static str,
    /// The name of its value in the help.
    pub value: &'static str,
    /// The text of the help, with default and range in brackets. The parser appends the possible values of a name.
    pub help: &'static str,
    /// The value that it takes.
    pub takes: Takes,
    /// The arguments that it excludes.
    pub excludes: &'static [&'static str],
}

/// A command.
#[derive(Clone, Copy)]
pub(crate) struct CommandRow {
    /// The name on the command line.
    pub name: &'static str,
    /// The line of the help: imperative, at most 70 characters.
    pub about: &'static str,
    /// The arguments, in the order of the help.
    pub arguments: &'static [Argument],
}

/// Gives an argument a long name and a value.
fn named<'a>(arg: Arg<'a>, argument: Argument) -> Arg<'a> {
    arg.long(argument.name)
        .value_name(argument.value)
        .action(ArgAction::Set)
}

/// Gives an argument a long name and two values, a port and a frame, and lets it be repeated.
fn framed<'a>(arg: Arg<'a>, argument: Argument) -> Arg<'a> {
    arg.long(argument.name)
        .value_names(&["PORT", "HEX"])
        .num_args(2)
        .action(ArgAction::Append)
}

/// Makes an argument positional and required.
fn placed<'a>(arg: Arg<'a>) -> Arg<'a> {
    arg.required(true).action(ArgAction::Set)
}

/// Makes an argument take all arguments from its place on, one or more, also those that begin with a hyphen.
fn remaining<'a>(arg: Arg<'a>) -> Arg<'a> {
    arg.required(true)
        .num_args(1..)
        .trailing_var_arg(true)
        .allow_hyphen_values(true)
        .action(ArgAction::Append)
}

/// Sets name, values and parser of an argument by the value that it takes.
fn taking<'a>(arg: Arg<'a>, argument: Argument) -> Arg<'a> {
    match argument.takes {
        Takes::Nothing | Takes::NothingBy(_) => arg.long(argument.name).action(ArgAction::SetTrue),
        Takes::Text => named(arg, argument),
        Takes::TextBy(letter) => named(arg, argument).short(letter),
        Takes::Texts => named(arg, argument).action(ArgAction::Append),
        Takes::Frames => framed(arg, argument),
        Takes::Name(names) => named(arg, argument).value_parser(ValueParser::Names(names)),
        Takes::Number(least, most) | Takes::NumberWith(least, most, _) => {
            named(arg, argument).value_parser(clap::value_parser!(u32).range(least..=most))
        }
        Takes::Small(least, most) => {
            named(arg, argument).value_parser(clap::value_parser!(u8).range(least..=most))
        }
        Takes::Place => placed(arg),
        Takes::MayPlace => arg.action(ArgAction::Set),
        Takes::SmallPlace(least, most) => {
            placed(arg).value_parser(clap::value_parser!(u8).range(least..=most))
        }
        Takes::Rest => remaining(arg),
    }
}

/// Returns the arguments that an argument requires.
fn required_by(takes: Takes) -> &'static [&'static str] {
    match takes {
        Takes::NumberWith(_, _, required) => required,
        _ => &[],
    }
}

/// Returns the other long names of an argument.
fn aliases_of(takes: Takes) -> &'static [&'static str] {
    match takes {
        Takes::NothingBy(aliases) => aliases,
        _ => &[],
    }
}

/// Returns the parser's argument for a row of a table.
///
/// # Errors
///
/// `Error` of kind `OutOfMemory` if an allocation failed.
fn arg_of<'a>(alloc: Global, argument: Argument) -> Result<Arg<'a>, Error> {
    let arg = taking(Arg::new(alloc, argument.name).help(argument.help), argument);
    let arg = arg.requires_all(required_by(argument.takes))?;
    let arg = arg.visible_aliases(aliases_of(argument.takes))?;
    Ok(arg.conflicts_with_all(argument.excludes)?)
}

/// Returns the parser's command for a row of a table.
///
/// # Errors
///
/// `Error` of kind `OutOfMemory` if an allocation failed.
fn command_of<'a>(alloc: Global, row: CommandRow) -> Result<Command<'a>, Error> {
    let mut command = Command::new(alloc, row.name).about(row.about);
    for argument in row.arguments {
        command = command.arg(arg_of(alloc, *argument)?)?;
    }
    Ok(command)
}

/// Adds these commands to a program.
///
/// # Errors
///
/// `Error` of kind `OutOfMemory` if an allocation failed.
pub(crate) fn with_commands<'a>(
    alloc: Global,
    program: Command<'a>,
    rows: &[CommandRow],
) -> Result<Command<'a>, Error> {
    let mut program = program;
    for row in rows {
        program = program.subcommand(command_of(alloc, *row)?)?;
    }
    Ok(program)
}
