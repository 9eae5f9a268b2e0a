//! Reads the arguments of the command line.

ghost use Rattle.std.specs.Prelude.{◌≡◌, ◌⊎◌, IfErr};
ghost use Rattle.std.specs.Process.{exit_status};

use crate::asked::json_command;
use crate::formatted::tell_document;
use crate::telling::{WRONG_ARGUMENTS, tell};
use clap::Error;
use clap::error::ErrorKind as ArgumentFault;
use pb_messages::CommandFault;
use std::io::ErrorKind;
use std::process::ExitCode;
use std::rt::Env;
use std::{env, io};

/// Returns the arguments of the command line. The first one is the name of the program.
///
/// # Errors
///
/// `io::Error` if an argument is not valid UTF-8. Its kind is `OutOfMemory` if an allocation failed.
fn read_arguments(rt: &(impl Env + AllocGlobal)) -> io::Result<Vec<String>> {
    let mut arguments = Vec::new(rt.alloc());
    for argument in env::args(rt)? {
        arguments.push(argument)?;
    }
    Ok(arguments)
}

/// Reports that an allocation failed before the command line was read: in a JSON document if it asks for one. Returns
/// the exit status 3.
fn lack_memory(rt: &(impl Env + Print)) -> ExitCode
    ensures { exit_status result ≡ 3 }
{
    match json_command(rt) {
        Some(command) => tell_document(rt, command, CommandFault::Memory),
        None => tell(rt, CommandFault::Memory),
    }
}

/// Reports why the arguments of the command line cannot be read. Returns the exit status: 2 if one is not valid UTF-8,
/// 3 if an allocation failed.
fn unread(rt: &(impl Env + Print + Eprint), error: &io::Error) -> ExitCode
    ensures { (exit_status result ≡ 2) ⊎ (exit_status result ≡ 3) }
{
    if error.kind() == ErrorKind::OutOfMemory {
        return lack_memory(rt);
    }
    let _ = eprintln!(rt; "error: an argument is not valid UTF-8");
    ExitCode::from(WRONG_ARGUMENTS)
}

/// Returns the arguments of the command line. The first one is the name of the program.
///
/// # Errors
///
/// The exit status, after a message: 2 if an argument is not valid UTF-8, 3 if an allocation failed.
pub(crate) fn arguments_of(
    rt: &(impl Env + Print + Eprint + AllocGlobal),
) -> Result<Vec<String>, ExitCode>
    ensures { IfErr result (λ status. (exit_status status ≡ 2) ⊎ (exit_status status ≡ 3)) }
{
    match read_arguments(rt) {
        Ok(arguments) => Ok(arguments),
        Err(e) => Err(unread(rt, &e)),
    }
}

/// Prints the message of the parser. Returns the exit status: 0 after the help or the version, 2 if the arguments are
/// refused, 3 if an allocation failed, or if the help or the version cannot be printed.
pub(crate) fn refuse(rt: &(impl Env + Print + Eprint), error: Error) -> ExitCode
    ensures { (exit_status result ≡ 0) ⊎ (exit_status result ≡ 2) ⊎ (exit_status result ≡ 3) }
{
    if error.kind() == ArgumentFault::OutOfMemory {
        return lack_memory(rt);
    }
    let printed = error.print(rt);
    if error.use_stderr() {
        return ExitCode::from(WRONG_ARGUMENTS);
    }
    match printed {
        Ok(()) => ExitCode::SUCCESS,
        Err(_) => tell(rt, CommandFault::Write),
    }
}
