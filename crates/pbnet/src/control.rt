//! The command `control`.

use crate::messages::complain;
use crate::telling::{WRONG_ARGUMENTS, tell};
use pb_cli::ControlOptions;
use pb_cmd_control::{ControlFault, command_lines, converse};
use std::io;
use std::io::ErrorKind;
use std::net::Net;
use std::os::unix::net::UnixStream;
use std::process::ExitCode;

/// The argument for the commands on standard input.
const FROM_INPUT: &str = "-";

/// Returns whether an argument contains a line feed.
fn has_line_feed(argument: &String) -> bool {
    argument.as_bytes().contains(&b'\n')
}

/// Sends commands to the run whose control socket is at a path, and prints its answers. Returns the exit status.
pub(crate) fn control<R: Input + Print + Eprint + Net + AllocGlobal>(
    rt: &R,
    options: &ControlOptions,
) -> ExitCode {
    let arguments = options.arguments.as_slice();
    if arguments.iter().any(has_line_feed) {
        let _ = eprintln!(rt; "error: invalid value for '<COMMAND>...': it contains a line feed");
        return ExitCode::from(WRONG_ARGUMENTS);
    }
    match UnixStream::connect(rt, options.path.as_str()) {
        Ok(stream) => ended(rt, options.path.as_str(), talk(rt, arguments, &stream)),
        Err(e) => unreachable_at(rt, options.path.as_str(), &e),
    }
}

/// Sends the commands of the arguments, or those of standard input, over a connection, and prints the answers. Returns
/// the exit status.
///
/// # Errors
///
/// The fault that ended the conversation: of the connection, of standard input or output, or of an allocation.
fn talk<R: Input + Print + AllocGlobal>(
    rt: &R,
    arguments: &[String],
    stream: &UnixStream,
) -> Result<u8, ControlFault> {
    let (mut requests, mut answers) = (stream, stream);
    let mut out = io::writer(rt);
    if let [only] = arguments {
        if only.as_str() == FROM_INPUT {
            let mut input = rt.reader();
            return converse(
                rt.alloc(),
                &mut input,
                &mut requests,
                &mut answers,
                &mut out,
            );
        }
    }
    let lines = command_lines(rt.alloc(), arguments)?;
    let mut input = lines.as_slice();
    converse(
        rt.alloc(),
        &mut input,
        &mut requests,
        &mut answers,
        &mut out,
    )
}

/// Reports that no run can be reached at a path. Returns the exit status 3.
fn unreachable_at(
    rt: &(impl Print + Eprint + AllocGlobal),
    path: &str,
    error: &io::Error,
) -> ExitCode {
    let status = tell(rt, "path");
    match error.kind() {
        ErrorKind::NotFound | ErrorKind::ConnectionRefused => {
            complain(
                rt,
                format!(in rt.alloc(); "error: cannot connect to {path}: no run listens there"),
            );
            complain(
                rt,
                format!(in rt.alloc(); "hint: start one by `pbnet run FILE --control {path}`"),
            );
        }
        _ => complain(
            rt,
            format!(in rt.alloc(); "error: cannot connect to {path}: {error}"),
        ),
    }
    status
}

/// Returns the exit status of a conversation. Reports on standard error if a command was refused, with a hint, and if
/// the run disconnected.
fn ended(
    rt: &(impl Print + Eprint + AllocGlobal),
    path: &str,
    outcome: Result<u8, ControlFault>,
) -> ExitCode {
    match outcome {
        Ok(0) => ExitCode::SUCCESS,
        Ok(status) => {
            complain(
                rt,
                format!(in rt.alloc(); "error: {path}: the run refused a command"),
            );
            let _ = eprintln!(rt;
                "hint: the commands are stop, counts, tree, drops, stations BRIDGE, help, down NAME and up NAME; \
                 NAME is a link, a bridge or BRIDGE:PORT, and tree lists each BRIDGE with its PORTs"
            );
            ExitCode::from(status)
        }
        Err(fault) => {
            let status = tell(rt, fault);
            if fault == ControlFault::HungUp {
                complain(
                    rt,
                    format!(in rt.alloc();
                        "error: {path}: the run disconnected before it answered every command"
                    ),
                );
            }
            status
        }
    }
}
