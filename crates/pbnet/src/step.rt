//! The command `step`.

use crate::formatted::{Output, head};
use crate::telling::tell_on;
use crate::{contents, ended};
use pb_cli::ReportOptions;
use pb_cmd_step::{TestNotes, run_script, run_test};
use pb_export::{COUNTS, STEP};
use pb_messages::CommandFault;
use std::fs::Files;
use std::io::{BufWriter, Write};
use std::process::ExitCode;

/// The octets of output that are gathered for a write.
const BUFFER: usize = 65_536;

/// Drives the network of a plan file by the script on standard input, and prints the report in the form of the options.
/// If `by_line`, each answer is printed at once. The findings of a test go to `errors`. If the form is a table and
/// memory was short, no table is printed, and `fault: memory` goes to `errors`. Returns the exit status.
pub(crate) fn step<R: Files + Input + Print + Eprint + AllocGlobal, E: Write>(
    rt: &R,
    options: &ReportOptions,
    by_line: bool,
    errors: &mut E,
) -> ExitCode {
    let mut out = Output::new(rt, options.format, head("step", options.path.as_str()));
    let mut notes = TestNotes::new(rt.alloc());
    let status = step_on(rt, options, by_line, &mut notes, &mut out);
    let _ = errors.write_all(notes.findings());
    if out.hides_memory() {
        return tell_on(errors, CommandFault::Memory);
    }
    out.end(&STEP, Some(&COUNTS), status)
}

/// Drives the network of a plan file by the script on standard input, and writes the report. Returns the exit status.
fn step_on<R: Files + Input + Eprint + AllocGlobal, W: Write>(
    rt: &R,
    options: &ReportOptions,
    by_line: bool,
    notes: &mut TestNotes,
    out: &mut W,
) -> ExitCode {
    let path = options.path.as_str();
    let file = match contents(rt, path, out) {
        Ok(file) => file,
        Err(status) => return status,
    };
    let driven = if by_line {
        step_through(rt, file.as_slice(), options.test, notes, out)
    } else {
        step_over(rt, file.as_slice(), options.test, notes, out)
    };
    match driven {
        Err(fault) => tell_on(out, fault),
        Ok(status) => ended(rt, path, file.as_slice(), status),
    }
}

/// Drives the network of a plan file, given as octets, by the script on standard input, as a test if `is_test`. Returns
/// the exit status.
///
/// # Errors
///
/// The fault that ended the command: a failed read, write or allocation, or the limit of steps.
fn step_through<R: Input + AllocGlobal, W: Write>(
    rt: &R,
    file: &[u8],
    is_test: bool,
    notes: &mut TestNotes,
    out: &mut W,
) -> Result<u8, CommandFault> {
    if is_test {
        run_test(rt.alloc(), file, &mut rt.reader(), out, notes)
    } else {
        run_script(rt.alloc(), file, &mut rt.reader(), out)
    }
}

/// Drives the network of a plan file as [`step_through`] does. Output is gathered before it is written.
///
/// # Errors
///
/// The faults of [`step_through`].
fn step_over<R: Input + AllocGlobal, W: Write>(
    rt: &R,
    file: &[u8],
    is_test: bool,
    notes: &mut TestNotes,
    out: &mut W,
) -> Result<u8, CommandFault> {
    let Ok(mut writer) = BufWriter::with_capacity(rt.alloc(), BUFFER, out) else {
        return Err(CommandFault::Memory);
    };
    let status = step_through(rt, file, is_test, notes, &mut writer);
    if writer.flush().is_err() && status.is_ok() {
        return Err(CommandFault::Write);
    }
    status
}
