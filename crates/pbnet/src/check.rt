//! The command `check`.

ghost use Rattle.std.specs.Prelude.{◌≡◌, ◌<◌, ◌&&◌, nat_lt, if◌then◌else◌};
ghost use Rattle.std.specs.Process.{exit_status};

use crate::contents;
use crate::formatted::{Output, head};
use crate::messages::printable;
use crate::refusal::{print_errors, put_error_rows};
use crate::telling::tell_on;
use pb_cli::{CheckOptions, ReportFormat};
use pb_cmd_check::{run_check, run_converged_check};
use pb_export::CHECK;
use pb_frame::Memory;
use pb_messages::CommandFault;
use pb_warning_lines::put_warnings;
use std::alloc::Global;
use std::fs::Files;
use std::io::Write;
use std::process::ExitCode;

/// The exit status of `check` for a plan.
const ACCEPTED: u8 = 0;

/// The exit status of `check --strict` for a plan with warnings.
const WARNED: u8 = 4;

/// The path of the plan file in the lines from which a document is made.
const FILE: &str = "file";

/// Validates a plan file, and prints the report in the form of the options. Returns the exit status.
pub(crate) fn check<R: Files + Print + Eprint + AllocGlobal>(
    rt: &R,
    options: &CheckOptions,
) -> ExitCode {
    let mut out = Output::new(rt, options.format, head("check", options.path.as_str()));
    let status = check_on(rt, options, &mut out);
    out.end(&CHECK, None, status)
}

/// Appends the warnings about the plan file at a path, whose control characters are escaped. Returns their number.
///
/// # Errors
///
/// `Memory` if an allocation failed.
fn put_warnings_at(
    alloc: Global,
    warnings: &mut String,
    path: &str,
    file: &[u8],
) -> Result<usize, Memory> {
    let path = printable(alloc, path)?;
    put_warnings(alloc, warnings, path.as_str(), file)
}

/// Validates a plan file, writes the report, and prints the warnings on standard error. Returns the exit status.
fn check_on<R: Files + Eprint + AllocGlobal, W: Write>(
    rt: &R,
    options: &CheckOptions,
    out: &mut W,
) -> ExitCode {
    let path = options.path.as_str();
    let file = match contents(rt, path, out) {
        Ok(file) => file,
        Err(status) => return status,
    };
    let mut warnings = String::new(rt.alloc());
    let Ok(count) = put_warnings_at(rt.alloc(), &mut warnings, path, file.as_slice()) else {
        return tell_on(out, CommandFault::Memory);
    };
    match report_on(rt.alloc(), options, file.as_slice(), out) {
        Err(fault) => tell_on(out, fault),
        Ok(ACCEPTED) => {
            let _ = eprint!(rt; "{warnings}");
            status_of(options.strict, count)
        }
        Ok(status) => {
            print_errors(rt, path, file.as_slice(), options.all);
            ExitCode::from(status)
        }
    }
}

/// Validates a plan file, given as octets, and writes the report. The warnings and errors are in it if it becomes a
/// document. Returns the exit status. If an allocation fails, nothing was written.
///
/// # Errors
///
/// `Memory` if an allocation failed. `Write` if a write failed. `Steps` if the bridges take too many steps until
/// convergence.
fn report_on<W: Write>(
    alloc: Global,
    options: &CheckOptions,
    file: &[u8],
    out: &mut W,
) -> Result<u8, CommandFault> {
    let mut warnings = String::new(alloc);
    if options.format != ReportFormat::Text {
        put_warnings(alloc, &mut warnings, FILE, file)?;
        put_error_rows(
            alloc,
            &mut warnings,
            options.path.as_str(),
            file,
            options.all,
        )?;
    }
    let status = match options.settle {
        Some(ticks) => run_converged_check(alloc, file, ticks, out)?,
        None => run_check(alloc, file, out)?,
    };
    if out.write_all(warnings.as_bytes()).is_err() {
        return Err(CommandFault::Write);
    }
    Ok(status)
}

/// Returns the exit status for a plan with so many warnings.
fn status_of(is_strict: bool, count: usize) -> ExitCode
    ensures { exit_status result ≡ (if is_strict && nat_lt 0 count then 4 else 0) }
{
    if is_strict && 0 < count {
        ExitCode::from(WARNED)
    } else {
        ExitCode::from(ACCEPTED)
    }
}
