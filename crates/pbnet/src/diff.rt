//! The command `diff`.

use crate::contents;
use crate::formatted::{Output, head};
use crate::looks::Looks;
use crate::refusal::print_errors;
use crate::telling::{WRONG_ARGUMENTS, tell_on};
use pb_cli::{DiffOptions, ReportFormat};
use pb_cmd_diff::{Asked, Compared, DiffEnd, run_diff};
use pb_cmd_survive::Kinds;
use pb_export::{DIFF, Head};
use std::fs::Files;
use std::io::Write;
use std::process::ExitCode;
use std::thread::Threads;
use std::time::Clock;

/// The exit status if one of the plans is refused.
const REFUSED: u8 = 1;

/// The exit status if something got worse.
const WORSE: u8 = 4;

/// Compares the plans of two plan files and prints the report, in the form of the options. Shows progress on standard
/// error if `is_shown`. Returns the exit status.
pub(crate) fn tell_diff<R: Files + Threads + Clock + Print + Eprint + AllocGlobal + Sync>(
    rt: &R,
    options: &DiffOptions,
    is_shown: bool,
) -> ExitCode {
    let head = Head {
        old_plan: Some(options.old.as_str()),
        ..head("diff", options.new.as_str())
    };
    let mut out = Output::new(rt, options.format, head);
    let status = tell_diff_on(rt, options, is_shown, &mut out);
    out.end(&DIFF, None, status)
}

/// Prints the first error of the plan file at a path on standard error. Returns the exit status.
fn refused(rt: &(impl Eprint + AllocGlobal), path: &str, file: &[u8]) -> ExitCode {
    print_errors(rt, path, file, false);
    ExitCode::from(REFUSED)
}

/// Returns the services that are compared.
fn compared_of(options: &DiffOptions) -> Compared<'_> {
    match &options.service {
        None => Compared::All,
        Some(name) => Compared::Service(name.as_str()),
    }
}

/// Returns the options of the command.
fn asked_of(options: &DiffOptions) -> Asked<'_> {
    Asked {
        kinds: Kinds {
            bridges: options.bridges,
            pairs: options.pairs,
        },
        compared: compared_of(options),
        ticks: options.ticks,
        all: options.all_failures || options.format == ReportFormat::Json,
    }
}

/// Writes the report on two plan files. Returns the exit status.
fn tell_diff_on<R, W: Write>(rt: &R, options: &DiffOptions, is_shown: bool, out: &mut W) -> ExitCode
where
    R: Files + Threads + Clock + Eprint + AllocGlobal + Sync,
{
    let (old, new) = (options.old.as_str(), options.new.as_str());
    let old_file = match contents(rt, old, out) {
        Ok(file) => file,
        Err(status) => return status,
    };
    let new_file = match contents(rt, new, out) {
        Ok(file) => file,
        Err(status) => return status,
    };
    let looks = Looks::new(rt, "diff", is_shown);
    match run_diff(
        rt,
        rt.alloc(),
        old_file.as_slice(),
        new_file.as_slice(),
        &asked_of(options),
        &looks,
        out,
    ) {
        Err(fault) => tell_on(out, fault),
        Ok(DiffEnd::Kept) => ExitCode::SUCCESS,
        Ok(DiffEnd::Worse) => ExitCode::from(WORSE),
        Ok(DiffEnd::Lacking) => ExitCode::from(WRONG_ARGUMENTS),
        Ok(DiffEnd::OldRefused) => refused(rt, old, old_file.as_slice()),
        Ok(DiffEnd::NewRefused) => refused(rt, new, new_file.as_slice()),
    }
}
