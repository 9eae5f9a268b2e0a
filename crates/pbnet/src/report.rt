//! The command `report`.

use crate::draw::save;
use crate::formatted::{Output, head};
use crate::looks::Looks;
use crate::telling::tell;
use crate::{REFUSED, contents, ended};
use pb_cli::{PageOptions, ReportFormat};
use pb_cmd_report::{Asked, OldPlan, ReportEnd, run_report};
use pb_cmd_survive::Kinds;
use pb_messages::CommandFault;
use std::fs::Files;
use std::io::{self, Write};
use std::process::ExitCode;
use std::thread::Threads;
use std::time::Clock;

/// Returns the octets of the plan file before the change, if the page describes one.
///
/// # Errors
///
/// Those of [`contents`].
fn old_contents<R: Files + Eprint + AllocGlobal, W: Write>(
    rt: &R,
    options: &PageOptions,
    out: &mut W,
) -> Result<Option<Vec<u8>>, ExitCode> {
    match &options.old {
        None => Ok(None),
        Some(path) => Ok(Some(contents(rt, path.as_str(), out)?)),
    }
}

/// Returns the plan file before the change, with its octets.
fn old_of<'a>(options: &'a PageOptions, file: &'a Option<Vec<u8>>) -> Option<OldPlan<'a>> {
    match (&options.old, file) {
        (Some(path), Some(file)) => Some(OldPlan {
            title: path.as_str(),
            file: file.as_slice(),
        }),
        _ => None,
    }
}

/// Returns the options of the command, with the octets of the plan file before the change.
fn asked_of<'a>(options: &'a PageOptions, file: &'a Option<Vec<u8>>) -> Asked<'a> {
    Asked {
        title: options.path.as_str(),
        kinds: Kinds {
            bridges: options.bridges,
            pairs: options.pairs,
        },
        ticks: options.ticks,
        old: old_of(options, file),
    }
}

/// Writes the page to a file that is none of the plan files. Returns the result of the write.
///
/// # Errors
///
/// The exit status, after a message, if the file is a plan file or cannot be opened.
fn save_page(
    rt: &(impl Files + Print + Eprint + AllocGlobal),
    options: &PageOptions,
    output: &str,
    page: &[u8],
) -> Result<io::Result<()>, ExitCode> {
    let path = options.path.as_str();
    match &options.old {
        None => save(rt, &[path], output, page),
        Some(old) => save(rt, &[path, old.as_str()], output, page),
    }
}

/// Writes the page to the file of `--output`, or what there is instead of it, or without a file, to the writer of
/// reports.
///
/// # Errors
///
/// The exit status, after a message, if the file is a plan file, or cannot be opened or written.
fn put<W: Write>(
    rt: &(impl Files + Print + Eprint + AllocGlobal),
    options: &PageOptions,
    end: ReportEnd,
    page: &[u8],
    out: &mut W,
) -> Result<(), ExitCode> {
    let written = match (&options.output, end) {
        (Some(output), ReportEnd::Written) => save_page(rt, options, output.as_str(), page)?,
        _ => out.write_all(page),
    };
    written.map_err(|_| tell(rt, CommandFault::Write))
}

/// Returns the exit status for what was written. If a plan is refused, prints its first error on standard error.
fn status_of(
    rt: &(impl Eprint + AllocGlobal),
    path: &str,
    file: &[u8],
    old: Option<OldPlan<'_>>,
    end: ReportEnd,
) -> ExitCode {
    match (end, old) {
        (ReportEnd::Written, _) => ExitCode::SUCCESS,
        (ReportEnd::OldRefused, Some(old)) => ended(rt, old.title, old.file, REFUSED),
        _ => ended(rt, path, file, REFUSED),
    }
}

/// Writes a page about the network of a plan file on standard output or into a file. Shows progress on standard error
/// if `is_shown`. Returns the exit status.
pub(crate) fn report<R: Files + Threads + Clock + Print + Eprint + AllocGlobal + Sync>(
    rt: &R,
    options: &PageOptions,
    is_shown: bool,
) -> ExitCode {
    let path = options.path.as_str();
    let mut out = Output::new(rt, ReportFormat::Text, head("report", path));
    let file = match contents(rt, path, &mut out) {
        Ok(file) => file,
        Err(status) => return status,
    };
    let old = match old_contents(rt, options, &mut out) {
        Ok(old) => old,
        Err(status) => return status,
    };
    let looks = Looks::new(rt, "report", is_shown);
    let asked = asked_of(options, &old);
    let mut page = Vec::new(rt.alloc());
    match run_report(rt, rt.alloc(), file.as_slice(), &asked, &looks, &mut page) {
        // (a write into memory fails only if an allocation failed)
        Err(CommandFault::Write) => tell(rt, CommandFault::Memory),
        Err(fault) => tell(rt, fault),
        Ok(end) => match put(rt, options, end, page.as_slice(), &mut out) {
            Err(status) => status,
            Ok(()) => out.ended(status_of(rt, path, file.as_slice(), asked.old, end)),
        },
    }
}
