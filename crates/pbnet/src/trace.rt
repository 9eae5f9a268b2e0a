//! The command `trace`.

use crate::described::{NoFrame, described_hex};
use crate::downs::refuse_down;
use crate::formatted::{Output, head};
use crate::messages::complain;
use crate::telling::{WRONG_ARGUMENTS, tell_on};
use crate::{REFUSED, contents, ended};
use pb_cli::{TraceEntry, TraceOptions};
use pb_cmd_trace::{Asked, Entry, TraceEnd, run_trace};
use pb_export::TRACE;
use pb_lan::Spanning;
use pb_messages::CommandFault;
use pb_service::{PlanFault, read_plan};
use pb_trace_svg::run_trace_svg;
use std::alloc::{AllocError, Global};
use std::fs::Files;
use std::io::Write;
use std::process::ExitCode;

/// Returns the frames of the options.
///
/// # Errors
///
/// `AllocError` if an allocation failed.
fn entries_of(alloc: Global, given: &[TraceEntry]) -> Result<Vec<Entry>, AllocError> {
    let mut entries = Vec::with_capacity(alloc, given.len())?;
    for entry in given {
        let port = entry.port.clone()?;
        let hex = entry.hex.clone()?;
        entries.push(Entry { port, hex })?;
    }
    Ok(entries)
}

/// Sets the digits of the first frame, if options describe it and the file is a plan.
///
/// # Errors
///
/// Those of [`described_hex`].
fn describe_first(
    rt: &(impl Eprint + AllocGlobal),
    file: &[u8],
    options: &TraceOptions,
    entries: &mut Vec<Entry>,
) -> Result<(), NoFrame> {
    let (Some(described), Some(entry)) = (&options.frame, entries.first_mut()) else {
        return Ok(());
    };
    match read_plan(rt.alloc(), file) {
        Ok((plan, _ports)) => {
            entry.hex = described_hex(rt, &plan, entry.port.as_str(), described)?;
            Ok(())
        }
        Err(PlanFault::Memory) => Err(NoFrame::Memory),
        Err(_) => Ok(()),
    }
}

/// Reports that no frame gets far, if the bridges of the plan of a file run the spanning tree and have not converged.
fn note_not_converged(rt: &(impl Eprint + AllocGlobal), file: &[u8], settle: Option<u32>) {
    let Ok((plan, _ports)) = read_plan(rt.alloc(), file) else {
        return;
    };
    if settle.is_none() && plan.spanning == Spanning::Rstp {
        let _ = eprintln!(rt;
            "note: the spanning tree has not converged, so ports between bridges are discarding; see --settle"
        );
    }
}

/// Traces frames through the network of a plan file, in the form of the options. Returns the exit status.
pub(crate) fn trace<R: Files + Print + Eprint + AllocGlobal>(
    rt: &R,
    options: &TraceOptions,
) -> ExitCode {
    let mut out = Output::new(rt, options.format, head("trace", options.path.as_str()));
    match trace_on(rt, options, &mut out) {
        Ok(status) => out.end(&TRACE, None, status),
        Err(status) => status,
    }
}

/// Writes the trace of frames through the network of a plan file. Returns the exit status.
///
/// # Errors
///
/// The exit status 2, after a message, if a name of `--down`, a customer port or a frame is refused. Nothing was
/// written then.
fn trace_on<R: Files + Eprint + AllocGlobal, W: Write>(
    rt: &R,
    options: &TraceOptions,
    out: &mut W,
) -> Result<ExitCode, ExitCode> {
    let path = options.path.as_str();
    let file = match contents(rt, path, out) {
        Ok(file) => file,
        Err(status) => return Ok(status),
    };
    let Ok(mut entries) = entries_of(rt.alloc(), options.entries.as_slice()) else {
        return Ok(tell_on(out, CommandFault::Memory));
    };
    match describe_first(rt, file.as_slice(), options, &mut entries) {
        Ok(()) => {}
        Err(NoFrame::Refused(status)) => return Err(status),
        Err(NoFrame::Memory) => return Ok(tell_on(out, CommandFault::Memory)),
    }
    let asked = Asked {
        entries: entries.as_slice(),
        downs: options.downs.as_slice(),
        settle: options.settle,
    };
    let told = if options.picture {
        run_trace_svg(rt.alloc(), file.as_slice(), &asked, out)
    } else {
        run_trace(rt.alloc(), file.as_slice(), &asked, out)
    };
    match told {
        Err(fault) => Ok(tell_on(out, fault)),
        Ok(TraceEnd::Told) => {
            note_not_converged(rt, file.as_slice(), options.settle);
            Ok(ExitCode::SUCCESS)
        }
        Ok(TraceEnd::Refused) => Ok(ended(rt, path, file.as_slice(), REFUSED)),
        Ok(TraceEnd::NoDown(fault)) => Err(refuse_down(rt, file.as_slice(), asked.downs, fault)),
        Ok(TraceEnd::NoPort(index)) => Err(no_port(rt, entries.as_slice(), index)),
        Ok(TraceEnd::NoFrame(index)) => Err(no_frame(rt, entries.as_slice(), index)),
    }
}

/// Returns the arguments of the frame with this index, as the help names them. The first frame has arguments of its
/// own.
fn given_by(index: usize, first: &'static str) -> &'static str {
    if index == 0 {
        first
    } else {
        "--then <PORT> <HEX>"
    }
}

/// Reports that the plan lacks the customer port of a frame. Returns the exit status 2.
fn no_port(rt: &(impl Eprint + AllocGlobal), entries: &[Entry], index: usize) -> ExitCode {
    if let Some(entry) = entries.get(index) {
        let port = entry.port.as_str();
        let argument = given_by(index, "<PORT>");
        complain(
            rt,
            format!(in rt.alloc();
                "error: invalid value '{port}' for '{argument}': no such customer port"
            ),
        );
    }
    ExitCode::from(WRONG_ARGUMENTS)
}

/// Reports that the digits of a frame are invalid. Returns the exit status 2.
fn no_frame(rt: &(impl Eprint + AllocGlobal), entries: &[Entry], index: usize) -> ExitCode {
    if let Some(entry) = entries.get(index) {
        let hex = entry.hex.as_str();
        let argument = given_by(index, "<HEX>");
        complain(
            rt,
            format!(in rt.alloc();
                "error: invalid value '{hex}' for '{argument}': not pairs of hexadecimal digits"
            ),
        );
    }
    ExitCode::from(WRONG_ARGUMENTS)
}
