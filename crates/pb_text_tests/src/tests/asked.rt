//! The harness: it parses the arguments of a command line and checks the command.

use super::wanted::{Change, Described, Look, Of, Page, Picture, Row, Run, Wanted};
use pb_cli::{
    CheckOptions, CommandLine, ControlOptions, DiffOptions, DrawOptions, PageOptions, ReportFormat,
    ReportOptions, RunOptions, SurviveOptions, SurviveScope, TraceEntry, TraceFrame, TraceOptions,
    TreeOptions, command_line_of,
};
use std::alloc::{AllocError, Global};
use std::process::Abort;
use std::test::Fail;

/// Appends an argument.
fn push(line: &mut Vec<String>, alloc: Global, argument: &str) -> Result<(), AllocError> {
    line.push(String::from_str(alloc, argument)?)?;
    Ok(())
}

/// Returns all arguments of the command line.
fn line_of(alloc: Global, arguments: &[&str]) -> Result<Vec<String>, AllocError> {
    let mut line = Vec::new(alloc);
    push(&mut line, alloc, "pbnet")?;
    for argument in arguments {
        push(&mut line, alloc, argument)?;
    }
    Ok(line)
}

/// Returns whether a text is this one, or both are missing.
fn is_text(told: Option<&String>, wanted: Option<&str>) -> bool {
    match (told, wanted) {
        (Some(told), Some(text)) => told.as_str() == text,
        (None, None) => true,
        _ => false,
    }
}

/// Returns whether these are the texts.
fn are_texts(told: &[String], wanted: &[&str]) -> bool {
    for (index, text) in wanted.iter().enumerate() {
        if !is_text(told.get(index), Some(*text)) {
            return false;
        }
    }
    told.len() == wanted.len()
}

/// Returns whether a frame is this one, with its port.
fn is_entry(told: Option<&TraceEntry>, port: &str, hex: &str) -> bool {
    match told {
        Some(told) => told.port.as_str() == port && told.hex.as_str() == hex,
        None => false,
    }
}

/// Returns whether these are the frames, each with its port.
fn are_entries(told: &[TraceEntry], wanted: &[(&str, &str)]) -> bool {
    for (place, (port, hex)) in wanted.iter().enumerate() {
        if !is_entry(told.get(place), port, hex) {
            return false;
        }
    }
    told.len() == wanted.len()
}

/// Returns whether it is a report as text over this plan file, of a test or not.
fn is_report(told: &ReportOptions, path: &str, test: bool) -> bool {
    told.path.as_str() == path && told.test == test && told.format == ReportFormat::Text
}

/// Returns whether it is a check of this plan file with a report as text.
fn is_check(told: &CheckOptions, path: &str, strict: bool, settle: Option<u32>) -> bool {
    told.path.as_str() == path
        && told.strict == strict
        && told.settle == settle
        && !told.all
        && told.format == ReportFormat::Text
}

/// Returns whether it is a check of this plan file that reports all errors.
fn is_check_of_all(told: &CheckOptions, path: &str) -> bool {
    told.path.as_str() == path
        && !told.strict
        && told.settle == None
        && told.all
        && told.format == ReportFormat::Text
}

/// Returns whether these are the options of the run.
fn is_run(told: &RunOptions, run: &Run) -> bool {
    told.path.as_str() == run.path
        && told.seconds == run.seconds
        && told.progress == run.progress
        && is_text(told.control.as_ref(), run.control)
        && told.strict == run.strict
        && told.settles == run.settles
        && told.linger == run.linger
        && told.allows_network == run.allows_network
        && told.format == ReportFormat::Text
}

/// Returns whether these are the options of `tree`.
fn is_tree(told: &TreeOptions, path: &str, downs: &[&str], ticks: u32) -> bool {
    told.path.as_str() == path
        && are_texts(&told.downs, downs)
        && told.ticks == ticks
        && told.format == ReportFormat::Text
}

/// Returns whether these are the options of `trace`.
fn is_trace(
    told: &TraceOptions,
    path: &str,
    frames: &[(&str, &str)],
    downs: &[&str],
    settle: Option<u32>,
) -> bool {
    told.path.as_str() == path
        && are_entries(&told.entries, frames)
        && are_texts(&told.downs, downs)
        && told.frame.is_none()
        && told.settle == settle
        && !told.picture
        && told.format == ReportFormat::Text
}

/// Returns whether these are the options of `trace` with a picture.
fn is_trace_picture(told: &TraceOptions, path: &str) -> bool {
    told.path.as_str() == path && told.picture && told.format == ReportFormat::Text
}

/// Returns whether this is the described frame.
fn is_frame(told: &TraceFrame, wanted: &Described) -> bool {
    is_text(told.to.as_ref(), wanted.to)
        && is_text(told.from.as_ref(), wanted.from)
        && is_text(told.ctag.as_ref(), wanted.ctag)
        && told.pcp == wanted.pcp
        && told.bpdu == wanted.bpdu
        && is_text(told.ethertype.as_ref(), wanted.ethertype)
        && told.length == wanted.length
}

/// Returns whether these are the options of `trace` with a frame that options describe.
fn is_described(told: &TraceOptions, path: &str, port: &str, wanted: &Described) -> bool {
    match &told.frame {
        Some(frame) => {
            told.path.as_str() == path
                && are_entries(&told.entries, &[(port, "")])
                && is_frame(frame, wanted)
        }
        None => false,
    }
}

/// Returns whether these are the services of the survey.
fn is_scope(told: &SurviveScope, of: Of) -> bool {
    match (told, of) {
        (SurviveScope::All, Of::All) => true,
        (SurviveScope::Service(told), Of::Service(name)) => told.as_str() == name,
        (SurviveScope::From(told), Of::From(name)) => told.as_str() == name,
        _ => false,
    }
}

/// Returns whether these are the options of the survey.
fn is_look(told: &SurviveOptions, look: &Look) -> bool {
    told.path.as_str() == look.path
        && told.pairs == look.pairs
        && told.bridges == look.bridges
        && told.own == look.own
        && is_scope(&told.scope, look.of)
        && is_text(told.accept.as_ref(), look.accept)
        && told.strict == look.strict
        && told.prints_accept == look.prints_accept
        && told.all_failures == look.all_failures
        && told.ticks == look.ticks
        && told.format == ReportFormat::Text
}

/// Returns whether these are the options of the comparison.
fn is_change(told: &DiffOptions, change: &Change) -> bool {
    told.old.as_str() == change.old
        && told.new.as_str() == change.new
        && told.pairs == change.pairs
        && told.bridges == change.bridges
        && is_text(told.service.as_ref(), change.service)
        && told.all_failures == change.all_failures
        && told.ticks == change.ticks
        && told.format == ReportFormat::Text
}

/// Returns whether these are the options of the picture.
fn is_picture(told: &DrawOptions, picture: &Picture) -> bool {
    told.path.as_str() == picture.path
        && is_text(told.service.as_ref(), picture.service)
        && are_texts(&told.downs, picture.downs)
        && told.lists == picture.lists
        && told.format == picture.format
        && told.ticks == picture.ticks
        && is_text(told.output.as_ref(), picture.output)
}

/// Returns whether these are the options of the page.
fn is_page(told: &PageOptions, page: &Page) -> bool {
    told.path.as_str() == page.path
        && told.bridges == page.bridges
        && told.pairs == page.pairs
        && told.ticks == page.ticks
        && is_text(told.old.as_ref(), page.old)
        && is_text(told.output.as_ref(), page.output)
}

/// Returns whether these are the options of `control`.
fn is_control(told: &ControlOptions, path: &str, arguments: &[&str]) -> bool {
    told.path.as_str() == path && are_texts(told.arguments.as_slice(), arguments)
}

/// Returns the format of the report, if the command has one.
fn format_of(line: &CommandLine) -> Option<ReportFormat> {
    match line {
        CommandLine::Check(options) => Some(options.format),
        CommandLine::Step(options) => Some(options.format),
        CommandLine::Run(options) => Some(options.format),
        CommandLine::Tree(options) => Some(options.format),
        CommandLine::Trace(options) => Some(options.format),
        CommandLine::Survive(options) => Some(options.format),
        CommandLine::Diff(options) => Some(options.format),
        CommandLine::Flat(_)
        | CommandLine::Show
        | CommandLine::Init(_)
        | CommandLine::Draw(_)
        | CommandLine::Report(_)
        | CommandLine::Control(_) => None,
    }
}

/// Returns whether a command line is the wanted one.
fn is_so(line: &CommandLine, wanted: &Wanted) -> bool {
    match (wanted, line) {
        (Wanted::Flat(ports), CommandLine::Flat(told)) => told == ports,
        (Wanted::Check(path, strict), CommandLine::Check(told)) => is_check(
            told, path, *strict, None,
        ),
        (Wanted::Converged(path, ticks), CommandLine::Check(told)) => {
            is_check(told, path, false, Some(*ticks))
        }
        (Wanted::CheckAll(path), CommandLine::Check(told)) => is_check_of_all(told, path),
        (Wanted::Step(path), CommandLine::Step(told)) => is_report(told, path, false),
        (Wanted::Test(path), CommandLine::Step(told)) => is_report(told, path, true),
        (Wanted::Run(run), CommandLine::Run(told)) => is_run(told, run),
        (Wanted::Tree(path, downs, ticks), CommandLine::Tree(told)) => is_tree(
            told, path, downs, *ticks,
        ),
        (Wanted::Trace(path, frames, downs, settle), CommandLine::Trace(told)) => {
            is_trace(told, path, frames, downs, *settle)
        }
        (Wanted::TracePicture(path), CommandLine::Trace(told)) => is_trace_picture(told, path),
        (Wanted::Described(path, port, frame), CommandLine::Trace(told)) => {
            is_described(told, path, port, frame)
        }
        (Wanted::Survive(look), CommandLine::Survive(told)) => is_look(told, look),
        (Wanted::Diff(change), CommandLine::Diff(told)) => is_change(told, change),
        (Wanted::Draw(picture), CommandLine::Draw(told)) => is_picture(told, picture),
        (Wanted::Report(page), CommandLine::Report(told)) => is_page(told, page),
        (Wanted::Show, CommandLine::Show) => true,
        (Wanted::Init(network, services), CommandLine::Init(told)) => {
            told.network == *network && told.services == *services
        }
        (Wanted::Control(path, arguments), CommandLine::Control(told)) => {
            is_control(told, path, arguments)
        }
        (Wanted::Form(form), _) => format_of(line) == Some(*form),
        _ => false,
    }
}

/// Returns whether no command is wanted, for arguments that are refused or ask for help.
fn is_nothing(is_wrong: bool, wanted: &Wanted) -> bool {
    match wanted {
        Wanted::Nothing { wrong } => *wrong == is_wrong,
        _ => false,
    }
}

/// Returns whether the arguments after the program's name ask for the wanted command.
fn ask(alloc: Global, arguments: &[&str], wanted: &Wanted) -> Result<bool, AllocError> {
    let line = line_of(alloc, arguments)?;
    Ok(match command_line_of(alloc, line.as_slice()) {
        Ok(Some(told)) => is_so(&told, wanted),
        Ok(None) => false,
        Err(e) => is_nothing(e.use_stderr(), wanted),
    })
}

/// Asserts that the arguments of each row ask for its command.
pub(super) fn all_ask(rt: &impl Abort, alloc: Global, rows: &[Row]) -> Result<(), Fail> {
    for (arguments, wanted) in rows {
        assert!(rt; ask(alloc, arguments, wanted)?, "{arguments:?}");
    }
    Ok(())
}
