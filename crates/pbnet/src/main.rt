//! The program `pbnet`: a provider bridged Ethernet network in one process.
//!
//! Each command reads its options from pb_cli, calls the crate `pb_cmd_NAME`, and returns an exit status. Standard
//! output has the report, or the line `fault: WORD`. Standard error has messages such as `error: cannot open FILE`.
//! docs/COMMANDS.md and docs/RUNNING.md list all statuses and faults. Begin with `main`.
#![tactic(auto)]

mod accept;
mod arguments;
mod asked;
mod check;
mod control;
mod described;
mod diff;
mod downs;
mod draw;
mod errors;
mod flat;
mod formatted;
mod looks;
mod messages;
mod noted;
mod progress;
mod refusal;
mod report;
mod standard;
mod step;
mod survive;
mod telling;
mod trace;
mod trees;

use arguments::{arguments_of, refuse};
use errors::Errors;
use formatted::{Output, head};
use messages::complain;
use noted::Noted;
use pb_cli::{CommandLine, InitNetwork, InitOptions, RunOptions, command_line_of};
use pb_cmd_check::run_show;
use pb_cmd_init::{Topology, write_plan};
use pb_cmd_run::{RunSettings, Strictness, Traffic, run_network};
use pb_export::{COUNTS, RUN};
use pb_messages::CommandFault;
use progress::{RunMonitor, Shown};
use refusal::print_errors;
use standard::occupy_closed;
use std::alloc::{AllocError, Global};
use std::fs::{File, Files};
use std::io::{ErrorKind, IsTerminal, Read, Write};
use std::net::{Net, TcpListener, TcpStream};
use std::os::fd::{AsFd, OwnedFd};
use std::process::ExitCode;
use std::sync::{Arc, Wait};
use std::thread::Threads;
use std::time::Clock;
use std::{fs, io};
use telling::{FAULT, WRONG_ARGUMENTS, tell, tell_on};
use trees::tree;

/// The exit status if the plan is refused.
const REFUSED: u8 = 1;

/// The most octets of a plan file.
const MOST_OCTETS: u64 = 67_108_864;

/// Runs the command of the command line. Returns the exit status.
fn main(rt: HostRuntime) -> ExitCode {
    if occupy_closed(&rt).is_err() {
        return ExitCode::from(FAULT);
    }
    let arguments = match arguments_of(&rt) {
        Ok(arguments) => arguments,
        Err(status) => return status,
    };
    match command_line_of(rt.alloc(), arguments.as_slice()) {
        Ok(Some(CommandLine::Flat(ports))) => flat::flat(&rt, ports),
        Ok(Some(CommandLine::Check(options))) => check::check(&rt, &options),
        Ok(Some(CommandLine::Step(options))) => {
            let by_line = rt.stdin().is_terminal() || rt.stdout().is_terminal();
            step::step(&rt, &options, by_line, &mut rt.stderr())
        }
        Ok(Some(CommandLine::Run(options))) => {
            let shown = shown_on(rt.stderr().is_terminal(), options.progress);
            let input = rt.stdin().as_fd().try_clone_to_owned().ok();
            let mut errors = Errors::new(&rt);
            run(&rt, &options, shown, input, &mut errors)
        }
        Ok(Some(CommandLine::Tree(options))) => tree(&rt, &options),
        Ok(Some(CommandLine::Trace(options))) => trace::trace(&rt, &options),
        Ok(Some(CommandLine::Show)) => show(&rt),
        Ok(Some(CommandLine::Init(options))) => init(&rt, options),
        Ok(Some(CommandLine::Survive(options))) => {
            survive::tell_survivals(&rt, &options, rt.stderr().is_terminal())
        }
        Ok(Some(CommandLine::Diff(options))) => {
            diff::tell_diff(&rt, &options, rt.stderr().is_terminal())
        }
        Ok(Some(CommandLine::Draw(options))) => draw::draw_network(&rt, &options),
        Ok(Some(CommandLine::Report(options))) => {
            report::report(&rt, &options, rt.stderr().is_terminal())
        }
        Ok(Some(CommandLine::Control(options))) => control::control(&rt, &options),
        Ok(None) => ExitCode::from(WRONG_ARGUMENTS),
        Err(e) => refuse(&rt, e),
    }
}

/// Returns the octets of the file at a path.
///
/// # Errors
///
/// The exit status 3, after a line `fault:`, if the file cannot be opened or read, has more than 67,108,864 octets, or
/// an allocation failed. Standard error says why it cannot be opened or read.
fn contents<R: Files + Eprint + AllocGlobal, W: Write>(
    rt: &R,
    path: &str,
    out: &mut W,
) -> Result<Vec<u8>, ExitCode> {
    let file = match fs::open(rt, path) {
        Ok(file) => file,
        Err(e) if e.kind() == ErrorKind::OutOfMemory => {
            return Err(tell_on(out, CommandFault::Memory));
        }
        Err(e) => {
            let status = tell_on(out, "path");
            complain(rt, format!(in rt.alloc(); "error: cannot open {path}: {e}"));
            return Err(status);
        }
    };
    let mut octets = Vec::new(rt.alloc());
    match file.take(MOST_OCTETS + 1).read_to_end(&mut octets) {
        Ok(_) if octets.len() as u64 <= MOST_OCTETS => Ok(octets),
        Ok(_) => {
            let status = tell_on(out, CommandFault::Read);
            complain(
                rt,
                format!(in rt.alloc();
                    "error: cannot read {path}: it has more than {MOST_OCTETS} octets"
                ),
            );
            Err(status)
        }
        Err(e) if e.kind() == ErrorKind::OutOfMemory => Err(tell_on(out, CommandFault::Memory)),
        Err(e) => {
            let status = tell_on(out, CommandFault::Read);
            complain(rt, format!(in rt.alloc(); "error: cannot read {path}: {e}"));
            Err(status)
        }
    }
}

/// Returns how the progress of a run is shown: on one line of a terminal, else on a line each second if `--progress` is
/// present.
fn shown_on(is_terminal: bool, is_asked_for: bool) -> Shown {
    if is_terminal {
        Shown::OneLine
    } else if is_asked_for {
        Shown::Lines
    } else {
        Shown::Never
    }
}

/// Returns whether a loss changes the exit status.
fn strictness_of(is_strict: bool) -> Strictness {
    if is_strict {
        Strictness::Strict
    } else {
        Strictness::Lenient
    }
}

/// Returns the settings of a run that are not in its plan file.
fn settings_of(options: &RunOptions, input: Option<OwnedFd>) -> RunSettings<'_> {
    RunSettings {
        plan: options.path.as_str(),
        control: match &options.control {
            Some(path) => Some(path.as_str()),
            None => None,
        },
        settles: options.settles,
        linger: options.linger,
        allows_network: options.allows_network,
        input,
    }
}

/// Creates the counters of a run.
///
/// # Errors
///
/// `AllocError` if an allocation failed.
fn new_traffic(alloc: Global) -> Result<Arc<Traffic, Global>, AllocError> {
    let traffic = Traffic::new(alloc)?;
    Ok(Arc::new(alloc, traffic)?)
}

/// Runs the network of a plan file, and prints the report in the form of the options. A JSON document also has what is
/// reported on `errors`: losses, paths that could not be used, and warnings. If the form is a table, `errors` has how a
/// run ended that was neither drained nor stopped. Returns the exit status.
fn run<R, E: Write>(
    rt: &R,
    options: &RunOptions,
    shown: Shown,
    input: Option<OwnedFd>,
    errors: &mut E,
) -> ExitCode
where
    R: Files<File = File>
        + Net<Listener = TcpListener, Stream = TcpStream>
        + Threads
        + Wait
        + Clock
        + Print
        + Eprint
        + AllocGlobal
        + Sync,
{
    let mut out = Output::new(rt, options.format, head("run", options.path.as_str()));
    let mut noted = Noted::new(rt.alloc(), errors);
    let told = run_on(rt, options, shown, input, &mut out, &mut noted);
    let status = noted.end(options.format, &mut out, told);
    if let Some(line) = out.hidden_end() {
        let _ = noted.write_all(line.as_bytes());
        let _ = noted.write_all("\n".as_bytes());
    }
    out.end(&RUN, Some(&COUNTS), status)
}

/// Runs the network of a plan file, and writes the report. Shows progress on standard error as `shown` says. Returns
/// the exit status.
fn run_on<R, W: Write, E: Write>(
    rt: &R,
    options: &RunOptions,
    shown: Shown,
    input: Option<OwnedFd>,
    out: &mut W,
    errors: &mut E,
) -> ExitCode
where
    R: Files<File = File>
        + Net<Listener = TcpListener, Stream = TcpStream>
        + Threads
        + Wait
        + Clock
        + Eprint
        + AllocGlobal
        + Sync,
{
    let file = match contents(rt, options.path.as_str(), out) {
        Ok(file) => file,
        Err(status) => return status,
    };
    let Ok(traffic) = new_traffic(rt.alloc()) else {
        return tell_on(out, CommandFault::Memory);
    };
    let Ok(counted) = Arc::try_clone(&traffic) else {
        return tell_on(out, CommandFault::Memory);
    };
    let progress = RunMonitor::new(rt, counted, shown, options.seconds);
    match run_network(
        rt,
        rt.alloc(),
        file.as_slice(),
        strictness_of(options.strict),
        &settings_of(options, input),
        &traffic,
        &progress,
        out,
        errors,
    ) {
        Ok(status) => ended(rt, options.path.as_str(), file.as_slice(), status),
        Err(fault) => tell_on(out, fault),
    }
}

/// Returns the exit status of a command over a plan file. If the plan is refused, prints its first error on standard
/// error.
fn ended(rt: &(impl Eprint + AllocGlobal), path: &str, file: &[u8], status: u8) -> ExitCode {
    if status == REFUSED {
        print_errors(rt, path, file, false);
    }
    ExitCode::from(status)
}

/// Prints how frames for reserved group addresses are handled. Returns the exit status.
fn show(rt: &impl Print) -> ExitCode {
    match run_show(&mut io::writer(rt)) {
        Err(fault) => tell(rt, fault),
        Ok(()) => ExitCode::SUCCESS,
    }
}

/// Prints a starter plan. Returns the exit status.
fn init(rt: &(impl Print + AllocGlobal), options: InitOptions) -> ExitCode {
    let topology = match options.network {
        InitNetwork::Line(bridges) => Topology::Line(bridges),
        InitNetwork::Ring(bridges) => Topology::Ring(bridges),
        InitNetwork::Star(bridges) => Topology::Star(bridges),
        InitNetwork::DualHomed(access) => Topology::DualHomed(access),
    };
    match write_plan(rt.alloc(), topology, options.services, &mut io::writer(rt)) {
        Err(fault) => tell(rt, fault),
        Ok(()) => ExitCode::SUCCESS,
    }
}
