//! The command `survive`.

use crate::accept::{AcceptEnd, acceptances_of};
use crate::downs::refuse_down;
use crate::formatted::{Output, head};
use crate::looks::Looks;
use crate::telling::{WRONG_ARGUMENTS, tell_on};
use crate::{REFUSED, contents, ended};
use pb_accept::Acceptance;
use pb_cli::{ReportFormat, SurviveOptions, SurviveScope};
use pb_cmd_survive::{Asked, Kinds, Scope, SurviveEnd, run_survive};
use pb_export::{FAILURES, SURVIVE, SURVIVE_BESIDE};
use std::fs::Files;
use std::io::Write;
use std::process::ExitCode;
use std::thread::Threads;
use std::time::Clock;

/// The exit status if the network does not survive.
const PARTED: u8 = 4;

/// Returns the services that are analysed.
fn scope_of(scope: &SurviveScope) -> Scope<'_> {
    match scope {
        SurviveScope::All => Scope::All,
        SurviveScope::Service(name) => Scope::Service(name.as_str()),
        SurviveScope::From(name) => Scope::From(name.as_str()),
    }
}

/// Fails the links of the network of a plan file in turn and prints the report, in the form of the options. Shows
/// progress on standard error if `is_shown`. Returns the exit status.
pub(crate) fn tell_survivals<R: Files + Threads + Clock + Print + Eprint + AllocGlobal + Sync>(
    rt: &R,
    options: &SurviveOptions,
    is_shown: bool,
) -> ExitCode {
    let mut out = Output::new(rt, options.format, head("survive", options.path.as_str()));
    match tell_survivals_on(rt, options, is_shown, &mut out) {
        Ok(status) if options.downs.is_empty() => end_calm(out, status),
        Ok(status) => end_impaired(out, status),
        Err(status) => status,
    }
}

/// Prints the document of a report on a network with nothing down at the start, if its form is not text. Returns the
/// exit status of the command.
fn end_calm<R: Print + AllocGlobal>(out: Output<'_, R>, status: ExitCode) -> ExitCode {
    out.end(&SURVIVE, Some(&FAILURES), status)
}

/// Prints the document of a report on a network with something down at the start, if its form is not text. Returns the
/// exit status of the command.
fn end_impaired<R: Print + AllocGlobal>(out: Output<'_, R>, status: ExitCode) -> ExitCode {
    out.end(&SURVIVE_BESIDE, Some(&FAILURES), status)
}

/// Returns what is asked for, with these acceptances.
fn asked_of<'a>(options: &'a SurviveOptions, accepted: &'a [Acceptance]) -> Asked<'a> {
    Asked {
        kinds: Kinds {
            bridges: options.bridges,
            pairs: options.pairs,
        },
        scope: scope_of(&options.scope),
        downs: options.downs.as_slice(),
        own: options.own,
        all: options.all_failures || options.format == ReportFormat::Json,
        ticks: options.ticks,
        accepted,
        strict: options.strict,
        as_tables: options.prints_accept,
    }
}

/// Writes the report on the network of a plan file under failures. Returns the exit status.
///
/// # Errors
///
/// The exit status 2, after a message, if the file of `--accept` or a name of `--down` is refused. Nothing was written
/// then.
fn tell_survivals_on<R, W: Write>(
    rt: &R,
    options: &SurviveOptions,
    is_shown: bool,
    out: &mut W,
) -> Result<ExitCode, ExitCode>
where
    R: Files + Threads + Clock + Eprint + AllocGlobal + Sync,
{
    let path = options.path.as_str();
    let file = match contents(rt, path, out) {
        Ok(file) => file,
        Err(status) => return Ok(status),
    };
    let accepted = match acceptances_of(rt, path, file.as_slice(), options.accept.as_ref(), out) {
        Ok(accepted) => accepted,
        Err(AcceptEnd::Told(status)) => return Ok(status),
        Err(AcceptEnd::Refused(status)) => return Err(status),
    };
    let asked = asked_of(options, accepted.as_slice());
    let looks = Looks::new(rt, "survive", is_shown);
    match run_survive(rt, rt.alloc(), file.as_slice(), &asked, &looks, out) {
        Err(fault) => Ok(tell_on(out, fault)),
        Ok(SurviveEnd::Survives) => Ok(ExitCode::SUCCESS),
        Ok(SurviveEnd::Parted) => Ok(ExitCode::from(PARTED)),
        Ok(SurviveEnd::Lacking) => Ok(ExitCode::from(WRONG_ARGUMENTS)),
        Ok(SurviveEnd::Refused) => Ok(ended(rt, path, file.as_slice(), REFUSED)),
        Ok(SurviveEnd::NoDown(fault)) => Err(refuse_down(rt, file.as_slice(), asked.downs, fault)),
    }
}
