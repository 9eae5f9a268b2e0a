//! The acceptances of `survive`: those of the plan file, and those of a file of their own.

ghost use Rattle.pb_lan.specs.Plans.{IsSound};

use crate::messages::complain;
use crate::refusal::print_fault;
use crate::telling::{WRONG_ARGUMENTS, tell_on};
use crate::{REFUSED, contents};
use pb_accept::{AcceptFault, Acceptance, Part, read_accept_file, read_acceptances};
use pb_converge::suggestion;
use pb_frame::Text;
use pb_lan::Plan;
use pb_messages::CommandFault;
use pb_plan_spans::{Spot, spot_of};
use pb_report::write_refusal;
use pb_service::{PlanFault, read_plan};
use std::alloc::{AllocError, Global};
use std::fs::Files;
use std::io::Write;
use std::process::ExitCode;

/// The end of a command whose acceptances are refused.
#[derive(Drop)]
pub(crate) enum AcceptEnd {
    /// A line on standard output said why. This is the exit status.
    Told(ExitCode),
    /// Standard error alone said why. This is the exit status.
    Refused(ExitCode),
}

/// Returns the line of the table that a fault is about, or the octet at which the file breaks a rule, if it is known.
fn spot_in(alloc: Global, file: &[u8], fault: &AcceptFault) -> Option<Spot> {
    match fault {
        AcceptFault::Rule(fault) => spot_of(alloc, file, fault),
        AcceptFault::NoSuch {
            index,
            part: _,
            name: _,
        } => {
            let path = format!(in alloc; "accept[{index}].link").ok()?;
            spot_of(alloc, file, &PlanFault::Range(Text::from_string(path)))
        }
    }
}

/// Returns the words on the place of a fault, which are empty if the place is unknown.
fn place_words(alloc: Global, spot: Option<Spot>) -> Result<String, AllocError> {
    match spot {
        Some(spot) => format!(in alloc; " at {spot}"),
        None => Ok(String::new(alloc)),
    }
}

/// Returns the word for a kind of parts.
fn part_word(part: Part) -> &'static str {
    match part {
        Part::Link => "link",
        Part::Bridge => "bridge",
        Part::Service => "service",
    }
}

/// Checks whether the plan has a part of this kind with this name.
fn is_part(plan: &Plan, part: Part, name: &str) -> bool {
    match part {
        Part::Link => plan
            .links
            .as_slice()
            .iter()
            .any(|link| name == link.name.as_str()),
        Part::Bridge => plan
            .bridges
            .as_slice()
            .iter()
            .any(|bridge| name == bridge.name.as_str()),
        Part::Service => false,
    }
}

/// Returns the words on the part of this kind that a wrong name probably means, which are empty if there is none.
fn suggestion_words(
    alloc: Global,
    plan: &Plan,
    part: Part,
    name: &str,
) -> Result<String, AllocError> {
    match suggestion(alloc, plan, name) {
        Ok(Some(near)) if is_part(plan, part, near.as_str()) => {
            format!(in alloc; "; did you mean \"{near}\"?")
        }
        _ => Ok(String::new(alloc)),
    }
}

/// Reports that a file names a part that the plan lacks, and the name that was probably meant.
///
/// # Errors
///
/// `AllocError` if an allocation failed. Nothing was printed then.
fn report_unknown(
    rt: &(impl Eprint + AllocGlobal),
    path: &str,
    plan: &Plan,
    (part, name): (Part, &str),
    spot: Option<Spot>,
) -> Result<(), AllocError> {
    let place = place_words(rt.alloc(), spot)?;
    let hint = suggestion_words(rt.alloc(), plan, part, name)?;
    let word = part_word(part);
    let message = format!(in rt.alloc(); "error: {path}: no {word} named \"{name}\"{place}{hint}")?;
    complain(rt, Ok(message));
    Ok(())
}

/// Reports which rule a file of acceptances breaks.
///
/// # Errors
///
/// `AllocError` if an allocation failed. Nothing was printed then.
fn report_rule(
    rt: &(impl Eprint + AllocGlobal),
    path: &str,
    fault: &PlanFault,
    spot: Option<Spot>,
) -> Result<(), AllocError> {
    let place = place_words(rt.alloc(), spot)?;
    let message = format!(in rt.alloc(); "error: {path}: {fault}{place}")?;
    complain(rt, Ok(message));
    Ok(())
}

/// Reports why a file of acceptances is refused. Returns the exit status 2, or 3 after a line `fault: memory`.
fn refuse_file<W: Write>(
    rt: &(impl Eprint + AllocGlobal),
    path: &str,
    file: &[u8],
    plan: &Plan,
    fault: &AcceptFault,
    out: &mut W,
) -> AcceptEnd {
    let spot = spot_in(rt.alloc(), file, fault);
    let reported = match fault {
        AcceptFault::Rule(PlanFault::Memory) => Err(AllocError),
        AcceptFault::Rule(rule) => report_rule(rt, path, rule, spot),
        AcceptFault::NoSuch {
            index: _,
            part,
            name,
        } => report_unknown(rt, path, plan, (*part, name.as_str()), spot),
    };
    match reported {
        Ok(()) => AcceptEnd::Refused(ExitCode::from(WRONG_ARGUMENTS)),
        Err(_) => AcceptEnd::Told(tell_on(out, CommandFault::Memory)),
    }
}

/// Writes why a plan file is refused for one of its acceptances, and reports where. Returns the exit status 1, or 3
/// after a line `fault:`.
fn refuse_plan<W: Write>(
    rt: &(impl Eprint + AllocGlobal),
    path: &str,
    file: &[u8],
    fault: AcceptFault,
    out: &mut W,
) -> AcceptEnd {
    let fault = fault.into_plan_fault();
    if fault == PlanFault::Memory {
        return AcceptEnd::Told(tell_on(out, CommandFault::Memory));
    }
    if let Err(fault) = write_refusal(rt.alloc(), &fault, out) {
        return AcceptEnd::Told(tell_on(out, fault));
    }
    print_fault(rt, path, file, &fault);
    AcceptEnd::Told(ExitCode::from(REFUSED))
}

/// Appends the acceptances of a file of their own.
///
/// # Errors
///
/// The end of the command, if the file cannot be read or is refused, or an allocation failed.
fn put_file<R: Files + Eprint + AllocGlobal, W: Write>(
    rt: &R,
    path: &str,
    plan: &Plan,
    acceptances: &mut Vec<Acceptance>,
    out: &mut W,
) -> Result<(), AcceptEnd>
    requires { IsSound plan.now }
{
    let file = match contents(rt, path, out) {
        Ok(file) => file,
        Err(status) => return Err(AcceptEnd::Told(status)),
    };
    match read_accept_file(rt.alloc(), plan, file.as_slice()) {
        Err(fault) => Err(refuse_file(rt, path, file.as_slice(), plan, &fault, out)),
        Ok(more) => match acceptances.extend_from_slice(more.as_slice()) {
            Ok(()) => Ok(()),
            Err(_) => Err(AcceptEnd::Told(tell_on(out, CommandFault::Memory))),
        },
    }
}

/// Returns the acceptances of a plan file, followed by those of the file at another path if there is one. A file that
/// is no plan has none.
///
/// # Errors
///
/// The end of the command, if a file is refused or cannot be read, or an allocation failed.
pub(crate) fn acceptances_of<R: Files + Eprint + AllocGlobal, W: Write>(
    rt: &R,
    path: &str,
    file: &[u8],
    beside: Option<&String>,
    out: &mut W,
) -> Result<Vec<Acceptance>, AcceptEnd> {
    let plan = match read_plan(rt.alloc(), file) {
        Ok((plan, _ports)) => plan,
        Err(PlanFault::Memory) => return Err(AcceptEnd::Told(tell_on(out, CommandFault::Memory))),
        Err(_) => return Ok(Vec::new(rt.alloc())),
    };
    let mut acceptances = match read_acceptances(rt.alloc(), &plan, file) {
        Ok(acceptances) => acceptances,
        Err(fault) => return Err(refuse_plan(rt, path, file, fault, out)),
    };
    if let Some(beside) = beside {
        put_file(rt, beside.as_str(), &plan, &mut acceptances, out)?;
    }
    Ok(acceptances)
}
