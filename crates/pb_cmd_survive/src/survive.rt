//! The command `survive`.

ghost use Rattle.std.specs.Prelude.{◌≡◌, ◌≢◌, ◌⊎◌, ◌++◌, List, ℕ, string_bytes, IfOk, OnOk, IfErr};
ghost use Rattle.std.specs.Io.KnownBytes.{Appends, Keeps};
ghost use Rattle.pb_lan.specs.Plans.{IsSound};
ghost use Rattle.pb_cmd_survive.specs.Scopes.{is_found};
ghost use Rattle.std.specs.Prelude.{true};
ghost use Rattle.pb_cmd_survive.specs.Impacts.{IsStanding};
ghost use Rattle.pb_cmd_survive.specs.Reports.{downs_line, names_text};
ghost use Rattle.pb_cmd_survive.specs.Survivals.{IsReport, IsReportOn, IsLacking, IsSurviveText, end_of, criteria_of};
ghost use Rattle.pb_cmd_survive.specs.Survivals.{passes, said_text};

use crate::criteria::Criteria;
use crate::end::SurviveEnd;
use crate::failure::{Failure, Kinds, failures};
use crate::impact::Impact;
use crate::judgement::{are_current, survives};
use crate::look::{look_at, look_at_all};
use crate::progress::FailureProgress;
use crate::report::put_report;
use crate::scope::{Scope, from_of, is_found, put_no_such, services_of};
use crate::standing::{Patience, Standing, raise};
use crate::tables::put_tables;
use pb_accept::Acceptance;
use pb_converge::{DriveFault, fault_of};
use pb_frame::Memory;
use pb_lan::Plan;
use pb_messages::{CommandFault, write_whole};
use pb_report::put_refusal;
use pb_service::read_plan;
use std::alloc::Global;
use std::io::Write;
use std::thread::Threads;

/// The most events besides ticks until convergence.
const MOST_EVENTS: u64 = 1_000_000_000;

/// The options of the command.
#[derive(Clone, Copy)]
pub struct Asked<'a> {
    /// The kinds of failures that are analysed besides those of each single link.
    pub kinds: Kinds,
    /// The services to analyse.
    pub scope: Scope<'a>,
    /// The names of what is down before anything fails: links, bridges, and ports as `BRIDGE:PORT`.
    pub downs: &'a [String],
    /// Whether the customer ports of a failed bridge count as disconnected too.
    pub own: bool,
    /// Whether harmless failures are reported too.
    pub all: bool,
    /// The most ticks of each bridge until convergence.
    pub ticks: u32,
    /// The disconnections that are accepted.
    pub accepted: &'a [Acceptance],
    /// Whether an acceptance that is stale changes the exit status.
    pub strict: bool,
    /// Whether the tables that accept what was found are written in place of the report.
    pub as_tables: bool,
}

/// Returns how the command ends for a network that passes or does not.
fn end_of(passed: bool) -> SurviveEnd
    ensures { result ≡ end_of passed }
{
    if passed {
        SurviveEnd::Survives
    } else {
        SurviveEnd::Parted
    }
}

/// Returns what counts as disconnected and which failures are reported, by the options.
fn criteria_of(plan: &Plan, asked: &Asked<'_>) -> Criteria
    requires { IsSound plan.now }
    ensures { result ≡ criteria_of plan.now asked.now }
{
    Criteria {
        from: from_of(plan, &asked.scope),
        own: asked.own,
        all: asked.all,
        impaired: !asked.downs.is_empty(),
    }
}

/// Checks whether the network survives, and no acceptance is stale if that is asked for.
fn passes(
    plan: &Plan,
    asked: &Asked<'_>,
    criteria: Criteria,
    base: &Impact,
    impacts: &[Impact],
) -> bool
    ensures { result ≡ passes plan.now asked.now criteria base.now impacts.now }
{
    survives(criteria, asked.accepted, base, impacts)
        && are_current(plan, criteria, asked.strict, asked.accepted, base, impacts)
}

/// Appends the line of what is down before anything fails, if anything is.
fn put_downs(out: &mut String, names: &[String]) -> Result<(), Memory>
    ensures { OnOk result (string_bytes out.new ≡ string_bytes out.old ++ downs_line names.now) }
{
    if names.is_empty() {
        return Ok(());
    }
    out.push_str("down:")?;
    put_names(out, names)?;
    out.push_str("\n")?;
    Ok(())
}

/// Appends names, each after a space.
fn put_names(out: &mut String, names: &[String]) -> Result<(), Memory>
    ensures { OnOk result (string_bytes out.new ≡ string_bytes out.old ++ names_text names.now) }
{
    for name in names {
        out.push_str(" ")?;
        out.push_str(name.as_str())?;
    }
    Ok(())
}

/// Appends the report, or in its place the tables that accept what was found.
fn put_said(
    out: &mut String,
    plan: &Plan,
    asked: &Asked<'_>,
    criteria: Criteria,
    base: &Impact,
    impacts: &[Impact],
) -> Result<(), Memory>
    ensures { OnOk result (string_bytes out.new ≡ string_bytes out.old
        ++ said_text plan.now asked.now criteria base.now impacts.now) }
{
    if asked.as_tables {
        return put_tables(out, plan, criteria, base, impacts);
    }
    put_downs(out, asked.downs)?;
    put_report(out, plan, criteria, asked.accepted, base, impacts)?;
    Ok(())
}

/// Analyses a network that is up, with nothing more down and under each failure, and appends the report. Returns how
/// the command ends.
fn put_looks<R: Threads + Sync, V: FailureProgress>(
    rt: &R,
    alloc: Global,
    out: &mut String,
    standing: &Standing<'_>,
    asked: &Asked<'_>,
    progress: &V,
) -> Result<SurviveEnd, DriveFault>
    requires up { IsStanding standing.now }
    requires found { is_found standing.now.plan.now asked.now.scope ≡ true }
    ensures { IfOk result (λ end. (text : List ℕ) × (string_bytes out.new ≡ string_bytes out.old ++ text)
        × IsReportOn standing.now asked.now end text) }
{
    let plan = standing.plan;
    let services = services_of(alloc, plan, &asked.scope)?;
    let failures = failures(alloc, plan, asked.kinds)?;
    let base = look_at(alloc, standing, services.as_slice(), Failure::Nothing)?;
    let impacts = look_at_all(
        rt,
        alloc,
        standing,
        services.as_slice(),
        failures.as_slice(),
        progress,
    )?;
    let criteria = criteria_of(plan, asked);
    let impacts = impacts.as_slice();
    put_said(out, plan, asked, criteria, &base, impacts)?;
    Ok(end_of(passes(plan, asked, criteria, &base, impacts)))
}

/// Brings a plan's network up, analyses it, and appends the report. Returns how the command ends. If a name of what is
/// to be down is refused, nothing is appended.
fn put_raised<R: Threads + Sync, V: FailureProgress>(
    rt: &R,
    alloc: Global,
    out: &mut String,
    plan: &Plan,
    asked: &Asked<'_>,
    progress: &V,
) -> Result<SurviveEnd, DriveFault>
    requires sound { IsSound plan.now }
    requires found { is_found plan.now asked.now.scope ≡ true }
    ensures { IfOk result (λ end. (text : List ℕ) × (string_bytes out.new ≡ string_bytes out.old ++ text)
        × IsReport plan.now asked.now end text) }
{
    let patience = Patience {
        ticks: asked.ticks,
        events: MOST_EVENTS,
    };
    match raise(alloc, plan, asked.downs, patience)? {
        Ok(standing) => put_looks(rt, alloc, out, &standing, asked, progress),
        Err(fault) => Ok(SurviveEnd::NoDown(fault)),
    }
}

/// Appends the report on a plan, or that it lacks the requested service or port. Returns how the command ends.
fn put_plan<R: Threads + Sync, V: FailureProgress>(
    rt: &R,
    alloc: Global,
    out: &mut String,
    plan: &Plan,
    asked: &Asked<'_>,
    progress: &V,
) -> Result<SurviveEnd, DriveFault>
    requires { IsSound plan.now }
    ensures { IfOk result (λ end. (text : List ℕ) × (string_bytes out.new ≡ string_bytes out.old ++ text)
        × (IsReport plan.now asked.now end text ⊎ IsLacking plan.now asked.now end text)) }
{
    if is_found(plan, &asked.scope) {
        return put_raised(rt, alloc, out, plan, asked, progress);
    }
    put_no_such(out, &asked.scope)?;
    Ok(SurviveEnd::Lacking)
}

/// Appends the report on a plan file, or the rule that it breaks. Returns how the command ends.
fn put_survive<R: Threads + Sync, V: FailureProgress>(
    rt: &R,
    alloc: Global,
    out: &mut String,
    file: &[u8],
    asked: &Asked<'_>,
    progress: &V,
) -> Result<SurviveEnd, CommandFault>
    ensures ok { IfOk result (λ end. (text : List ℕ) × (string_bytes out.new ≡ string_bytes out.old ++ text)
        × IsSurviveText file.now asked.now end text) }
    ensures kinds { IfErr result (λ e. e ≢ CommandFault.Read) }
{
    match read_plan(alloc, file) {
        Ok((plan, _ports)) => match put_plan(rt, alloc, out, &plan, asked, progress) {
            Ok(end) => Ok(end),
            Err(fault) => Err(fault_of(fault)),
        },
        Err(fault) => {
            put_refusal(out, &fault)?;
            Ok(SurviveEnd::Refused)
        }
    }
}

/// Reads a plan file, and writes a report on its network under failures, by one `write_all`. Returns how the command
/// ends.
///
/// What `asked.downs` names is down from the start. Each single link fails, and each single bridge and each two links
/// if `asked.kinds` has them. [`raise`] brings the network up, [`look_at`] analyses a failure, [`look_at_all`] analyses
/// several in parallel, and [`put_report`] makes the report, which is the same each time. `progress.looked` is called
/// after each failure, and `progress.close` once, before anything is written, whatever the result. If
/// `asked.as_tables` is set, the report is replaced by a table `accept` in TOML for each service that each failure
/// disconnects.
///
/// | Result | When | Text |
/// |---|---|---|
/// | `Survives` | the network is healthy, and no failure does harm that is not accepted | the report |
/// | `Parted` | the network does not survive, or an acceptance is stale and `asked.strict` is set | the report |
/// | `Lacking` | the plan lacks the service or port of the scope | `no such service NAME` or `no such port NAME` |
/// | `Refused` | the file is not a valid plan | `plan: N WORD`, as `check` prints it |
/// | `NoDown` | a name of `asked.downs` is unknown or ambiguous | none |
///
/// # Errors
///
/// `Memory` if an allocation failed, also in a bridge, which then drops what it can't store. Else `Steps` if a place
/// would take more steps than the plan allows or more than 1,000,000,000 events besides ticks are due until
/// convergence. Nothing was written then. `Write` if a write failed; what was written is unknown then. `Read` never
/// comes.
pub fn run_survive<R: Threads + Sync, V: FailureProgress, W: Write>(
    rt: &R,
    alloc: Global,
    file: &[u8],
    asked: &Asked<'_>,
    progress: &V,
    writer: &mut W,
) -> Result<SurviveEnd, CommandFault>
    ensures ok { IfOk result (λ end. (text : List ℕ) × Appends (W.contents writer.old) (W.contents writer.new) text
        × IsSurviveText file.now asked.now end text) }
    ensures kinds { IfErr result (λ e. e ≢ CommandFault.Read) }
    ensures none { IfErr result (λ e. e ≢ CommandFault.Write → Keeps (W.contents writer.old) (W.contents writer.new)) }
{
    let mut out = String::new(alloc);
    let told = put_survive(rt, alloc, &mut out, file, asked, progress);
    progress.close();
    let end = told?;
    write_whole(writer, out.as_bytes())?;
    Ok(end)
}
