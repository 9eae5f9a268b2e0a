//! The command `report`.

ghost use Rattle.std.specs.Prelude.{◌≡◌, ◌≢◌, ◌++◌, List, ℕ, [], Some, string_bytes, IfOk, IfErr, OnOk};
ghost use Rattle.std.specs.Io.KnownBytes.{Appends, Keeps};
ghost use Rattle.pb_cmd_survive.specs.Impacts.{IsStanding};
ghost use Rattle.pb_cmd_survive.specs.Survivals.{most_events};
ghost use Rattle.pb_lan.specs.Plans.{IsSound};
ghost use Rattle.pb_report.specs.PlanFiles.{IsToldBy};
ghost use Rattle.pb_cmd_report.specs.Pages.{IsPage, IsPageOn, IsPageFrom, IsTextFrom, IsReportText};

use crate::analysis::{look_at, look_at_all};
use crate::asked::{Asked, OldPlan};
use crate::change::change_of;
use crate::end::ReportEnd;
use crate::page::put_page;
use crate::raise::raise_whole;
use pb_cmd_survive::{Failure, FailureProgress, Standing, all_services, failures};
use pb_converge::{DriveFault, fault_of};
use pb_frame::Memory;
use pb_lan::Plan;
use pb_messages::{CommandFault, write_whole};
use pb_report::put_refusal;
use pb_service::{PlanFault, read_plan};
use std::alloc::Global;
use std::io::Write;
use std::thread::Threads;

/// Analyses a network that is up, with nothing down and under each failure, and appends the page with a text about a
/// change or none.
fn put_looks<R: Threads + Sync, V: FailureProgress>(
    rt: &R,
    alloc: Global,
    out: &mut String,
    standing: &Standing<'_>,
    source: &str,
    change: &str,
    asked: &Asked<'_>,
    progress: &V,
) -> Result<(), DriveFault>
    requires { IsStanding standing.now }
    ensures { OnOk result ((text : List ℕ) × (string_bytes out.new ≡ string_bytes out.old ++ text)
        × IsPageOn standing.now source.now change.now asked.now text) }
{
    let plan = standing.plan;
    let services = all_services(alloc, plan)?;
    let failures = failures(alloc, plan, asked.kinds)?;
    let base = look_at(alloc, standing, services.as_slice(), Failure::Nothing)?;
    let analyses = look_at_all(
        rt,
        alloc,
        standing,
        services.as_slice(),
        failures.as_slice(),
        progress,
    )?;
    let analyses = analyses.as_slice();
    put_page(
        alloc,
        out,
        standing,
        asked.title,
        source,
        change,
        &base,
        analyses,
    )?;
    Ok(())
}

/// Brings a plan's network up with nothing down, analyses it, and appends the page.
fn put_plan<R: Threads + Sync, V: FailureProgress>(
    rt: &R,
    alloc: Global,
    out: &mut String,
    plan: &Plan,
    source: &str,
    change: &str,
    asked: &Asked<'_>,
    progress: &V,
) -> Result<(), DriveFault>
    requires { IsSound plan.now }
    ensures { OnOk result ((text : List ℕ) × (string_bytes out.new ≡ string_bytes out.old ++ text)
        × IsPage plan.now [] asked.now.ticks most_events source.now change.now asked.now text) }
{
    let none: Vec<String> = Vec::new(alloc);
    let standing = raise_whole(alloc, plan, none.as_slice(), asked.ticks)?;
    put_looks(rt, alloc, out, &standing, source, change, asked, progress)
}

/// Appends the page on a plan, with a text about a change or none. Returns how the command ends.
fn put_whole<R: Threads + Sync, V: FailureProgress>(
    rt: &R,
    alloc: Global,
    out: &mut String,
    plan: &Plan,
    source: &str,
    change: &str,
    asked: &Asked<'_>,
    progress: &V,
) -> Result<ReportEnd, CommandFault>
    requires { IsSound plan.now }
    ensures ok { IfOk result (λ end. (text : List ℕ) × (string_bytes out.new ≡ string_bytes out.old ++ text)
        × IsPage plan.now [] asked.now.ticks most_events source.now change.now asked.now text
        × (end ≡ ReportEnd.Written)) }
    ensures kinds { IfErr result (λ e. e ≢ CommandFault.Read) }
{
    match put_plan(rt, alloc, out, plan, source, change, asked, progress) {
        Ok(()) => Ok(ReportEnd::Written),
        Err(fault) => Err(fault_of(fault)),
    }
}

/// Appends the page on a plan, and on the change from a plan which is in an old file. Returns how the command ends.
fn put_compared<R: Threads + Sync, V: FailureProgress>(
    rt: &R,
    alloc: Global,
    out: &mut String,
    plan: &Plan,
    source: &str,
    before: &Plan,
    old: OldPlan<'_>,
    asked: &Asked<'_>,
    progress: &V,
) -> Result<ReportEnd, CommandFault>
    requires plan { IsSound plan.now }
    requires before { IsSound before.now }
    requires told { IsToldBy old.file.now before.now }
    ensures ok { IfOk result (λ end. (text : List ℕ) × (string_bytes out.new ≡ string_bytes out.old ++ text)
        × IsPageFrom (Some old.entry) plan.now source.now asked.now end text) }
    ensures kinds { IfErr result (λ e. e ≢ CommandFault.Read) }
{
    let change = change_of(rt, alloc, before, old, source.as_bytes(), asked)?;
    put_whole(
        rt,
        alloc,
        out,
        plan,
        source,
        change.as_str(),
        asked,
        progress,
    )
}

/// Appends the page on a plan, and on the change from that in an old file; or the rule that the old file breaks.
/// Returns how the command ends.
fn put_changed<R: Threads + Sync, V: FailureProgress>(
    rt: &R,
    alloc: Global,
    out: &mut String,
    plan: &Plan,
    source: &str,
    old: OldPlan<'_>,
    asked: &Asked<'_>,
    progress: &V,
) -> Result<ReportEnd, CommandFault>
    requires { IsSound plan.now }
    ensures ok { IfOk result (λ end. (text : List ℕ) × (string_bytes out.new ≡ string_bytes out.old ++ text)
        × IsTextFrom (Some old.entry) plan.now source.now asked.now end text) }
    ensures kinds { IfErr result (λ e. e ≢ CommandFault.Read) }
{
    match read_plan(alloc, old.file) {
        Ok((before, _ports)) => {
            put_compared(rt, alloc, out, plan, source, &before, old, asked, progress)
        }
        Err(fault) => {
            put_refusal(out, &fault)?;
            Ok(ReportEnd::OldRefused)
        }
    }
}

/// Appends the page on a plan and on a change, if one is asked for; or the rule that the old file breaks. Returns how
/// the command ends.
fn put_from<R: Threads + Sync, V: FailureProgress>(
    rt: &R,
    alloc: Global,
    out: &mut String,
    plan: &Plan,
    source: &str,
    asked: &Asked<'_>,
    progress: &V,
) -> Result<ReportEnd, CommandFault>
    requires { IsSound plan.now }
    ensures ok { IfOk result (λ end. (text : List ℕ) × (string_bytes out.new ≡ string_bytes out.old ++ text)
        × IsTextFrom asked.now.old plan.now source.now asked.now end text) }
    ensures kinds { IfErr result (λ e. e ≢ CommandFault.Read) }
{
    match asked.old {
        None => put_whole(rt, alloc, out, plan, source, "", asked, progress),
        Some(old) => put_changed(rt, alloc, out, plan, source, old, asked, progress),
    }
}

/// Appends the page on the plan in a file with this text, or the rule that a file breaks. Returns how the command ends.
fn put_text<R: Threads + Sync, V: FailureProgress>(
    rt: &R,
    alloc: Global,
    out: &mut String,
    source: &str,
    asked: &Asked<'_>,
    progress: &V,
) -> Result<ReportEnd, CommandFault>
    ensures ok { IfOk result (λ end. (text : List ℕ) × (string_bytes out.new ≡ string_bytes out.old ++ text)
        × IsReportText source.now asked.now end text) }
    ensures kinds { IfErr result (λ e. e ≢ CommandFault.Read) }
{
    match read_plan(alloc, source.as_bytes()) {
        Ok((plan, _ports)) => put_from(rt, alloc, out, &plan, source, asked, progress),
        Err(fault) => {
            put_refusal(out, &fault)?;
            Ok(ReportEnd::Refused)
        }
    }
}

/// Appends the page on a plan file, or the rule that a file breaks. Returns how the command ends.
fn put_report<R: Threads + Sync, V: FailureProgress>(
    rt: &R,
    alloc: Global,
    out: &mut String,
    file: &[u8],
    asked: &Asked<'_>,
    progress: &V,
) -> Result<ReportEnd, CommandFault>
    ensures ok { IfOk result (λ end. (text : List ℕ) × (string_bytes out.new ≡ string_bytes out.old ++ text)
        × IsReportText file.now asked.now end text) }
    ensures kinds { IfErr result (λ e. e ≢ CommandFault.Read) }
{
    match std::str::from_utf8(file) {
        Ok(source) => put_text(rt, alloc, out, source, asked, progress),
        Err(_) => {
            put_refusal(out, &PlanFault::Utf8)?;
            Ok(ReportEnd::Refused)
        }
    }
}

/// Reads a plan file, and writes one page in HTML about its network and what failures do to it, by one `write_all`.
/// Returns how the command ends.
///
/// The page has all that it needs: no address, and no file beside it. It holds the picture of the network with nothing
/// down as [`pb_cmd_draw::put_svg`] draws it, and as rows of tables, each once: nothing down and then each failure of
/// `asked.kinds` in the order of [`failures`], with what [`pb_cmd_survive::look_at`] returns for it; each service and
/// each customer port in the plan's order; and each port to another bridge with its role and state. The text of the
/// plan file comes last. With `asked.old`, what [`run_diff`](pb_cmd_diff::run_diff) writes for the two files and the
/// picture of the old network with nothing down follow the first picture. A script of the page redraws that one for a
/// failure that the reader chooses. Texts of the plan and the titles are escaped. `progress.looked` is called after
/// each failure of the plan, and `progress.close` once, before anything is written, whatever the result.
///
/// If the file is not a valid plan, the line `plan: N WORD` is written, as `check` prints it, and `Refused` is
/// returned. If only the old file is not, its line is written, and `OldRefused` is returned.
///
/// # Errors
///
/// `Memory` if an allocation failed, also in a bridge, which then drops what it can't store. Else `Steps` if a place
/// would take more steps than its plan allows or more than 1,000,000,000 events besides ticks are due until
/// convergence. Nothing was written then. `Write` if a write failed; what was written is unknown then. `Read` never
/// comes.
pub fn run_report<R: Threads + Sync, V: FailureProgress, W: Write>(
    rt: &R,
    alloc: Global,
    file: &[u8],
    asked: &Asked<'_>,
    progress: &V,
    writer: &mut W,
) -> Result<ReportEnd, CommandFault>
    ensures ok { IfOk result (λ end. (text : List ℕ) × Appends (W.contents writer.old) (W.contents writer.new) text
        × IsReportText file.now asked.now end text) }
    ensures kinds { IfErr result (λ e. e ≢ CommandFault.Read) }
    ensures none { IfErr result (λ e. e ≢ CommandFault.Write → Keeps (W.contents writer.old) (W.contents writer.new)) }
{
    let mut out = String::new(alloc);
    let told = put_report(rt, alloc, &mut out, file, asked, progress);
    progress.close();
    let end = told?;
    write_whole(writer, out.as_bytes())?;
    Ok(end)
}
