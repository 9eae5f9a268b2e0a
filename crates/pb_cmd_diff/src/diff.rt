//! The command `diff`.

ghost use Rattle.std.specs.Prelude.{◌≡◌, ◌≢◌, ◌⊎◌, ◌++◌, List, ℕ, [], true, string_bytes, IfOk, IfErr};
ghost use Rattle.std.specs.Io.KnownBytes.{Appends, Keeps};
ghost use Rattle.pb_lan.specs.Plans.{IsSound};
ghost use Rattle.pb_cmd_diff.specs.Cases.{calm};
ghost use Rattle.pb_cmd_diff.specs.Compared.{is_found};
ghost use Rattle.pb_cmd_diff.specs.Diffs.{end_of, IsComparedOn, IsReport, IsReportOn, IsPlansText};
ghost use Rattle.pb_cmd_diff.specs.Diffs.{IsNewText, IsDiffText};
ghost use Rattle.pb_cmd_diff.specs.Effects.{AreSides};
ghost use Rattle.pb_cmd_survive.specs.Impacts.{IsStanding};

use crate::case::{Case, cases};
use crate::compared::{Compared, is_found, old_services, put_no_such, services_in};
use crate::effect::{Effect, Sides, look_at_case, look_at_cases};
use crate::end::DiffEnd;
use crate::ends::ends_of;
use crate::report::put_report;
use crate::verdict::worsens;
use pb_cmd_survive::{Failure, FailureProgress, Kinds, Patience, Standing, raise};
use pb_converge::{DriveFault, fault_of};
use pb_frame::Memory;
use pb_lan::Plan;
use pb_messages::{CommandFault, write_whole};
use pb_report::put_refusal;
use pb_service::read_plan;
use std::alloc::Global;
use std::io::Write;
use std::thread::Threads;

/// The most events besides ticks until convergence.
const MOST_EVENTS: u64 = 1_000_000_000;

/// The options of the command.
#[derive(Clone, Copy)]
pub struct Asked<'a> {
    /// The kinds of failures that are compared besides those of each single link.
    pub kinds: Kinds,
    /// The services to compare.
    pub compared: Compared<'a>,
    /// The most ticks of each bridge until convergence.
    pub ticks: u32,
    /// Whether each failure has a line.
    pub all: bool,
}

/// Returns the case in which nothing fails in either plan.
fn calm() -> Case
    ensures { result ≡ calm }
{
    Case {
        old: Failure::Nothing,
        new: Failure::Nothing,
        is_new: false,
    }
}

/// Returns how the command ends if something got worse, or nothing did.
fn end_of(worse: bool) -> DiffEnd
    ensures { result ≡ end_of worse }
{
    if worse { DiffEnd::Worse } else { DiffEnd::Kept }
}

/// Appends the report on two plans from their networks' effects. Returns how the command ends.
fn put_effects(
    alloc: Global,
    out: &mut String,
    sides: &Sides<'_>,
    base: &Effect,
    effects: &[Effect],
    all: bool,
) -> Result<DiffEnd, Memory>
    requires { AreSides sides.now }
    ensures { IfOk result (λ end. (text : List ℕ) × (string_bytes out.new ≡ string_bytes out.old ++ text)
        × IsComparedOn sides.now all base.now effects.now end text) }
{
    let olds = ends_of(alloc, sides.old)?;
    let news = ends_of(alloc, sides.new)?;
    put_report(
        alloc,
        out,
        sides.old.plan,
        sides.new.plan,
        base,
        effects,
        olds.as_slice(),
        news.as_slice(),
        all,
    )?;
    Ok(end_of(worsens(base, effects)))
}

/// Compares two networks with nothing down and under each failure, and appends the report. Returns how the command
/// ends.
fn put_looks<R: Threads + Sync, V: FailureProgress>(
    rt: &R,
    alloc: Global,
    out: &mut String,
    sides: &Sides<'_>,
    asked: &Asked<'_>,
    progress: &V,
) -> Result<DiffEnd, DriveFault>
    requires sides { AreSides sides.now }
    ensures { IfOk result (λ end. (text : List ℕ) × (string_bytes out.new ≡ string_bytes out.old ++ text)
        × IsReportOn sides.now asked.now end text) }
{
    let cases = cases(alloc, sides.old.plan, sides.new.plan, asked.kinds)?;
    let base = look_at_case(alloc, sides, calm())?;
    let effects = look_at_cases(rt, alloc, sides, cases.as_slice(), progress)?;
    Ok(put_effects(alloc, out, sides, &base, effects.as_slice(), asked.all)?)
}

/// Brings the network of a plan up, with nothing down. Fails as [`raise`] does.
fn raise_whole<'a>(
    alloc: Global,
    plan: &'a Plan,
    none: &'a [String],
    patience: Patience,
) -> Result<Standing<'a>, DriveFault>
    requires sound { IsSound plan.now }
    requires none { none.now ≡ [] }
    ensures { IfOk result (λ s. (s.plan.now ≡ plan.now) × (s.names.now ≡ []) × (s.patience ≡ patience) × IsStanding s) }
{
    match raise(alloc, plan, none, patience)? {
        Ok(standing) => Ok(standing),
        Err(_) => unreachable!(),
    }
}

/// Brings the networks of two plans up, compares them, and appends the report. Returns how the command ends.
fn put_raised<R: Threads + Sync, V: FailureProgress>(
    rt: &R,
    alloc: Global,
    out: &mut String,
    old: &Plan,
    new: &Plan,
    asked: &Asked<'_>,
    progress: &V,
) -> Result<DiffEnd, DriveFault>
    requires old { IsSound old.now }
    requires new { IsSound new.now }
    requires found { is_found old.now new.now asked.now.compared ≡ true }
    ensures { IfOk result (λ end. (text : List ℕ) × (string_bytes out.new ≡ string_bytes out.old ++ text)
        × IsReport old.now new.now asked.now end text) }
{
    let olds = old_services(alloc, old, new, &asked.compared)?;
    let news = services_in(alloc, old, new, olds.as_slice())?;
    let patience = Patience {
        ticks: asked.ticks,
        events: MOST_EVENTS,
    };
    let none: Vec<String> = Vec::new(alloc);
    let old_up = raise_whole(alloc, old, none.as_slice(), patience)?;
    let new_up = raise_whole(alloc, new, none.as_slice(), patience)?;
    let sides = Sides {
        old: &old_up,
        new: &new_up,
        olds: olds.as_slice(),
        news: news.as_slice(),
    };
    put_looks(rt, alloc, out, &sides, asked, progress)
}

/// Appends the report on two plans, or that neither has the requested service. Returns how the command ends.
fn put_plans<R: Threads + Sync, V: FailureProgress>(
    rt: &R,
    alloc: Global,
    out: &mut String,
    old: &Plan,
    new: &Plan,
    asked: &Asked<'_>,
    progress: &V,
) -> Result<DiffEnd, DriveFault>
    requires old { IsSound old.now }
    requires new { IsSound new.now }
    ensures { IfOk result (λ end. (text : List ℕ) × (string_bytes out.new ≡ string_bytes out.old ++ text)
        × IsPlansText old.now new.now asked.now end text) }
{
    if is_found(old, new, &asked.compared) {
        return put_raised(rt, alloc, out, old, new, asked, progress);
    }
    put_no_such(out, &asked.compared)?;
    Ok(DiffEnd::Lacking)
}

/// Appends the report on a plan and the plan in a file, or the rule that the file breaks. Returns how the command ends.
fn put_new<R: Threads + Sync, V: FailureProgress>(
    rt: &R,
    alloc: Global,
    out: &mut String,
    old: &Plan,
    new_file: &[u8],
    asked: &Asked<'_>,
    progress: &V,
) -> Result<DiffEnd, CommandFault>
    requires { IsSound old.now }
    ensures ok { IfOk result (λ end. (text : List ℕ) × (string_bytes out.new ≡ string_bytes out.old ++ text)
        × IsNewText old.now new_file.now asked.now end text) }
    ensures kinds { IfErr result (λ e. e ≢ CommandFault.Read) }
{
    match read_plan(alloc, new_file) {
        Ok((new, _ports)) => match put_plans(rt, alloc, out, old, &new, asked, progress) {
            Ok(end) => Ok(end),
            Err(fault) => Err(fault_of(fault)),
        },
        Err(fault) => {
            put_refusal(out, &fault)?;
            Ok(DiffEnd::NewRefused)
        }
    }
}

/// Appends the report on two plan files, or the rule that one of them breaks. Returns how the command ends.
fn put_diff<R: Threads + Sync, V: FailureProgress>(
    rt: &R,
    alloc: Global,
    out: &mut String,
    old_file: &[u8],
    new_file: &[u8],
    asked: &Asked<'_>,
    progress: &V,
) -> Result<DiffEnd, CommandFault>
    ensures ok { IfOk result (λ end. (text : List ℕ) × (string_bytes out.new ≡ string_bytes out.old ++ text)
        × IsDiffText old_file.now new_file.now asked.now end text) }
    ensures kinds { IfErr result (λ e. e ≢ CommandFault.Read) }
{
    match read_plan(alloc, old_file) {
        Ok((old, _ports)) => put_new(rt, alloc, out, &old, new_file, asked, progress),
        Err(fault) => {
            put_refusal(out, &fault)?;
            Ok(DiffEnd::OldRefused)
        }
    }
}

/// Reads two plan files, OLD and NEW, and writes a report on what the change from one to the other does, by one
/// `write_all`. Returns how the command ends.
///
/// The report is that of [`put_report`], and the same each time. [`look_at_case`] compares the networks with nothing
/// down, and [`look_at_cases`] under each failure of either plan, in parallel. `progress.looked` is called after each
/// failure, and `progress.close` once, before anything is written, whatever the result.
///
/// | Result | When | Text |
/// |---|---|---|
/// | `Kept` | nothing got worse | the report |
/// | `Worse` | something got worse, with nothing down or under a failure | the report |
/// | `Lacking` | neither plan has the requested service | `no such service NAME` |
/// | `OldRefused`, `NewRefused` | that file is not a valid plan | `plan: N WORD`, as `check` prints it |
///
/// # Errors
///
/// `Memory` if an allocation failed, also in a bridge, which then drops what it can't store. Else `Steps` if a place
/// would take more steps than its plan allows or more than 1,000,000,000 events besides ticks are due until
/// convergence. Nothing was written then. `Write` if a write failed; what was written is unknown then. `Read` never
/// comes.
pub fn run_diff<R: Threads + Sync, V: FailureProgress, W: Write>(
    rt: &R,
    alloc: Global,
    old_file: &[u8],
    new_file: &[u8],
    asked: &Asked<'_>,
    progress: &V,
    writer: &mut W,
) -> Result<DiffEnd, CommandFault>
    ensures ok { IfOk result (λ end. (text : List ℕ) × Appends (W.contents writer.old) (W.contents writer.new) text
        × IsDiffText old_file.now new_file.now asked.now end text) }
    ensures kinds { IfErr result (λ e. e ≢ CommandFault.Read) }
    ensures none { IfErr result (λ e. e ≢ CommandFault.Write → Keeps (W.contents writer.old) (W.contents writer.new)) }
{
    let mut out = String::new(alloc);
    let told = put_diff(rt, alloc, &mut out, old_file, new_file, asked, progress);
    progress.close();
    let end = told?;
    write_whole(writer, out.as_bytes())?;
    Ok(end)
}
