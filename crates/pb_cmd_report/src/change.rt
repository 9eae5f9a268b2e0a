//! What a change from one plan to another does, and the network before it.

ghost use Rattle.std.specs.Prelude.{◌≡◌, ◌≢◌, ◌++◌, List, ℕ, [], string_bytes, IfOk, IfErr, OnOk};
ghost use Rattle.pb_cmd_survive.specs.Survivals.{most_events};
ghost use Rattle.pb_cmd_survive.specs.declared.failure.Failure.TheVariants.{Nothing};
ghost use Rattle.pb_lan.specs.Plans.{IsSound};
ghost use Rattle.pb_report.specs.PlanFiles.{IsToldBy};
ghost use Rattle.pb_cmd_report.specs.Changes.{comparing, has_compared, said_text, change_text, IsSaid};
ghost use Rattle.pb_cmd_report.specs.Changes.{IsCalmPicture, IsChangeText, IsChange};
ghost use Rattle.pb_cmd_report.specs.Html.{escaped};
ghost use Rattle.pb_cmd_report.specs.Analyses.{IsAnalysis};

use crate::analysis::{Analysis, look_at};
use crate::asked::{Asked, OldPlan};
use crate::html::put_escaped;
use crate::picture::put_picture;
use crate::raise::raise_whole;
use crate::texts::{AFTER_CHANGE, AFTER_OLD_TITLE, BEFORE_OLD_PICTURE, CHANGE};
use pb_cmd_diff::{Compared, DiffEnd, run_diff};
use pb_cmd_survive::{Failure, FailureProgress};
use pb_converge::{DriveFault, fault_of};
use pb_frame::Memory;
use pb_lan::Plan;
use pb_messages::CommandFault;
use std::alloc::Global;
use std::thread::Threads;

/// Progress that nobody sees.
#[derive(Clone, Copy)]
struct Unseen;

impl FailureProgress for Unseen {
    /// Does nothing.
    fn looked(&self, failures: usize) {
        let _failures = failures;
    }

    /// Does nothing.
    fn close(&self) {}
}

/// Returns the options of `diff`.
fn comparing(asked: &Asked<'_>) -> pb_cmd_diff::Asked<'static>
    ensures { result ≡ comparing asked.now }
{
    pb_cmd_diff::Asked {
        kinds: asked.kinds,
        compared: Compared::All,
        ticks: asked.ticks,
        all: false,
    }
}

/// Checks whether `diff` has compared the plans.
fn has_compared(end: DiffEnd) -> bool
    ensures { result ≡ has_compared end }
{
    match end {
        DiffEnd::Kept | DiffEnd::Worse => true,
        DiffEnd::Lacking | DiffEnd::OldRefused | DiffEnd::NewRefused => false,
    }
}

/// Returns the fault of `diff` over files in memory. A read or a write of them fails only if an allocation failed.
fn in_memory(fault: CommandFault) -> CommandFault
    ensures { result ≢ CommandFault.Read }
{
    match fault {
        CommandFault::Steps => CommandFault::Steps,
        CommandFault::Read | CommandFault::Write | CommandFault::Memory => CommandFault::Memory,
    }
}

/// Returns what `diff` prints for two files that have plans.
///
/// # Errors
///
/// `Steps` as [`run_diff`], and `Memory` if an allocation failed, also one for which a plan is refused.
fn said_of<R: Threads + Sync>(
    rt: &R,
    alloc: Global,
    old_file: &[u8],
    file: &[u8],
    asked: &Asked<'_>,
) -> Result<Vec<u8>, CommandFault>
    ensures ok { IfOk result (λ said. IsSaid old_file.now file.now asked.now said.items) }
    ensures kinds { IfErr result (λ e. e ≢ CommandFault.Read) }
{
    let options = comparing(asked);
    let mut said = Vec::new(alloc);
    match run_diff(rt, alloc, old_file, file, &options, &Unseen, &mut said) {
        Ok(end) => {
            if has_compared(end) {
                Ok(said)
            } else {
                Err(CommandFault::Memory)
            }
        }
        Err(fault) => Err(in_memory(fault)),
    }
}

/// Appends an escaped text. Fails with `Memory` if it is not UTF-8, which no command prints.
fn put_octets(out: &mut String, text: &[u8]) -> Result<(), Memory>
    ensures { OnOk result (string_bytes out.new ≡ string_bytes out.old ++ escaped text.now) }
{
    match std::str::from_utf8(text) {
        Ok(text) => put_escaped(out, text),
        Err(_) => Err(Memory),
    }
}

/// Appends the title of the old plan, and what `diff` prints.
fn put_said(out: &mut String, title: &str, said: &[u8]) -> Result<(), Memory>
    ensures { OnOk result (string_bytes out.new ≡ string_bytes out.old ++ said_text title.now said.now) }
{
    out.push_str(CHANGE)?;
    put_escaped(out, title)?;
    out.push_str(AFTER_OLD_TITLE)?;
    put_octets(out, said)?;
    out.push_str(BEFORE_OLD_PICTURE)?;
    Ok(())
}

/// Appends what `diff` prints, and the picture of the old network from its analysis with nothing down.
fn put_change(
    alloc: Global,
    out: &mut String,
    plan: &Plan,
    base: &Analysis,
    title: &str,
    said: &[u8],
) -> Result<(), Memory>
    requires { IsSound plan.now }
    ensures { OnOk result ((picture : List ℕ) × (string_bytes out.new ≡ string_bytes out.old
        ++ change_text title.now said.now picture)
        × IsCalmPicture plan.now base.now picture) }
{
    put_said(out, title, said)?;
    put_picture(alloc, out, plan, base)?;
    out.push_str(AFTER_CHANGE)?;
    Ok(())
}

/// Returns the analysis of the network of a plan with nothing down, without any services.
fn calm_of(alloc: Global, plan: &Plan, ticks: u32) -> Result<Analysis, DriveFault>
    requires { IsSound plan.now }
    ensures { IfOk result (IsAnalysis plan.now [] [] ticks most_events Nothing) }
{
    let none: Vec<String> = Vec::new(alloc);
    let standing = raise_whole(alloc, plan, none.as_slice(), ticks)?;
    look_at(alloc, &standing, &[], Failure::Nothing)
}

/// Returns the text about a change from a plan, of which `diff` prints this.
fn text_of(
    alloc: Global,
    plan: &Plan,
    title: &str,
    said: &[u8],
    ticks: u32,
) -> Result<String, DriveFault>
    requires { IsSound plan.now }
    ensures { IfOk result (λ text. IsChangeText plan.now title.now said.now ticks (string_bytes text)) }
{
    let base = calm_of(alloc, plan, ticks)?;
    let mut text = String::new(alloc);
    put_change(alloc, &mut text, plan, &base, title, said)?;
    Ok(text)
}

/// Returns the text about the change from a plan, which is in an old file, to the plan in a file.
///
/// # Errors
///
/// `Memory` if an allocation failed, and `Steps` as [`run_diff`].
pub(crate) fn change_of<R: Threads + Sync>(
    rt: &R,
    alloc: Global,
    plan: &Plan,
    old: OldPlan<'_>,
    file: &[u8],
    asked: &Asked<'_>,
) -> Result<String, CommandFault>
    requires sound { IsSound plan.now }
    requires told { IsToldBy old.file.now plan.now }
    ensures ok { IfOk result (λ text. IsChange old.entry file.now asked.now (string_bytes text)) }
    ensures kinds { IfErr result (λ e. e ≢ CommandFault.Read) }
{
    let said = said_of(rt, alloc, old.file, file, asked)?;
    match text_of(alloc, plan, old.title, said.as_slice(), asked.ticks) {
        Ok(text) => Ok(text),
        Err(fault) => Err(fault_of(fault)),
    }
}
