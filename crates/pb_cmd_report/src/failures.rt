//! The table of failures.

ghost use Rattle.std.specs.Prelude.{◌≡◌, ◌++◌, flat_map, string_bytes, OnOk};
ghost use Rattle.std.specs.List.{zip};
ghost use Rattle.pb_lan.specs.Plans.{IsSound};
ghost use Rattle.pb_cmd_survive.specs.Reports.{failure_text};
ghost use Rattle.pb_cmd_report.specs.Failures.{loop_text, loops_text, disconnected_view, disconnected_text};
ghost use Rattle.pb_cmd_report.specs.Failures.{failure_cells};
ghost use Rattle.pb_cmd_report.specs.Failures.{failure_row};
ghost use Rattle.pb_cmd_report.specs.Html.{cell_of};
ghost use Rattle.pb_cmd_report.specs.Words.{convergence_words};

use crate::analysis::Analysis;
use crate::criteria::CRITERIA;
use crate::html::put_cell;
use crate::states::put_states;
use crate::words::put_convergence_words;
use pb_cmd_survive::{Failure, Impact, View, disconnects_view, put_failure, put_groups};
use pb_converge::Convergence;
use pb_frame::Memory;
use pb_lan::Plan;
use pb_names::service_name;
use std::alloc::Global;

/// Appends the name of a service after a space, if its active links form a loop.
fn put_loop(out: &mut String, plan: &Plan, view: &View) -> Result<(), Memory>
    ensures { OnOk result (string_bytes out.new ≡ string_bytes out.old ++ loop_text plan.now view.now) }
{
    if view.is_forest {
        return Ok(());
    }
    out.push_str(" ")?;
    out.push_str(service_name(plan, view.service))?;
    Ok(())
}

/// Appends the names of the services whose active links form a loop.
fn put_loops(out: &mut String, plan: &Plan, views: &[View]) -> Result<(), Memory>
    ensures { OnOk result (string_bytes out.new ≡ string_bytes out.old ++ loops_text plan.now views.now) }
{
    for view in views {
        put_loop(out, plan, view)?;
    }
    Ok(())
}

/// Appends the line of a service, if the failure disconnects it: its name, and its customer ports in groups that reach
/// each other.
fn put_disconnected_view(
    out: &mut String,
    plan: &Plan,
    old: &View,
    new: &View,
) -> Result<(), Memory>
    ensures { OnOk result (string_bytes out.new ≡ string_bytes out.old
        ++ disconnected_view plan.now (old.now, new.now)) }
{
    if !disconnects_view(CRITERIA, old, new) {
        return Ok(());
    }
    out.push_str(service_name(plan, new.service))?;
    out.push_str(":")?;
    put_groups(out, plan, new.sites.as_slice())?;
    out.push_str("\n")?;
    Ok(())
}

/// Appends the lines of the services that the failure disconnects.
fn put_disconnected(out: &mut String, plan: &Plan, old: &[View], new: &[View]) -> Result<(), Memory>
    ensures { OnOk result (string_bytes out.new ≡ string_bytes out.old
        ++ flat_map (disconnected_view plan.now) (zip old.now new.now)) }
{
    for place in 0..old.len().min(new.len()) {
        put_disconnected_view(out, plan, &old[place], &new[place])?;
    }
    Ok(())
}

/// Appends the cell of what is down.
fn put_failure_cell(
    alloc: Global,
    out: &mut String,
    plan: &Plan,
    failure: Failure,
) -> Result<(), Memory>
    ensures { OnOk result (string_bytes out.new ≡ string_bytes out.old
        ++ cell_of (failure_text plan.now failure)) }
{
    let mut text = String::new(alloc);
    put_failure(&mut text, plan, failure)?;
    put_cell(out, text.as_str())
}

/// Appends the cell of whether the bridges converged.
fn put_convergence_cell(
    alloc: Global,
    out: &mut String,
    convergence: Convergence,
) -> Result<(), Memory>
    ensures { OnOk result (string_bytes out.new ≡ string_bytes out.old ++ cell_of (convergence_words convergence)) }
{
    let mut text = String::new(alloc);
    put_convergence_words(&mut text, convergence)?;
    put_cell(out, text.as_str())
}

/// Appends the cell of the services whose active links form a loop.
fn put_loops_cell(
    alloc: Global,
    out: &mut String,
    plan: &Plan,
    views: &[View],
) -> Result<(), Memory>
    ensures { OnOk result (string_bytes out.new ≡ string_bytes out.old
        ++ cell_of (loops_text plan.now views.now)) }
{
    let mut text = String::new(alloc);
    put_loops(&mut text, plan, views)?;
    put_cell(out, text.as_str())
}

/// Appends the cell of the services that the failure disconnects.
fn put_disconnected_cell(
    alloc: Global,
    out: &mut String,
    plan: &Plan,
    base: &Impact,
    impact: &Impact,
) -> Result<(), Memory>
    ensures { OnOk result (string_bytes out.new ≡ string_bytes out.old
        ++ cell_of (disconnected_text plan.now base.now impact.now)) }
{
    let mut text = String::new(alloc);
    put_disconnected(
        &mut text,
        plan,
        base.views.as_slice(),
        impact.views.as_slice(),
    )?;
    put_cell(out, text.as_str())
}

/// Appends the cells of a failure.
fn put_failure_cells(
    alloc: Global,
    out: &mut String,
    plan: &Plan,
    base: &Impact,
    impact: &Impact,
) -> Result<(), Memory>
    ensures { OnOk result (string_bytes out.new ≡ string_bytes out.old
        ++ failure_cells plan.now base.now impact.now) }
{
    put_failure_cell(alloc, out, plan, impact.failure)?;
    put_convergence_cell(alloc, out, impact.convergence)?;
    put_loops_cell(alloc, out, plan, impact.views.as_slice())?;
    put_disconnected_cell(alloc, out, plan, base, impact)
}

/// Appends the row of a failure.
pub(crate) fn put_failure_row(
    alloc: Global,
    out: &mut String,
    plan: &Plan,
    base: &Impact,
    analysis: &Analysis,
) -> Result<(), Memory>
    requires { IsSound plan.now }
    ensures { OnOk result (string_bytes out.new ≡ string_bytes out.old
        ++ failure_row plan.now base.now analysis.now) }
{
    out.push_str("<tr")?;
    put_states(out, plan, &analysis.shape, analysis.impact.failure)?;
    out.push_str(">")?;
    put_failure_cells(alloc, out, plan, base, &analysis.impact)?;
    out.push_str("</tr>\n")?;
    Ok(())
}

/// Appends the rows of failures.
pub(crate) fn put_failure_rows(
    alloc: Global,
    out: &mut String,
    plan: &Plan,
    base: &Impact,
    analyses: &[Analysis],
) -> Result<(), Memory>
    requires { IsSound plan.now }
    ensures { OnOk result (string_bytes out.new ≡ string_bytes out.old
        ++ flat_map (failure_row plan.now base.now) analyses.now) }
{
    for analysis in analyses {
        put_failure_row(alloc, out, plan, base, analysis)?;
    }
    Ok(())
}
