//! The report on a network under failures.

ghost use Rattle.std.specs.Prelude.{◌≡◌, ◌++◌, flat_map};
ghost use Rattle.std.specs.Prelude.{string_bytes, IfOk, OnOk};
ghost use Rattle.pb_cmd_survive.specs.Reports.{failure_text, convergence_text, forest_text, head_line};
ghost use Rattle.pb_cmd_survive.specs.Reports.{whole_text, impact_text, calm_line};
ghost use Rattle.pb_cmd_survive.specs.Reports.{report_text, mark_text, any_accepted, ending_text};
ghost use Rattle.pb_cmd_survive.specs.Judgements.{survives};

use crate::criteria::Criteria;
use crate::failure::Failure;
use crate::health::{put_calm, put_health};
use crate::impact::Impact;
use crate::judgement::{is_accepted_impact, survives};
use crate::service_lines::{put_loop, put_service, put_views};
use crate::stale::put_stale;
use crate::surviving::put_last;
use crate::totals::put_totals;
use crate::verdict::{are_forests, is_left_out};
use crate::view::View;
use pb_accept::Acceptance;
use pb_converge::Convergence;
use pb_frame::Memory;
use pb_lan::Plan;
use pb_names::{bridge_name, link_name};

/// Appends what is down.
///
/// # Errors
///
/// `Memory` if an allocation failed.
pub fn put_failure(out: &mut String, plan: &Plan, failure: Failure) -> Result<(), Memory>
    ensures { OnOk result (string_bytes out.new ≡ string_bytes out.old ++ failure_text plan.now failure) }
{
    match failure {
        Failure::Nothing => out.push_str("nothing down")?,
        Failure::Link(number) => write!(out, "link {} down", link_name(plan, number))?,
        Failure::Pair(first, second) => {
            let (one, other) = (link_name(plan, first), link_name(plan, second));
            write!(out, "links {one} {other} down")?;
        }
        Failure::Bridge(number) => write!(out, "bridge {} down", bridge_name(plan, number))?,
    }
    Ok(())
}

/// Appends whether the bridges converged, and after how many ticks of each.
fn put_convergence(out: &mut String, convergence: Convergence) -> Result<(), Memory>
    ensures { OnOk result (string_bytes out.new ≡ string_bytes out.old ++ convergence_text convergence) }
{
    match convergence {
        Convergence::Given => out.push_str("states given")?,
        Convergence::Converged(ticks) => write!(out, "converged ticks {ticks}")?,
        Convergence::NotConverged(ticks) => write!(out, "not converged ticks {ticks}")?,
    }
    Ok(())
}

/// Appends whether the shape is a forest for each service.
fn put_forest(out: &mut String, views: &[View]) -> Result<(), Memory>
    ensures { OnOk result (string_bytes out.new ≡ string_bytes out.old ++ forest_text views.now) }
{
    if are_forests(views) {
        out.push_str(" forest yes")?;
    } else {
        out.push_str(" forest no")?;
    }
    Ok(())
}

/// Appends the first line of a failure.
fn put_head(out: &mut String, plan: &Plan, impact: &Impact) -> Result<(), Memory>
    ensures { OnOk result (string_bytes out.new ≡ string_bytes out.old ++ head_line plan.now impact.now) }
{
    put_failure(out, plan, impact.failure)?;
    out.push_str(": ")?;
    put_convergence(out, impact.convergence)?;
    put_forest(out, impact.views.as_slice())?;
    out.push_str("\n")?;
    Ok(())
}

/// Appends the first line of the network with nothing, or nothing else, down.
fn put_calm_line(out: &mut String, criteria: Criteria, impact: &Impact) -> Result<(), Memory>
    ensures { OnOk result (string_bytes out.new ≡ string_bytes out.old ++ calm_line criteria impact.now) }
{
    put_calm(out, criteria)?;
    out.push_str(": ")?;
    put_convergence(out, impact.convergence)?;
    put_forest(out, impact.views.as_slice())?;
    out.push_str("\n")?;
    Ok(())
}

/// Appends the lines of the network with nothing, or nothing else, down.
fn put_whole(
    out: &mut String,
    plan: &Plan,
    criteria: Criteria,
    impact: &Impact,
) -> Result<(), Memory>
    ensures { OnOk result (string_bytes out.new ≡ string_bytes out.old ++ whole_text plan.now criteria impact.now) }
{
    put_calm_line(out, criteria, impact)?;
    for view in impact.views.as_slice() {
        put_loop(out, plan, view)?;
        put_service(out, plan, view)?;
    }
    Ok(())
}

/// Appends the word before a failure that is accepted.
fn put_mark(
    out: &mut String,
    criteria: Criteria,
    acceptances: &[Acceptance],
    base: &Impact,
    impact: &Impact,
) -> Result<(), Memory>
    ensures { OnOk result (string_bytes out.new ≡ string_bytes out.old
        ++ mark_text criteria acceptances.now base.now impact.now) }
{
    if is_accepted_impact(criteria, acceptances, base, impact) {
        out.push_str("accepted ")?;
    }
    Ok(())
}

/// Appends the impact of a failure, if the report shows it.
fn put_impact(
    out: &mut String,
    plan: &Plan,
    criteria: Criteria,
    acceptances: &[Acceptance],
    base: &Impact,
    impact: &Impact,
) -> Result<(), Memory>
    ensures { OnOk result (string_bytes out.new ≡ string_bytes out.old
        ++ impact_text plan.now criteria acceptances.now base.now impact.now) }
{
    if is_left_out(criteria, base, impact) {
        return Ok(());
    }
    put_mark(out, criteria, acceptances, base, impact)?;
    put_head(out, plan, impact)?;
    put_views(
        out,
        plan,
        criteria,
        base.views.as_slice(),
        impact.views.as_slice(),
    )
}

/// Appends the impacts of all failures.
fn put_impacts(
    out: &mut String,
    plan: &Plan,
    criteria: Criteria,
    acceptances: &[Acceptance],
    base: &Impact,
    impacts: &[Impact],
) -> Result<(), Memory>
    ensures { OnOk result (string_bytes out.new ≡ string_bytes out.old
        ++ flat_map (impact_text plan.now criteria acceptances.now base.now) impacts.now) }
{
    for impact in impacts {
        put_impact(out, plan, criteria, acceptances, base, impact)?;
    }
    Ok(())
}

/// Checks whether some failure is accepted.
fn any_accepted(
    criteria: Criteria,
    acceptances: &[Acceptance],
    base: &Impact,
    impacts: &[Impact],
) -> bool
    ensures { result ≡ any_accepted criteria acceptances.now base.now impacts.now }
{
    impacts.iter().any(|impact| is_accepted_impact(criteria, acceptances, base, impact))
}

/// Appends the totals, the acceptances that are not needed, and the last line. Returns whether the network survives.
fn put_ending(
    out: &mut String,
    plan: &Plan,
    criteria: Criteria,
    acceptances: &[Acceptance],
    base: &Impact,
    impacts: &[Impact],
) -> Result<bool, Memory>
    ensures text { OnOk result (string_bytes out.new ≡ string_bytes out.old
        ++ ending_text plan.now criteria acceptances.now base.now impacts.now) }
    ensures survives { IfOk result (λ survived. survived ≡ survives criteria acceptances.now base.now impacts.now) }
{
    put_totals(out, criteria, acceptances, base, impacts)?;
    put_stale(out, plan, criteria, acceptances, base, impacts)?;
    let survived = survives(criteria, acceptances, base, impacts);
    let accepted = any_accepted(criteria, acceptances, base, impacts);
    put_last(out, criteria, base, impacts, survived, accepted)?;
    Ok(survived)
}

/// Appends the report on a network with nothing down and under failures. Returns whether the network survives.
///
/// First come the lines of the network with nothing down: whether the bridges converged and after how many ticks of
/// each, whether the active links are a forest for each service, the groups of each service's customer ports, and
/// whether it is healthy: the bridges converge, and each service has two ports or more, all connected, and no loop.
/// Then each failure that does harm, or each one if `criteria.all` is set, has the same lines, with the services that
/// it disconnects. A failure of which `acceptances` accept each disconnection has the word `accepted` before them. Last
/// come the kinds of failures, the most ticks to convergence if the bridges converge after each failure, how many
/// failures do which harm, and the acceptances that are stale or were not tried. The last line is the verdict. It says
/// that the network survives, and which failures, only if it is healthy and no failure disconnects a service without
/// acceptance, leaves a loop, or keeps the bridges from converging.
/// `criteria` has the ports that count as disconnected, and whether something was down before, so that the lines speak
/// of nothing else down.
///
/// # Errors
///
/// `Memory` if an allocation failed. A part of the report may have been appended then.
pub fn put_report(
    out: &mut String,
    plan: &Plan,
    criteria: Criteria,
    acceptances: &[Acceptance],
    base: &Impact,
    impacts: &[Impact],
) -> Result<bool, Memory>
    ensures text { OnOk result (string_bytes out.new ≡ string_bytes out.old
        ++ report_text plan.now criteria acceptances.now base.now impacts.now) }
    ensures survives { IfOk result (λ survived. survived ≡ survives criteria acceptances.now base.now impacts.now) }
{
    put_whole(out, plan, criteria, base)?;
    put_health(out, plan, criteria, base)?;
    put_impacts(out, plan, criteria, acceptances, base, impacts)?;
    let survived = put_ending(out, plan, criteria, acceptances, base, impacts)?;
    Ok(survived)
}
