//! The lines about the network's health with nothing down.

ghost use Rattle.std.specs.Prelude.{◌≡◌, ◌++◌, flat_map, not, count_by, string_bytes, OnOk};
ghost use Rattle.pb_cmd_survive.specs.Reports.{about_line, split_line, loop_reason_line, few_line, reasons_text};
ghost use Rattle.pb_cmd_survive.specs.Reports.{not_converged_text, unhealthy_text, unhealthy_line};
ghost use Rattle.pb_cmd_survive.specs.Reports.{calm_words, summary_text, health_line, health_text};
ghost use Rattle.pb_cmd_survive.specs.Verdicts.{is_healthy_service};

use crate::counted::put_counted;
use crate::criteria::Criteria;
use crate::impact::Impact;
use crate::verdict::{is_converged, is_healthy, is_healthy_service, is_split};
use crate::view::View;
use pb_frame::Memory;
use pb_lan::Plan;
use pb_names::service_name;

/// Appends a line about a service.
fn put_about(out: &mut String, plan: &Plan, view: &View, what: &str) -> Result<(), Memory>
    ensures { OnOk result (string_bytes out.new ≡ string_bytes out.old ++ about_line plan.now view.now what.now) }
{
    out.push_str("service ")?;
    out.push_str(service_name(plan, view.service))?;
    out.push_str(what)?;
    out.push_str("\n")?;
    Ok(())
}

/// Appends that a service is disconnected, if it is.
fn put_split(out: &mut String, plan: &Plan, view: &View) -> Result<(), Memory>
    ensures { OnOk result (string_bytes out.new ≡ string_bytes out.old ++ split_line plan.now view.now) }
{
    if is_split(view.sites.as_slice()) {
        put_about(out, plan, view, " is disconnected")?;
    }
    Ok(())
}

/// Appends that a service has a forwarding loop, if it has.
fn put_loop_reason(out: &mut String, plan: &Plan, view: &View) -> Result<(), Memory>
    ensures { OnOk result (string_bytes out.new ≡ string_bytes out.old ++ loop_reason_line plan.now view.now) }
{
    if !view.is_forest {
        put_about(out, plan, view, " has a forwarding loop")?;
    }
    Ok(())
}

/// Appends that a service has fewer than two ports, if it has.
fn put_few(out: &mut String, plan: &Plan, view: &View) -> Result<(), Memory>
    ensures { OnOk result (string_bytes out.new ≡ string_bytes out.old ++ few_line plan.now view.now) }
{
    if 1 < view.sites.as_slice().len() {
        return Ok(());
    }
    put_about(out, plan, view, " has fewer than two ports")
}

/// Appends a line for each reason why a service is not healthy.
fn put_reasons(out: &mut String, plan: &Plan, view: &View) -> Result<(), Memory>
    ensures { OnOk result (string_bytes out.new ≡ string_bytes out.old ++ reasons_text plan.now view.now) }
{
    put_split(out, plan, view)?;
    put_loop_reason(out, plan, view)?;
    put_few(out, plan, view)
}

/// Returns how many services are not healthy.
fn count_unhealthy(views: &[View]) -> usize
    ensures { result ≡ count_by (λ v. not (is_healthy_service v)) views.now }
{
    views
        .iter()
        .filter(|view| !is_healthy_service(view))
        .count()
}

/// Appends how many services are not healthy.
fn put_services(out: &mut String, views: &[View]) -> Result<(), Memory>
    ensures { OnOk result (string_bytes out.new ≡ string_bytes out.old ++ unhealthy_text views.now) }
{
    if views.is_empty() {
        out.push_str("no service")?;
        return Ok(());
    }
    put_counted(out, count_unhealthy(views), "service")?;
    Ok(())
}

/// Appends a text, if the bridges do not converge.
fn put_not_converged(out: &mut String, base: &Impact, what: &str) -> Result<(), Memory>
    ensures { OnOk result (string_bytes out.new ≡ string_bytes out.old ++ not_converged_text base.now what.now) }
{
    if !is_converged(base.convergence) {
        out.push_str(what)?;
    }
    Ok(())
}

/// Appends that nothing is down, or nothing besides what was down before.
pub(crate) fn put_calm(out: &mut String, criteria: Criteria) -> Result<(), Memory>
    ensures { OnOk result (string_bytes out.new ≡ string_bytes out.old ++ calm_words criteria) }
{
    if criteria.impaired {
        out.push_str("nothing else down")?;
    } else {
        out.push_str("nothing down")?;
    }
    Ok(())
}

/// Appends the end of the summary of a network that is not healthy.
fn put_summary(out: &mut String, base: &Impact) -> Result<(), Memory>
    ensures { OnOk result (string_bytes out.new ≡ string_bytes out.old ++ summary_text base.now) }
{
    put_services(out, base.views.as_slice())?;
    put_not_converged(out, base, ", bridges do not converge")?;
    out.push_str("\n")?;
    Ok(())
}

/// Appends the summary of a network that is not healthy.
pub(crate) fn put_unhealthy(
    out: &mut String,
    criteria: Criteria,
    base: &Impact,
) -> Result<(), Memory>
    ensures { OnOk result (string_bytes out.new ≡ string_bytes out.old ++ unhealthy_line criteria base.now) }
{
    out.push_str("not healthy with ")?;
    put_calm(out, criteria)?;
    out.push_str(": ")?;
    put_summary(out, base)
}

/// Appends that the network is healthy, or the summary.
fn put_health_line(out: &mut String, criteria: Criteria, base: &Impact) -> Result<(), Memory>
    ensures { OnOk result (string_bytes out.new ≡ string_bytes out.old ++ health_line criteria base.now) }
{
    if !is_healthy(base) {
        return put_unhealthy(out, criteria, base);
    }
    out.push_str("healthy with ")?;
    put_calm(out, criteria)?;
    out.push_str("\n")?;
    Ok(())
}

/// Appends the reasons why services are not healthy.
fn put_all_reasons(out: &mut String, plan: &Plan, views: &[View]) -> Result<(), Memory>
    ensures { OnOk result (string_bytes out.new ≡ string_bytes out.old
        ++ flat_map (reasons_text plan.now) views.now) }
{
    for view in views {
        put_reasons(out, plan, view)?;
    }
    Ok(())
}

/// Appends the lines of the network's health with nothing down: each reason why it is not healthy, and the summary.
pub(crate) fn put_health(
    out: &mut String,
    plan: &Plan,
    criteria: Criteria,
    base: &Impact,
) -> Result<(), Memory>
    ensures { OnOk result (string_bytes out.new ≡ string_bytes out.old ++ health_text plan.now criteria base.now) }
{
    put_not_converged(out, base, "bridges do not converge\n")?;
    put_all_reasons(out, plan, base.views.as_slice())?;
    put_health_line(out, criteria, base)
}
