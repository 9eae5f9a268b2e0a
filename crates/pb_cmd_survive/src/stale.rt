//! The lines on acceptances that are not needed.

ghost use Rattle.std.specs.Prelude.{◌≡◌, ◌++◌, string_bytes, OnOk};
ghost use Rattle.pb_cmd_survive.specs.AcceptedTexts.{named_text, only_text, acceptance_line, stale_line, stale_text};

use crate::acceptances::{is_stale, is_untried};
use crate::criteria::Criteria;
use crate::impact::Impact;
use pb_accept::{Acceptance, NamedFailure};
use pb_frame::Memory;
use pb_lan::Plan;
use pb_names::{bridge_name, link_name, service_name};

/// Appends the failure that an acceptance names.
fn put_named(out: &mut String, plan: &Plan, named: NamedFailure) -> Result<(), Memory>
    ensures { OnOk result (string_bytes out.new ≡ string_bytes out.old ++ named_text plan.now named) }
{
    match named {
        NamedFailure::Link(number) => write!(out, "link {}", link_name(plan, number))?,
        NamedFailure::Bridge(number) => write!(out, "bridge {}", bridge_name(plan, number))?,
        NamedFailure::Pair(one, other) => {
            let (one, other) = (link_name(plan, one), link_name(plan, other));
            write!(out, "links {one} {other}")?;
        }
    }
    Ok(())
}

/// Appends the service that an acceptance names, if it names one.
fn put_only(out: &mut String, plan: &Plan, service: Option<u8>) -> Result<(), Memory>
    ensures { OnOk result (string_bytes out.new ≡ string_bytes out.old ++ only_text plan.now service) }
{
    if let Some(service) = service {
        write!(out, " service {}", service_name(plan, service))?;
    }
    Ok(())
}

/// Appends what is said of an acceptance.
fn put_acceptance(
    out: &mut String,
    plan: &Plan,
    what: &str,
    acceptance: Acceptance,
) -> Result<(), Memory>
    ensures { OnOk result (string_bytes out.new ≡ string_bytes out.old
        ++ acceptance_line plan.now what.now acceptance) }
{
    out.push_str(what)?;
    out.push_str(" acceptance: ")?;
    put_named(out, plan, acceptance.failure)?;
    put_only(out, plan, acceptance.service)?;
    out.push_str("\n")?;
    Ok(())
}

/// Appends the line of an acceptance that is stale, or was not tried.
fn put_one(
    out: &mut String,
    plan: &Plan,
    criteria: Criteria,
    base: &Impact,
    impacts: &[Impact],
    acceptance: Acceptance,
) -> Result<(), Memory>
    ensures { OnOk result (string_bytes out.new ≡ string_bytes out.old
        ++ stale_line plan.now criteria base.now impacts.now acceptance) }
{
    if is_stale(plan, criteria, base, impacts, acceptance) {
        put_acceptance(out, plan, "stale", acceptance)?;
    } else if is_untried(plan, criteria, base, impacts, acceptance) {
        put_acceptance(out, plan, "untried", acceptance)?;
    }
    Ok(())
}

/// Appends the lines of all acceptances that are stale, or were not tried.
pub(crate) fn put_stale(
    out: &mut String,
    plan: &Plan,
    criteria: Criteria,
    acceptances: &[Acceptance],
    base: &Impact,
    impacts: &[Impact],
) -> Result<(), Memory>
    ensures { OnOk result (string_bytes out.new ≡ string_bytes out.old
        ++ stale_text plan.now criteria acceptances.now base.now impacts.now) }
{
    for acceptance in acceptances {
        put_one(out, plan, criteria, base, impacts, *acceptance)?;
    }
    Ok(())
}
