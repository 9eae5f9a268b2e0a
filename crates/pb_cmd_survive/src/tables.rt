//! The tables that accept what was found, in TOML.

ghost use Rattle.std.specs.Prelude.{◌≡◌, ◌++◌, flat_map, string_bytes, OnOk};
ghost use Rattle.std.specs.List.{zip};
ghost use Rattle.pb_cmd_survive.specs.AcceptedTexts.{failure_key, accept_table, view_table, impact_tables};
ghost use Rattle.pb_cmd_survive.specs.AcceptedTexts.{accept_tables};

use crate::criteria::Criteria;
use crate::disconnecting::disconnects_view;
use crate::failure::Failure;
use crate::impact::Impact;
use crate::view::View;
use pb_frame::Memory;
use pb_lan::Plan;
use pb_names::{bridge_name, link_name, service_name};

/// Appends the key that names a failure, with its value. A name needs no escape: it has letters, digits, hyphens and
/// underscores alone.
fn put_failure_key(out: &mut String, plan: &Plan, failure: Failure) -> Result<(), Memory>
    ensures { OnOk result (string_bytes out.new ≡ string_bytes out.old ++ failure_key plan.now failure) }
{
    match failure {
        Failure::Nothing => {}
        Failure::Link(number) => write!(out, "link = \"{}\"\n", link_name(plan, number))?,
        Failure::Pair(first, second) => {
            let (one, other) = (link_name(plan, first), link_name(plan, second));
            write!(out, "links = [\"{one}\", \"{other}\"]\n")?;
        }
        Failure::Bridge(number) => write!(out, "bridge = \"{}\"\n", bridge_name(plan, number))?,
    }
    Ok(())
}

/// Appends the table that accepts that a failure disconnects a service, and an empty line.
fn put_table(out: &mut String, plan: &Plan, failure: Failure, service: u8) -> Result<(), Memory>
    ensures { OnOk result (string_bytes out.new ≡ string_bytes out.old ++ accept_table plan.now failure service) }
{
    out.push_str("[[accept]]\n")?;
    put_failure_key(out, plan, failure)?;
    out.push_str("service = \"")?;
    out.push_str(service_name(plan, service))?;
    out.push_str("\"\n\n")?;
    Ok(())
}

/// Appends that table, if the failure disconnects the service.
fn put_view_table(
    out: &mut String,
    plan: &Plan,
    criteria: Criteria,
    failure: Failure,
    old: &View,
    new: &View,
) -> Result<(), Memory>
    ensures { OnOk result (string_bytes out.new ≡ string_bytes out.old
        ++ view_table plan.now criteria failure (old.now, new.now)) }
{
    if disconnects_view(criteria, old, new) {
        put_table(out, plan, failure, new.service)?;
    }
    Ok(())
}

/// Appends the tables of a failure.
fn put_view_tables(
    out: &mut String,
    plan: &Plan,
    criteria: Criteria,
    failure: Failure,
    old: &[View],
    new: &[View],
) -> Result<(), Memory>
    ensures { OnOk result (string_bytes out.new ≡ string_bytes out.old
        ++ flat_map (view_table plan.now criteria failure) (zip old.now new.now)) }
{
    for place in 0..old.len().min(new.len()) {
        put_view_table(out, plan, criteria, failure, &old[place], &new[place])?;
    }
    Ok(())
}

/// Appends the tables of a failure, by its impact.
fn put_impact_tables(
    out: &mut String,
    plan: &Plan,
    criteria: Criteria,
    base: &Impact,
    impact: &Impact,
) -> Result<(), Memory>
    ensures { OnOk result (string_bytes out.new ≡ string_bytes out.old
        ++ impact_tables plan.now criteria base.now impact.now) }
{
    let (old, new) = (base.views.as_slice(), impact.views.as_slice());
    put_view_tables(out, plan, criteria, impact.failure, old, new)
}

/// Appends a table `accept` for each service that each failure disconnects.
pub(crate) fn put_tables(
    out: &mut String,
    plan: &Plan,
    criteria: Criteria,
    base: &Impact,
    impacts: &[Impact],
) -> Result<(), Memory>
    ensures { OnOk result (string_bytes out.new ≡ string_bytes out.old
        ++ accept_tables plan.now criteria base.now impacts.now) }
{
    for impact in impacts {
        put_impact_tables(out, plan, criteria, base, impact)?;
    }
    Ok(())
}
