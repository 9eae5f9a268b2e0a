//! The acceptance that a table describes.

ghost use Rattle.std.specs.Prelude.{◌≡◌, min, option_map};
ghost use Rattle.toml.specs.View.{view, items_view, table_view};
ghost use Rattle.pb_lan.specs.Plans.{IsSound};
ghost use Rattle.pb_accept.specs.Acceptances.{pair_of, pair_told, pair_in, failure_told, services_told};
ghost use Rattle.pb_accept.specs.Acceptances.{row_failure, acceptance_told, entry_told};

use crate::acceptance::{Acceptance, NamedFailure};
use crate::named::{bridge_told, link_told, service_told};
use crate::told::{unknown_key, value_at};
use pb_lan::Plan;
use toml::{Table, Value};

/// Returns the failure of two different links.
fn pair_of(one: u8, other: u8) -> Option<NamedFailure>
    ensures { result ≡ pair_of one other }
{
    if one == other {
        return None;
    }
    Some(NamedFailure::Pair(one.min(other), one.max(other)))
}

/// Returns the failure of the links that two values name.
fn pair_in(plan: &Plan, one: &Value, other: &Value) -> Option<NamedFailure>
    requires { IsSound plan.now }
    ensures { result ≡ pair_in plan.now (view one.now) (view other.now) }
{
    match (link_told(plan, one), link_told(plan, other)) {
        (Some(one), Some(other)) => pair_of(one, other),
        _ => None,
    }
}

/// Returns the failure of the two links that a list names.
fn pair_told(plan: &Plan, items: &[Value]) -> Option<NamedFailure>
    requires { IsSound plan.now }
    ensures { result ≡ pair_told plan.now (items_view items.now) }
{
    match items {
        [one, other] => pair_in(plan, one, other),
        _ => None,
    }
}

/// Returns the failure that the values of the keys `link`, `bridge` and `links` name. Exactly one of them is present.
fn failure_told(
    plan: &Plan,
    link: Option<&Value>,
    bridge: Option<&Value>,
    links: Option<&Value>,
) -> Option<NamedFailure>
    requires { IsSound plan.now }
    ensures { result ≡ failure_told plan.now (option_map (λ v. view v.now) link.entry)
        (option_map (λ v. view v.now) bridge.entry) (option_map (λ v. view v.now) links.entry) }
{
    match (link, bridge, links) {
        (Some(link), None, None) => link_told(plan, link).map(NamedFailure::Link),
        (None, Some(bridge), None) => bridge_told(plan, bridge).map(NamedFailure::Bridge),
        (None, None, Some(links)) => pair_told(plan, links.as_array()?.as_slice()),
        _ => None,
    }
}

/// Returns the failure that a table names.
fn row_failure(plan: &Plan, row: &Table) -> Option<NamedFailure>
    requires { IsSound plan.now }
    ensures { result ≡ row_failure plan.now (table_view row.now) }
{
    let link = value_at(row, "link");
    let bridge = value_at(row, "bridge");
    let links = value_at(row, "links");
    failure_told(plan, link, bridge, links)
}

/// Returns the services of an acceptance by the value of the key `service`: all if there is none, else the named one.
fn services_told(plan: &Plan, service: Option<&Value>) -> Option<Option<u8>>
    requires { IsSound plan.now }
    ensures { result ≡ services_told plan.now (option_map (λ v. view v.now) service.entry) }
{
    match service {
        None => Some(None),
        Some(value) => match service_told(plan, value) {
            None => None,
            Some(number) => Some(Some(number)),
        },
    }
}

/// Returns the acceptance that a table describes, if it keeps all rules.
fn acceptance_told(plan: &Plan, row: &Table) -> Option<Acceptance>
    requires { IsSound plan.now }
    ensures { result ≡ acceptance_told plan.now (table_view row.now) }
{
    if unknown_key(row).is_some() {
        return None;
    }
    match (
        row_failure(plan, row),
        services_told(plan, value_at(row, "service")),
    ) {
        (Some(failure), Some(service)) => Some(Acceptance { failure, service }),
        _ => None,
    }
}

/// Returns the acceptance that an item of the array describes, if it is a table that keeps all rules.
pub(crate) fn entry_told(plan: &Plan, item: &Value) -> Option<Acceptance>
    requires { IsSound plan.now }
    ensures { result ≡ entry_told plan.now (view item.now) }
{
    match item.as_table() {
        Some(row) => acceptance_told(plan, row),
        None => None,
    }
}
