//! The customer ports that are cut off from others of their service.

ghost use Rattle.std.specs.Prelude.{◌≡◌};
ghost use Rattle.pb_draw_layout.specs.Facts.{is_chosen, site_count, joined_count, is_apart, is_cut_off};

use crate::findings::Findings;
use pb_forest::numbered;
use pb_joins::mark_at;
use pb_lan::{CustomerPlan, Plan};

/// Checks whether a service is the chosen one.
fn is_chosen(chosen: Option<u8>, service: u8) -> bool
    ensures { result ≡ is_chosen chosen service }
{
    match chosen {
        None => false,
        Some(asked) => asked == service,
    }
}

/// Returns the number of customer ports of a service.
fn site_count(plan: &Plan, service: u8) -> usize
    ensures { result ≡ site_count plan.now service }
{
    plan.customers
        .as_slice()
        .iter()
        .filter(|site| site.service == service)
        .count()
}

/// Returns the number of customer ports of a service at bridges with a mark.
fn joined_count(plan: &Plan, sites: &[u8; 32], service: u8, mark: u8) -> usize
    ensures { result ≡ joined_count plan.now sites.now service mark }
{
    plan.customers
        .as_slice()
        .iter()
        .filter(|site| site.service == service && mark_at(sites, site.bridge) == mark)
        .count()
}

/// Checks whether a customer port is joined with at most half of its service's customer ports, itself included.
fn is_apart(plan: &Plan, sites: &[u8; 32], site: &CustomerPlan) -> bool
    ensures { result ≡ is_apart plan.now sites.now site.now }
{
    let mark = mark_at(sites, site.bridge);
    joined_count(plan, sites, site.service, mark) <= site_count(plan, site.service) / 2
}

/// Checks whether the customer port with a number is of the chosen service and cut off.
pub(crate) fn is_cut_off(plan: &Plan, found: &Findings, number: u8) -> bool
    ensures { result ≡ is_cut_off plan.now found.now number }
{
    match numbered(plan.customers.as_slice(), number as usize) {
        None => false,
        Some(site) => {
            is_chosen(found.chosen, site.service) && is_apart(plan, &found.sites, site)
        }
    }
}
