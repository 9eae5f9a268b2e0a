//! The check of plans.

mod distinct;
mod ports;
mod records;

ghost use Rattle.std.specs.Prelude.{◌↔◌, IsTrue};
ghost use Rattle.pb_lan.specs.Plans.{IsSound, IsWithinLimits, HasDistinctNames};

use crate::plan::Plan;
use distinct::{addresses_differ, names_differ, vids_differ};
use ports::ports_differ;
use records::{
    are_sound_bridges, are_sound_customers, are_sound_ends, are_sound_losses, are_sound_vids,
    is_number,
};

/// Checks whether the plan keeps the limits of its lists and of its own numbers.
fn is_within_limits(plan: &Plan) -> bool
    ensures { IsTrue result ↔ IsWithinLimits plan.now }
{
    plan.bridges.len() <= 32
        && plan.links.len() <= 64
        && plan.services.len() <= 64
        && plan.customers.len() <= 128
        && is_number(plan.ring as u64, 4096)
        && is_number(plan.steps, u64::MAX)
        && 10 <= plan.ageing
        && plan.ageing <= 1_000_000
}

/// Checks whether the names are distinct within each kind.
fn has_distinct_names(plan: &Plan) -> bool
    ensures { IsTrue result ↔ HasDistinctNames plan.now }
{
    names_differ(plan.bridges.as_slice())
        && names_differ(plan.links.as_slice())
        && names_differ(plan.services.as_slice())
        && names_differ(plan.customers.as_slice())
}

/// Checks whether a plan is sound. Allocates nothing.
///
/// It is sound if and only if
/// - its lists and numbers keep the limits given at the parts of [`Plan`];
/// - names are distinct within each kind, and so are the addresses of bridges and the VIDs of services;
/// - each number of a bridge or service names one of the plan;
/// - no local port of a bridge is used twice, by ends of links and customer ports;
/// - bridge addresses are individual (IEEE 802.3 clause 3.2.3), VIDs are 1 to 4,094 (IEEE 802.1Q clause 9.6), bridge
///   priorities multiples of 4,096 and port priorities multiples of 16 (IEEE 802.1D-2004 clauses 9.2.5 and 9.2.7);
/// - the lost items of each direction and the services of each end ascend strictly.
///
/// # Examples
///
/// ```
/// use pb_lan::plan_is_sound;
/// use pb_service::read_plan;
///
/// let (mut plan, _) = read_plan(rt.alloc(), b"[network]\nageing = 10\n")?;
/// assert!(rt; plan_is_sound(&plan));
/// // The ageing time is 10 ticks or more.
/// plan.ageing = 9;
/// assert!(rt; !plan_is_sound(&plan));
/// ```
pub fn plan_is_sound(plan: &Plan) -> bool
    ensures { IsTrue result ↔ IsSound plan.now }
{
    is_within_limits(plan)
        && has_distinct_names(plan)
        && are_sound_bridges(plan.bridges.as_slice())
        && addresses_differ(plan.bridges.as_slice())
        && are_sound_ends(plan)
        && are_sound_losses(plan.links.as_slice())
        && are_sound_vids(plan.services.as_slice())
        && vids_differ(plan.services.as_slice())
        && are_sound_customers(plan)
        && ports_differ(plan.links.as_slice(), plan.customers.as_slice())
}
