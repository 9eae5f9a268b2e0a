//! The bridges that have failed, and the roots of the trees.

ghost use Rattle.std.specs.Prelude.{◌≡◌};
ghost use Rattle.pb_lan.specs.Plans.{IsSound};
ghost use Rattle.pb_rstp.specs.Profile.{id_in};
ghost use Rattle.pb_draw_layout.specs.Facts.{is_failed, precedes, has_better, is_root};

use crate::facts::Failures;
use pb_forest::numbered;
use pb_joins::mark_at;
use pb_lan::{Plan, Spanning};
use pb_names::bridge_id;

/// Checks whether a bridge has failed.
pub(crate) fn is_failed(failed: &Failures, bridge: u8) -> bool
    ensures { result ≡ is_failed failed.now bridge }
{
    match numbered(failed.bridges.as_slice(), bridge as usize) {
        None => false,
        Some(is_failed) => *is_failed,
    }
}

/// Returns the identifier of the bridge with a number, or 0 if there is none.
fn id_in(plan: &Plan, bridge: u8) -> u64
    ensures { result ≡ id_in plan.now bridge }
{
    match numbered(plan.bridges.as_slice(), bridge as usize) {
        None => 0,
        Some(bridge) => bridge_id(bridge.priority, bridge.address),
    }
}

/// Checks whether another bridge is in the same tree and has a lower identifier.
fn precedes(plan: &Plan, trees: &[u8; 32], bridge: u8, other: u8) -> bool
    ensures { result ≡ precedes plan.now trees.now bridge other }
{
    mark_at(trees, other) == mark_at(trees, bridge) && id_in(plan, other) < id_in(plan, bridge)
}

/// Checks whether some bridge of the same tree has a lower identifier.
fn has_better(plan: &Plan, trees: &[u8; 32], bridge: u8) -> bool
    requires { IsSound plan.now }
    ensures { result ≡ has_better plan.now trees.now bridge }
{
    for place in 0..plan.bridges.len() {
        if precedes(plan, trees, bridge, place as u8 + 1) {
            return true;
        }
    }
    false
}

/// Checks whether a bridge is the root of its tree: the bridges run the protocol, it has not failed, and no bridge of
/// its tree has a lower identifier.
pub(crate) fn is_root(plan: &Plan, failed: &Failures, trees: &[u8; 32], bridge: u8) -> bool
    requires { IsSound plan.now }
    ensures { result ≡ is_root plan.now failed.now trees.now bridge }
{
    match plan.spanning {
        Spanning::Fixed => false,
        Spanning::Rstp => !is_failed(failed, bridge) && !has_better(plan, trees, bridge),
    }
}
