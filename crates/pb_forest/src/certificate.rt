//! The check of a certificate of a forest.

ghost use Rattle.std.specs.Prelude.{◌≡◌, ◌↔◌, ℕ, IsTrue, MatchOption, length, slice_index_or, true, false};
ghost use Rattle.pb_forest.specs.Certificates.{IsBelow, Stands, AllStand, AreApart, AreMarked, MarksOne, AllLeadUp};
ghost use Rattle.pb_forest.specs.ServiceVids.{vid_numbered};
ghost use Rattle.pb_lan.specs.Forests.{Shows, LeadsUp};
ghost use Rattle.pb_lan.specs.Shapes.{is_active};

use crate::active::{is_active, numbered, vid_numbered};
use pb_lan::{End, LinkPlan, Plan, Rooted, Shape};

/// Checks whether the near end is at the bridge, and the far end's bridge has a depth that is one less.
fn is_below(depths: &[u8], near: &End, far: &End, bridge: usize) -> bool
    ensures { IsTrue result ↔ IsBelow depths.now near.now far.now bridge }
{
    if near.bridge as usize != bridge {
        return false;
    }
    match (
        numbered(depths, far.bridge as usize),
        numbered(depths, bridge),
    ) {
        (Some(above), Some(here)) => *above as u16 + 1 == *here as u16,
        _ => false,
    }
}

/// Checks whether the link is active and joins the bridge to one whose depth is one less.
fn leads_up(
    plan: &Plan,
    shape: &Shape,
    vid: u16,
    rooted: &Rooted,
    bridge: usize,
    number: u8,
) -> bool
    ensures { IsTrue result ↔ LeadsUp plan.now shape.now vid rooted.now bridge number }
{
    match numbered(plan.links.as_slice(), number as usize) {
        None => false,
        Some(link) => {
            let depths = rooted.depth.as_slice();
            is_active(plan, shape, vid, link)
                && (is_below(depths, &link.a, &link.b, bridge)
                    || is_below(depths, &link.b, &link.a, bridge))
        }
    }
}

/// Checks whether the bridge's entry is right.
fn stands(
    plan: &Plan,
    shape: &Shape,
    vid: u16,
    rooted: &Rooted,
    bridge: usize,
    up: Option<u8>,
) -> bool
    ensures { IsTrue result ↔ Stands plan.now shape.now vid rooted.now bridge up }
{
    match up {
        Some(number) => leads_up(plan, shape, vid, rooted, bridge, number),
        None => match numbered(rooted.depth.as_slice(), bridge) {
            Some(depth) => *depth == 0,
            None => false,
        },
    }
}

/// Checks whether all entries are right.
fn all_stand(plan: &Plan, shape: &Shape, vid: u16, rooted: &Rooted) -> bool
    ensures { IsTrue result ↔ AllStand plan.now shape.now vid rooted.now }
{
    for (i, up) in rooted.up.as_slice().iter().enumerate() {
        if !stands(plan, shape, vid, rooted, i + 1, *up) {
            return false;
        }
    }
    true
}

/// Marks the link of an entry, and returns whether it was not marked. An entry without a link returns `true`.
fn mark(marks: &mut [bool; 256], up: Option<u8>) -> bool
    ensures { MarksOne up marks.old marks.new result }
{
    match up {
        None => true,
        Some(number) => {
            let was_marked = marks[number as usize];
            marks[number as usize] = true;
            !was_marked
        }
    }
}

/// Returns marks of the links that lead up from a bridge, or `None` if a link does so for two bridges.
fn ways_up(ups: &[Option<u8>]) -> Option<[bool; 256]>
    ensures { MatchOption result (AreApart ups.now → ⊥) (λ marks. AreApart ups.now × AreMarked ups.now marks) }
{
    let mut marks = [false; 256];
    for up in ups {
        if !mark(&mut marks, *up) {
            return None;
        }
    }
    Some(marks)
}

/// Checks whether the link is marked, if it is active.
fn is_marked_if_active(
    plan: &Plan,
    shape: &Shape,
    vid: u16,
    marks: &[bool; 256],
    link: &LinkPlan,
    number: usize,
) -> bool
    ensures { IsTrue result ↔ (is_active plan.now shape.now vid link.now ≡ true
        → slice_index_or marks.now number false ≡ true) }
{
    !is_active(plan, shape, vid, link) || (number < 256 && marks[number])
}

/// Checks whether each active link is marked.
fn all_lead_up(
    plan: &Plan,
    shape: &Shape,
    vid: u16,
    ups: &[Option<u8>],
    marks: &[bool; 256],
) -> bool
    requires { AreMarked ups.now marks.now }
    ensures { IsTrue result ↔ AllLeadUp plan.now shape.now vid ups.now }
{
    for (i, link) in plan.links.as_slice().iter().enumerate() {
        if !is_marked_if_active(plan, shape, vid, marks, link, i + 1) {
            return false;
        }
    }
    true
}

/// Checks whether no link leads up from two bridges, and each active link leads up from one.
fn have_one_child(plan: &Plan, shape: &Shape, vid: u16, ups: &[Option<u8>]) -> bool
    ensures { IsTrue result ↔ (AreApart ups.now × AllLeadUp plan.now shape.now vid ups.now) }
{
    match ways_up(ups) {
        None => false,
        Some(marks) => all_lead_up(plan, shape, vid, ups, &marks),
    }
}

/// Checks whether both lists have one entry for each bridge.
fn has_all_entries(plan: &Plan, rooted: &Rooted) -> bool
    ensures { IsTrue result ↔ (length rooted.now.up ≡ length plan.now.bridges
        × (length rooted.now.depth ≡ length plan.now.bridges)) }
{
    rooted.up.len() == plan.bridges.len() && rooted.depth.len() == plan.bridges.len()
}

/// Checks whether all entries are right, and each active link leads up from exactly one bridge.
fn entries_show(plan: &Plan, shape: &Shape, vid: u16, rooted: &Rooted) -> bool
    ensures { IsTrue result ↔ (AllStand plan.now shape.now vid rooted.now
        × (AreApart rooted.now.up × AllLeadUp plan.now shape.now vid rooted.now.up)) }
{
    all_stand(plan, shape, vid, rooted) && have_one_child(plan, shape, vid, rooted.up.as_slice())
}

/// Checks whether parents and depths show that the active links of a service form no loop. Allocates nothing.
///
/// They do if and only if
///
/// - both lists have one entry for each bridge;
/// - each link of `up` is active and joins its bridge to one whose depth is one less;
/// - a bridge without a link in `up` has depth 0;
/// - each active link is in `up` exactly once.
///
/// A link is active for a service if both its ends are Forwarding and members of the service (IEEE 802.1Q clause
/// 8.8). `service` is a service's number, counted from 1. A number without a service means VID 0, which no service of
/// a sound plan has. No link is active then.
pub fn check_rooted(shape: &Shape, plan: &Plan, service: u8, rooted: &Rooted) -> bool
    ensures { IsTrue result ↔ Shows plan.now shape.now (vid_numbered plan.now service) rooted.now }
{
    let vid = vid_numbered(plan, service);
    has_all_entries(plan, rooted) && entries_show(plan, shape, vid, rooted)
}
