//! Paths in forests.

ghost use Rattle.std.specs.Prelude.{◌≡◌, ◌++◌, ℕ, reverse, IfOk, MatchOption};
ghost use Rattle.std.specs.Option.{option_map};
ghost use Rattle.pb_forest.specs.Paths.{depth_of, across, HasUp, Climbs, AnswersPath, ShowsSome};
ghost use Rattle.pb_forest.specs.Sides.{ClimbsDeeper};
ghost use Rattle.pb_lan.specs.Numbering.{numbered};

use crate::active::numbered;
use pb_frame::Memory;
use pb_lan::{Plan, Rooted};
use std::alloc::Global;

/// One end of a path, and its climb so far.
#[derive(Drop)]
struct Side {
    /// The bridge that it has reached.
    bridge: u8,
    /// The links of the climb, in order.
    links: Vec<u8>,
}

/// Returns the number of links between the bridge and its root.
fn depth_of(rooted: &Rooted, bridge: u8) -> u8
    ensures { result ≡ depth_of rooted.now bridge }
{
    match numbered(rooted.depth.as_slice(), bridge as usize) {
        None => 0,
        Some(depth) => *depth,
    }
}

/// Returns the bridge at the other end of the link, or the same bridge if there is no such link.
fn across(plan: &Plan, bridge: u8, number: u8) -> u8
    ensures { result ≡ across bridge (numbered plan.now.links number) }
{
    match numbered(plan.links.as_slice(), number as usize) {
        None => bridge,
        Some(link) if link.a.bridge == bridge => link.b.bridge,
        Some(link) => link.a.bridge,
    }
}

/// Returns the link that leads up from the bridge, if there is one.
fn up_of(rooted: &Rooted, bridge: u8) -> Option<u8>
    ensures { MatchOption result ((number : ℕ) → HasUp rooted.now bridge number
        → ⊥) (λ number. HasUp rooted.now bridge number) }
{
    match numbered(rooted.up.as_slice(), bridge as usize) {
        None => None,
        Some(up) => *up,
    }
}

/// Climbs over the link that leads up, and returns whether there is one.
///
/// # Errors
///
/// `Memory` if an allocation failed.
fn climb(plan: &Plan, rooted: &Rooted, side: &mut Side) -> Result<bool, Memory>
    ensures { IfOk result (λ climbs. Climbs plan.now rooted.now side.old.bridge side.old.links.items side.new.bridge
        side.new.links.items climbs) }
{
    let Some(number) = up_of(rooted, side.bridge) else {
        return Ok(false);
    };
    side.links.push(number)?;
    side.bridge = across(plan, side.bridge, number);
    Ok(true)
}

/// Climbs at the side that is deeper, at the first if both are as deep, and returns whether it could.
///
/// # Errors
///
/// `Memory` if an allocation failed.
fn climb_deeper(plan: &Plan, rooted: &Rooted, a: &mut Side, b: &mut Side) -> Result<bool, Memory>
    ensures { IfOk result (λ climbs. ClimbsDeeper plan.now rooted.now a.old b.old a.new b.new climbs) }
{
    if depth_of(rooted, a.bridge) >= depth_of(rooted, b.bridge) {
        return climb(plan, rooted, a);
    }
    climb(plan, rooted, b)
}

/// Returns the links of the first side, followed by those of the second backwards.
///
/// # Errors
///
/// `Memory` if an allocation failed.
fn joined(a: Side, b: Side) -> Result<Vec<u8>, Memory>
    ensures { IfOk result (λ links. links.items ≡ a.links.items ++ reverse b.links.items) }
{
    let Side {
        links: mut path,
        ..
    } = a;
    let Side {
        links: mut back,
        ..
    } = b;
    back.reverse();
    for number in &back {
        path.push(*number)?;
    }
    Ok(path)
}

/// Returns the path between two bridges in a forest: the numbers of the links between them, from `a` to `b`. The path
/// from a bridge to itself is empty. The result is `None` if the bridges are in different trees.
///
/// The parents and depths must show that the active links of some service, in some shape, are a forest, as
/// [`check_rooted`](crate::check_rooted) checks. The result holds for each such shape and service. Bridges are
/// numbered from 1. A number without a bridge is joined to no other.
///
/// The time is linear in the depths, which no contract states.
///
/// # Errors
///
/// `Memory` if an allocation failed.
pub fn path(
    alloc: Global,
    rooted: &Rooted,
    plan: &Plan,
    a: u8,
    b: u8,
) -> Result<Option<Vec<u8>>, Memory>
    requires { ShowsSome plan.now rooted.now }
    ensures { IfOk result (λ links. AnswersPath plan.now rooted.now a b (option_map (λ v. v.items) links)) }
{
    let mut from_a = Side {
        bridge: a,
        links: Vec::new(alloc),
    };
    let mut from_b = Side {
        bridge: b,
        links: Vec::new(alloc),
    };
    while from_a.bridge != from_b.bridge {
        if !climb_deeper(plan, rooted, &mut from_a, &mut from_b)? {
            return Ok(None);
        }
    }
    let links = joined(from_a, from_b)?;
    Ok(Some(links))
}
