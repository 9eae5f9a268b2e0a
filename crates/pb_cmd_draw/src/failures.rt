//! The bridges and the ends of links that arguments disable.

ghost use Rattle.std.specs.Prelude.{◌≡◌, ◌||◌, map, IfOk};
ghost use Rattle.pb_converge.specs.Falls.{fails, end_name};
ghost use Rattle.pb_frame.specs.Admission.{same};
ghost use Rattle.pb_cmd_draw.specs.Failures.{is_bridge_down, disables_end, is_end_down, down_ends, failures_of};

use pb_draw_layout::{DownEnds, Failures};
use pb_frame::{Memory, Seq};
use pb_lan::{BridgePlan, End, LinkPlan, Plan};
use pb_names::bridge_name;
use std::alloc::Global;

/// Checks whether one of the names is that of the bridge.
fn is_bridge_down(names: &[String], bridge: &BridgePlan) -> bool
    ensures { result ≡ is_bridge_down names.now bridge.now }
{
    for name in names {
        if name.as_str() == bridge.name.as_str() {
            return true;
        }
    }
    false
}

/// Checks whether a text is the name of the link, or of a bridge at one of its ends.
fn fails(plan: &Plan, name: &str, link: &LinkPlan) -> bool
    ensures { result ≡ fails plan.now name.now link.now }
{
    name == link.name.as_str()
        || name == bridge_name(plan, link.a.bridge)
        || name == bridge_name(plan, link.b.bridge)
}

/// Checks whether a text is `BRIDGE:PORT` for an end of a link.
///
/// # Errors
///
/// `Memory` if the allocation of a text failed.
fn is_named(alloc: Global, plan: &Plan, end: &End, name: &str) -> Result<bool, Memory>
    ensures { IfOk result (λ yes. yes ≡ same name.now (end_name plan.now end.now)) }
{
    let bridge = bridge_name(plan, end.bridge);
    let port = end.port;
    let text = format!(in alloc; "{bridge}:{port}")?;
    Ok(name == text.as_str())
}

/// Checks whether a name disables an end of a link.
///
/// # Errors
///
/// `Memory` if the allocation of a text failed.
fn disables_end(
    alloc: Global,
    plan: &Plan,
    name: &str,
    link: &LinkPlan,
    end: &End,
) -> Result<bool, Memory>
    ensures { IfOk result (λ yes. yes ≡ disables_end plan.now name.now link.now end.now) }
{
    let is_named = is_named(alloc, plan, end, name)?;
    Ok(fails(plan, name, link) || is_named)
}

/// Checks whether one of the names disables an end of a link.
///
/// # Errors
///
/// `Memory` if the allocation of a text failed.
fn is_end_down(
    alloc: Global,
    plan: &Plan,
    names: &[String],
    link: &LinkPlan,
    end: &End,
) -> Result<bool, Memory>
    ensures { IfOk result (λ yes. yes ≡ is_end_down plan.now names.now link.now end.now) }
{
    for name in names {
        if disables_end(alloc, plan, name.as_str(), link, end)? {
            return Ok(true);
        }
    }
    Ok(false)
}

/// Returns the ends of a link that the names disable.
///
/// # Errors
///
/// `Memory` if the allocation of a text failed.
fn down_ends(
    alloc: Global,
    plan: &Plan,
    names: &[String],
    link: &LinkPlan,
) -> Result<DownEnds, Memory>
    ensures { IfOk result (λ ends. ends ≡ down_ends plan.now names.now link.now) }
{
    let a = is_end_down(alloc, plan, names, link, &link.a)?;
    let b = is_end_down(alloc, plan, names, link, &link.b)?;
    Ok(DownEnds { a, b })
}

/// Returns whether the names disable a bridge, by bridge.
///
/// # Errors
///
/// `Memory` if an allocation failed.
fn down_bridges(alloc: Global, plan: &Plan, names: &[String]) -> Result<Seq<bool>, Memory>
    ensures { IfOk result (λ down. down ≡ map (is_bridge_down names.now) plan.now.bridges) }
{
    let mut down = Vec::new(alloc);
    for bridge in plan.bridges.as_slice() {
        down.push(is_bridge_down(names, bridge))?;
    }
    Ok(Seq::from_vec(down))
}

/// Returns the ends that the names disable, by link.
///
/// # Errors
///
/// `Memory` if an allocation failed.
fn down_links(alloc: Global, plan: &Plan, names: &[String]) -> Result<Seq<DownEnds>, Memory>
    ensures { IfOk result (λ down. down ≡ map (down_ends plan.now names.now) plan.now.links) }
{
    let mut down = Vec::new(alloc);
    for link in plan.links.as_slice() {
        down.push(down_ends(alloc, plan, names, link)?)?;
    }
    Ok(Seq::from_vec(down))
}

/// Returns the bridges and the ends of links that the names disable.
///
/// # Errors
///
/// `Memory` if an allocation failed.
pub fn failures_of(alloc: Global, plan: &Plan, names: &[String]) -> Result<Failures, Memory>
    ensures { IfOk result (λ failed. failed ≡ failures_of plan.now names.now) }
{
    let bridges = down_bridges(alloc, plan, names)?;
    let links = down_links(alloc, plan, names)?;
    Ok(Failures { bridges, links })
}
