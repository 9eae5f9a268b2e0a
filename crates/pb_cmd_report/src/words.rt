//! Words in the cells of the tables.

ghost use Rattle.std.specs.Prelude.{◌≡◌, ◌++◌, flat_map, string_bytes, OnOk};
ghost use Rattle.pb_cmd_report.specs.Words.{convergence_words, health_word, active_text, tree_text};

use pb_cmd_survive::{View, is_split};
use pb_converge::Convergence;
use pb_forest::{is_active, vid_numbered};
use pb_frame::Memory;
use pb_lan::{LinkPlan, Plan, Shape};

/// Appends whether the bridges converged, and after how many ticks of each.
pub(crate) fn put_convergence_words(
    out: &mut String,
    convergence: Convergence,
) -> Result<(), Memory>
    ensures { OnOk result (string_bytes out.new ≡ string_bytes out.old ++ convergence_words convergence) }
{
    match convergence {
        Convergence::Given => out.push_str("states given")?,
        Convergence::Converged(ticks) => write!(out, "{ticks} s")?,
        Convergence::NotConverged(ticks) => write!(out, "not in {ticks} s")?,
    }
    Ok(())
}

/// Returns the health of a service.
pub(crate) fn health_word(view: &View) -> &'static str
    ensures { result.now ≡ health_word view.now }
{
    if !view.is_forest {
        "forwarding loop"
    } else if is_split(view.sites.as_slice()) {
        "disconnected"
    } else if view.sites.as_slice().len() < 2 {
        "fewer than two sites"
    } else {
        "healthy"
    }
}

/// Appends the name of a link after a space, if it is active for the service with this VID.
fn put_active(
    out: &mut String,
    plan: &Plan,
    shape: &Shape,
    vid: u16,
    link: &LinkPlan,
) -> Result<(), Memory>
    ensures { OnOk result (string_bytes out.new ≡ string_bytes out.old
        ++ active_text plan.now shape.now vid link.now) }
{
    if !is_active(plan, shape, vid, link) {
        return Ok(());
    }
    out.push_str(" ")?;
    out.push_str(link.name.as_str())?;
    Ok(())
}

/// Appends the names of the links that are active for the service with this VID.
fn put_all_active(out: &mut String, plan: &Plan, shape: &Shape, vid: u16) -> Result<(), Memory>
    ensures { OnOk result (string_bytes out.new ≡ string_bytes out.old
        ++ flat_map (active_text plan.now shape.now vid) plan.now.links) }
{
    for link in plan.links.as_slice() {
        put_active(out, plan, shape, vid, link)?;
    }
    Ok(())
}

/// Appends the names of the active links of a service.
pub(crate) fn put_tree(
    out: &mut String,
    plan: &Plan,
    shape: &Shape,
    service: u8,
) -> Result<(), Memory>
    ensures { OnOk result (string_bytes out.new ≡ string_bytes out.old
        ++ tree_text plan.now shape.now service) }
{
    put_all_active(out, plan, shape, vid_numbered(plan, service))
}
