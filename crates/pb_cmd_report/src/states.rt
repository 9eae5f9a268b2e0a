//! The states of links as letters, with which the page's script redraws the picture.

ghost use Rattle.std.specs.Prelude.{◌≡◌, ◌++◌, string_bytes, OnOk};
ghost use Rattle.pb_lan.specs.Plans.{IsSound};
ghost use Rattle.pb_cmd_report.specs.States.{state_letter, link_letter, live_letters, link_letters, letters_of};
ghost use Rattle.pb_cmd_report.specs.States.{states_data};

use pb_cmd_survive::{Failure, is_hit};
use pb_draw_layout::is_active_link;
use pb_forest::state_in;
use pb_frame::Memory;
use pb_lan::{LinkPlan, Plan, PortState, Shape};

/// Returns the letter of a port's state.
fn state_letter(state: PortState) -> &'static str
    ensures { result.now ≡ state_letter state }
{
    match state {
        PortState::Discarding => "d",
        PortState::Learning => "l",
        PortState::Forwarding => "f",
    }
}

/// Returns the letter of a link that is active or on standby.
fn link_letter(active: bool) -> &'static str
    ensures { result.now ≡ link_letter active }
{
    if active { "a" } else { "s" }
}

/// Appends the three letters of a link that has not failed.
fn put_live(out: &mut String, plan: &Plan, shape: &Shape, link: &LinkPlan) -> Result<(), Memory>
    ensures { OnOk result (string_bytes out.new ≡ string_bytes out.old
        ++ live_letters plan.now shape.now link.now) }
{
    out.push_str(link_letter(is_active_link(plan, shape, link)))?;
    out.push_str(state_letter(state_in(shape, link.a.bridge, link.a.port)))?;
    out.push_str(state_letter(state_in(shape, link.b.bridge, link.b.port)))?;
    Ok(())
}

/// Appends the three letters of the link with a number.
fn put_link(
    out: &mut String,
    plan: &Plan,
    shape: &Shape,
    failure: Failure,
    number: u8,
    link: &LinkPlan,
) -> Result<(), Memory>
    ensures { OnOk result (string_bytes out.new ≡ string_bytes out.old
        ++ link_letters plan.now shape.now failure number link.now) }
{
    if is_hit(failure, number, link) {
        out.push_str("xxx")?;
        return Ok(());
    }
    put_live(out, plan, shape, link)
}

/// Appends the letters of all links, in the plan's order.
fn put_letters(out: &mut String, plan: &Plan, shape: &Shape, failure: Failure) -> Result<(), Memory>
    requires { IsSound plan.now }
    ensures { OnOk result (string_bytes out.new ≡ string_bytes out.old
        ++ letters_of plan.now shape.now failure 1 plan.now.links) }
{
    for (place, link) in plan.links.as_slice().iter().enumerate() {
        put_link(out, plan, shape, failure, place as u8 + 1, link)?;
    }
    Ok(())
}

/// Appends the attribute with the letters of all links.
pub(crate) fn put_states(
    out: &mut String,
    plan: &Plan,
    shape: &Shape,
    failure: Failure,
) -> Result<(), Memory>
    requires { IsSound plan.now }
    ensures { OnOk result (string_bytes out.new ≡ string_bytes out.old
        ++ states_data plan.now shape.now failure) }
{
    out.push_str(" data-states=\"")?;
    put_letters(out, plan, shape, failure)?;
    out.push_str("\"")?;
    Ok(())
}
