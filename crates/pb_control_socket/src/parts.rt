//! Enables and disables the ends of the parts that lines name.

ghost use Rattle.std.specs.List.{All, AllByRecursion};
ghost use Rattle.std.specs.Prelude.{map};
ghost use Rattle.pb_lan.specs.Ports.{ends_of};
ghost use Rattle.pb_control_socket.specs.Parts.{ends_at, ends_of_part};
ghost use Rattle.pb_control_socket.specs.Requests.{set_end};

use crate::board::Board;
use crate::places::link_numbered;
use crate::request::Part;
use pb_lan::{LinkPlan, Plan};

/// Enables or disables both ends of a link.
fn set_ends<B: Board>(board: &B, link: &LinkPlan, up: bool)
    requires { AllByRecursion (λ e. B.allows board.now (set_end up e)) (ends_of link.now) }
    ensures { AllByRecursion (λ e. B.was_asked board.now (set_end up e)) (ends_of link.now) }
{
    board.set(link.a.bridge, link.a.port, up);
    board.set(link.b.bridge, link.b.port, up);
}

/// Enables or disables both ends of a link, if one of them is at this bridge.
fn set_ends_at<B: Board>(board: &B, bridge: u8, link: &LinkPlan, up: bool)
    requires { AllByRecursion (λ e. B.allows board.now (set_end up e)) (ends_at bridge link.now) }
    ensures { AllByRecursion (λ e. B.was_asked board.now (set_end up e)) (ends_at bridge link.now) }
{
    if link.a.bridge == bridge || link.b.bridge == bridge {
        set_ends(board, link, up);
    }
}

/// Enables or disables both ends of the link of this number, from 1.
fn set_link<B: Board>(plan: &Plan, board: &B, number: u8, up: bool)
    requires { AllByRecursion (λ e. B.allows board.now (set_end up e)) (ends_of_part plan.now (Part.Link number)) }
    ensures { AllByRecursion (λ e. B.was_asked board.now (set_end up e)) (ends_of_part plan.now (Part.Link number)) }
{
    if let Some(link) = link_numbered(plan, number) {
        set_ends(board, link, up);
    }
}

/// Enables or disables both ends of each link of the bridge of this number, from 1.
fn set_bridge<B: Board>(plan: &Plan, board: &B, number: u8, up: bool)
    requires { AllByRecursion (λ e. B.allows board.now (set_end up e)) (ends_of_part plan.now (Part.Bridge number)) }
    ensures { AllByRecursion (λ e. B.was_asked board.now (set_end up e)) (ends_of_part plan.now (Part.Bridge number)) }
{
    for link in plan.links.as_slice() {
        set_ends_at(board, number, link, up);
    }
}

/// Enables or disables the ends of a part, in the order of the plan.
pub(crate) fn set_part<B: Board>(plan: &Plan, board: &B, part: Part, up: bool)
    requires { All (B.allows board.now) (map (set_end up) (ends_of_part plan.now part)) }
    ensures { All (B.was_asked board.now) (map (set_end up) (ends_of_part plan.now part)) }
{
    match part {
        Part::Link(number) => set_link(plan, board, number, up),
        Part::Bridge(number) => set_bridge(plan, board, number, up),
    }
}
