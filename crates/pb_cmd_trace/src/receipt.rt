//! The text of a frame that a bridge received.

ghost use Rattle.std.specs.Prelude.{◌≡◌, ◌≤◌, ◌++◌, take, drop, length, string_bytes, true, OnOk, IfOk};
ghost use Rattle.pb_frame.specs.Tags.{has_priority_tag, has_service_tag};
ghost use Rattle.pb_cmd_trace.specs.Tellings.{class_words, customer_words, learnt_words, receipt_words, service_words};
ghost use Rattle.pb_cmd_trace.specs.Tellings.{tag_text as text_of_tag, tagged_words, way_word, way_words};

use crate::names::{name_of_vid, neighbour};
use crate::stations::has_service_tag;
use pb_forest::vid_numbered;
use pb_frame::{Memory, has_priority_tag, hex_text, priority_of, vid_of};
use pb_lan::{CustomerPlan, Learnt, Outcome, Plan, Step};
use pb_names::{bridge_name, customer_at};
use std::alloc::Global;

/// Returns the four octets of a service tag, in hexadecimal.
pub(crate) fn tag_text(alloc: Global, wire: &[u8]) -> Result<String, Memory>
    requires { 16 ≤ length wire.now }
    ensures { IfOk result (λ text. string_bytes text ≡ text_of_tag wire.now) }
{
    hex_text(alloc, &wire[12..16])
}

/// Appends the service and the priority of a frame.
fn put_service(out: &mut String, plan: &Plan, vid: u16, priority: u8) -> Result<(), Memory>
    ensures { OnOk result (string_bytes out.new ≡ string_bytes out.old ++ service_words plan.now vid priority) }
{
    let name = name_of_vid(plan, vid);
    write!(out, ", {name} vid {vid} priority {priority}")?;
    Ok(())
}

/// Appends the service and the priority of a customer's frame. A priority tag is removed (IEEE 802.1ad clause 9), and
/// its priority replaces the port's.
fn put_customer(
    alloc: Global,
    out: &mut String,
    plan: &Plan,
    customer: &CustomerPlan,
    wire: &[u8],
) -> Result<(), Memory>
    ensures { OnOk result (string_bytes out.new ≡ string_bytes out.old
        ++ customer_words plan.now customer.now wire.now) }
{
    let vid = vid_numbered(plan, customer.service);
    if !has_priority_tag(wire) {
        return put_service(out, plan, vid, customer.pcp);
    }
    put_service(out, plan, vid, priority_of(wire))?;
    let tag = tag_text(alloc, wire)?;
    write!(out, ", tag {tag} removed")?;
    Ok(())
}

/// Appends the service and the priority of a frame from another bridge, by its service tag.
fn put_tagged(out: &mut String, plan: &Plan, wire: &[u8]) -> Result<(), Memory>
    ensures { OnOk result (string_bytes out.new ≡ string_bytes out.old ++ tagged_words plan.now wire.now) }
{
    if has_service_tag(wire) {
        return put_service(out, plan, vid_of(wire), priority_of(wire));
    }
    out.push_str(", untagged")?;
    Ok(())
}

/// Appends the service and the priority of a frame that a bridge received at a port.
fn put_class(
    alloc: Global,
    out: &mut String,
    plan: &Plan,
    bridge: u8,
    port: u8,
    wire: &[u8],
) -> Result<(), Memory>
    ensures { OnOk result (string_bytes out.new ≡ string_bytes out.old ++ class_words plan.now bridge port wire.now) }
{
    match customer_at(plan, bridge, port) {
        Some(customer) => put_customer(alloc, out, plan, customer, wire),
        None => put_tagged(out, plan, wire),
    }
}

/// Returns the text of what the learning table did with the source (IEEE 802.1Q clause 8.7).
fn learnt_words(learnt: Option<Learnt>) -> &'static str
    ensures { result.now ≡ learnt_words learnt }
{
    match learnt {
        None => "",
        Some(Learnt::New) => ", source learnt",
        Some(Learnt::Kept) => ", source known",
        Some(Learnt::Moved) => ", source moved",
        Some(Learnt::Full) => ", table full",
        Some(Learnt::Group) => ", source is a group address",
        Some(Learnt::Memory) => ", source not learnt",
    }
}

/// Returns why a relayed frame is sent at the chosen ports: its station is known, or it is flooded. A frame with no
/// egress port is dropped (IEEE 802.1Q clause 8.6).
fn way_word(known: bool, chosen: &[u8]) -> &'static str
    ensures { result.now ≡ way_word known chosen.now }
{
    if chosen.is_empty() {
        return "";
    }
    if known { ", known" } else { ", flooded" }
}

/// Returns why a received frame is sent where it is, or an empty text if it is not relayed.
fn way_words(known: bool, outcome: &Outcome) -> &'static str
    ensures { result.now ≡ way_words known outcome.now }
{
    match outcome {
        Outcome::Relayed { chosen, .. } => {
            let chosen = chosen.list();
            way_word(known, chosen.as_slice())
        }
        Outcome::Filtered(_) | Outcome::Heard => "",
    }
}

/// Appends where a bridge received a frame, its service and priority, what the bridge learnt, and why the frame is sent
/// where it is.
pub(crate) fn put_receipt(
    alloc: Global,
    out: &mut String,
    plan: &Plan,
    bridge: u8,
    port: u8,
    known: bool,
    step: &Step,
) -> Result<(), Memory>
    ensures { OnOk result (string_bytes out.new ≡ string_bytes out.old
        ++ receipt_words plan.now bridge port known step.now) }
{
    let Step::Receive {
        item,
        learnt,
        outcome,
        ..
    } = step
    else {
        return Ok(());
    };
    let wire = item.wire.as_slice();
    let name = bridge_name(plan, bridge);
    let near = neighbour(plan, bridge, port);
    write!(out, "{name} {port} from {near}")?;
    put_class(alloc, out, plan, bridge, port, wire)?;
    out.push_str(learnt_words(*learnt))?;
    out.push_str(way_words(known, outcome))?;
    Ok(())
}
