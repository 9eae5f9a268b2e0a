//! The lines of a frame's steps.

ghost use Rattle.std.specs.Prelude.{◌≡◌, ◌++◌, flat_map, string_bytes, OnOk};
ghost use Rattle.pb_cmd_trace.specs.Lines.{line_text, others_line};
ghost use Rattle.pb_cmd_trace.specs.Tellings.{added_word, delivery_line, direction_word, entry_line, hops_of, indent};
ghost use Rattle.pb_cmd_trace.specs.Tellings.{drop_line, lane_words, receiving_line, result_line, sending_words};
ghost use Rattle.pb_cmd_trace.specs.Tellings.{spaces, tag_by, tag_words, taking_line, told, transmission_line};
ghost use Rattle.pb_messages.specs.Reasons.{reason_word};

use crate::lines::TraceLine;
use crate::names::neighbour;
use crate::onward::Onward;
use crate::receipt::{put_receipt, tag_text};
use crate::stations::has_service_tag;
use pb_frame::{Memory, hex_text};
use pb_lan::{Item, Outcome, Place, Plan, Reason, Step};
use pb_messages::put_reason;
use pb_names::{bridge_name, customer_at, link_name, port_name};
use pb_step_script::{put_done, put_idle};
use std::alloc::Global;

/// The most levels of indentation, besides the first. A frame in a forwarding loop has no last hop.
const MOST_LEVELS: u32 = 32;

/// Appends two spaces for each level.
fn put_spaces(out: &mut String, levels: u32) -> Result<(), Memory>
    ensures { OnOk result (string_bytes out.new ≡ string_bytes out.old ++ spaces levels) }
{
    for _ in 0..levels {
        out.push_str("  ")?;
    }
    Ok(())
}

/// Returns how many bridges have relayed the frame of a step.
fn hops_of(step: &Step) -> u32
    ensures { result ≡ hops_of step.now }
{
    match step {
        Step::Poll { item }
        | Step::Feed { item }
        | Step::Deliver { item, .. }
        | Step::Receive { item, .. }
        | Step::Transmit { item, .. }
        | Step::Take { item, .. }
        | Step::Put { item } => item.hops,
        Step::Tick { .. } | Step::Admin { .. } => 0,
    }
}

/// Appends the indentation of a line: one level, and one more for each bridge that has relayed its frame.
fn put_indent(out: &mut String, step: &Step) -> Result<(), Memory>
    ensures { OnOk result (string_bytes out.new ≡ string_bytes out.old ++ indent (hops_of step.now)) }
{
    put_spaces(out, hops_of(step).min(MOST_LEVELS) + 1)
}

/// Returns whether the tag was added by this bridge, as text: the first bridge adds it.
fn added_word(hops: u32) -> &'static str
    ensures { result.now ≡ added_word hops }
{
    if hops == 1 { " added" } else { "" }
}

/// Appends the tag of a frame that is sent to another bridge.
fn put_tag(alloc: Global, out: &mut String, item: &Item) -> Result<(), Memory>
    ensures { OnOk result (string_bytes out.new ≡ string_bytes out.old ++ tag_by None item.now) }
{
    let wire = item.wire.as_slice();
    if !has_service_tag(wire) {
        return Ok(());
    }
    let tag = tag_text(alloc, wire)?;
    let word = added_word(item.hops);
    write!(out, ", tag {tag}{word}")?;
    Ok(())
}

/// Appends the tag of a frame that a bridge sent, or that it was removed.
fn put_tag_of(
    alloc: Global,
    out: &mut String,
    plan: &Plan,
    bridge: u8,
    port: u8,
    step: &Step,
) -> Result<(), Memory>
    ensures { OnOk result (string_bytes out.new ≡ string_bytes out.old ++ tag_words plan.now bridge port step.now) }
{
    let Step::Transmit { item, .. } = step else {
        return Ok(());
    };
    match customer_at(plan, bridge, port) {
        None => put_tag(alloc, out, item),
        Some(_) if item.hops > 1 => {
            out.push_str(", tag removed")?;
            Ok(())
        }
        Some(_) => Ok(()),
    }
}

/// Appends where a bridge sent a frame, and with what tag.
fn put_sending(
    alloc: Global,
    out: &mut String,
    plan: &Plan,
    bridge: u8,
    port: u8,
    step: &Step,
) -> Result<(), Memory>
    ensures { OnOk result (string_bytes out.new ≡ string_bytes out.old ++ sending_words plan.now bridge port step.now) }
{
    let name = bridge_name(plan, bridge);
    let near = neighbour(plan, bridge, port);
    write!(out, "{name} {port} to {near}")?;
    put_tag_of(alloc, out, plan, bridge, port, step)
}

/// Returns the direction of a lane: from end a to end b, or back.
fn direction_word(lane: u8) -> &'static str
    ensures { result.now ≡ direction_word lane }
{
    if lane % 2 == 1 { " ab" } else { " ba" }
}

/// Appends a lane, as the name of its link and the direction.
fn put_lane(out: &mut String, plan: &Plan, lane: u8) -> Result<(), Memory>
    ensures { OnOk result (string_bytes out.new ≡ string_bytes out.old ++ lane_words plan.now lane) }
{
    out.push_str(link_name(plan, ((u16::from(lane) + 1) / 2) as u8))?;
    out.push_str(direction_word(lane))?;
    Ok(())
}

/// Appends the line of a drop reason.
fn put_drop(out: &mut String, reason: Reason) -> Result<(), Memory>
    ensures { OnOk result (string_bytes out.new ≡ string_bytes out.old ++ drop_line (reason_word reason)) }
{
    out.push_str("dropped: ")?;
    put_reason(out, reason)?;
    out.push_str("\n")?;
    Ok(())
}

/// Appends what a bridge did with a frame that it received: the drop reason, or the ports at which it queued copies.
fn put_result(
    alloc: Global,
    out: &mut String,
    plan: &Plan,
    bridge: u8,
    step: &Step,
) -> Result<(), Memory>
    ensures { OnOk result (string_bytes out.new ≡ string_bytes out.old ++ result_line plan.now bridge step.now) }
{
    if let Step::Receive { outcome, .. } = step {
        match outcome {
            Outcome::Filtered(reason) => return put_drop(out, *reason),
            Outcome::Relayed { chosen, .. } if chosen.list().as_slice().is_empty() => {
                out.push_str("dropped: no-port\n")?;
                return Ok(());
            }
            Outcome::Relayed { .. } | Outcome::Heard => (),
        }
    }
    put_done(alloc, out, plan, Place::Bridge(bridge), step)
}

/// Appends the line of a frame that a bridge received.
fn put_receiving(
    alloc: Global,
    out: &mut String,
    plan: &Plan,
    bridge: u8,
    port: u8,
    known: bool,
    step: &Step,
) -> Result<(), Memory>
    ensures { OnOk result (string_bytes out.new ≡ string_bytes out.old
        ++ receiving_line plan.now bridge port known step.now) }
{
    put_indent(out, step)?;
    put_receipt(alloc, out, plan, bridge, port, known, step)?;
    out.push_str(": ")?;
    put_result(alloc, out, plan, bridge, step)
}

/// Appends the line of a frame that a bridge sent.
fn put_transmission(
    alloc: Global,
    out: &mut String,
    plan: &Plan,
    bridge: u8,
    port: u8,
    step: &Step,
) -> Result<(), Memory>
    ensures { OnOk result (string_bytes out.new ≡ string_bytes out.old
        ++ transmission_line plan.now bridge port step.now) }
{
    put_indent(out, step)?;
    put_sending(alloc, out, plan, bridge, port, step)?;
    out.push_str("\n")?;
    Ok(())
}

/// Appends the line of a frame that a customer port delivered.
fn put_delivery(
    alloc: Global,
    out: &mut String,
    plan: &Plan,
    port: u8,
    step: &Step,
) -> Result<(), Memory>
    ensures { OnOk result (string_bytes out.new ≡ string_bytes out.old ++ delivery_line plan.now port step.now) }
{
    put_indent(out, step)?;
    out.push_str(port_name(plan, port))?;
    out.push_str(": ")?;
    put_done(alloc, out, plan, Place::Customer(port), step)
}

/// Appends the line of a frame that a lane took.
fn put_taking(
    alloc: Global,
    out: &mut String,
    plan: &Plan,
    lane: u8,
    step: &Step,
) -> Result<(), Memory>
    ensures { OnOk result (string_bytes out.new ≡ string_bytes out.old ++ taking_line plan.now lane step.now) }
{
    put_indent(out, step)?;
    put_lane(out, plan, lane)?;
    out.push_str(": ")?;
    put_done(alloc, out, plan, Place::Lane(lane), step)
}

/// Appends the line of a step with a frame, whose station is known or not. A Feed and a Put have no line.
fn put_told(
    alloc: Global,
    out: &mut String,
    plan: &Plan,
    known: bool,
    onward: Onward,
    step: &Step,
) -> Result<(), Memory>
    ensures { OnOk result (string_bytes out.new ≡ string_bytes out.old ++ told plan.now known onward step.now) }
{
    match onward {
        Onward::Feed(_) | Onward::Put(_) => Ok(()),
        Onward::Deliver(port) => put_delivery(alloc, out, plan, port, step),
        Onward::Receive(bridge, port) => put_receiving(alloc, out, plan, bridge, port, known, step),
        Onward::Transmit(bridge, port) => put_transmission(alloc, out, plan, bridge, port, step),
        Onward::Take(lane) => put_taking(alloc, out, plan, lane, step),
    }
}

/// Appends the line of an injected frame.
fn put_entry(
    alloc: Global,
    out: &mut String,
    plan: &Plan,
    port: u8,
    step: &Step,
) -> Result<(), Memory>
    ensures { OnOk result (string_bytes out.new ≡ string_bytes out.old ++ entry_line plan.now port step.now) }
{
    let Step::Poll { item } = step else {
        return Ok(());
    };
    let octets = hex_text(alloc, item.wire.as_slice())?;
    write!(out, "in {octets}: ")?;
    put_done(alloc, out, plan, Place::Customer(port), step)
}

/// Appends the number of other events, if there were any.
fn put_others(out: &mut String, others: u64) -> Result<(), Memory>
    ensures { OnOk result (string_bytes out.new ≡ string_bytes out.old ++ others_line others) }
{
    if others != 0 {
        writeln!(out, "other events {others}")?;
    }
    Ok(())
}

/// Appends the line of a report.
fn put_line(alloc: Global, out: &mut String, plan: &Plan, line: &TraceLine) -> Result<(), Memory>
    ensures { OnOk result (string_bytes out.new ≡ string_bytes out.old ++ line_text plan.now line.now) }
{
    match line {
        TraceLine::Entered { port, step } => put_entry(alloc, out, plan, *port, step),
        TraceLine::Waits => put_idle(out),
        TraceLine::Went { event, step, known } => put_told(alloc, out, plan, *known, *event, step),
        TraceLine::Others(others) => put_others(out, *others),
    }
}

/// Appends the lines of reports.
pub(crate) fn put_lines(
    alloc: Global,
    out: &mut String,
    plan: &Plan,
    lines: &[TraceLine],
) -> Result<(), Memory>
    ensures { OnOk result (string_bytes out.new ≡ string_bytes out.old ++ flat_map (line_text plan.now) lines.now) }
{
    for line in lines {
        put_line(alloc, out, plan, line)?;
    }
    Ok(())
}
