//! What a picture shows of the reports of a trace.

ghost use Rattle.std.specs.Prelude.{◌≡◌, ◌++◌, flat_map, map, IfOk, OnOk};
ghost use Rattle.pb_frame.specs.Tags.{has_service_tag};
ghost use Rattle.pb_trace_svg.specs.Hops.{delivered_by, dropped_by, hops_at, hops_of, received_by, refusal, tag_of};
ghost use Rattle.pb_trace_svg.specs.Hops.{taken_by};

use pb_cmd_trace::{Onward, TraceLine};
use pb_frame::{Memory, Reason, has_service_type, priority_of, vid_of};
use pb_lan::{NoRoom, Outcome, Step};
use std::alloc::Global;

/// The tag of a frame on a link.
#[derive(Clone, Copy, PartialEq, Eq, Debug)]
pub enum Tag {
    /// An S-tag (IEEE 802.1ad clause 9).
    Service {
        /// Its VID.
        vid: u16,
        /// Its priority, the PCP.
        pcp: u8,
    },
    /// No S-tag.
    Untagged,
}

/// The cause for which a bridge dropped a frame.
#[derive(Clone, Copy, PartialEq, Eq, Debug)]
pub enum Cause {
    /// The bridge filtered the frame.
    Filtered(Reason),
    /// The frame was relayed to no port.
    NoPort,
}

/// A hop of a frame or a copy.
#[derive(Clone, Copy, PartialEq, Eq, Debug)]
pub enum Hop {
    /// The frame was injected at this customer port.
    Entered(u8),
    /// The link of this lane carried the frame with this tag, or lost it.
    Crossed(u8, Tag, bool),
    /// This bridge received the frame at this local port and dropped it.
    Dropped(u8, u8, Cause),
    /// This bridge dropped the copy for this local port.
    Refused(u8, u8, NoRoom),
    /// This customer port delivered the frame, or lost it, as the customer took no more frames.
    Delivered(u8, bool),
}

/// Checks whether a whole service tag follows the addresses (IEEE 802.1ad clause 9).
fn has_service_tag(wire: &[u8]) -> bool
    ensures { result ≡ has_service_tag wire.now }
{
    has_service_type(wire) && wire.len() >= 18
}

/// Returns the tag of a frame.
fn tag_of(wire: &[u8]) -> Tag
    ensures { result ≡ tag_of wire.now }
{
    if has_service_tag(wire) {
        Tag::Service {
            vid: vid_of(wire),
            pcp: priority_of(wire),
        }
    } else {
        Tag::Untagged
    }
}

/// Appends the hops of the copies that a bridge dropped.
fn push_refused(hops: &mut Vec<Hop>, bridge: u8, refused: &[(u8, NoRoom)]) -> Result<(), Memory>
    ensures { OnOk result (hops.new.items ≡ hops.old.items ++ map (refusal bridge) refused.now) }
{
    for one in refused {
        hops.push(Hop::Refused(bridge, one.0, one.1))?;
    }
    Ok(())
}

/// Appends the hops of a frame that a bridge received at a port, by its outcome.
fn push_dropped(hops: &mut Vec<Hop>, bridge: u8, port: u8, outcome: &Outcome) -> Result<(), Memory>
    ensures { OnOk result (hops.new.items ≡ hops.old.items ++ dropped_by bridge port outcome.now) }
{
    match outcome {
        Outcome::Relayed { chosen, refused } => {
            if chosen.list().as_slice().is_empty() {
                hops.push(Hop::Dropped(bridge, port, Cause::NoPort))?;
                return Ok(());
            }
            let refused = refused.list();
            push_refused(hops, bridge, refused.as_slice())
        }
        Outcome::Filtered(reason) => {
            hops.push(Hop::Dropped(bridge, port, Cause::Filtered(*reason)))?;
            Ok(())
        }
        Outcome::Heard => Ok(()),
    }
}

/// Appends the hops of a bridge's Receive step.
fn push_received(hops: &mut Vec<Hop>, bridge: u8, port: u8, step: &Step) -> Result<(), Memory>
    ensures { OnOk result (hops.new.items ≡ hops.old.items ++ received_by bridge port step.now) }
{
    match step {
        Step::Receive { outcome, .. } => push_dropped(hops, bridge, port, outcome),
        _ => Ok(()),
    }
}

/// Appends the hop of a lane's Take step.
fn push_taken(hops: &mut Vec<Hop>, lane: u8, step: &Step) -> Result<(), Memory>
    ensures { OnOk result (hops.new.items ≡ hops.old.items ++ taken_by lane step.now) }
{
    match step {
        Step::Take { item, lost, .. } => {
            hops.push(Hop::Crossed(lane, tag_of(item.wire.as_slice()), *lost))?;
            Ok(())
        }
        _ => Ok(()),
    }
}

/// Appends the hop of a customer port's Deliver step.
fn push_delivered(hops: &mut Vec<Hop>, port: u8, step: &Step) -> Result<(), Memory>
    ensures { OnOk result (hops.new.items ≡ hops.old.items ++ delivered_by port step.now) }
{
    match step {
        Step::Deliver { gone, .. } => {
            hops.push(Hop::Delivered(port, *gone))?;
            Ok(())
        }
        _ => Ok(()),
    }
}

/// Appends the hops of the step of an event.
fn push_hops_at(hops: &mut Vec<Hop>, event: Onward, step: &Step) -> Result<(), Memory>
    ensures { OnOk result (hops.new.items ≡ hops.old.items ++ hops_at event step.now) }
{
    match event {
        Onward::Deliver(port) => push_delivered(hops, port, step),
        Onward::Receive(bridge, port) => push_received(hops, bridge, port, step),
        Onward::Take(lane) => push_taken(hops, lane, step),
        Onward::Feed(_) | Onward::Transmit(_, _) | Onward::Put(_) => Ok(()),
    }
}

/// Appends the hops of a report.
fn push_hops(hops: &mut Vec<Hop>, line: &TraceLine) -> Result<(), Memory>
    ensures { OnOk result (hops.new.items ≡ hops.old.items ++ hops_of line.now) }
{
    match line {
        TraceLine::Entered { port, .. } => {
            hops.push(Hop::Entered(*port))?;
            Ok(())
        }
        TraceLine::Went { event, step, .. } => push_hops_at(hops, *event, step),
        TraceLine::Waits | TraceLine::Others(_) => Ok(()),
    }
}

/// Returns the hops of a trace, in order.
///
/// # Errors
///
/// `Memory` if an allocation failed.
pub(crate) fn hops_in(alloc: Global, lines: &[TraceLine]) -> Result<Vec<Hop>, Memory>
    ensures { IfOk result (λ hops. hops.items ≡ flat_map hops_of lines.now) }
{
    let mut hops = Vec::new(alloc);
    for line in lines {
        push_hops(&mut hops, line)?;
    }
    Ok(hops)
}
