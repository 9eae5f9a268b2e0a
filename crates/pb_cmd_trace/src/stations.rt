//! The stations that a bridge has learnt, by its steps.

ghost use Rattle.std.specs.Prelude.{◌≡◌, ◌==◌, ◌&&◌};
ghost use Rattle.std.specs.List.{list_any};
ghost use Rattle.pb_frame.specs.Frames.{dst_of, src_of, is_group};
ghost use Rattle.pb_frame.specs.Tags.{has_service_tag};
ghost use Rattle.pb_lan.specs.Choice.{is_noted};
ghost use Rattle.pb_cmd_trace.specs.Stations.{came_as, is_known, is_shown, is_vid, known_at, known_by, shows};

use crate::onward::Onward;
use pb_forest::vid_numbered;
use pb_frame::{has_service_type, vid_of};
use pb_lan::{Learnt, Plan, Step};
use pb_names::customer_at;

/// Returns the destination address of a frame, or the whole frame if it is shorter (IEEE 802.3 clause 3.2.3).
pub(crate) fn destination(wire: &[u8]) -> &[u8]
    ensures { result.now ≡ dst_of wire.now }
{
    if wire.len() < 6 { wire } else { &wire[..6] }
}

/// Returns the source address of a frame, or what there is of it if the frame is shorter (IEEE 802.3 clause 3.2.3).
fn source(wire: &[u8]) -> &[u8]
    ensures { result.now ≡ src_of wire.now }
{
    if wire.len() < 6 {
        return &[];
    }
    destination(&wire[6..])
}

/// Checks whether an address is a group address.
fn is_group(address: &[u8]) -> bool
    ensures { result ≡ is_group address.now }
{
    match address {
        [first, ..] => *first % 2 == 1,
        [] => false,
    }
}

/// Checks whether a whole service tag follows the addresses (IEEE 802.1ad clause 9).
pub(crate) fn has_service_tag(wire: &[u8]) -> bool
    ensures { result ≡ has_service_tag wire.now }
{
    has_service_type(wire) && wire.len() >= 18
}

/// Returns the VID of a frame that a bridge received: that of the customer port's service, or of the frame's own tag.
fn came_as(plan: &Plan, bridge: u8, port: u8, wire: &[u8]) -> Option<u16>
    ensures { result ≡ came_as plan.now bridge port wire.now }
{
    match customer_at(plan, bridge, port) {
        Some(customer) => Some(vid_numbered(plan, customer.service)),
        None if has_service_tag(wire) => Some(vid_of(wire)),
        None => None,
    }
}

/// Checks whether a VID is this one.
fn is_vid(vid: u16, other: Option<u16>) -> bool
    ensures { result ≡ is_vid vid other }
{
    match other {
        None => false,
        Some(other) => other == vid,
    }
}

/// Checks whether the bridge has the source in its learning table afterwards.
fn is_noted(learnt: Option<Learnt>) -> bool
    ensures { result ≡ is_noted learnt }
{
    matches!(learnt, Some(Learnt::New | Learnt::Kept | Learnt::Moved))
}

/// Checks whether by this step the bridge has learnt a station in the service with a VID.
fn shows(plan: &Plan, bridge: u8, vid: u16, address: &[u8], step: &Step) -> bool
    ensures { result ≡ shows plan.now bridge vid address.now step.now }
{
    let Step::Receive {
        port,
        item,
        learnt,
        ..
    } = step
    else {
        return false;
    };
    let wire = item.wire.as_slice();
    let noted = is_noted(*learnt);
    let same_service = is_vid(vid, came_as(plan, bridge, *port, wire));
    let same_station = source(wire) == address;
    noted && same_service && same_station
}

/// Checks whether the bridge has learnt a station in the service with a VID, by some step.
fn is_shown_as(plan: &Plan, bridge: u8, steps: &[Step], address: &[u8], vid: u16) -> bool
    ensures { result ≡ list_any (shows plan.now bridge vid address.now) steps.now }
{
    for step in steps {
        if shows(plan, bridge, vid, address, step) {
            return true;
        }
    }
    false
}

/// Checks whether the bridge has learnt a station in the service with a VID, if there is a VID.
fn is_shown(plan: &Plan, bridge: u8, steps: &[Step], address: &[u8], vid: Option<u16>) -> bool
    ensures { result ≡ is_shown plan.now bridge steps.now address.now vid }
{
    match vid {
        None => false,
        Some(vid) => is_shown_as(plan, bridge, steps, address, vid),
    }
}

/// Checks whether a frame that a bridge received at a port is for one station, and the bridge has learnt it by one of
/// these steps. Ageing and moves are not considered.
fn is_known(plan: &Plan, bridge: u8, steps: &[Step], port: u8, wire: &[u8]) -> bool
    ensures { result ≡ is_known plan.now bridge steps.now port wire.now }
{
    let address = destination(wire);
    let vid = came_as(plan, bridge, port, wire);
    let shown = is_shown(plan, bridge, steps, address, vid);
    !is_group(address) && shown
}

/// Checks whether a bridge received a frame at a port by a step, which is the last one of `steps`, and had learnt the
/// station of its destination.
fn known_by(plan: &Plan, bridge: u8, steps: &[Step], port: u8, step: &Step) -> bool
    ensures { result ≡ known_by plan.now bridge steps.now port step.now }
{
    match step {
        Step::Receive { item, .. } => is_known(plan, bridge, steps, port, item.wire.as_slice()),
        _ => false,
    }
}

/// Checks whether a bridge received a frame by an event, whose step is the last one of `steps`, and had learnt the
/// station of its destination.
pub(crate) fn known_at(plan: &Plan, steps: &[Step], event: Onward, step: &Step) -> bool
    ensures { result ≡ known_at plan.now steps.now event step.now }
{
    match event {
        Onward::Receive(bridge, port) => known_by(plan, bridge, steps, port, step),
        _ => false,
    }
}
