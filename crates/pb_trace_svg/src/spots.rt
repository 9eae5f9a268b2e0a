//! Where hops are drawn, and the room that they need. No contract covers the positions.

use crate::hops::Hop;
use crate::words::{link_of, put_hop_words};
use pb_cmd_draw::Room;
use pb_frame::Memory;
use pb_lan::Plan;
use pb_names::is_end_at;
use std::alloc::Global;

/// The width of a letter.
const LETTER: u32 = 6;

/// The distance from one text to the next in the line of a customer port.
const BESIDE: u32 = 8;

/// The part of the network at which a hop is drawn.
#[derive(Clone, Copy, PartialEq, Eq)]
pub(crate) enum Spot {
    /// Under the name of the link with this number.
    Link(u8),
    /// In the line of the customer port with this number.
    Port(u8),
}

/// The spot of a hop's text, and the width of the text.
#[derive(Clone, Copy)]
pub(crate) struct Placed {
    pub spot: Spot,
    pub width: u32,
}

/// Returns the number of the part at an index of a list, from 1. A sound plan has at most 128 parts in a list.
fn number_at(place: usize) -> u8 {
    place.min(254) as u8 + 1
}

/// Returns the link or the customer port at a local port of a bridge, or the customer port 0 if none is there.
fn spot_at(plan: &Plan, bridge: u8, port: u8) -> Spot {
    for (place, link) in plan.links.as_slice().iter().enumerate() {
        if is_end_at(bridge, port, &link.a) || is_end_at(bridge, port, &link.b) {
            return Spot::Link(number_at(place));
        }
    }
    for (place, customer) in plan.customers.as_slice().iter().enumerate() {
        if customer.bridge == bridge && customer.port == port {
            return Spot::Port(number_at(place));
        }
    }
    Spot::Port(0)
}

/// Returns the spot of a hop.
fn spot_of(plan: &Plan, hop: Hop) -> Spot {
    match hop {
        Hop::Entered(port) | Hop::Delivered(port, _) => Spot::Port(port),
        Hop::Crossed(lane, _, _) => Spot::Link(link_of(lane)),
        Hop::Dropped(bridge, port, _) | Hop::Refused(bridge, port, _) => spot_at(
            plan, bridge, port,
        ),
    }
}

/// Returns the spot of a hop with this number, and the width of its text.
fn placed_hop(alloc: Global, plan: &Plan, number: usize, hop: Hop) -> Result<Placed, Memory> {
    let mut text = String::new(alloc);
    write!(text, "{number} ")?;
    put_hop_words(&mut text, plan, hop)?;
    Ok(Placed {
        spot: spot_of(plan, hop),
        width: (text.as_str().len().min(200) as u32).saturating_mul(LETTER),
    })
}

/// Returns the spots of hops, and the widths of their texts.
pub(crate) fn all_placed(alloc: Global, plan: &Plan, hops: &[Hop]) -> Result<Vec<Placed>, Memory> {
    let mut all = Vec::new(alloc);
    for (index, hop) in hops.iter().enumerate() {
        all.push(placed_hop(alloc, plan, index.saturating_add(1), *hop)?)?;
    }
    Ok(all)
}

/// Returns the room that the texts at a link need under its name.
fn room_at(all: &[Placed], link: u8) -> Room {
    let mut room = Room { width: 0, lines: 0 };
    for one in all {
        if one.spot == Spot::Link(link) {
            room.width = room.width.max(one.width);
            room.lines = room.lines.saturating_add(1);
        }
    }
    room
}

/// Returns the room that texts need under the name of each link.
pub(crate) fn link_rooms(alloc: Global, plan: &Plan, all: &[Placed]) -> Result<Vec<Room>, Memory> {
    let mut rooms = Vec::new(alloc);
    for (place, _) in plan.links.as_slice().iter().enumerate() {
        rooms.push(room_at(all, number_at(place)))?;
    }
    Ok(rooms)
}

/// Returns how many of these are at a spot.
pub(crate) fn count_at(all: &[Placed], spot: Spot) -> u32 {
    let mut count = 0u32;
    for one in all {
        if one.spot == spot {
            count = count.saturating_add(1);
        }
    }
    count
}

/// Returns the width of the texts at a spot, with the distance from one to the next.
pub(crate) fn width_at(all: &[Placed], spot: Spot) -> u32 {
    let mut width = 0u32;
    for one in all {
        if one.spot == spot {
            width = width.saturating_add(one.width).saturating_add(BESIDE);
        }
    }
    width
}

/// Returns the width that texts need in the line of a customer port.
pub(crate) fn port_room(plan: &Plan, all: &[Placed]) -> u32 {
    let mut widest = 0u32;
    for (place, _) in plan.customers.as_slice().iter().enumerate() {
        widest = widest.max(width_at(all, Spot::Port(number_at(place))));
    }
    widest
}
