//! The width of boxes, and their horizontal positions.

use super::labels::{label_half, lines_half, name_width, room_of};
use super::order::centres;
use super::slots::{Side, slot_of};
use crate::scene::Rooms;
use crate::table::{Table, number_at};
use pb_forest::numbered;
use pb_lan::{CustomerPlan, LinkPlan, Plan};

/// The distance between two boxes of a level.
const GAP: u32 = 40;

/// The margin at the edges of the picture.
pub(crate) const MARGIN: u32 = 24;

/// The least distance of the names of links from the left edge of the picture.
const EDGE: u32 = 4;

/// The least width of a box.
const LEAST_WIDTH: u32 = 104;

/// The width of a letter of a bridge's name.
const NAME_LETTER: u32 = 8;

/// The width of a letter of other names.
pub(crate) const LETTER: u32 = 7;

/// The width of the bar in a port's line.
const BAR: u32 = 44;

/// The padding beside the texts in a box.
const PADDING: u32 = 24;

/// The width that an end of a link needs at an edge of a box.
const LANDING: u32 = 18;

/// The horizontal positions.
#[derive(Clone, Copy)]
pub(crate) struct Columns {
    /// The row of each bridge: its level, or one of several rows of a wide level.
    pub levels: Table,
    /// The middle of each bridge's box, in half steps.
    pub centres: Table,
    /// The width of each box.
    pub box_width: u32,
    /// Half the distance from the middle of a box to that of the next one.
    pub half_step: u32,
    /// The left edge of the leftmost box.
    pub left: u32,
    /// The middle of the leftmost box, in half steps.
    pub first: u32,
}

/// Returns the width of a text, of which the first 64 octets count.
pub(crate) fn text_width(text: &str, letter: u32) -> u32 {
    let letters = text.len().min(64) as u32;
    letters.saturating_mul(letter)
}

/// Returns the width of a customer port's line.
fn port_width(plan: &Plan, customer: &CustomerPlan) -> u32 {
    let service = match numbered(plan.services.as_slice(), customer.service as usize) {
        None => 0,
        Some(service) => text_width(service.name.as_str(), LETTER),
    };
    text_width(customer.name.as_str(), LETTER)
        .saturating_add(service)
        .saturating_add(BAR + PADDING)
}

/// Returns the width that the texts in boxes need, with the room in the lines of customer ports.
fn widest_text(plan: &Plan, rooms: Rooms<'_>) -> u32 {
    let mut widest = LEAST_WIDTH;
    for bridge in plan.bridges.as_slice() {
        let name = text_width(bridge.name.as_str(), NAME_LETTER);
        widest = widest.max(name.saturating_add(PADDING));
    }
    for customer in plan.customers.as_slice() {
        let line = port_width(plan, customer).saturating_add(rooms.ports);
        widest = widest.max(line);
    }
    widest
}

/// Returns the width that the ends of links need at the edges of boxes.
fn widest_edge(plan: &Plan, levels: &Table, centres: &Table) -> u32 {
    let mut most = 0u32;
    for (place, link) in plan.links.as_slice().iter().enumerate() {
        let number = number_at(place);
        let a = slot_of(plan, levels, centres, link, number, Side::A);
        let b = slot_of(plan, levels, centres, link, number, Side::B);
        most = most.max(a.count).max(b.count);
    }
    most.saturating_mul(LANDING)
}

/// Returns half the width of the widest name of a link.
fn widest_name(plan: &Plan) -> u32 {
    let mut widest = 0u32;
    for link in plan.links.as_slice() {
        widest = widest.max(name_width(link));
    }
    widest / 2
}

/// Returns how far the names of links, and the lines under them, reach to the left of the leftmost box.
fn overhang(plan: &Plan, columns: &Columns, rooms: Rooms<'_>) -> u32 {
    let mut most = 0u32;
    for (place, link) in plan.links.as_slice().iter().enumerate() {
        let number = number_at(place);
        let a = columns.landing(plan, link, number, Side::A);
        let b = columns.landing(plan, link, number, Side::B);
        let middle = a.min(b).saturating_add(a.abs_diff(b) / 2);
        let half = label_half(link).max(lines_half(room_of(rooms, number)));
        most = most.max(columns.left.saturating_add(half).saturating_sub(middle));
    }
    most
}

/// Returns the least middle of all bridges' boxes, in half steps.
fn leftmost(plan: &Plan, centres: &Table) -> u32 {
    let mut first = u32::MAX;
    for (place, _) in plan.bridges.as_slice().iter().enumerate() {
        first = first.min(centres.at(number_at(place)));
    }
    first
}

/// Computes the horizontal positions of a plan's bridges in these rows, with this room under the name of each link.
pub(crate) fn columns_of(plan: &Plan, levels: Table, rooms: Rooms<'_>) -> Columns {
    let centres = centres(plan, &levels);
    let wide = widest_text(plan, rooms).max(widest_edge(plan, &levels, &centres));
    let box_width = (wide / 2).saturating_mul(2);
    let beside = widest_name(plan).saturating_sub(box_width / 4);
    let mut columns = Columns {
        levels,
        centres,
        box_width,
        half_step: box_width.saturating_add(GAP) / 2,
        left: beside.saturating_add(MARGIN),
        first: leftmost(plan, &centres),
    };
    let overhang = overhang(plan, &columns, rooms);
    columns.left = columns.left.max(overhang.saturating_add(EDGE));
    columns
}

impl Columns {
    /// Returns the left edge of a bridge's box.
    pub(crate) fn box_left(&self, bridge: u32) -> u32 {
        let steps = self.centres.at(bridge).saturating_sub(self.first);
        steps
            .saturating_mul(self.half_step)
            .saturating_add(self.left)
    }

    /// Returns the horizontal position at which an end of a link meets its bridge's box. All ends at one edge have
    /// equal shares of it.
    pub(crate) fn landing(&self, plan: &Plan, link: &LinkPlan, number: u32, side: Side) -> u32 {
        let slot = slot_of(plan, &self.levels, &self.centres, link, number, side);
        let bridge = match side {
            Side::A => link.a.bridge as u32,
            Side::B => link.b.bridge as u32,
        };
        let parts = slot.count.max(1).saturating_mul(2);
        let from_left = slot.index.saturating_mul(2).saturating_add(1);
        let within = if parts == 0 {
            0
        } else {
            self.box_width.saturating_mul(from_left) / parts
        };
        self.box_left(bridge).saturating_add(within)
    }

    /// Returns the right edge of the rightmost box.
    pub(crate) fn right(&self, plan: &Plan) -> u32 {
        let mut right = self.left;
        for (place, _) in plan.bridges.as_slice().iter().enumerate() {
            let left = self.box_left(number_at(place));
            right = right.max(left.saturating_add(self.box_width));
        }
        right
    }
}
