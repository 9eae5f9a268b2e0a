//! The positions of the parts of a network. All lengths are in pixels.

mod columns;
mod labels;
mod levels;
mod order;
mod routes;
mod rows;
mod slots;
mod tracks;
mod wrap;

use crate::scene::{Point, Rooms};
use crate::table::Table;
use columns::{Columns, LETTER, MARGIN, columns_of, text_width};
use levels::levels_of;
use pb_forest::numbered;
use pb_frame::Memory;
use pb_lan::{Plan, Shape};
use rows::{PORT_HEIGHT, Rows, rows_of};
use slots::is_long;
use std::alloc::Global;
use tracks::{LANE, Stretch, stretches};
use wrap::wrapped;

/// The distance of the first customer port's baseline from the upper edge of its bridge's box.
const FIRST_PORT: u32 = 43;

/// The distance of the lines of ports from the left edge of the box.
const INDENT: u32 = 12;

/// The distance from one line of the legend to the next.
const LEGEND_LINE: u32 = 20;

/// The distance from the network to the legend.
const ABOVE_LEGEND: u32 = 28;

/// The width of an entry of the legend besides the name of its service.
const LEGEND_BESIDES: u32 = 104;

/// The width of an entry of the legend that explains a sign.
const SIGN_WIDTH: u32 = 160;

/// The least width of a picture.
const LEAST_WIDTH: u32 = 240;

/// The most bridges in a row of a level that wraps.
const MOST_IN_ROW: u32 = 20;

/// The width up to which a picture does not wrap.
const NARROW: u32 = 1000;

/// The positions of the parts of a plan's network.
#[derive(Drop)]
pub(crate) struct Layout {
    columns: Columns,
    rows: Rows,
    stretches: Vec<Stretch>,
    /// The width of the picture.
    width: u32,
    /// The width of an entry of the legend.
    entry: u32,
}

/// Returns the width of an entry of the legend.
fn entry_width(plan: &Plan) -> u32 {
    let mut widest = 0u32;
    for service in plan.services.as_slice() {
        widest = widest.max(text_width(service.name.as_str(), LETTER));
    }
    widest.saturating_add(LEGEND_BESIDES).max(SIGN_WIDTH)
}

/// Returns the right edge of all parts of links and their names.
fn right_of(stretches: &[Stretch]) -> u32 {
    let mut right = 0u32;
    for stretch in stretches {
        right = right.max(stretch.right);
    }
    right
}

/// Returns the width of the picture.
fn picture_width(plan: &Plan, columns: &Columns, stretches: &[Stretch], entry: u32) -> u32 {
    let mut lanes = 0u32;
    for link in plan.links.as_slice() {
        if is_long(&columns.levels, link) {
            lanes = lanes.saturating_add(LANE);
        }
    }
    let network = columns.right(plan).saturating_add(lanes);
    network
        .saturating_add(columns.left)
        .max(right_of(stretches))
        .max(entry.saturating_add(MARGIN))
        .max(LEAST_WIDTH)
}

/// Computes the positions of the parts of a plan's network, with at most so many bridges in a row.
fn layout_in_rows(
    alloc: Global,
    plan: &Plan,
    rooms: Rooms<'_>,
    levels: &Table,
    most: u32,
) -> Result<Layout, Memory> {
    let columns = columns_of(plan, wrapped(plan, levels, most), rooms);
    let stretches = stretches(alloc, &columns, plan, rooms)?;
    let rows = rows_of(plan, &columns, stretches.as_slice(), rooms);
    let entry = entry_width(plan);
    let width = picture_width(plan, &columns, stretches.as_slice(), entry);
    Ok(Layout {
        columns,
        rows,
        width,
        entry,
        stretches,
    })
}

/// Returns the narrower of two layouts, or the first if both have the same width.
fn narrower(one: Layout, other: Layout) -> Layout {
    if other.width < one.width { other } else { one }
}

/// Computes the positions of the parts of a plan's network, with the ports in these states and with this room under the
/// name of each link. Wide levels wrap until the picture fits.
pub(crate) fn layout_of(
    alloc: Global,
    plan: &Plan,
    shape: &Shape,
    rooms: Rooms<'_>,
) -> Result<Layout, Memory> {
    let levels = levels_of(plan, shape);
    let mut layout = layout_in_rows(alloc, plan, rooms, &levels, 32)?;
    for step in 0..MOST_IN_ROW {
        if layout.fits() {
            return Ok(layout);
        }
        let next = layout_in_rows(alloc, plan, rooms, &levels, MOST_IN_ROW - step)?;
        layout = narrower(layout, next);
    }
    Ok(layout)
}

impl Layout {
    /// Checks whether the network is narrow, or no wider than twice its height.
    fn fits(&self) -> bool {
        self.width <= NARROW || self.width <= self.rows.bottom.saturating_mul(2)
    }

    /// Returns the upper left corner of a bridge's box.
    pub(crate) fn corner(&self, bridge: u8) -> Point {
        let level = self.columns.levels.at(bridge as u32);
        Point {
            x: self.columns.box_left(bridge as u32),
            y: self.rows.tops.at(level),
        }
    }

    /// Returns the width and the height of a bridge's box.
    pub(crate) fn box_size(&self, bridge: u8) -> Point {
        let level = self.columns.levels.at(bridge as u32);
        Point {
            x: self.columns.box_width,
            y: self.rows.heights.at(level),
        }
    }

    /// Returns the start of a customer port's line, in its bridge's box.
    pub(crate) fn port_corner(&self, plan: &Plan, number: u8) -> Point {
        let Some(port) = numbered(plan.customers.as_slice(), number as usize) else {
            return Point { x: 0, y: 0 };
        };
        let mut before = 0u32;
        for (place, other) in plan.customers.as_slice().iter().enumerate() {
            if place + 1 < number as usize && other.bridge == port.bridge {
                before = before.saturating_add(PORT_HEIGHT);
            }
        }
        let corner = self.corner(port.bridge);
        Point {
            x: corner.x.saturating_add(INDENT),
            y: corner.y.saturating_add(FIRST_PORT).saturating_add(before),
        }
    }

    /// Returns how many services a line of the legend holds, at least 1.
    fn entries_in_line(&self) -> u32 {
        let room = self.width.saturating_sub(MARGIN);
        if self.entry == 0 {
            1
        } else {
            (room / self.entry).max(1)
        }
    }

    /// Returns the number of lines of the legend that so many entries take.
    fn lines_of(&self, entries: u32) -> u32 {
        let in_line = self.entries_in_line();
        if in_line == 0 {
            entries
        } else {
            entries.saturating_add(in_line - 1) / in_line
        }
    }

    /// Returns the start of an entry of the legend by its index among those of its kind, after so many of another kind.
    pub(crate) fn entry_corner(&self, before: usize, index: usize) -> Point {
        let entries = self.entries_in_line();
        let place = index.min(255) as u32;
        let (line, column) = if entries == 0 {
            (place, 0)
        } else {
            (place / entries, place % entries)
        };
        let line = line.saturating_add(self.lines_of(before.min(255) as u32));
        let top = self.rows.bottom.saturating_add(ABOVE_LEGEND);
        Point {
            x: column.saturating_mul(self.entry).saturating_add(MARGIN),
            y: line.saturating_mul(LEGEND_LINE).saturating_add(top),
        }
    }

    /// Returns the width and the height of the picture, with a legend of so many signs before the services.
    pub(crate) fn size(&self, plan: &Plan, keys: usize) -> Point {
        let services = plan.services.len();
        let last = if services == 0 {
            self.entry_corner(0, keys.saturating_sub(1))
        } else {
            self.entry_corner(keys, services - 1)
        };
        Point {
            x: self.width,
            y: last.y.saturating_add(MARGIN),
        }
    }
}
