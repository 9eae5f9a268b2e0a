//! The vertical positions.

use super::columns::{Columns, MARGIN};
use super::labels::lines_depth;
use super::tracks::{Stretch, depths};
use crate::scene::Rooms;
use crate::table::{Table, number_at};
use pb_lan::Plan;

/// The height of a box without ports.
const BARE_HEIGHT: u32 = 48;

/// The height of a port's line in a box.
pub(crate) const PORT_HEIGHT: u32 = 16;

/// The distance from one track of links to the next, without lines under names.
const DEPTH: u32 = 24;

/// The distance of the links from the levels above and below.
const BESIDE: u32 = 20;

/// The vertical positions.
#[derive(Clone, Copy)]
pub(crate) struct Rows {
    /// The upper edge of each level.
    pub tops: Table,
    /// The height of each level's boxes.
    pub heights: Table,
    /// The lower edge of all.
    pub bottom: u32,
    /// The distance from one track of links to the next.
    pub depth: u32,
}

/// Returns how many customer ports a bridge has.
fn port_count(plan: &Plan, bridge: u32) -> u32 {
    let mut count = 0u32;
    for customer in plan.customers.as_slice() {
        if customer.bridge as u32 == bridge {
            count = count.saturating_add(1);
        }
    }
    count
}

/// Returns the height of each level's boxes, or 0 for a level without bridges.
fn heights(plan: &Plan, levels: &Table) -> Table {
    let mut heights = Table::filled(0);
    for (place, _) in plan.bridges.as_slice().iter().enumerate() {
        let number = number_at(place);
        let ports = port_count(plan, number).saturating_mul(PORT_HEIGHT);
        heights.raise(levels.at(number), BARE_HEIGHT.saturating_add(ports));
    }
    heights
}

/// Returns the height of the gap between a level and the next one, with tracks at this distance.
fn gap_below(depths: u32, is_last: bool, depth: u32) -> u32 {
    if depths == 0 && is_last {
        0
    } else {
        depths.saturating_mul(depth).saturating_add(BESIDE)
    }
}

/// Computes the vertical positions of a plan's levels, with this room under the name of each link.
pub(crate) fn rows_of(
    plan: &Plan,
    columns: &Columns,
    stretches: &[Stretch],
    rooms: Rooms<'_>,
) -> Rows {
    let heights = heights(plan, &columns.levels);
    let depths = depths(stretches);
    let depth = DEPTH.saturating_add(lines_depth(rooms));
    let mut tops = Table::filled(0);
    let mut y = MARGIN;
    for level in 0..32u32 {
        tops.set(level, y);
        let height = heights.at(level);
        let is_last = heights.at(level + 1) == 0;
        if height > 0 {
            let gap = gap_below(depths.at(level), is_last, depth);
            y = y.saturating_add(height).saturating_add(gap);
        }
    }
    Rows {
        tops,
        heights,
        bottom: y,
        depth,
    }
}

impl Rows {
    /// Returns the lower edge of a level's boxes.
    pub(crate) fn floor(&self, level: u32) -> u32 {
        self.tops.at(level).saturating_add(self.heights.at(level))
    }

    /// Returns the upper edge of the next level, or the lower edge of all after the last level.
    pub(crate) fn next(&self, level: u32) -> u32 {
        let next = self.tops.at(level.saturating_add(1));
        if self.heights.at(level.saturating_add(1)) == 0 {
            self.bottom
        } else {
            next
        }
    }

    /// Returns the vertical position at which the links of a track bend below a level.
    pub(crate) fn bend(&self, level: u32, track: u32) -> u32 {
        self.floor(level)
            .saturating_add(BESIDE)
            .saturating_add(track.saturating_mul(self.depth))
    }
}
