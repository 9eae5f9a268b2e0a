//! The routes of links.

use super::Layout;
use super::labels::{label_half, lines_half, room_of};
use super::slots::{Side, is_long, lands_on_top, lower_level, upper_level};
use super::tracks::{lane, long_before, track_of};
use crate::scene::{Lane, Point, Rooms, Route};
use pb_forest::numbered;
use pb_lan::{LinkPlan, Plan};

/// The distance of a port's number from the upper edge of a box.
const NUMBER_BELOW_TOP: u32 = 14;

/// The distance of a port's number from the lower edge of a box.
const NUMBER_ABOVE_BOTTOM: u32 = 7;

impl Layout {
    /// Returns the point at which an end of a link meets its bridge's box.
    fn landing(&self, plan: &Plan, link: &LinkPlan, number: u8, side: Side) -> Point {
        let bridge = match side {
            Side::A => link.a.bridge,
            Side::B => link.b.bridge,
        };
        let level = self.columns.levels.at(bridge as u32);
        Point {
            x: self.columns.landing(plan, link, number as u32, side),
            y: if lands_on_top(&self.columns.levels, link, side) {
                self.rows.tops.at(level)
            } else {
                self.rows.floor(level)
            },
        }
    }

    /// Returns the route of a link between two adjacent levels, or between two bridges of one level.
    fn direct(&self, link: &LinkPlan, number: u8, a: Point, b: Point) -> Route {
        let level = upper_level(&self.columns.levels, link);
        let track = track_of(self.stretches.as_slice(), number as u32, false);
        let bend = self.rows.bend(level, track);
        let gap = self.rows.next(level).saturating_sub(self.rows.floor(level));
        let bend = if a.y == b.y {
            bend.saturating_add(gap / 6)
        } else {
            bend
        };
        Route {
            a,
            b,
            bend,
            lane: None,
            label: middle(a, b, bend),
            label_half: label_half(link),
            lines_half: 0,
            a_port: self.port_number(link, Side::A, a),
            b_port: self.port_number(link, Side::B, b),
        }
    }

    /// Returns the bends of a link that passes levels: the one below its upper bridge, then the one above its lower
    /// bridge.
    fn bends(&self, link: &LinkPlan, number: u8) -> (u32, u32) {
        let levels = &self.columns.levels;
        let stretches = self.stretches.as_slice();
        let above = lower_level(levels, link).saturating_sub(1);
        let first = track_of(stretches, number as u32, false);
        let last = track_of(stretches, number as u32, true);
        (
            self.rows.bend(upper_level(levels, link), first),
            self.rows.bend(above, last),
        )
    }

    /// Returns the upper end of the lane of a link that passes levels.
    fn lane_top(&self, plan: &Plan, link: &LinkPlan, number: u8) -> Point {
        let before = long_before(&self.columns, plan, number as u32);
        Point {
            x: lane(&self.columns, plan, before),
            y: self.rows.next(upper_level(&self.columns.levels, link)),
        }
    }

    /// Returns the route of a link that passes levels.
    fn around(&self, plan: &Plan, link: &LinkPlan, number: u8, a: Point, b: Point) -> Route {
        let levels = &self.columns.levels;
        let (upper_bend, lower_bend) = self.bends(link, number);
        let top = self.lane_top(plan, link, number);
        let bottom = self.rows.floor(lower_level(levels, link).saturating_sub(1));
        let begins_above = levels.at(link.a.bridge as u32) == upper_level(levels, link);
        let (bends, ends, upper_end) = if begins_above {
            ((upper_bend, lower_bend), (top.y, bottom), a)
        } else {
            ((lower_bend, upper_bend), (bottom, top.y), b)
        };
        let lane = Lane {
            x: top.x,
            bend: bends.1,
            from_a: ends.0,
            to_b: ends.1,
        };
        Route {
            a,
            b,
            bend: bends.0,
            lane: Some(lane),
            label: middle(upper_end, top, upper_bend),
            label_half: label_half(link),
            lines_half: 0,
            a_port: self.port_number(link, Side::A, a),
            b_port: self.port_number(link, Side::B, b),
        }
    }

    /// Returns the middle of the number of a link's port, inside the bridge's box.
    fn port_number(&self, link: &LinkPlan, side: Side, landing: Point) -> Point {
        let y = if lands_on_top(&self.columns.levels, link, side) {
            landing.y.saturating_add(NUMBER_BELOW_TOP)
        } else {
            landing.y.saturating_sub(NUMBER_ABOVE_BOTTOM)
        };
        Point { x: landing.x, y }
    }

    /// Returns the route of the link with a number, with this room under the name of each link.
    pub(crate) fn route(&self, plan: &Plan, rooms: Rooms<'_>, number: u8) -> Route {
        let Some(link) = numbered(plan.links.as_slice(), number as usize) else {
            return nowhere();
        };
        let a = self.landing(plan, link, number, Side::A);
        let b = self.landing(plan, link, number, Side::B);
        let mut route = if is_long(&self.columns.levels, link) {
            self.around(plan, link, number, a, b)
        } else {
            self.direct(link, number, a, b)
        };
        route.lines_half = lines_half(room_of(rooms, number as u32));
        route
    }
}

/// Returns the middle of the curve between two points, with both control points at the height `bend`.
fn middle(a: Point, b: Point, bend: u32) -> Point {
    let between = a.x.min(b.x).saturating_add(a.x.abs_diff(b.x) / 2);
    let ends = a.y.saturating_add(b.y);
    Point {
        x: between,
        y: bend.saturating_mul(6).saturating_add(ends) / 8,
    }
}

/// Returns a route of no length.
fn nowhere() -> Route {
    let corner = Point { x: 0, y: 0 };
    Route {
        a: corner,
        b: corner,
        bend: 0,
        lane: None,
        label: corner,
        label_half: 0,
        lines_half: 0,
        a_port: corner,
        b_port: corner,
    }
}
