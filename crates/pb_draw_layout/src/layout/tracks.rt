//! The tracks of links between two levels. No two names of links overlap.

use super::columns::Columns;
use super::labels::{label_width, room_of};
use super::slots::{Side, is_long, lower_level, upper_level};
use crate::scene::Rooms;
use crate::table::{Table, number_at};
use pb_frame::Memory;
use pb_lan::{LinkPlan, Plan};
use std::alloc::Global;

/// The padding beside a name or a link.
const BESIDE: u32 = 8;

/// The distance from one lane to the next, right of all bridges.
pub(crate) const LANE: u32 = 18;

/// The first turn of stretches that go down a level. Stretches between bridges of one level have lower turns.
const FIRST_DOWN: u32 = 1_000_000;

/// A part of a link between two levels.
#[derive(Clone, Copy)]
pub(crate) struct Stretch {
    /// The link's number.
    pub link: u32,
    /// Whether it is the part above the lower bridge of a link that passes levels.
    pub is_lower: bool,
    /// The level above it.
    pub level: u32,
    /// The left edge of the part and its name.
    pub left: u32,
    /// The right edge of the part and its name.
    pub right: u32,
    /// Its turn: the part with the lowest turn gets its track first.
    pub turn: u32,
    /// Its track, from 0 for the uppermost.
    pub track: u32,
}

/// Checks whether a part of a link overlaps another in this track.
fn is_in_the_way(one: &Stretch, other: &Stretch, track: u32) -> bool {
    one.level == other.level
        && one.track == track
        && one.left < other.right
        && other.left < one.right
}

/// Returns the first track in which no part overlaps this one, or 0 if 128 tracks are taken.
fn free_track(stretches: &[Stretch], stretch: &Stretch) -> u32 {
    for track in 0..128u32 {
        if !stretches
            .iter()
            .any(|one| is_in_the_way(one, stretch, track))
        {
            return track;
        }
    }
    0
}

/// Returns the horizontal position of a lane, by the number of lanes before it.
pub(crate) fn lane(columns: &Columns, plan: &Plan, before: u32) -> u32 {
    columns
        .right(plan)
        .saturating_add(LANE)
        .saturating_add(before.saturating_mul(LANE))
}

/// Returns how many links that pass levels come before the link with a number.
pub(crate) fn long_before(columns: &Columns, plan: &Plan, number: u32) -> u32 {
    let mut count = 0u32;
    for (place, link) in plan.links.as_slice().iter().enumerate() {
        if number_at(place) < number && is_long(&columns.levels, link) {
            count = count.saturating_add(1);
        }
    }
    count
}

/// Returns the turn of a part that goes down a level from its upper bridge. Of the parts that go to one side, those
/// that begin farther on that side come first, which avoids crossings.
fn turn_of(from: u32, to: u32) -> u32 {
    if from <= to {
        FIRST_DOWN
            .saturating_add(u16::MAX as u32)
            .saturating_sub(from)
    } else {
        FIRST_DOWN.saturating_add(from)
    }
}

/// Returns a part of a link, with a name of this width.
fn stretch_between(link: u32, level: u32, from: u32, to: u32, label: u32) -> Stretch {
    let middle = from.min(to).saturating_add(from.abs_diff(to) / 2);
    let half = (label / 2).saturating_add(BESIDE);
    Stretch {
        link,
        is_lower: false,
        level,
        left: from.min(to).min(middle.saturating_sub(half)),
        right: from.max(to).max(middle.saturating_add(half)),
        turn: turn_of(from, to),
        track: 0,
    }
}

/// Returns the part of a link below its upper bridge. Between bridges of one level the shorter parts come first.
fn upper_stretch(
    columns: &Columns,
    plan: &Plan,
    rooms: Rooms<'_>,
    link: &LinkPlan,
    number: u32,
) -> Stretch {
    let a = columns.landing(plan, link, number, Side::A);
    let b = columns.landing(plan, link, number, Side::B);
    let level = upper_level(&columns.levels, link);
    let label = label_width(link, room_of(rooms, number));
    let is_a_upper = columns.levels.at(link.a.bridge as u32) == level;
    let (from, to) = if is_a_upper { (a, b) } else { (b, a) };
    if is_long(&columns.levels, link) {
        let lane = lane(columns, plan, long_before(columns, plan, number));
        return stretch_between(number, level, from, lane, label);
    }
    let mut stretch = stretch_between(number, level, from, to, label);
    if lower_level(&columns.levels, link) == level {
        stretch.turn = from.abs_diff(to);
    }
    stretch
}

/// Returns the part above its lower bridge of a link that passes levels.
fn lower_stretch(columns: &Columns, plan: &Plan, link: &LinkPlan, number: u32) -> Stretch {
    let lower = lower_level(&columns.levels, link);
    let side = if columns.levels.at(link.a.bridge as u32) == lower {
        Side::A
    } else {
        Side::B
    };
    let x = columns.landing(plan, link, number, side);
    let lane = lane(columns, plan, long_before(columns, plan, number));
    let mut stretch = stretch_between(number, lower.saturating_sub(1), lane, x, 0);
    stretch.is_lower = true;
    stretch
}

/// Appends a part in the first track in which no other part overlaps it.
fn put_stretch(stretches: &mut Vec<Stretch>, mut stretch: Stretch) -> Result<(), Memory> {
    stretch.track = free_track(stretches.as_slice(), &stretch);
    stretches.push(stretch)?;
    Ok(())
}

/// Returns the parts of all links, without their tracks.
fn all_stretches(
    alloc: Global,
    columns: &Columns,
    plan: &Plan,
    rooms: Rooms<'_>,
) -> Result<Vec<Stretch>, Memory> {
    let mut stretches = Vec::new(alloc);
    for (place, link) in plan.links.as_slice().iter().enumerate() {
        let number = number_at(place);
        stretches.push(upper_stretch(columns, plan, rooms, link, number))?;
        if is_long(&columns.levels, link) {
            stretches.push(lower_stretch(columns, plan, link, number))?;
        }
    }
    Ok(stretches)
}

/// Returns the parts of all links, with their tracks.
pub(crate) fn stretches(
    alloc: Global,
    columns: &Columns,
    plan: &Plan,
    rooms: Rooms<'_>,
) -> Result<Vec<Stretch>, Memory> {
    let mut all = all_stretches(alloc, columns, plan, rooms)?;
    all.sort_by_key(|stretch| stretch.turn)?;
    let mut placed = Vec::new(alloc);
    for stretch in all.as_slice() {
        put_stretch(&mut placed, *stretch)?;
    }
    Ok(placed)
}

/// Returns the number of tracks below each level.
pub(crate) fn depths(stretches: &[Stretch]) -> Table {
    let mut depths = Table::filled(0);
    for stretch in stretches {
        depths.raise(stretch.level, stretch.track.saturating_add(1));
    }
    depths
}

/// Returns the track of a part of a link.
pub(crate) fn track_of(stretches: &[Stretch], link: u32, is_lower: bool) -> u32 {
    for stretch in stretches {
        if stretch.link == link && stretch.is_lower == is_lower {
            return stretch.track;
        }
    }
    0
}
