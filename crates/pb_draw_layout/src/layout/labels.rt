//! The room that the names of links need, with the lines of text under them.

use super::columns::{LETTER, text_width};
use crate::scene::{Room, Rooms};
use pb_lan::LinkPlan;

/// The number of letters that mark a link as one that loses frames.
const LOSING_LETTERS: u32 = 8;

/// The distance that a line under a name adds from one track of links to the next.
const LINE_DEPTH: u32 = 18;

/// The padding beside texts.
const BESIDE: u32 = 4;

/// Returns the room under the name of the link with a number, from 1.
pub(crate) fn room_of(rooms: Rooms<'_>, number: u32) -> Room {
    let index = (number as usize).saturating_sub(1);
    match rooms.links.get(index) {
        Some(room) => *room,
        None => Room { width: 0, lines: 0 },
    }
}

/// Returns the width of a link's name, with the mark of a link that loses frames.
pub(crate) fn name_width(link: &LinkPlan) -> u32 {
    let name = text_width(link.name.as_str(), LETTER);
    if link.lost_ab.len() == 0 && link.lost_ba.len() == 0 {
        name
    } else {
        name.saturating_add(LOSING_LETTERS * LETTER)
    }
}

/// Returns the width of a link's name and of the lines under it.
pub(crate) fn label_width(link: &LinkPlan, room: Room) -> u32 {
    name_width(link).max(room.width)
}

/// Returns half the width of a link's name, with its padding.
pub(crate) fn label_half(link: &LinkPlan) -> u32 {
    (name_width(link) / 2).saturating_add(BESIDE)
}

/// Returns half the width of the lines under a link's name, with their padding, or 0 if there are none.
pub(crate) fn lines_half(room: Room) -> u32 {
    if room.lines == 0 {
        0
    } else {
        (room.width / 2).saturating_add(BESIDE)
    }
}

/// Returns the distance that the lines under names add from one track of links to the next.
pub(crate) fn lines_depth(rooms: Rooms<'_>) -> u32 {
    let mut lines = 0u32;
    for room in rooms.links {
        lines = lines.max(room.lines);
    }
    lines.saturating_mul(LINE_DEPTH)
}
