//! Wide levels, wrapped into several rows.

use crate::table::{Table, number_at};
use pb_lan::Plan;

/// Returns how many links lead from a bridge to lower levels.
fn links_down(plan: &Plan, levels: &Table, bridge: u32) -> u32 {
    let mut count = 0u32;
    for link in plan.links.as_slice() {
        let (a, b) = (link.a.bridge as u32, link.b.bridge as u32);
        let (a_level, b_level) = (levels.at(a), levels.at(b));
        if (a == bridge && a_level < b_level) || (b == bridge && b_level < a_level) {
            count = count.saturating_add(1);
        }
    }
    count
}

/// Returns a key for each bridge, by which those of a level are put into rows. Bridges with few links to lower levels
/// come first. No two keys are equal.
fn keys(plan: &Plan, levels: &Table) -> Table {
    let mut keys = Table::filled(0);
    for (place, _) in plan.bridges.as_slice().iter().enumerate() {
        let number = number_at(place);
        let down = links_down(plan, levels, number);
        keys.set(number, down.saturating_mul(64).saturating_add(number));
    }
    keys
}

/// Returns the number of bridges of each level.
fn sizes(plan: &Plan, levels: &Table) -> Table {
    let mut sizes = Table::filled(0);
    for (place, _) in plan.bridges.as_slice().iter().enumerate() {
        let level = levels.at(number_at(place));
        sizes.set(level, sizes.at(level).saturating_add(1));
    }
    sizes
}

/// Returns how many rows of at most `most` bridges hold so many bridges.
fn row_count(bridges: u32, most: u32) -> u32 {
    if most == 0 {
        bridges
    } else {
        bridges.saturating_add(most - 1) / most
    }
}

/// Returns how many bridges each row of a level has, except the last, if no row has more than `most`. The rows are of
/// about equal size.
fn row_size(bridges: u32, most: u32) -> u32 {
    row_count(bridges, row_count(bridges, most))
}

/// Returns the first row of each level.
fn first_rows(sizes: &Table, most: u32) -> Table {
    let mut first = Table::filled(0);
    let mut row = 0u32;
    for level in 0..33u32 {
        first.set(level, row);
        row = row.saturating_add(row_count(sizes.at(level), most));
    }
    first
}

/// Returns how many bridges of the same level have a lower key.
fn count_before(plan: &Plan, levels: &Table, keys: &Table, bridge: u32) -> u32 {
    let mut count = 0u32;
    for (place, _) in plan.bridges.as_slice().iter().enumerate() {
        let other = number_at(place);
        if levels.at(other) == levels.at(bridge) && keys.at(other) < keys.at(bridge) {
            count = count.saturating_add(1);
        }
    }
    count
}

/// Returns the row of each bridge, from 0. A level with more than `most` bridges takes several rows.
pub(crate) fn wrapped(plan: &Plan, levels: &Table, most: u32) -> Table {
    let keys = keys(plan, levels);
    let sizes = sizes(plan, levels);
    let first = first_rows(&sizes, most);
    let mut rows = *levels;
    for (place, _) in plan.bridges.as_slice().iter().enumerate() {
        let number = number_at(place);
        let level = levels.at(number);
        let size = row_size(sizes.at(level), most);
        let before = count_before(plan, levels, &keys, number);
        let within = if size == 0 { 0 } else { before / size };
        rows.set(number, first.at(level).saturating_add(within));
    }
    rows
}
