//! Learning tables, compared with a plain list.

mod both;
mod plain;
mod timed;

use both::{Answers, Both, Dice};
use pb_fdb::Entry;
use pb_fdb::Learnt::{Full, Group, Kept, Moved, New};
use pb_frame::Mac;
use std::test::Fail;
use timed::{Row, Timed};

const ONE: Mac = Mac([2, 0, 0, 0, 0, 1]);

const TWO: Mac = Mac([2, 0, 0, 0, 0, 2]);

const THREE: Mac = Mac([2, 0, 0, 0, 0, 3]);

#[test]
fn a_full_table_keeps_the_live_ones(rt: HostRuntime) {
    const ROWS: &[Row] = &[
        Row::Learns(5, ONE, 1, New),
        Row::Learns(5, TWO, 2, New),
        Row::Learns(5, THREE, 3, Full),
        Row::At(300),
        Row::Learns(5, THREE, 3, New),
        Row::Finds(5, ONE, None),
        Row::Learns(5, Mac([3, 0, 0, 0, 0, 1]), 3, Group),
    ];
    Timed::new(rt.alloc(), 2, 300).walk(&rt, ROWS);
}

#[test]
fn stations_age_out_after_300_ticks(rt: HostRuntime) {
    const ROWS: &[Row] = &[
        Row::Learns(5, ONE, 1, New),
        Row::At(299),
        Row::Finds(5, ONE, Some(1)),
        Row::Finds(6, ONE, None),
        Row::At(300),
        Row::Finds(5, ONE, None),
        Row::Expires,
        Row::Has(&[]),
        Row::Learns(5, ONE, 2, New),
    ];
    Timed::new(rt.alloc(), 4096, 300).walk(&rt, ROWS);
}

/// The entry of the first station at its last sighting.
const FIRST: Entry = Entry {
    vid: 5,
    mac: ONE,
    port: 1,
    learnt: 2,
};

/// The entry of the second station after it has moved.
const SECOND: Entry = Entry {
    vid: 5,
    mac: TWO,
    port: 3,
    learnt: 3,
};

#[test]
fn a_station_seen_anew_goes_last(rt: HostRuntime) {
    const ROWS: &[Row] = &[
        Row::Learns(5, ONE, 1, New),
        Row::At(1),
        Row::Learns(5, TWO, 2, New),
        Row::At(2),
        Row::Learns(5, ONE, 1, Kept),
        Row::Learns(6, ONE, 1, New),
        Row::At(3),
        Row::Learns(5, TWO, 3, Moved),
        Row::Has(&[FIRST, Entry { vid: 6, ..FIRST }, SECOND]),
        Row::Flushes(1),
        Row::Has(&[SECOND]),
        Row::Finds(5, ONE, None),
        Row::Finds(5, TWO, Some(3)),
    ];
    Timed::new(rt.alloc(), 4096, 300).walk(&rt, ROWS);
}

#[test]
fn a_copy_of_a_table_goes_on_alone(rt: HostRuntime) -> Result<(), Fail> {
    const BOTH: &[Row] = &[
        Row::At(2),
        Row::Learns(5, ONE, 1, New),
        Row::At(3),
        Row::Learns(5, TWO, 3, New),
        Row::Has(&[FIRST, SECOND]),
    ];
    const ONE_FLUSHED: &[Row] = &[
        Row::Has(&[FIRST, SECOND]),
        Row::Flushes(1),
        Row::Learns(5, THREE, 2, New),
        Row::Finds(5, ONE, None),
        Row::Finds(5, TWO, Some(3)),
    ];
    let mut table = Timed::new(rt.alloc(), 4096, 300);
    table.walk(&rt, BOTH);
    let mut copy = table.copied()?;
    copy.walk(&rt, ONE_FLUSHED);
    table.walk(&rt, ONE_FLUSHED);
    Ok(())
}

#[test]
fn the_table_holds_4096_stations(rt: HostRuntime) {
    const NEXT: Mac = Mac([2, 0, 0, 0, 16, 0]);
    const ROWS: &[Row] = &[
        Row::LearnsFirst(4096, 200, 3),
        Row::At(9),
        Row::Learns(200, NEXT, 3, Full),
        Row::Learns(200, Mac([2, 0, 0, 0, 0, 7]), 4, Moved),
        Row::At(10),
        Row::Learns(200, NEXT, 3, New),
        Row::Counts(2),
    ];
    Timed::new(rt.alloc(), 4096, 10).walk(&rt, ROWS);
}

#[test]
fn ten_thousand_commands_leave_what_a_plain_list_has(rt: HostRuntime) {
    let mut both = Both::new(rt.alloc(), 12, 40);
    let mut dice = Dice(1);
    let mut answers = Answers::none();
    for number in 0..10000u32 {
        assert!(rt; both.step(&mut dice, &mut answers), "command {number}");
    }
    assert!(rt; answers.are_many() && both.plain.sweeps > 100);
}
