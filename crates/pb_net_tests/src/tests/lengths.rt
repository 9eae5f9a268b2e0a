//! The longest frames.

use super::networks::JOINED;
use super::rows::{Fate, Row};
use super::walk::walks;
use pb_lan::{Place, Reason};
use std::test::Fail;

/// A broadcast's first octets, up to its type.
const PLAIN: &[u8] = b"\xff\xff\xff\xff\xff\xff\x02\0\0\0\x01\x01\x08\0";

/// The broadcast with a service tag of VID 0, priority 5.
const PRIORITY: &[u8] = b"\xff\xff\xff\xff\xff\xff\x02\0\0\0\x01\x01\x88\xa8\xa0\0\x08\0";

#[test]
fn the_longest_frame_is_carried(rt: HostRuntime) -> Result<(), Fail> {
    const ROWS: &[Row] = &[
        Row::EntersLong {
            customer: 1,
            head: PLAIN,
            octets: 1992,
        },
        Row::Crosses(1),
        Row::Octets(Place::Lane(1), 1996),
        Row::Leaves(2),
        Row::Octets(Place::Customer(2), 1992),
    ];
    walks(&rt, rt.alloc(), &JOINED, ROWS)
}

#[test]
fn the_longest_frame_with_a_priority_tag_is_carried(rt: HostRuntime) -> Result<(), Fail> {
    const ROWS: &[Row] = &[
        Row::EntersLong {
            customer: 1,
            head: PRIORITY,
            octets: 1996,
        },
        Row::Crosses(1),
        Row::Octets(Place::Lane(1), 1996),
        Row::Leaves(2),
        Row::Octets(Place::Customer(2), 1992),
    ];
    walks(&rt, rt.alloc(), &JOINED, ROWS)
}

#[test]
fn a_longer_frame_goes_nowhere(rt: HostRuntime) -> Result<(), Fail> {
    const ROWS: &[Row] = &[
        Row::EntersLong {
            customer: 1,
            head: PLAIN,
            octets: 1993,
        },
        Row::Ruled {
            bridge: 1,
            fate: Fate::Filtered(Reason::Long),
        },
        Row::EntersLong {
            customer: 1,
            head: PRIORITY,
            octets: 1997,
        },
        Row::Ruled {
            bridge: 1,
            fate: Fate::Filtered(Reason::Long),
        },
    ];
    walks(&rt, rt.alloc(), &JOINED, ROWS)
}
