//! The fate of frames at customer port 1.

use super::networks::JOINED;
use super::rows::{Fate, Row};
use super::walk::walks;
use pb_lan::Reason;
use std::test::Fail;

#[test]
fn reserved_destinations_go_nowhere(rt: HostRuntime) -> Result<(), Fail> {
    const ROWS: &[Row] = &[
        Row::Enters(1, b"\x01\x80\xc2\0\0\x08\x02\0\0\0\x01\x01\x08\0"),
        Row::Ruled {
            bridge: 1,
            fate: Fate::Filtered(Reason::Reserved(8)),
        },
        Row::Enters(1, b"\x01\x80\xc2\0\0\x01\x02\0\0\0\x01\x01\x08\0"),
        Row::Ruled {
            bridge: 1,
            fate: Fate::Filtered(Reason::Reserved(1)),
        },
        Row::Enters(1, b"\x01\x80\xc2\0\0\x0e\x02\0\0\0\x01\x01\x08\0"),
        Row::Ruled {
            bridge: 1,
            fate: Fate::Filtered(Reason::Reserved(14)),
        },
    ];
    walks(&rt, rt.alloc(), &JOINED, ROWS)
}

#[test]
fn other_group_addresses_of_bridges_are_carried(rt: HostRuntime) -> Result<(), Fail> {
    const ROWS: &[Row] = &[
        Row::Enters(1, b"\x01\x80\xc2\0\0\0\x02\0\0\0\x01\x01\x08\0"),
        Row::Ruled {
            bridge: 1,
            fate: Fate::Relayed(&[1]),
        },
        Row::Enters(1, b"\x01\x80\xc2\0\0\x0b\x02\0\0\0\x01\x01\x08\0"),
        Row::Ruled {
            bridge: 1,
            fate: Fate::Relayed(&[1]),
        },
        Row::Enters(1, b"\x01\x80\xc2\0\0\x0f\x02\0\0\0\x01\x01\x81\0\x20\x05"),
        Row::Ruled {
            bridge: 1,
            fate: Fate::Relayed(&[1]),
        },
        Row::Enters(
            1,
            b"\x01\x80\xc2\0\0\0\x02\0\0\0\x01\x01\x81\0\x20\x05\x08\0AB",
        ),
        Row::Ruled {
            bridge: 1,
            fate: Fate::Relayed(&[1]),
        },
    ];
    walks(&rt, rt.alloc(), &JOINED, ROWS)
}

#[test]
fn short_and_tagged_frames_go_nowhere(rt: HostRuntime) -> Result<(), Fail> {
    const ROWS: &[Row] = &[
        Row::Enters(1, b"\xff\xff\xff\xff\xff\xff\x02\0\0\0\x01\x01\x08"),
        Row::Ruled {
            bridge: 1,
            fate: Fate::Filtered(Reason::Malformed),
        },
        Row::Enters(1, b"\xff\xff\xff\xff\xff\xff\x02\0\0\0\x01\x01\x08\0"),
        Row::Ruled {
            bridge: 1,
            fate: Fate::Relayed(&[1]),
        },
        Row::Enters(
            1,
            b"\xff\xff\xff\xff\xff\xff\x02\0\0\0\x01\x01\x88\xa8\0\x64\x08\0",
        ),
        Row::Ruled {
            bridge: 1,
            fate: Fate::Filtered(Reason::STagged),
        },
    ];
    walks(&rt, rt.alloc(), &JOINED, ROWS)
}
