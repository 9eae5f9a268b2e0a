//! Runs of the sixteen addresses.

use pb_frame::Mac;
use pb_reserved::{Fate, fate};

/// Last octets of addresses 01-80-C2-00-00-XX, and the fate of frames to these.
const FATES: &[(u8, Fate)] = &[
    (0, Fate::Carry),
    (1, Fate::Filter(1)),
    (2, Fate::Filter(2)),
    (3, Fate::Filter(3)),
    (4, Fate::Filter(4)),
    (5, Fate::Filter(5)),
    (6, Fate::Filter(6)),
    (7, Fate::Filter(7)),
    (8, Fate::Provider),
    (9, Fate::Filter(9)),
    (10, Fate::Filter(10)),
    (11, Fate::Carry),
    (12, Fate::Carry),
    (13, Fate::Carry),
    (14, Fate::Filter(14)),
    (15, Fate::Carry),
    (16, Fate::Carry),
    (255, Fate::Carry),
];

#[test]
fn the_block_has_three_fates(rt: HostRuntime) {
    for (last, wanted) in FATES {
        let address = Mac([0x01, 0x80, 0xc2, 0, 0, *last]);
        assert!(rt; fate(address) == *wanted, "at {last}");
    }
}

/// Addresses beside the block.
const OTHERS: &[Mac] = &[
    Mac([0xff; 6]),
    Mac([0x01, 0x80, 0xc2, 0, 1, 8]),
    Mac([0x02, 0x80, 0xc2, 0, 0, 1]),
];

#[test]
fn other_addresses_are_carried(rt: HostRuntime) {
    for address in OTHERS {
        assert!(rt; fate(*address) == Fate::Carry);
    }
}
