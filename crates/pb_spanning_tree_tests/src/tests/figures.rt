//! Trees of the standard's figures. The wirings and the ports are those of figures 17-4 and 17-5 of IEEE 802.1D-2004,
//! as the public tests of Open vSwitch's rapid spanning tree have them. None is of our making.

use super::drawn::{Network, has_tree};
use pb_rstp::Role;
use std::test::Fail;

/// Figure 17-4: two bridges that two links join, two below, each joined to both, and four at the edge, each joined to
/// both of those.
const FIGURE_4: Network = Network {
    bridges: 8,
    joints: &[
        // a
        ((1, 1), (2, 1)),
        // b
        ((1, 2), (2, 2)),
        // e
        ((1, 3), (4, 1)),
        // c
        ((1, 4), (3, 1)),
        // d
        ((2, 3), (3, 2)),
        // f
        ((2, 4), (4, 2)),
        // l
        ((3, 3), (8, 1)),
        // j
        ((3, 4), (7, 1)),
        // h
        ((3, 5), (6, 1)),
        // g
        ((3, 6), (5, 1)),
        // n
        ((4, 3), (8, 2)),
        // m
        ((4, 4), (7, 2)),
        // k
        ((4, 5), (6, 2)),
        // i
        ((4, 6), (5, 2)),
    ],
    cost: 200_000,
    disabled: &[],
    paths: &[
        (1, 0, 1, 0, 0),
        (1, 200_000, 1, 1, 1),
        (1, 200_000, 1, 4, 1),
        (1, 200_000, 1, 3, 1),
        (1, 400_000, 3, 6, 1),
        (1, 400_000, 3, 5, 1),
        (1, 400_000, 3, 4, 1),
        (1, 400_000, 3, 3, 1),
    ],
    roles: &[
        (1, 1, Role::Designated),
        (1, 2, Role::Designated),
        (1, 3, Role::Designated),
        (1, 4, Role::Designated),
        (2, 1, Role::Root),
        (2, 2, Role::Alternate),
        (2, 3, Role::Designated),
        (2, 4, Role::Designated),
        (3, 1, Role::Root),
        (3, 2, Role::Alternate),
        (3, 3, Role::Designated),
        (3, 4, Role::Designated),
        (3, 5, Role::Designated),
        (3, 6, Role::Designated),
        (4, 1, Role::Root),
        (4, 2, Role::Alternate),
        (4, 3, Role::Designated),
        (4, 4, Role::Designated),
        (4, 5, Role::Designated),
        (4, 6, Role::Designated),
        (5, 1, Role::Root),
        (5, 2, Role::Alternate),
        (6, 1, Role::Root),
        (6, 2, Role::Alternate),
        (7, 1, Role::Root),
        (7, 2, Role::Alternate),
        (8, 1, Role::Root),
        (8, 2, Role::Alternate),
    ],
    links: &[1, 3, 4, 7, 8, 9, 10],
};

/// Figure 17-5: as figure 17-4, and the last bridge has a link of its own.
const FIGURE_5: Network = Network {
    bridges: 8,
    joints: &[
        // a
        ((1, 1), (2, 1)),
        // b
        ((1, 2), (2, 2)),
        // e
        ((1, 3), (4, 1)),
        // c
        ((1, 4), (3, 1)),
        // d
        ((2, 3), (3, 2)),
        // f
        ((2, 4), (4, 2)),
        // l
        ((3, 3), (8, 1)),
        // j
        ((3, 4), (7, 1)),
        // h
        ((3, 5), (6, 1)),
        // g
        ((3, 6), (5, 1)),
        // n
        ((4, 3), (8, 2)),
        // m
        ((4, 4), (7, 2)),
        // k
        ((4, 5), (6, 2)),
        // i
        ((4, 6), (5, 2)),
        // o
        ((8, 3), (8, 4)),
    ],
    cost: 200_000,
    disabled: &[],
    paths: &[
        (1, 0, 1, 0, 0),
        (1, 200_000, 1, 1, 1),
        (1, 200_000, 1, 4, 1),
        (1, 200_000, 1, 3, 1),
        (1, 400_000, 3, 6, 1),
        (1, 400_000, 3, 5, 1),
        (1, 400_000, 3, 4, 1),
        (1, 400_000, 3, 3, 1),
    ],
    roles: &[
        (1, 1, Role::Designated),
        (1, 2, Role::Designated),
        (1, 3, Role::Designated),
        (1, 4, Role::Designated),
        (2, 1, Role::Root),
        (2, 2, Role::Alternate),
        (2, 3, Role::Designated),
        (2, 4, Role::Designated),
        (3, 1, Role::Root),
        (3, 2, Role::Alternate),
        (3, 3, Role::Designated),
        (3, 4, Role::Designated),
        (3, 5, Role::Designated),
        (3, 6, Role::Designated),
        (4, 1, Role::Root),
        (4, 2, Role::Alternate),
        (4, 3, Role::Designated),
        (4, 4, Role::Designated),
        (4, 5, Role::Designated),
        (4, 6, Role::Designated),
        (5, 1, Role::Root),
        (5, 2, Role::Alternate),
        (6, 1, Role::Root),
        (6, 2, Role::Alternate),
        (7, 1, Role::Root),
        (7, 2, Role::Alternate),
        (8, 1, Role::Root),
        (8, 2, Role::Alternate),
        (8, 3, Role::Designated),
        (8, 4, Role::Backup),
    ],
    links: &[1, 3, 4, 7, 8, 9, 10],
};

#[test]
fn figure_4_has_its_tree(rt: HostRuntime) -> Result<(), Fail> {
    assert!(rt; has_tree(rt.alloc(), &FIGURE_4)?);
    Ok(())
}

#[test]
fn figure_5_has_its_tree(rt: HostRuntime) -> Result<(), Fail> {
    assert!(rt; has_tree(rt.alloc(), &FIGURE_5)?);
    Ok(())
}
