//! Trees of the standard's figures. The wirings and the ports are those of figures 17-6 and 17-7 of IEEE 802.1D-2004,
//! as the public tests of Open vSwitch's rapid spanning tree have them. None is of our making.

use super::drawn::{Network, has_tree};
use pb_rstp::Role;
use std::test::Fail;

/// Figure 17-6: a ring of six, with LANs that have no second bridge.
const FIGURE_6: Network = Network {
    bridges: 6,
    joints: &[
        // b
        ((1, 2), (2, 1)),
        // l
        ((1, 3), (6, 1)),
        // d
        ((2, 3), (3, 1)),
        // f
        ((3, 3), (4, 1)),
        // h
        ((4, 3), (5, 2)),
        // j
        ((5, 1), (6, 2)),
    ],
    cost: 200_000,
    disabled: &[],
    paths: &[
        (1, 0, 1, 0, 0),
        (1, 200_000, 1, 2, 1),
        (1, 400_000, 2, 3, 1),
        (1, 600_000, 3, 3, 1),
        (1, 400_000, 6, 2, 1),
        (1, 200_000, 1, 3, 1),
    ],
    roles: &[
        (1, 2, Role::Designated),
        (1, 3, Role::Designated),
        (2, 1, Role::Root),
        (2, 3, Role::Designated),
        (3, 1, Role::Root),
        (3, 3, Role::Designated),
        (4, 1, Role::Root),
        (4, 3, Role::Alternate),
        (5, 1, Role::Root),
        (5, 2, Role::Designated),
        (6, 1, Role::Root),
        (6, 2, Role::Designated),
    ],
    links: &[1, 2, 3, 4, 6],
};

/// Figure 17-7: two links side by side, and LANs that have no second bridge.
const FIGURE_7: Network = Network {
    bridges: 3,
    joints: &[
        // b
        ((1, 1), (2, 2)),
        // h
        ((2, 5), (3, 2)),
        // g
        ((2, 6), (3, 1)),
    ],
    cost: 200_000,
    disabled: &[],
    paths: &[
        (1, 0, 1, 0, 0),
        (1, 200_000, 1, 1, 2),
        (1, 400_000, 2, 5, 2),
    ],
    roles: &[
        (1, 1, Role::Designated),
        (2, 2, Role::Root),
        (2, 5, Role::Designated),
        (2, 6, Role::Designated),
        (3, 1, Role::Alternate),
        (3, 2, Role::Root),
    ],
    links: &[1, 2],
};

#[test]
fn figure_6_has_its_tree(rt: HostRuntime) -> Result<(), Fail> {
    assert!(rt; has_tree(rt.alloc(), &FIGURE_6)?);
    Ok(())
}

#[test]
fn figure_7_has_its_tree(rt: HostRuntime) -> Result<(), Fail> {
    assert!(rt; has_tree(rt.alloc(), &FIGURE_7)?);
    Ok(())
}
