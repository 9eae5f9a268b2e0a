//! Trees of rings and of parallel links.

use super::drawn::{Network, has_tree};
use super::plans::{Joint, plan};
use pb_rstp::Role;
use pb_spanning_tree::read_addresses;
use std::test::Fail;

/// A ring of three bridges.
const RING: &[Joint] = &[((1, 1), (2, 1)), ((2, 2), (3, 1)), ((3, 2), (1, 2))];

/// A ring in which the root's port to the third bridge is disabled.
const ONE_END_DISABLED: Network = Network {
    bridges: 3,
    joints: RING,
    cost: 20_000,
    disabled: &[(1, 2)],
    paths: &[(1, 0, 1, 0, 0), (1, 20_000, 1, 1, 1), (1, 40_000, 2, 2, 1)],
    roles: &[
        (1, 1, Role::Designated),
        (1, 2, Role::Disabled),
        (2, 1, Role::Root),
        (2, 2, Role::Designated),
        (3, 1, Role::Root),
        (3, 2, Role::Designated),
    ],
    links: &[1, 2],
};

#[test]
fn a_ring_with_one_end_disabled_is_a_chain(rt: HostRuntime) -> Result<(), Fail> {
    assert!(rt; has_tree(rt.alloc(), &ONE_END_DISABLED)?);
    Ok(())
}

/// A ring in which both ports of the third bridge are disabled.
const ONE_BRIDGE_APART: Network = Network {
    bridges: 3,
    joints: RING,
    cost: 20_000,
    disabled: &[(3, 1), (3, 2)],
    paths: &[(1, 0, 1, 0, 0), (1, 20_000, 1, 1, 1), (3, 0, 3, 0, 0)],
    roles: &[
        (1, 1, Role::Designated),
        (1, 2, Role::Designated),
        (2, 1, Role::Root),
        (2, 2, Role::Designated),
        (3, 1, Role::Disabled),
        (3, 2, Role::Disabled),
    ],
    links: &[1],
};

#[test]
fn a_bridge_that_no_enabled_link_joins_is_a_root(rt: HostRuntime) -> Result<(), Fail> {
    assert!(rt; has_tree(rt.alloc(), &ONE_BRIDGE_APART)?);
    Ok(())
}

/// Two links between two bridges, whose ports are crossed.
const PARALLEL: Network = Network {
    bridges: 2,
    joints: &[((1, 2), (2, 1)), ((1, 1), (2, 2))],
    cost: 20_000,
    disabled: &[],
    paths: &[(1, 0, 1, 0, 0), (1, 20_000, 1, 1, 2)],
    roles: &[
        (1, 1, Role::Designated),
        (1, 2, Role::Designated),
        (2, 1, Role::Alternate),
        (2, 2, Role::Root),
    ],
    links: &[2],
};

/// The root's port with the lower identifier decides, and not the other bridge's.
#[test]
fn of_parallel_links_the_lower_port_identifier_wins(rt: HostRuntime) -> Result<(), Fail> {
    assert!(rt; has_tree(rt.alloc(), &PARALLEL)?);
    Ok(())
}

#[test]
fn addresses_can_be_read(rt: HostRuntime) -> Result<(), Fail> {
    let plan = plan(rt.alloc(), 3, RING, 20_000)?;
    read_addresses(&plan);
    Ok(())
}
