//! Networks with the spanning trees that they have.

use super::plans::{Joint, plan};
use pb_frame::Memory;
use pb_lan::{End, Plan, plan_is_sound};
use pb_rstp::Role;
use pb_spanning_tree::{TreeVector, is_tree_link, role_of, tree_of};
use std::alloc::Global;

/// The path of a bridge to its root: the number of the root, the cost, the number of the next bridge, that bridge's port
/// and the bridge's own port. If the bridge is the root, the next bridge is itself and the ports are 0.
pub(super) type Path = (u8, u64, u8, u8, u8);

/// A port as it is drawn: its bridge, its number and its role.
pub(super) type Drawn = (u8, u8, Role);

/// A network and its tree.
pub(super) struct Network {
    /// The number of bridges.
    pub(super) bridges: u8,
    /// The links.
    pub(super) joints: &'static [Joint],
    /// The path cost of all ends.
    pub(super) cost: u32,
    /// The disabled ports, each by the number of its bridge and its own.
    pub(super) disabled: &'static [(u8, u8)],
    /// The path of each bridge, in order.
    pub(super) paths: &'static [Path],
    /// Each end of each link.
    pub(super) roles: &'static [Drawn],
    /// The numbers of the links of the tree, counted from 1.
    pub(super) links: &'static [usize],
}

/// Returns the identifier of the port with a number, or 0 for number 0.
fn port_id(port: u8) -> u16 {
    match port {
        0 => 0,
        port => 0x8000 + u16::from(port),
    }
}

/// Returns the identifier of the bridge with a number.
fn bridge_id(bridge: u8) -> u64 {
    0x8000_0200_0000_0000 + u64::from(bridge)
}

/// Returns the vector with this path.
fn vector(path: Path) -> TreeVector {
    TreeVector {
        root: bridge_id(path.0),
        cost: path.1,
        bridge: bridge_id(path.2),
        port: port_id(path.3),
        receiving: port_id(path.4),
    }
}

/// Checks whether the vectors have these paths.
fn have_paths(vectors: &[TreeVector], paths: &[Path]) -> bool {
    vectors.len() == paths.len()
        && vectors
            .iter()
            .zip(paths)
            .all(|(v, path)| *v == vector(*path))
}

/// Checks whether the port at the near end has its role.
fn has_role(plan: &Plan, network: &Network, vectors: &[TreeVector], near: &End, far: &End) -> bool {
    let role = role_of(plan, network.disabled, vectors, near, far);
    network.roles.contains(&(near.bridge, near.port, role))
}

/// Checks whether each end of each link has its role, and no other port is drawn.
fn have_roles(plan: &Plan, network: &Network, vectors: &[TreeVector]) -> bool {
    for link in plan.links.as_slice() {
        if !has_role(plan, network, vectors, &link.a, &link.b)
            || !has_role(plan, network, vectors, &link.b, &link.a)
        {
            return false;
        }
    }
    network.roles.len() == network.joints.len().saturating_mul(2)
}

/// Checks whether exactly these links are part of the tree.
fn have_links(plan: &Plan, network: &Network, vectors: &[TreeVector]) -> bool {
    for (index, link) in plan.links.as_slice().iter().enumerate() {
        let is_drawn = network.links.contains(&index.saturating_add(1));
        if is_tree_link(network.disabled, vectors, link) != is_drawn {
            return false;
        }
    }
    true
}

/// Checks whether the plan of a network is sound and has the network's tree.
pub(super) fn has_tree(alloc: Global, network: &Network) -> Result<bool, Memory> {
    let plan = plan(alloc, network.bridges, network.joints, network.cost)?;
    if !plan_is_sound(&plan) {
        return Ok(false);
    }
    let vectors = tree_of(alloc, &plan, network.disabled)?;
    let vectors = vectors.as_slice();
    Ok(
        have_paths(vectors, network.paths)
            && have_roles(&plan, network, vectors)
            && have_links(&plan, network, vectors),
    )
}
