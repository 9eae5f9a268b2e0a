//! Networks that others drew. A figure orders its bridges by their addresses, and our addresses rise with the bridges'
//! numbers. A LAN with one port is left out, and the numbers of the other ports stay. The letter of each LAN is above
//! its link.

use super::draft::Draft;
use pb_lan::{Place, PortState, Spanning};
use pb_net::Net;
use pb_rstp::{Role, Rstp};

/// A port as it is drawn: its bridge, its number, its role, its state, and the bridge's root path cost.
pub(super) type Drawn = (u8, u8, Role, PortState, u32);

/// A network that is drawn, as yet without bridges. Its bridges decide their tree, and its links have the path cost of
/// 200,000 at both ends.
pub(super) const DRAWN: Draft = Draft {
    bridges: 0,
    links: &[],
    customers: &[],
    spanning: Spanning::Rstp,
    queue: 64,
    ring: 64,
    steps: 1_000_000,
};

/// Checks whether a bridge has exactly its ports of this table, each as drawn.
fn stands_as(tree: &Rstp, bridge: u8, ports: &[Drawn]) -> bool {
    let cost = tree.root().cost;
    let mut count = 0usize;
    for (at, port, role, state, wanted) in ports {
        if *at == bridge {
            let has_role = tree.roles().contains(&(*port, *role));
            let has_state = tree.states().contains(&(*port, *state));
            if !has_role || !has_state || cost != *wanted {
                return false;
            }
            count = count.saturating_add(1);
        }
    }
    tree.roles().len() == count
}

/// Checks whether each port of each bridge is in the table once, and is as drawn.
pub(super) fn stand_as(net: &Net, draft: &Draft, ports: &[Drawn]) -> bool {
    for bridge in 1..=draft.bridges {
        if !net.has_place(Place::Bridge(bridge)) {
            return false;
        }
        match net.rstp(bridge) {
            Some(tree) if stands_as(tree, bridge, ports) => (),
            _ => return false,
        }
    }
    true
}
