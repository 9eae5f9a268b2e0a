//! The root vector, and the role of each port.

ghost use Rattle.std.specs.Prelude.{◌≡◌, option_to_list};
ghost use Rattle.pb_rstp.specs.Roles.{offers, best, root_vector, came_from, role_by, other_role};
ghost use Rattle.pb_rstp.specs.Settling.{nows};

use crate::moving::Moving;
use crate::port::{Info, Port};
use crate::role::Role;
use crate::vector::Vector;

/// Returns the path to a root through an enabled port that stores the vector of another bridge.
fn offer(id: u64, p: &Port) -> Option<Vector>
    ensures { option_to_list result ≡ offers id p.now }
{
    if !p.port_enabled {
        return None;
    }
    let info = p.info?;
    if info.bridge == id {
        return None;
    }
    Some(p.root_path(&info))
}

/// Returns the better vector, or the first one if neither is better.
fn better(vector: Vector, way: Option<Vector>) -> Vector
    ensures { result ≡ best vector (option_to_list way) }
{
    match way {
        None => vector,
        Some(way) => { if way.is_better(&vector) { way } else { vector } }
    }
}

/// Returns the root vector: the least of the bridge's own vector and the paths through its ports (IEEE 802.1D-2004
/// clause 17.6).
pub(crate) fn root_vector(id: u64, ports: &[Moving]) -> Vector
    ensures { result ≡ root_vector id (nows ports.now) }
{
    let mut root = Vector::own(id);
    for p in ports {
        root = better(root, offer(id, &p.now));
    }
    root
}

/// Returns the role of an enabled port that is not the Root port.
fn other_role(id: u64, root: &Vector, p: &Port, info: Option<Info>) -> Role
    ensures { result ≡ other_role id root.now p.now info }
{
    match info {
        None => Role::Designated,
        Some(info) => {
            if p.designated_vector(id, root)
                .is_better(&p.stored_vector(&info))
            {
                Role::Designated
            } else if info.bridge == id {
                Role::Backup
            } else {
                Role::Alternate
            }
        }
    }
}

/// Returns the role of a port, given the root vector (IEEE 802.1D-2004 clause 17.21.25).
pub(crate) fn role_by(id: u64, root: &Vector, p: &Port) -> Role
    ensures { result ≡ role_by id root.now p.now }
{
    if !p.port_enabled {
        Role::Disabled
    } else if root.receiving == p.id() {
        Role::Root
    } else {
        other_role(id, root, p, p.info)
    }
}
