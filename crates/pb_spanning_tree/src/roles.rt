//! The roles of ports in the spanning tree, and its links.

ghost use Rattle.std.specs.Prelude.{◌≡◌, map};
ghost use Rattle.pb_spanning_tree.specs.TreeOf.{is_link_by, is_root_end, other_role_by, role_by};
ghost use Rattle.pb_spanning_tree.specs.TreeVectors.{is_listed, offer_vector, vector_of};

use crate::tree::{end_id, id_in, is_down, is_enabled, vector_in};
use crate::vector::TreeVector;
use pb_lan::{End, LinkPlan, Plan};
use pb_rstp::Role;

/// Returns what the port at an end offers on its link, as a vector without a receiving port (IEEE 802.1D-2004 clause
/// 17.6).
fn offer_by(plan: &Plan, vectors: &[TreeVector], end: &End) -> TreeVector
    ensures { vector_of result ≡ offer_vector plan.now (map vector_of vectors.now) end.now }
{
    let vector = vector_in(vectors, end.bridge);
    TreeVector {
        root: vector.root,
        cost: vector.cost,
        bridge: id_in(plan, end.bridge),
        port: end_id(end),
        receiving: 0,
    }
}

/// Returns whether the end is the Root port of its bridge.
fn is_root_end(vectors: &[TreeVector], end: &End) -> bool
    ensures { result ≡ is_root_end (map vector_of vectors.now) end.now }
{
    vector_in(vectors, end.bridge).receiving == end_id(end)
}

/// Returns the role of an enabled port that is not the Root port.
fn other_role(
    plan: &Plan,
    disabled: &[(u8, u8)],
    vectors: &[TreeVector],
    near: &End,
    far: &End,
) -> Role
    ensures { result
        ≡ other_role_by plan.now (is_listed disabled.now) (map vector_of vectors.now) near.now far.now }
{
    let here = offer_by(plan, vectors, near);
    let there = offer_by(plan, vectors, far);
    if is_down(disabled, far) || here.is_better(&there) {
        Role::Designated
    } else if near.bridge == far.bridge {
        Role::Backup
    } else {
        Role::Alternate
    }
}

/// Returns the role of the port at the near end of a link in the spanning tree (IEEE 802.1D-2004 clause 17.7).
///
/// `vectors` are the result of [`tree_of`](crate::tree_of). `disabled` lists the disabled ports, each by the number of
/// its bridge and its own. A bridge without a vector counts as one with the root 0.
pub fn role_of(
    plan: &Plan,
    disabled: &[(u8, u8)],
    vectors: &[TreeVector],
    near: &End,
    far: &End,
) -> Role
    ensures { result ≡ role_by plan.now (is_listed disabled.now) (map vector_of vectors.now) near.now far.now }
{
    if is_down(disabled, near) {
        Role::Disabled
    } else if is_root_end(vectors, near) {
        Role::Root
    } else {
        other_role(plan, disabled, vectors, near, far)
    }
}

/// Returns whether a link is part of the spanning tree: both ends are enabled, and one of them is a Root port.
///
/// `vectors` are the result of [`tree_of`](crate::tree_of). `disabled` lists the disabled ports, each by the number of
/// its bridge and its own.
pub fn is_tree_link(disabled: &[(u8, u8)], vectors: &[TreeVector], link: &LinkPlan) -> bool
    ensures { result ≡ is_link_by (is_listed disabled.now) (map vector_of vectors.now) link.now }
{
    is_enabled(disabled, link) && (is_root_end(vectors, &link.a) || is_root_end(vectors, &link.b))
}
