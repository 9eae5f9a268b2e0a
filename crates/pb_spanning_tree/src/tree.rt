//! The spanning tree of a plan, computed from the plan and the disabled ports alone.

ghost use Rattle.std.specs.Prelude.{◌≡◌, IfOk, map, option_copied, option_to_list};
ghost use Rattle.std.specs.Option.{option_map};
ghost use Rattle.pb_lan.specs.Numbering.{numbered, numbers_from};
ghost use Rattle.pb_lan.specs.Plans.{IsSound};
ghost use Rattle.pb_rstp.specs.Profile.{id_in};
ghost use Rattle.pb_rstp.specs.Roles.{best};
ghost use Rattle.pb_rstp.specs.Vectors.{bridge_id};
ghost use Rattle.pb_spanning_tree.specs.TreeOf.{end_id, is_down, is_enabled, next_vectors, own_of};
ghost use Rattle.pb_spanning_tree.specs.TreeOf.{path_from, path_over, paths_of, tree_of, vector_in};
ghost use Rattle.pb_spanning_tree.specs.TreeVectors.{AreSmall, is_listed, vector_of};

use crate::vector::{TreeVector, better};
use byteorder::{BigEndian, ByteOrder};
use pb_frame::{Mac, Memory, index_of};
use pb_lan::{End, LinkPlan, Plan};
use std::alloc::Global;

/// Returns the element with a number, or `None` if there is none. The first has number 1.
fn numbered<T>(things: &[T], number: u8) -> Option<&T>
    ensures { option_copied result ≡ numbered things.now number }
{
    if number == 0 {
        return None;
    }
    things.get(index_of(number))
}

/// Returns the identifier of a bridge (IEEE 802.1D-2004 clause 9.2.5).
fn bridge_id(priority: u16, address: Mac) -> u64
    ensures { result ≡ bridge_id priority address.0 }
{
    priority as u64 * 0x1_0000_0000_0000 + BigEndian::read_uint(&address.0, 6)
}

/// Returns the identifier of the bridge with a number, or 0 if there is none.
pub(crate) fn id_in(plan: &Plan, bridge: u8) -> u64
    ensures { result ≡ id_in plan.now bridge }
{
    match numbered(plan.bridges.as_slice(), bridge) {
        None => 0,
        Some(bridge) => bridge_id(bridge.priority, bridge.address),
    }
}

/// Returns the identifier of the port at an end of a link (IEEE 802.1D-2004 clause 9.2.7).
pub(crate) fn end_id(end: &End) -> u16
    ensures { result ≡ end_id end.now }
{
    end.priority as u16 * 256 + end.port as u16
}

/// Returns whether the end of a link is disabled.
pub(crate) fn is_down(disabled: &[(u8, u8)], end: &End) -> bool
    ensures { result ≡ is_down (is_listed disabled.now) end.now }
{
    disabled
        .iter()
        .any(|port| port.0 == end.bridge && port.1 == end.port)
}

/// Returns whether both ends of a link are enabled.
pub(crate) fn is_enabled(disabled: &[(u8, u8)], link: &LinkPlan) -> bool
    ensures { result ≡ is_enabled (is_listed disabled.now) link.now }
{
    !is_down(disabled, &link.a) && !is_down(disabled, &link.b)
}

/// Returns the vector of the bridge with a number, or a vector with the root 0 if there is none.
pub(crate) fn vector_in(vectors: &[TreeVector], bridge: u8) -> TreeVector
    ensures { vector_of result ≡ vector_in (map vector_of vectors.now) bridge }
{
    match numbered(vectors, bridge) {
        None => TreeVector::own(0),
        Some(vector) => *vector,
    }
}

/// Returns the path to the root over a link, from its near end.
fn path_over(plan: &Plan, vectors: &[TreeVector], near: &End, far: &End) -> TreeVector
    requires { AreSmall (map vector_of vectors.now) }
    ensures { vector_of result ≡ path_over plan.now (map vector_of vectors.now) near.now far.now }
{
    let upper = vector_in(vectors, far.bridge);
    TreeVector {
        root: upper.root,
        cost: upper.cost + near.cost as u64,
        bridge: id_in(plan, far.bridge),
        port: end_id(far),
        receiving: end_id(near),
    }
}

/// Returns the path of a bridge over a link, if the near end is its own and the far end is at another bridge.
fn path_from(
    plan: &Plan,
    vectors: &[TreeVector],
    bridge: u8,
    near: &End,
    far: &End,
) -> Option<TreeVector>
    requires { AreSmall (map vector_of vectors.now) }
    ensures { option_to_list (option_map vector_of result)
        ≡ path_from plan.now (map vector_of vectors.now) bridge near.now far.now }
{
    if near.bridge == bridge && far.bridge != bridge {
        Some(path_over(plan, vectors, near, far))
    } else {
        None
    }
}

/// Returns the best of a bridge's own vector and its paths over links with both ends enabled (IEEE 802.1D-2004 clause
/// 17.6).
fn best_of(plan: &Plan, disabled: &[(u8, u8)], vectors: &[TreeVector], bridge: u8) -> TreeVector
    requires { AreSmall (map vector_of vectors.now) }
    ensures { vector_of result ≡ best (own_of plan.now bridge)
        (paths_of plan.now (is_listed disabled.now) (map vector_of vectors.now) bridge) }
{
    let mut root = TreeVector::own(id_in(plan, bridge));
    for link in plan.links.as_slice() {
        if is_enabled(disabled, link) {
            let first = better(root, path_from(plan, vectors, bridge, &link.a, &link.b));
            root = better(first, path_from(plan, vectors, bridge, &link.b, &link.a));
        }
    }
    root
}

/// Returns the vectors of bridges each of which takes itself for the root.
fn own_vectors(alloc: Global, plan: &Plan) -> Result<Vec<TreeVector>, Memory>
    requires { IsSound plan.now }
    ensures { IfOk result (λ vectors. map vector_of vectors.items
        ≡ map (own_of plan.now) (numbers_from 1 plan.now.bridges)) }
{
    let mut vectors = Vec::with_capacity(alloc, plan.bridges.len())?;
    for place in 0..plan.bridges.len() {
        vectors.push(TreeVector::own(id_in(plan, place as u8 + 1)))?;
    }
    Ok(vectors)
}

/// Returns the best vector of each bridge, given those of its neighbours.
fn next_vectors(
    alloc: Global,
    plan: &Plan,
    disabled: &[(u8, u8)],
    vectors: &[TreeVector],
) -> Result<Vec<TreeVector>, Memory>
    requires sound { IsSound plan.now }
    requires small { AreSmall (map vector_of vectors.now) }
    ensures { IfOk result (λ next. map vector_of next.items
        ≡ next_vectors plan.now (is_listed disabled.now) (map vector_of vectors.now)) }
{
    let mut next = Vec::with_capacity(alloc, plan.bridges.len())?;
    for place in 0..plan.bridges.len() {
        next.push(best_of(plan, disabled, vectors, place as u8 + 1))?;
    }
    Ok(next)
}

/// Returns the root priority vector of each bridge of a sound plan in the spanning tree, in the plan's order: the path
/// of least cost to the bridge with the least identifier (IEEE 802.1D-2004 clauses 17.5 and 17.6).
///
/// `disabled` lists the disabled ports, each by the number of its bridge and its own. A link with a disabled end is no
/// part of any path. Bridges that enabled links do not join have roots of their own.
///
/// # Errors
///
/// `Memory` if an allocation failed.
pub fn tree_of(alloc: Global, plan: &Plan, disabled: &[(u8, u8)]) -> Result<Vec<TreeVector>, Memory>
    requires { IsSound plan.now }
    ensures { IfOk result (λ vectors. map vector_of vectors.items ≡ tree_of plan.now (is_listed disabled.now)) }
{
    let mut vectors = own_vectors(alloc, plan)?;
    for round in 0..plan.bridges.len() {
        vectors = next_vectors(alloc, plan, disabled, vectors.as_slice())?;
    }
    Ok(vectors)
}
