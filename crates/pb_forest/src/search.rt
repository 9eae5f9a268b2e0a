//! The search for a certificate of a forest.

ghost use Rattle.std.specs.Prelude.{◌≡◌, ◌<◌, ◌≤◌, ◌+◌, Some, IfOk, MatchOption, length};
ghost use Rattle.pb_forest.specs.Counting.{IsCounted};
ghost use Rattle.pb_forest.specs.Graphs.{IsBetween};
ghost use Rattle.pb_forest.specs.Searching.{AnswersForest, AreEdges, HasIndexes};
ghost use Rattle.pb_forest.specs.ServiceVids.{vid_numbered};
ghost use Rattle.pb_lan.specs.Forests.{IsForest};
ghost use Rattle.pb_lan.specs.Plans.{IsNumber};

use crate::active::{is_active, vid_numbered};
use crate::graph::{Ends, Graph};
use crate::peeling::peel;
use crate::rooting::rooted_by;
use pb_frame::Memory;
use pb_lan::{End, LinkPlan, Plan, Rooted, Shape};
use std::alloc::Global;

/// Returns the index of the end's bridge, or `None` if there is no such bridge.
fn index_of(end: &End, bridges: usize) -> Option<usize>
    ensures { MatchOption result (IsNumber end.now.bridge bridges → ⊥) (λ i. (i < bridges) × (end.now.bridge ≡ i + 1)) }
{
    let number = end.bridge as usize;
    if number == 0 || number > bridges {
        return None;
    }
    Some(number - 1)
}

/// Returns the bridges that the link joins, or `None` if one of its ends is at no bridge.
fn ends_of(link: &LinkPlan, bridges: usize) -> Option<Ends>
    ensures { MatchOption result (IsNumber link.now.a.bridge bridges × IsNumber link.now.b.bridge bridges → ⊥)
        (λ ends. IsBetween bridges (Some ends) × HasIndexes link.now ends) }
{
    let a = index_of(&link.a, bridges)?;
    let b = index_of(&link.b, bridges)?;
    Some(Ends { a, b })
}

/// Returns the graph of the active links, or `None` if one of them has an end at no bridge.
///
/// # Errors
///
/// `Memory` if an allocation failed.
fn graph_of(alloc: Global, plan: &Plan, shape: &Shape, vid: u16) -> Result<Option<Graph>, Memory>
    requires { length plan.now.links ≤ 255 }
    ensures { IfOk result (λ graph. MatchOption graph (IsForest plan.now shape.now vid → ⊥)
        (λ g. IsCounted g × (length g.degrees.items ≡ length plan.now.bridges)
        × AreEdges plan.now shape.now vid plan.now.links g.links.items)) }
{
    let bridges = plan.bridges.len();
    let mut graph = Graph::new(alloc, bridges)?;
    for link in plan.links.as_slice() {
        if !is_active(plan, shape, vid, link) {
            graph.push(None)?;
            continue;
        }
        let Some(ends) = ends_of(link, bridges) else {
            return Ok(None);
        };
        graph.push(Some(ends))?;
    }
    Ok(Some(graph))
}

/// Returns parents and depths which show that the active links of a service form no loop, or `None` if and only if
/// there are none.
///
/// [`check_rooted`](crate::check_rooted) accepts the result, and its documentation says what that means. A link with
/// both ends on one bridge is a loop, and so are two links between the same bridges. The result is also `None` if an
/// active link has an end at a bridge that the plan lacks.
///
/// A link is active for a service if both its ends are Forwarding and members of the service (IEEE 802.1Q clause
/// 8.8). `service` is a service's number, counted from 1. A number without a service means VID 0, which no service of
/// a sound plan has. No link is active then, and each bridge is a root.
///
/// There must be at most 255 links, because link numbers have eight bits. A sound plan has at most 64. The time is
/// linear in the bridges, and in the links with their services, which no contract states.
///
/// # Errors
///
/// `Memory` if an allocation failed.
pub fn forest(
    alloc: Global,
    shape: &Shape,
    plan: &Plan,
    service: u8,
) -> Result<Option<Rooted>, Memory>
    requires { length plan.now.links ≤ 255 }
    ensures { IfOk result (AnswersForest plan.now shape.now (vid_numbered plan.now service)) }
{
    let vid = vid_numbered(plan, service);
    let Some(mut graph) = graph_of(alloc, plan, shape, vid)? else {
        return Ok(None);
    };
    let branches = peel(alloc, &mut graph)?;
    if graph.has_links() {
        return Ok(None);
    }
    let rooted = rooted_by(alloc, plan.bridges.len(), branches)?;
    Ok(Some(rooted))
}
