//! The scene of a plan's network.

ghost use Rattle.std.specs.Prelude.{◌≡◌, map, IfOk};
ghost use Rattle.pb_lan.specs.Numbering.{numbers_from};
ghost use Rattle.pb_lan.specs.Plans.{IsSound};
ghost use Rattle.pb_draw_layout.specs.Facts.{bridge_facts, link_facts, port_facts, service_facts};
ghost use Rattle.pb_draw_layout.specs.Scenes.{IsSceneOf};

use crate::facts::{Failures, bridge_facts, link_facts, port_facts, service_facts};
use crate::findings::{Findings, found_in};
use crate::keys::key_marks;
use crate::layout::{Layout, layout_of};
use crate::scene::{BridgeMark, LinkMark, PortMark, Rooms, Scene, ServiceMark};
use pb_frame::{Memory, Seq};
use pb_lan::{Plan, Shape};
use std::alloc::Global;

/// Returns the marks of the bridges.
fn bridge_marks(
    alloc: Global,
    plan: &Plan,
    failed: &Failures,
    found: &Findings,
    layout: &Layout,
) -> Result<Seq<BridgeMark>, Memory>
    requires { IsSound plan.now }
    ensures { IfOk result (λ marks. map (λ m. m.facts) marks
        ≡ map (bridge_facts plan.now failed.now found.now) (numbers_from 1 plan.now.bridges)) }
{
    let mut marks = Vec::new(alloc);
    for place in 0..plan.bridges.len() {
        let number = place as u8 + 1;
        marks.push(BridgeMark {
            facts: bridge_facts(plan, failed, found, number),
            corner: layout.corner(number),
            size: layout.box_size(number),
        })?;
    }
    Ok(Seq::from_vec(marks))
}

/// Returns the marks of the links.
fn link_marks(
    alloc: Global,
    plan: &Plan,
    shape: &Shape,
    failed: &Failures,
    found: &Findings,
    layout: &Layout,
    rooms: Rooms<'_>,
) -> Result<Seq<LinkMark>, Memory>
    requires { IsSound plan.now }
    ensures { IfOk result (λ marks. map (λ m. m.facts) marks
        ≡ map (link_facts plan.now shape.now failed.now found.now) (numbers_from 1 plan.now.links)) }
{
    let mut marks = Vec::new(alloc);
    for place in 0..plan.links.len() {
        let number = place as u8 + 1;
        marks.push(LinkMark {
            facts: link_facts(plan, shape, failed, found, number),
            route: layout.route(plan, rooms, number),
        })?;
    }
    Ok(Seq::from_vec(marks))
}

/// Returns the marks of the customer ports.
fn port_marks(
    alloc: Global,
    plan: &Plan,
    found: &Findings,
    layout: &Layout,
) -> Result<Seq<PortMark>, Memory>
    requires { IsSound plan.now }
    ensures { IfOk result (λ marks. map (λ m. m.facts) marks
        ≡ map (port_facts plan.now found.now) (numbers_from 1 plan.now.customers)) }
{
    let mut marks = Vec::new(alloc);
    for place in 0..plan.customers.len() {
        let number = place as u8 + 1;
        marks.push(PortMark {
            facts: port_facts(plan, found, number),
            corner: layout.port_corner(plan, number),
        })?;
    }
    Ok(Seq::from_vec(marks))
}

/// Returns the marks of the services.
fn service_marks(
    alloc: Global,
    plan: &Plan,
    chosen: Option<u8>,
    layout: &Layout,
    keys: usize,
) -> Result<Seq<ServiceMark>, Memory>
    requires { IsSound plan.now }
    ensures { IfOk result (λ marks. map (λ m. m.facts) marks
        ≡ map (service_facts chosen) (numbers_from 1 plan.now.services)) }
{
    let mut marks = Vec::new(alloc);
    for place in 0..plan.services.len() {
        let number = place as u8 + 1;
        marks.push(ServiceMark {
            facts: service_facts(chosen, number),
            corner: layout.entry_corner(keys, place),
        })?;
    }
    Ok(Seq::from_vec(marks))
}

/// Returns the scene of a sound plan's network, with the ports in these states and with these failures.
///
/// The scene has each bridge, link, customer port and service of the plan once, in the plan's order. A link with a
/// disabled end has failed. Another link is active if both its ends are Forwarding and members of at least one service
/// (IEEE 802.1D-2004 clause 7.4, IEEE 802.1Q clause 8.8), or, in a plan without services, if both its ends are
/// Forwarding. If the bridges run the protocol, the root of a tree is the bridge with the lowest identifier among those
/// that links join whose two ends are Forwarding, unless it has failed (IEEE 802.1D-2004 clause 9.2.5).
///
/// If `chosen` is a service's number, its customer ports, the links on the paths between them and the bridges at these
/// are lit, and all else is faint. A customer port that is joined with at most half of those ports is cut off. The
/// scene's keys are those that the picture uses.
///
/// The scene leaves the room that `rooms` asks for under the names of links and in the lines of customer ports.
///
/// The level of a bridge is the number of links up to the root of its tree, or to the bridge with the lowest number if
/// the plan gives the states. No two boxes and no two names of links, with the room under them, overlap; no contract
/// covers the positions.
///
/// # Errors
///
/// `Memory` if an allocation failed.
pub fn scene_of(
    alloc: Global,
    plan: &Plan,
    shape: &Shape,
    chosen: Option<u8>,
    failed: &Failures,
    rooms: Rooms<'_>,
) -> Result<Scene, Memory>
    requires { IsSound plan.now }
    ensures { IfOk result (IsSceneOf plan.now shape.now chosen failed.now) }
{
    let found = found_in(alloc, plan, shape, chosen)?;
    let layout = layout_of(alloc, plan, shape, rooms)?;
    let bridges = bridge_marks(alloc, plan, failed, &found, &layout)?;
    let links = link_marks(alloc, plan, shape, failed, &found, &layout, rooms)?;
    let ports = port_marks(alloc, plan, &found, &layout)?;
    let keys = key_marks(
        alloc,
        &layout,
        bridges.as_slice(),
        links.as_slice(),
        ports.as_slice(),
    )?;
    let services = service_marks(alloc, plan, chosen, &layout, keys.len())?;
    let size = layout.size(plan, keys.len());
    Ok(Scene {
        bridges,
        links,
        ports,
        keys,
        services,
        chosen,
        size,
    })
}
