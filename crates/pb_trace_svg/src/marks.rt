//! The hops of a picture, with their numbers and positions.

ghost use Rattle.std.specs.Prelude.{◌≡◌, IfOk};
ghost use Rattle.pb_trace_svg.specs.Marks.{AreMarksOf};

use crate::hops::Hop;
use crate::spots::{Placed, Spot, count_at, width_at};
use pb_cmd_draw::{Point, Route, Scene};
use pb_forest::numbered;
use pb_frame::{Memory, Seq};
use pb_lan::{LinkPlan, Plan};
use pb_names::{is_end_at, port_name, service_at, service_name};
use std::alloc::Global;

/// The distance of the first text from the middle of a link's name.
const FIRST_LINE: u32 = 17;

/// The height of a line.
const LINE: u32 = 13;

/// The distance of the names from the start of the line of a customer port.
const NAMES: u32 = 30;

/// The width of a letter of the names.
const LETTER: u32 = 7;

/// The distance of texts from the names.
const BESIDE: u32 = 8;

/// The distance of the sign of a frame that enters from the start of the line of a customer port.
const IN: u32 = 4;

/// The distance of the sign of a frame that was dropped.
const DROP: u32 = 11;

/// The distance of the sign of a frame that leaves.
const OUT: u32 = 18;

/// The height of a sign above the baseline.
const ABOVE: u32 = 4;

/// A hop in a picture.
#[derive(Clone, Copy, PartialEq, Eq, Debug)]
pub struct HopMark {
    /// Its number, from 1, in the order of the trace.
    pub number: usize,
    /// The hop.
    pub hop: Hop,
    /// The start of its text in the line of a customer port, or the middle of its text under the name of a link.
    pub text: Point,
    /// Half the width of the plate under its text, or 0 in the line of a customer port.
    pub half: u32,
    /// The middle of its sign. A hop over a link has none.
    pub sign: Point,
}

/// Returns the route of the link with a number, if the scene has it.
fn route_of(scene: &Scene, link: u8) -> Option<Route> {
    match numbered(scene.links.as_slice(), link as usize) {
        None => None,
        Some(mark) => Some(mark.route),
    }
}

/// Returns the start of the line of a customer port.
fn corner_of(scene: &Scene, port: u8) -> Point {
    match numbered(scene.ports.as_slice(), port as usize) {
        None => Point { x: 0, y: 0 },
        Some(mark) => mark.corner,
    }
}

/// Returns the width of the names in the line of a customer port.
fn names_width(plan: &Plan, port: u8) -> u32 {
    let port_letters = port_name(plan, port).len().min(64) as u32;
    let service = service_name(plan, service_at(plan, port));
    let letters = port_letters.saturating_add(service.len().min(64) as u32);
    letters.saturating_add(1).saturating_mul(LETTER)
}

/// Returns the position of the text at a spot after the texts of earlier hops, and half the width of its plate.
fn text_at(plan: &Plan, scene: &Scene, before: &[Placed], spot: Spot) -> (Point, u32) {
    match spot {
        Spot::Link(link) => match route_of(scene, link) {
            None => (Point { x: 0, y: 0 }, 0),
            Some(route) => {
                let down = count_at(before, spot).saturating_mul(LINE);
                let y = route
                    .label
                    .y
                    .saturating_add(FIRST_LINE)
                    .saturating_add(down);
                (
                    Point {
                        x: route.label.x,
                        y,
                    },
                    route.lines_half,
                )
            }
        },
        Spot::Port(port) => {
            let corner = corner_of(scene, port);
            let x = corner
                .x
                .saturating_add(NAMES + BESIDE)
                .saturating_add(names_width(plan, port))
                .saturating_add(width_at(before, spot));
            (Point { x, y: corner.y }, 0)
        }
    }
}

/// Returns the point at which a link meets the box of a bridge with this local port.
fn landing_of(link: &LinkPlan, route: Route, bridge: u8, port: u8) -> Point {
    if is_end_at(bridge, port, &link.a) {
        route.a
    } else {
        route.b
    }
}

/// Returns the middle of the sign of a drop at a local port of a bridge, by the spot there.
fn drop_sign(plan: &Plan, scene: &Scene, spot: Spot, bridge: u8, port: u8) -> Point {
    let Spot::Link(number) = spot else {
        return port_sign(scene, spot, DROP);
    };
    let Some(link) = numbered(plan.links.as_slice(), number as usize) else {
        return Point { x: 0, y: 0 };
    };
    match route_of(scene, number) {
        None => Point { x: 0, y: 0 },
        Some(route) => landing_of(link, route, bridge, port),
    }
}

/// Returns the middle of a sign at this distance from the start of the line of a customer port.
fn port_sign(scene: &Scene, spot: Spot, distance: u32) -> Point {
    let Spot::Port(port) = spot else {
        return Point { x: 0, y: 0 };
    };
    let corner = corner_of(scene, port);
    Point {
        x: corner.x.saturating_add(distance),
        y: corner.y.saturating_sub(ABOVE),
    }
}

/// Returns the middle of the sign of a hop.
fn sign_of(plan: &Plan, scene: &Scene, spot: Spot, hop: Hop) -> Point {
    match hop {
        Hop::Entered(_) => port_sign(scene, spot, IN),
        Hop::Delivered(_, _) => port_sign(scene, spot, OUT),
        Hop::Crossed(_, _, _) => Point { x: 0, y: 0 },
        Hop::Dropped(bridge, port, _) | Hop::Refused(bridge, port, _) => {
            drop_sign(plan, scene, spot, bridge, port)
        }
    }
}

/// Returns the mark of the hop with a number, which is placed after those before it.
fn mark_of(plan: &Plan, scene: &Scene, all: &[Placed], number: usize, hop: Hop) -> HopMark
    ensures number { result.number ≡ number }
    ensures hop { result.hop ≡ hop }
{
    let index = number.saturating_sub(1).min(all.len());
    let before = &all[..index];
    let spot = match all.get(index) {
        None => Spot::Port(0),
        Some(placed) => placed.spot,
    };
    let (text, half) = text_at(plan, scene, before, spot);
    HopMark {
        number,
        hop,
        text,
        half,
        sign: sign_of(plan, scene, spot, hop),
    }
}

/// Returns the marks of hops, numbered from 1 in their order.
///
/// # Errors
///
/// `Memory` if an allocation failed.
pub(crate) fn marks_of(
    alloc: Global,
    plan: &Plan,
    scene: &Scene,
    all: &[Placed],
    hops: &[Hop],
) -> Result<Seq<HopMark>, Memory>
    ensures { IfOk result (AreMarksOf hops.now) }
{
    let mut marks = Vec::new(alloc);
    for hop in hops {
        let number = marks.len() + 1;
        marks.push(mark_of(plan, scene, all, number, *hop))?;
    }
    Ok(Seq::from_vec(marks))
}
