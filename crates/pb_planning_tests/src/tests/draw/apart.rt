//! Boxes and names of links do not overlap.

use super::plans;
use pb_cmd_draw::{BridgeMark, Failures, LinkMark, Room, Rooms, Scene, scene_of};
use pb_frame::Seq;
use pb_lan::start_shape;
use pb_service::read_plan;
use std::alloc::Global;
use std::process::Abort;
use std::test::Fail;

const NO_ROOM: Room = Room { width: 0, lines: 0 };

const TWO_LINES: Room = Room {
    width: 200,
    lines: 2,
};

/// A rectangle: its left, upper, right and lower edge.
#[derive(Clone, Copy, Debug)]
struct Area(u64, u64, u64, u64);

/// Returns the area of a bridge's box.
fn area_of_box(mark: &BridgeMark) -> Area {
    let (left, top) = (mark.corner.x as u64, mark.corner.y as u64);
    let (width, height) = (mark.size.x as u64, mark.size.y as u64);
    Area(left, top, left + width, top + height)
}

/// Returns the area of a link's name, with two lines under it if there are any.
fn area_of_name(mark: &LinkMark) -> Area {
    let (name, list) = (mark.route.label_half as u64, mark.route.lines_half as u64);
    let half = name.max(list);
    let lines = if list == 0 { 0 } else { 26u64 };
    let (x, y) = (mark.route.label.x as u64, mark.route.label.y as u64);
    Area(
        x.saturating_sub(half),
        y.saturating_sub(7),
        x + half,
        y + 7 + lines,
    )
}

/// Checks whether two rectangles have nothing in common.
fn are_apart(one: Area, other: Area) -> bool {
    one.2 <= other.0 || other.2 <= one.0 || one.3 <= other.1 || other.3 <= one.1
}

/// Returns the areas of all boxes and names.
fn areas(alloc: Global, scene: &Scene) -> Result<Vec<Area>, Fail> {
    let mut areas = Vec::new(alloc);
    for mark in scene.bridges.as_slice() {
        areas.push(area_of_box(mark))?;
    }
    for mark in scene.links.as_slice() {
        areas.push(area_of_name(mark))?;
    }
    Ok(areas)
}

/// Checks that no two boxes or names of a scene overlap, and that all are within the picture.
fn are_all_apart(rt: &impl Abort, alloc: Global, scene: &Scene) -> Result<(), Fail> {
    let areas = areas(alloc, scene)?;
    for mark in scene.links.as_slice() {
        let half = mark.route.label_half.max(mark.route.lines_half);
        assert!(rt; half <= mark.route.label.x, "{mark:?} leaves the picture");
    }
    let (width, height) = (scene.size.x as u64, scene.size.y as u64);
    for (number, one) in areas.as_slice().iter().enumerate() {
        assert!(rt;
            one.2 <= width && one.3 <= height,
            "{one:?} leaves the picture"
        );
        for other in areas.as_slice().iter().take(number) {
            assert!(rt; are_apart(*one, *other), "{one:?} {other:?}");
        }
    }
    Ok(())
}

/// Returns the scene of a plan file, with the states at the start, and with so much room under the name of each link.
fn scene(rt: &impl Abort, alloc: Global, file: &str, room: Room) -> Result<Scene, Fail> {
    let Ok((plan, _ports)) = read_plan(alloc, file.as_bytes()) else {
        panic!(rt; "no plan: {file}");
    };
    let shape = start_shape(alloc, &plan)?;
    let failed = Failures {
        bridges: Seq::from_vec(Vec::new(alloc)),
        links: Seq::from_vec(Vec::new(alloc)),
    };
    let mut links = Vec::new(alloc);
    for _ in plan.links.as_slice() {
        links.push(room)?;
    }
    let rooms = Rooms {
        links: links.as_slice(),
        ports: room.width,
    };
    Ok(scene_of(alloc, &plan, &shape, None, &failed, rooms)?)
}

/// Returns a plan file with `bridges - 1` bridges, each of which is joined to the next `ahead - 1` ones. Only the first
/// of these links is Forwarding at both ends.
fn plan_of(alloc: Global, bridges: usize, ahead: usize) -> Result<String, Fail> {
    let mut text = String::new(alloc);
    for number in 1..bridges {
        writeln!(
            text,
            "[[bridge]]\nname = \"a-bridge-{number}\"\naddress = \"02-00-00-00-00-{number:02x}\""
        )?;
    }
    put_links(&mut text, bridges, ahead)?;
    Ok(text)
}

/// Appends the links of such a plan file.
fn put_links(text: &mut String, bridges: usize, ahead: usize) -> Result<(), Fail> {
    for number in 1..bridges {
        for step in 1..ahead {
            let far = number.saturating_add(step);
            if far < bridges {
                put_link(text, number, far, step)?;
            }
        }
    }
    Ok(())
}

/// Appends a link of such a plan file.
fn put_link(text: &mut String, near: usize, far: usize, step: usize) -> Result<(), Fail> {
    let back = step.saturating_add(7);
    let state = if step == 1 {
        "forwarding"
    } else {
        "discarding"
    };
    writeln!(text, "[[link]]\nname = \"link-{near}-{far}\"")?;
    writeln!(text, "a = \"a-bridge-{near}\"\na_port = {step}")?;
    writeln!(text, "b = \"a-bridge-{far}\"\nb_port = {back}")?;
    writeln!(text, "b_state = \"{state}\"")?;
    Ok(())
}

/// Returns a plan file of 32 bridges with 64 links: the first bridge has sixteen neighbours, and the second one fifteen
/// others. The other links are Discarding.
fn wide_plan(alloc: Global) -> Result<String, Fail> {
    let mut text = plan_of(alloc, 33, 1)?;
    for leaf in 2..18usize {
        put_wide_link(&mut text, (1, leaf - 1), (leaf, 1), "forwarding")?;
    }
    for leaf in 18..33usize {
        put_wide_link(&mut text, (2, leaf - 16), (leaf, 1), "forwarding")?;
        put_wide_link(&mut text, (leaf - 15, 2), (leaf, 2), "discarding")?;
        put_wide_link(&mut text, (leaf - 15, 3), (50 - leaf, 3), "discarding")?;
    }
    for near in 3..6usize {
        put_wide_link(&mut text, (near, 4), (near + 20, 4), "discarding")?;
    }
    Ok(text)
}

/// Appends a link between two bridges with their ports, and the state of its second end.
fn put_wide_link(
    text: &mut String,
    near: (usize, usize),
    far: (usize, usize),
    state: &str,
) -> Result<(), Fail> {
    let ((a, a_port), (b, b_port)) = (near, far);
    writeln!(text, "[[link]]\nname = \"link-{a}-{b}-{b_port}\"")?;
    writeln!(text, "a = \"a-bridge-{a}\"\na_port = {a_port}")?;
    writeln!(text, "b = \"a-bridge-{b}\"\nb_port = {b_port}")?;
    writeln!(text, "b_state = \"{state}\"")?;
    Ok(())
}

#[test]
fn wide_levels_wrap(rt: HostRuntime) -> Result<(), Fail> {
    let alloc = rt.alloc();
    let file = wide_plan(alloc)?;
    let scene = scene(&rt, alloc, file.as_str(), NO_ROOM)?;
    assert_eq!(rt; scene.links.len(), 64usize);
    assert!(rt; scene.size.x as u64 <= scene.size.y as u64 * 2);
    are_all_apart(&rt, alloc, &scene)
}

#[test]
fn boxes_and_names_are_apart(rt: HostRuntime) -> Result<(), Fail> {
    let alloc = rt.alloc();
    for file in [plans::GIVEN, plans::RING, ""] {
        for room in [NO_ROOM, TWO_LINES] {
            let scene = scene(&rt, alloc, file, room)?;
            are_all_apart(&rt, alloc, &scene)?;
        }
    }
    Ok(())
}

#[test]
fn many_boxes_and_names_are_apart(rt: HostRuntime) -> Result<(), Fail> {
    let alloc = rt.alloc();
    for (bridges, ahead) in [(33, 3), (17, 5), (8, 7)] {
        let file = plan_of(alloc, bridges, ahead)?;
        for room in [NO_ROOM, TWO_LINES] {
            let scene = scene(&rt, alloc, file.as_str(), room)?;
            are_all_apart(&rt, alloc, &scene)?;
        }
    }
    Ok(())
}
