//! A scene as an SVG picture.

ghost use Rattle.std.specs.Prelude.{◌≡◌, ◌++◌, flat_map, string_bytes, OnOk};
ghost use Rattle.pb_cmd_draw.specs.Svg.{opening_text, counts_text, ground_text, group_text, head_text, parts_text};
ghost use Rattle.pb_cmd_draw.specs.Svg.{boxes_text, elements_text, legend_text, parts_with, svg_text, svg_with};
ghost use Rattle.pb_cmd_draw.specs.SvgBoxes.{bridge_element, port_element, service_element};
ghost use Rattle.pb_cmd_draw.specs.SvgKeys.{key_element};
ghost use Rattle.pb_cmd_draw.specs.SvgLinks.{link_element, ends_element};

use crate::style::STYLE;
use crate::svg_boxes::{put_bridge, put_port, put_service};
use crate::svg_keys::put_key;
use crate::svg_links::{put_ends, put_link};
use crate::words::colour_of;
use pb_draw_layout::{BridgeMark, KeyMark, LinkMark, Point, PortMark, Scene, ServiceMark};
use pb_frame::Memory;
use pb_lan::Plan;
use std::alloc::Global;

/// Appends the lines of the links.
fn put_links(out: &mut String, plan: &Plan, marks: &[LinkMark]) -> Result<(), Memory>
    ensures { OnOk result (string_bytes out.new ≡ string_bytes out.old ++ flat_map (link_element plan.now) marks.now) }
{
    for mark in marks {
        put_link(out, plan, mark)?;
    }
    Ok(())
}

/// Appends the boxes of the bridges.
fn put_bridges(
    alloc: Global,
    out: &mut String,
    plan: &Plan,
    marks: &[BridgeMark],
) -> Result<(), Memory>
    ensures { OnOk result (string_bytes out.new ≡ string_bytes out.old
        ++ flat_map (bridge_element plan.now) marks.now) }
{
    for mark in marks {
        put_bridge(alloc, out, plan, mark)?;
    }
    Ok(())
}

/// Appends the customer ports.
fn put_ports(out: &mut String, plan: &Plan, marks: &[PortMark]) -> Result<(), Memory>
    ensures { OnOk result (string_bytes out.new ≡ string_bytes out.old ++ flat_map (port_element plan.now) marks.now) }
{
    for mark in marks {
        put_port(out, plan, mark)?;
    }
    Ok(())
}

/// Appends the names and the ends of the links.
fn put_all_ends(
    out: &mut String,
    plan: &Plan,
    lists: bool,
    marks: &[LinkMark],
) -> Result<(), Memory>
    ensures { OnOk result (string_bytes out.new ≡ string_bytes out.old
        ++ flat_map (ends_element plan.now lists) marks.now) }
{
    for mark in marks {
        put_ends(out, plan, lists, mark)?;
    }
    Ok(())
}

/// Appends the signs of the legend.
fn put_keys(out: &mut String, marks: &[KeyMark]) -> Result<(), Memory>
    ensures { OnOk result (string_bytes out.new ≡ string_bytes out.old ++ flat_map key_element marks.now) }
{
    for mark in marks {
        put_key(out, mark)?;
    }
    Ok(())
}

/// Appends the services of the legend.
fn put_services(out: &mut String, plan: &Plan, marks: &[ServiceMark]) -> Result<(), Memory>
    ensures { OnOk result (string_bytes out.new ≡ string_bytes out.old
        ++ flat_map (service_element plan.now) marks.now) }
{
    for mark in marks {
        put_service(out, plan, mark)?;
    }
    Ok(())
}

/// Appends the opening tag, with the size of the picture.
fn put_opening(out: &mut String, size: Point) -> Result<(), Memory>
    ensures { OnOk result (string_bytes out.new ≡ string_bytes out.old ++ opening_text size) }
{
    let (width, height) = (size.x, size.y);
    write!(
        out,
        "<svg xmlns=\"http://www.w3.org/2000/svg\" width=\"{width}\" height=\"{height}\" \
        viewBox=\"0 0 {width} {height}\">\n"
    )?;
    Ok(())
}

/// Appends the number of bridges and links, as the picture's title.
fn put_counts(out: &mut String, scene: &Scene) -> Result<(), Memory>
    ensures { OnOk result (string_bytes out.new ≡ string_bytes out.old ++ counts_text scene.now) }
{
    let bridges = scene.bridges.len();
    let links = scene.links.len();
    write!(out, "<title>Bridges {bridges}, links {links}</title>\n")?;
    Ok(())
}

/// Appends the background.
fn put_ground(out: &mut String, size: Point) -> Result<(), Memory>
    ensures { OnOk result (string_bytes out.new ≡ string_bytes out.old ++ ground_text size) }
{
    let (width, height) = (size.x, size.y);
    write!(
        out,
        "<rect class=\"ground\" width=\"{width}\" height=\"{height}\"/>\n"
    )?;
    Ok(())
}

/// Appends the opening tag of the group of all elements, with the colour of the highlighted service.
fn put_group(out: &mut String, chosen: Option<u8>) -> Result<(), Memory>
    ensures { OnOk result (string_bytes out.new ≡ string_bytes out.old ++ group_text chosen) }
{
    match chosen {
        None => out.push_str("<g>\n")?,
        Some(service) => {
            let colour = colour_of(service);
            write!(out, "<g class=\"c{colour}\">\n")?;
        }
    }
    Ok(())
}

/// Appends all that comes before the elements.
fn put_head(out: &mut String, scene: &Scene) -> Result<(), Memory>
    ensures { OnOk result (string_bytes out.new ≡ string_bytes out.old ++ head_text scene.now) }
{
    put_opening(out, scene.size)?;
    put_counts(out, scene)?;
    out.push_str(STYLE)?;
    put_ground(out, scene.size)?;
    put_group(out, scene.chosen)
}

/// Appends the lines of links, the boxes of bridges, and customer ports.
fn put_boxes(alloc: Global, out: &mut String, plan: &Plan, scene: &Scene) -> Result<(), Memory>
    ensures { OnOk result (string_bytes out.new ≡ string_bytes out.old ++ boxes_text plan.now scene.now) }
{
    put_links(out, plan, scene.links.as_slice())?;
    put_bridges(alloc, out, plan, scene.bridges.as_slice())?;
    put_ports(out, plan, scene.ports.as_slice())
}

/// Appends the elements of all parts of the network.
fn put_parts(
    alloc: Global,
    out: &mut String,
    plan: &Plan,
    lists: bool,
    scene: &Scene,
) -> Result<(), Memory>
    ensures { OnOk result (string_bytes out.new ≡ string_bytes out.old ++ parts_text plan.now lists scene.now) }
{
    put_boxes(alloc, out, plan, scene)?;
    put_all_ends(out, plan, lists, scene.links.as_slice())
}

/// Appends the elements of the legend.
fn put_legend(out: &mut String, plan: &Plan, scene: &Scene) -> Result<(), Memory>
    ensures { OnOk result (string_bytes out.new ≡ string_bytes out.old ++ legend_text plan.now scene.now) }
{
    put_keys(out, scene.keys.as_slice())?;
    put_services(out, plan, scene.services.as_slice())
}

/// Appends the elements of all parts and of the legend.
fn put_elements(
    alloc: Global,
    out: &mut String,
    plan: &Plan,
    lists: bool,
    scene: &Scene,
) -> Result<(), Memory>
    ensures { OnOk result (string_bytes out.new ≡ string_bytes out.old ++ elements_text plan.now lists scene.now) }
{
    put_parts(alloc, out, plan, lists, scene)?;
    put_legend(out, plan, scene)
}

/// Appends a scene of a plan as a self-contained SVG picture.
///
/// Each bridge, link, customer port and service has an element with a `<title>` that names it: a bridge with its
/// address and priority, a link with its ends and their states, a port with its service and VID. Its `id` and `data-`
/// attributes name it to programs. The lines of links come first and are below the boxes. The names of links come after
/// the boxes, with the lists of services under them if `lists` is true: one line if both ends of a link have the same
/// list, else one for each end. A link with all services has none. Of a list of more than three names the first two
/// come, and the number of the others. The legend has the signs that the picture uses, and the services.
///
/// # Errors
///
/// `Memory` if an allocation failed. A part of the picture may have been appended then.
pub fn put_svg(
    alloc: Global,
    out: &mut String,
    plan: &Plan,
    lists: bool,
    scene: &Scene,
) -> Result<(), Memory>
    ensures { OnOk result (string_bytes out.new ≡ string_bytes out.old ++ svg_text plan.now lists scene.now) }
{
    put_head(out, scene)?;
    put_elements(alloc, out, plan, lists, scene)?;
    out.push_str("</g>\n</svg>\n")?;
    Ok(())
}

/// Appends the elements of bridges, links and customer ports, with more elements before the names of links.
fn put_parts_with(
    alloc: Global,
    out: &mut String,
    plan: &Plan,
    scene: &Scene,
    more: &str,
) -> Result<(), Memory>
    ensures { OnOk result (string_bytes out.new ≡ string_bytes out.old ++ parts_with plan.now scene.now more.now) }
{
    put_boxes(alloc, out, plan, scene)?;
    out.push_str(more)?;
    put_all_ends(out, plan, false, scene.links.as_slice())
}

/// Appends a scene of a plan as a self-contained SVG picture, as [`put_svg`] does without lists, with more elements:
/// the text `more` comes after the boxes of bridges and before the names of links.
///
/// # Errors
///
/// `Memory` if an allocation failed. A part of the picture may have been appended then.
pub fn put_svg_with(
    alloc: Global,
    out: &mut String,
    plan: &Plan,
    scene: &Scene,
    more: &str,
) -> Result<(), Memory>
    ensures { OnOk result (string_bytes out.new ≡ string_bytes out.old ++ svg_with plan.now scene.now more.now) }
{
    put_head(out, scene)?;
    put_parts_with(alloc, out, plan, scene, more)?;
    put_legend(out, plan, scene)?;
    out.push_str("</g>\n</svg>\n")?;
    Ok(())
}
