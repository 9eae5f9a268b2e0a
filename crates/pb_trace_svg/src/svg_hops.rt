//! Hops in an SVG picture.

ghost use Rattle.std.specs.Prelude.{◌≡◌, ◌++◌, flat_map, string_bytes, OnOk};
ghost use Rattle.pb_trace_svg.specs.SvgHops.{arrow_word, box_text, bridge_data, crossing_data, crossing_way, hop_data};
ghost use Rattle.pb_trace_svg.specs.SvgHops.{hop_drawing, hop_element, hop_group, hop_label, hop_start, label_start};
ghost use Rattle.pb_trace_svg.specs.SvgHops.{number_words};
ghost use Rattle.pb_trace_svg.specs.SvgHops.{lane_data, plate_text, port_data, route_part, shape_of, sign_text};
ghost use Rattle.pb_trace_svg.specs.SvgHops.{way_element, way_of, way_start};

use crate::hops::{Hop, Tag};
use crate::marks::HopMark;
use crate::words::{far_name, kind_word, link_of, put_hop_words, put_tag};
use pb_cmd_draw::{LinkMark, Point, put_route};
use pb_forest::numbered;
use pb_frame::Memory;
use pb_lan::Plan;
use pb_names::{bridge_name, link_name, port_name};

/// Appends the beginning of a hop's group: its identifier, its class and its number.
fn put_hop_start(out: &mut String, number: usize, hop: Hop) -> Result<(), Memory>
    ensures { OnOk result (string_bytes out.new ≡ string_bytes out.old ++ hop_start number hop) }
{
    let word = kind_word(hop);
    write!(
        out,
        "<g id=\"hop-{number}\" class=\"hop {word}\" data-hop=\"{number}\" "
    )?;
    Ok(())
}

/// Appends the attribute that names a customer port, and the end of the tag.
fn put_port_data(out: &mut String, plan: &Plan, port: u8) -> Result<(), Memory>
    ensures { OnOk result (string_bytes out.new ≡ string_bytes out.old ++ port_data plan.now port) }
{
    let name = port_name(plan, port);
    write!(out, "data-port=\"{name}\">")?;
    Ok(())
}

/// Appends the attributes that name a link and the bridge to which its lane leads.
fn put_lane_data(out: &mut String, plan: &Plan, lane: u8) -> Result<(), Memory>
    ensures { OnOk result (string_bytes out.new ≡ string_bytes out.old ++ lane_data plan.now lane) }
{
    let link = link_name(plan, link_of(lane));
    let far = far_name(plan, lane);
    write!(out, "data-link=\"{link}\" data-to=\"{far}\" ")?;
    Ok(())
}

/// Appends the attributes that describe a frame on a link, and the end of the tag.
fn put_crossing_data(out: &mut String, plan: &Plan, lane: u8, tag: Tag) -> Result<(), Memory>
    ensures { OnOk result (string_bytes out.new ≡ string_bytes out.old ++ crossing_data plan.now lane tag) }
{
    put_lane_data(out, plan, lane)?;
    out.push_str("data-tag=\"")?;
    put_tag(out, tag)?;
    out.push_str("\">")?;
    Ok(())
}

/// Appends the attributes that name a local port of a bridge, and the end of the tag.
fn put_bridge_data(out: &mut String, plan: &Plan, bridge: u8, port: u8) -> Result<(), Memory>
    ensures { OnOk result (string_bytes out.new ≡ string_bytes out.old ++ bridge_data plan.now bridge port) }
{
    let name = bridge_name(plan, bridge);
    write!(out, "data-bridge=\"{name}\" data-port=\"{port}\">")?;
    Ok(())
}

/// Appends the attributes that describe a hop, and the end of the tag.
fn put_hop_data(out: &mut String, plan: &Plan, hop: Hop) -> Result<(), Memory>
    ensures { OnOk result (string_bytes out.new ≡ string_bytes out.old ++ hop_data plan.now hop) }
{
    match hop {
        Hop::Entered(port) | Hop::Delivered(port, _) => put_port_data(out, plan, port),
        Hop::Crossed(lane, tag, _) => put_crossing_data(out, plan, lane, tag),
        Hop::Dropped(bridge, port, _) | Hop::Refused(bridge, port, _) => {
            put_bridge_data(out, plan, bridge, port)
        }
    }
}

/// Appends the opening tag of a hop's group.
fn put_hop_group(out: &mut String, plan: &Plan, number: usize, hop: Hop) -> Result<(), Memory>
    ensures { OnOk result (string_bytes out.new ≡ string_bytes out.old ++ hop_group plan.now number hop) }
{
    put_hop_start(out, number, hop)?;
    put_hop_data(out, plan, hop)
}

/// Returns the end of a line's path, with the arrow at the far end of its lane. A frame that was lost has no arrow.
fn arrow_word(lane: u8, lost: bool) -> &'static str
    ensures { result.now ≡ arrow_word lane lost }
{
    if lost {
        "\""
    } else if lane % 2 == 1 {
        "\" marker-end=\"url(#hop-ab)\""
    } else {
        "\" marker-start=\"url(#hop-ba)\""
    }
}

/// Appends the path of the link of a lane, if the scene has it.
fn put_route_part(out: &mut String, links: &[LinkMark], lane: u8) -> Result<(), Memory>
    ensures { OnOk result (string_bytes out.new ≡ string_bytes out.old ++ route_part links.now lane) }
{
    match numbered(links, link_of(lane) as usize) {
        None => Ok(()),
        Some(mark) => put_route(out, &mark.route),
    }
}

/// Returns the drawing of the sign of a hop from its middle on: an arrow into or out of the network, or a cross.
fn shape_of(hop: Hop) -> &'static str
    ensures { result.now ≡ shape_of hop }
{
    match hop {
        Hop::Entered(_) => "m-5-5l10 5l-10 5z",
        Hop::Crossed(_, _, _) | Hop::Dropped(_, _, _) | Hop::Refused(_, _, _) => {
            "m-9-9l18 18m0-18l-18 18"
        }
        Hop::Delivered(_, gone) => {
            if gone {
                "m-9-9l18 18m0-18l-18 18"
            } else {
                "m5-5l-10 5l10 5z"
            }
        }
    }
}

/// Appends a sign with this drawing at a point.
fn put_sign(out: &mut String, shape: &str, middle: Point) -> Result<(), Memory>
    ensures { OnOk result (string_bytes out.new ≡ string_bytes out.old ++ sign_text shape.now middle) }
{
    let (x, y) = (middle.x, middle.y);
    write!(out, "<path d=\"M{x} {y}{shape}\"/>")?;
    Ok(())
}

/// Appends the beginning of the line of a frame on a link: its class and its number.
fn put_way_start(out: &mut String, number: usize, hop: Hop) -> Result<(), Memory>
    ensures { OnOk result (string_bytes out.new ≡ string_bytes out.old ++ way_start number hop) }
{
    let word = kind_word(hop);
    write!(out, "<path class=\"way {word}\" data-hop=\"{number}\" d=\"")?;
    Ok(())
}

/// Appends the line of the link over which a frame went, with an arrow.
fn put_crossing(
    out: &mut String,
    links: &[LinkMark],
    number: usize,
    lane: u8,
    tag: Tag,
    lost: bool,
) -> Result<(), Memory>
    ensures { OnOk result (string_bytes out.new ≡ string_bytes out.old
        ++ crossing_way links.now number lane tag lost) }
{
    put_way_start(out, number, Hop::Crossed(lane, tag, lost))?;
    put_route_part(out, links, lane)?;
    out.push_str(arrow_word(lane, lost))?;
    out.push_str("/>\n")?;
    Ok(())
}

/// Appends the line of a hop over a link, or nothing for another hop.
fn put_way_of(out: &mut String, links: &[LinkMark], number: usize, hop: Hop) -> Result<(), Memory>
    ensures { OnOk result (string_bytes out.new ≡ string_bytes out.old ++ way_of links.now number hop) }
{
    match hop {
        Hop::Crossed(lane, tag, lost) => put_crossing(out, links, number, lane, tag, lost),
        Hop::Entered(_) | Hop::Dropped(_, _, _) | Hop::Refused(_, _, _) | Hop::Delivered(_, _) => {
            Ok(())
        }
    }
}

/// Appends the lines of the hops over links.
pub(crate) fn put_ways(
    out: &mut String,
    links: &[LinkMark],
    marks: &[HopMark],
) -> Result<(), Memory>
    ensures { OnOk result (string_bytes out.new ≡ string_bytes out.old ++ flat_map (way_element links.now) marks.now) }
{
    for mark in marks {
        put_way_of(out, links, mark.number, mark.hop)?;
    }
    Ok(())
}

/// Appends the sign of a hop at a point. A hop over a link has none.
fn put_drawing(out: &mut String, hop: Hop, middle: Point) -> Result<(), Memory>
    ensures { OnOk result (string_bytes out.new ≡ string_bytes out.old ++ hop_drawing hop middle) }
{
    match hop {
        Hop::Crossed(_, _, _) => Ok(()),
        Hop::Entered(_) | Hop::Dropped(_, _, _) | Hop::Refused(_, _, _) | Hop::Delivered(_, _) => {
            put_sign(out, shape_of(hop), middle)
        }
    }
}

/// Appends the beginning of a hop's text: its position.
fn put_label_start(out: &mut String, at: Point) -> Result<(), Memory>
    ensures { OnOk result (string_bytes out.new ≡ string_bytes out.old ++ label_start at) }
{
    let (x, y) = (at.x, at.y);
    write!(out, "<g transform=\"translate({x} {y})\">")?;
    Ok(())
}

/// Appends the plate under a text of this half width, and the opening tag of the text, which has its middle there.
fn put_box(out: &mut String, half: u32) -> Result<(), Memory>
    ensures { OnOk result (string_bytes out.new ≡ string_bytes out.old ++ box_text half) }
{
    let width = half as u64 * 2;
    write!(
        out,
        "<rect x=\"-{half}\" y=\"-10\" width=\"{width}\" height=\"13\"/><text text-anchor=\"middle\">"
    )?;
    Ok(())
}

/// Appends the plate under a text of this half width, and the opening tag of the text. A text without a plate begins at
/// its position.
fn put_plate(out: &mut String, half: u32) -> Result<(), Memory>
    ensures { OnOk result (string_bytes out.new ≡ string_bytes out.old ++ plate_text half) }
{
    if half == 0 {
        out.push_str("<text>")?;
        return Ok(());
    }
    put_box(out, half)
}

/// Appends the number of a hop, and a space.
fn put_number(out: &mut String, number: usize) -> Result<(), Memory>
    ensures { OnOk result (string_bytes out.new ≡ string_bytes out.old ++ number_words number) }
{
    write!(out, "{number} ")?;
    Ok(())
}

/// Appends the number of a hop and its words, on their plate.
fn put_hop_label(out: &mut String, plan: &Plan, mark: &HopMark) -> Result<(), Memory>
    ensures { OnOk result (string_bytes out.new ≡ string_bytes out.old ++ hop_label plan.now mark.now) }
{
    put_label_start(out, mark.text)?;
    put_plate(out, mark.half)?;
    put_number(out, mark.number)?;
    put_hop_words(out, plan, mark.hop)?;
    out.push_str("</text></g></g>\n")?;
    Ok(())
}

/// Appends the sign and the text of a hop.
fn put_hop(out: &mut String, plan: &Plan, mark: &HopMark) -> Result<(), Memory>
    ensures { OnOk result (string_bytes out.new ≡ string_bytes out.old ++ hop_element plan.now mark.now) }
{
    put_hop_group(out, plan, mark.number, mark.hop)?;
    put_drawing(out, mark.hop, mark.sign)?;
    put_hop_label(out, plan, mark)
}

/// Appends the signs and the texts of hops.
pub(crate) fn put_hops(out: &mut String, plan: &Plan, marks: &[HopMark]) -> Result<(), Memory>
    ensures { OnOk result (string_bytes out.new ≡ string_bytes out.old ++ flat_map (hop_element plan.now) marks.now) }
{
    for mark in marks {
        put_hop(out, plan, mark)?;
    }
    Ok(())
}
