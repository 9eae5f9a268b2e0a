//! Bridges, customer ports and services in an SVG picture.

ghost use Rattle.std.specs.Prelude.{◌≡◌, ◌++◌, string_bytes, OnOk};
ghost use Rattle.pb_cmd_draw.specs.SvgBoxes.{rect_text, root_text, cross_lines, cross_text, signs_text, box_name};
ghost use Rattle.pb_cmd_draw.specs.SvgBoxes.{box_text, place_text, box_class, box_data, box_group, bridge_title};
ghost use Rattle.pb_cmd_draw.specs.SvgBoxes.{known_bridge, bridge_element, cut_sign, bar_text, port_class};
ghost use Rattle.pb_cmd_draw.specs.SvgBoxes.{port_data, port_group};
ghost use Rattle.pb_cmd_draw.specs.SvgBoxes.{port_title, port_of, known_port, port_element, service_class};
ghost use Rattle.pb_cmd_draw.specs.SvgBoxes.{service_data, service_group, service_title, service_bar};
ghost use Rattle.pb_cmd_draw.specs.SvgBoxes.{known_service, service_element};

use crate::titles::{put_bridge_words, put_port_words};
use crate::words::{bridge_word, colour_of, dashes_of, role_of, site_word, tone_word};
use pb_draw_layout::{
    BridgeFacts, BridgeMark, Point, PortFacts, PortMark, ServiceFacts, ServiceMark,
};
use pb_forest::numbered;
use pb_frame::Memory;
use pb_lan::{BridgePlan, CustomerPlan, Plan, ServicePlan};
use pb_names::{bridge_name, service_name};
use std::alloc::Global;

/// Appends the rectangle of a box.
fn put_rect(out: &mut String, size: Point) -> Result<(), Memory>
    ensures { OnOk result (string_bytes out.new ≡ string_bytes out.old ++ rect_text size) }
{
    let (width, height) = (size.x, size.y);
    write!(
        out,
        "<rect width=\"{width}\" height=\"{height}\" rx=\"6\"/>"
    )?;
    Ok(())
}

/// Appends the word that marks a root.
fn put_root(out: &mut String, root: bool, size: Point) -> Result<(), Memory>
    ensures { OnOk result (string_bytes out.new ≡ string_bytes out.old ++ root_text root size) }
{
    if !root {
        return Ok(());
    }
    let middle = size.x / 2;
    write!(
        out,
        "<text class=\"root\" x=\"{middle}\" y=\"14\">root</text>"
    )?;
    Ok(())
}

/// Appends the cross over a box.
fn put_cross_lines(out: &mut String, size: Point) -> Result<(), Memory>
    ensures { OnOk result (string_bytes out.new ≡ string_bytes out.old ++ cross_lines size) }
{
    let (width, height) = (size.x, size.y);
    write!(
        out,
        "<path d=\"M0 0L{width} {height}M{width} 0L0 {height}\"/>"
    )?;
    Ok(())
}

/// Appends the cross over a bridge that has failed.
fn put_cross(out: &mut String, failed: bool, size: Point) -> Result<(), Memory>
    ensures { OnOk result (string_bytes out.new ≡ string_bytes out.old ++ cross_text failed size) }
{
    if failed {
        put_cross_lines(out, size)
    } else {
        Ok(())
    }
}

/// Appends the signs of a bridge: whether it is a root, and whether it has failed.
fn put_signs(out: &mut String, facts: BridgeFacts, size: Point) -> Result<(), Memory>
    ensures { OnOk result (string_bytes out.new ≡ string_bytes out.old ++ signs_text facts size) }
{
    put_root(out, facts.is_root, size)?;
    put_cross(out, facts.is_failed, size)
}

/// Appends the name in a box.
fn put_box_name(out: &mut String, size: Point, name: &str) -> Result<(), Memory>
    ensures { OnOk result (string_bytes out.new ≡ string_bytes out.old ++ box_name size name.now) }
{
    let middle = size.x / 2;
    write!(out, "<text x=\"{middle}\" y=\"29\">{name}</text></g>\n")?;
    Ok(())
}

/// Appends a bridge's box with its signs and its name.
fn put_box(out: &mut String, facts: BridgeFacts, size: Point, name: &str) -> Result<(), Memory>
    ensures { OnOk result (string_bytes out.new ≡ string_bytes out.old ++ box_text facts size name.now) }
{
    put_rect(out, size)?;
    put_signs(out, facts, size)?;
    put_box_name(out, size, name)
}

/// Appends the end of a group's opening tag: its position.
pub(crate) fn put_place(out: &mut String, corner: Point) -> Result<(), Memory>
    ensures { OnOk result (string_bytes out.new ≡ string_bytes out.old ++ place_text corner) }
{
    let (x, y) = (corner.x, corner.y);
    write!(out, "transform=\"translate({x} {y})\">")?;
    Ok(())
}

/// Appends the beginning of a bridge's group: its identifier and its classes.
fn put_box_class(out: &mut String, name: &str, facts: BridgeFacts) -> Result<(), Memory>
    ensures { OnOk result (string_bytes out.new ≡ string_bytes out.old ++ box_class name.now facts) }
{
    let state = bridge_word(facts.is_failed);
    let tone = tone_word(facts.tone);
    write!(
        out,
        "<g id=\"bridge-{name}\" class=\"bridge {state} {tone}\" "
    )?;
    Ok(())
}

/// Appends the attributes that describe a bridge.
fn put_box_data(out: &mut String, name: &str, facts: BridgeFacts) -> Result<(), Memory>
    ensures { OnOk result (string_bytes out.new ≡ string_bytes out.old ++ box_data name.now facts) }
{
    let role = role_of(facts.is_root);
    let state = bridge_word(facts.is_failed);
    write!(
        out,
        "data-bridge=\"{name}\" data-role=\"{role}\" data-state=\"{state}\" "
    )?;
    Ok(())
}

/// Appends the opening tag of a bridge's group.
fn put_box_group(
    out: &mut String,
    name: &str,
    facts: BridgeFacts,
    corner: Point,
) -> Result<(), Memory>
    ensures { OnOk result (string_bytes out.new ≡ string_bytes out.old ++ box_group name.now facts corner) }
{
    put_box_class(out, name, facts)?;
    put_box_data(out, name, facts)?;
    put_place(out, corner)
}

/// Appends the title of a bridge.
fn put_bridge_title(alloc: Global, out: &mut String, bridge: &BridgePlan) -> Result<(), Memory>
    ensures { OnOk result (string_bytes out.new ≡ string_bytes out.old ++ bridge_title bridge.now) }
{
    out.push_str("<title>")?;
    put_bridge_words(alloc, out, bridge)?;
    out.push_str("</title>")?;
    Ok(())
}

/// Appends the box of a bridge, with its title.
fn put_known_bridge(
    alloc: Global,
    out: &mut String,
    bridge: &BridgePlan,
    mark: &BridgeMark,
) -> Result<(), Memory>
    ensures { OnOk result (string_bytes out.new ≡ string_bytes out.old ++ known_bridge bridge.now mark.now) }
{
    let name = bridge.name.as_str();
    put_box_group(out, name, mark.facts, mark.corner)?;
    put_bridge_title(alloc, out, bridge)?;
    put_box(out, mark.facts, mark.size, name)
}

/// Appends the box of the bridge with the mark's number.
pub(crate) fn put_bridge(
    alloc: Global,
    out: &mut String,
    plan: &Plan,
    mark: &BridgeMark,
) -> Result<(), Memory>
    ensures { OnOk result (string_bytes out.new ≡ string_bytes out.old ++ bridge_element plan.now mark.now) }
{
    match numbered(plan.bridges.as_slice(), mark.facts.number as usize) {
        None => Ok(()),
        Some(bridge) => put_known_bridge(alloc, out, bridge, mark),
    }
}

/// Returns the sign of a customer port that is cut off, or an empty text for another.
fn cut_sign(cut_off: bool) -> &'static str
    ensures { result.now ≡ cut_sign cut_off }
{
    if cut_off {
        "<path class=\"cut\" d=\"M5-10l12 12m0-12l-12 12\"/>"
    } else {
        ""
    }
}

/// Appends the bar of a customer port's line, its sign if it is cut off, and the two names after it.
fn put_bar(out: &mut String, cut_off: bool, one: &str, other: &str) -> Result<(), Memory>
    ensures { OnOk result (string_bytes out.new ≡ string_bytes out.old ++ bar_text cut_off one.now other.now) }
{
    let sign = cut_sign(cut_off);
    write!(
        out,
        "<path d=\"M0-4h22\"/>{sign}<text x=\"30\">{one} {other}</text></g>\n"
    )?;
    Ok(())
}

/// Appends the beginning of a customer port's group: its identifier and its classes.
fn put_port_class(out: &mut String, name: &str, facts: PortFacts) -> Result<(), Memory>
    ensures { OnOk result (string_bytes out.new ≡ string_bytes out.old ++ port_class name.now facts) }
{
    let state = site_word(facts.is_cut_off);
    let colour = colour_of(facts.service);
    let dashes = dashes_of(facts.service);
    let tone = tone_word(facts.tone);
    write!(
        out,
        "<g id=\"port-{name}\" class=\"port c{colour} d{dashes} {tone} {state}\" "
    )?;
    Ok(())
}

/// Appends the attributes that describe a customer port of a service.
fn put_port_data(
    out: &mut String,
    plan: &Plan,
    port: &CustomerPlan,
    service: &str,
    cut_off: bool,
) -> Result<(), Memory>
    ensures { OnOk result (string_bytes out.new ≡ string_bytes out.old
        ++ port_data plan.now port.now service.now cut_off) }
{
    let name = port.name.as_str();
    let bridge = bridge_name(plan, port.bridge);
    let state = site_word(cut_off);
    write!(
        out,
        "data-port=\"{name}\" data-bridge=\"{bridge}\" data-service=\"{service}\" data-state=\"{state}\" "
    )?;
    Ok(())
}

/// Appends the opening tag of a customer port's group.
fn put_port_group(
    out: &mut String,
    plan: &Plan,
    port: &CustomerPlan,
    mark: &PortMark,
    service: &str,
) -> Result<(), Memory>
    ensures { OnOk result (string_bytes out.new ≡ string_bytes out.old
        ++ port_group plan.now port.now mark.now service.now) }
{
    put_port_class(out, port.name.as_str(), mark.facts)?;
    put_port_data(out, plan, port, service, mark.facts.is_cut_off)?;
    put_place(out, mark.corner)
}

/// Appends the title of a customer port.
fn put_port_title(
    out: &mut String,
    plan: &Plan,
    port: &CustomerPlan,
    service: &str,
) -> Result<(), Memory>
    ensures { OnOk result (string_bytes out.new ≡ string_bytes out.old ++ port_title plan.now port.now service.now) }
{
    out.push_str("<title>")?;
    put_port_words(out, plan, port, service)?;
    out.push_str("</title>")?;
    Ok(())
}

/// Appends the line of a customer port of a service, with its title.
fn put_port_of(
    out: &mut String,
    plan: &Plan,
    port: &CustomerPlan,
    mark: &PortMark,
    service: &str,
) -> Result<(), Memory>
    ensures { OnOk result (string_bytes out.new ≡ string_bytes out.old
        ++ port_of plan.now port.now mark.now service.now) }
{
    put_port_group(out, plan, port, mark, service)?;
    put_port_title(out, plan, port, service)?;
    put_bar(out, mark.facts.is_cut_off, port.name.as_str(), service)
}

/// Appends the line of a customer port, with its title.
fn put_known_port(
    out: &mut String,
    plan: &Plan,
    port: &CustomerPlan,
    mark: &PortMark,
) -> Result<(), Memory>
    ensures { OnOk result (string_bytes out.new ≡ string_bytes out.old ++ known_port plan.now port.now mark.now) }
{
    let service = service_name(plan, mark.facts.service);
    put_port_of(out, plan, port, mark, service)
}

/// Appends the line of the customer port with the mark's number.
pub(crate) fn put_port(out: &mut String, plan: &Plan, mark: &PortMark) -> Result<(), Memory>
    ensures { OnOk result (string_bytes out.new ≡ string_bytes out.old ++ port_element plan.now mark.now) }
{
    match numbered(plan.customers.as_slice(), mark.facts.number as usize) {
        None => Ok(()),
        Some(port) => put_known_port(out, plan, port, mark),
    }
}

/// Appends the beginning of a service's group: its identifier and its classes.
fn put_service_class(out: &mut String, name: &str, facts: ServiceFacts) -> Result<(), Memory>
    ensures { OnOk result (string_bytes out.new ≡ string_bytes out.old ++ service_class name.now facts) }
{
    let colour = colour_of(facts.number);
    let dashes = dashes_of(facts.number);
    let tone = tone_word(facts.tone);
    write!(
        out,
        "<g id=\"service-{name}\" class=\"service c{colour} d{dashes} {tone}\" "
    )?;
    Ok(())
}

/// Appends the attributes that describe a service.
fn put_service_data(out: &mut String, name: &str, vid: u16) -> Result<(), Memory>
    ensures { OnOk result (string_bytes out.new ≡ string_bytes out.old ++ service_data name.now vid) }
{
    write!(out, "data-service=\"{name}\" data-vid=\"{vid}\" ")?;
    Ok(())
}

/// Appends the opening tag of a service's group.
fn put_service_group(
    out: &mut String,
    service: &ServicePlan,
    mark: &ServiceMark,
) -> Result<(), Memory>
    ensures { OnOk result (string_bytes out.new ≡ string_bytes out.old ++ service_group service.now mark.now) }
{
    let name = service.name.as_str();
    put_service_class(out, name, mark.facts)?;
    put_service_data(out, name, service.vid)?;
    put_place(out, mark.corner)
}

/// Appends the title of a service.
fn put_service_title(out: &mut String, service: &ServicePlan) -> Result<(), Memory>
    ensures { OnOk result (string_bytes out.new ≡ string_bytes out.old ++ service_title service.now) }
{
    let name = service.name.as_str();
    let vid = service.vid;
    write!(out, "<title>service {name}, VID {vid}</title>")?;
    Ok(())
}

/// Appends the bar of a service, its name and its VID.
fn put_service_bar(out: &mut String, service: &ServicePlan) -> Result<(), Memory>
    ensures { OnOk result (string_bytes out.new ≡ string_bytes out.old ++ service_bar service.now) }
{
    let name = service.name.as_str();
    let vid = service.vid;
    write!(
        out,
        "<path d=\"M0-4h22\"/><text x=\"30\">{name} {vid}</text></g>\n"
    )?;
    Ok(())
}

/// Appends the line of a service in the legend, with its title.
fn put_known_service(
    out: &mut String,
    service: &ServicePlan,
    mark: &ServiceMark,
) -> Result<(), Memory>
    ensures { OnOk result (string_bytes out.new ≡ string_bytes out.old ++ known_service service.now mark.now) }
{
    put_service_group(out, service, mark)?;
    put_service_title(out, service)?;
    put_service_bar(out, service)
}

/// Appends the line of the service with the mark's number.
pub(crate) fn put_service(out: &mut String, plan: &Plan, mark: &ServiceMark) -> Result<(), Memory>
    ensures { OnOk result (string_bytes out.new ≡ string_bytes out.old ++ service_element plan.now mark.now) }
{
    match numbered(plan.services.as_slice(), mark.facts.number as usize) {
        None => Ok(()),
        Some(service) => put_known_service(out, service, mark),
    }
}
