//! Links in an SVG picture.

ghost use Rattle.std.specs.Prelude.{◌≡◌, ◌++◌, string_bytes, OnOk};
ghost use Rattle.pb_cmd_draw.specs.SvgLinks.{curve_text, route_text, link_class, link_attribute, end_attribute};
ghost use Rattle.pb_cmd_draw.specs.SvgLinks.{state_attribute, link_data, link_group, known_link};
ghost use Rattle.pb_cmd_draw.specs.SvgLinks.{link_element, mark_of, end_mark, number_text, end_data, drawing_text};
ghost use Rattle.pb_cmd_draw.specs.SvgLinks.{end_text, both_ends, plate_text, name_text, label_text, known_ends};
ghost use Rattle.pb_cmd_draw.specs.SvgLinks.{ends_element};

use crate::svg_lists::put_lists;
use crate::titles::put_link_words;
use crate::words::{end_word, link_word, losing_word, tone_word};
use pb_draw_layout::{LinkFacts, LinkMark, LinkState, Point, Route};
use pb_forest::numbered;
use pb_frame::Memory;
use pb_lan::{End, LinkPlan, Plan, PortState};
use pb_names::bridge_name;

/// What a picture shows of an end of a link.
#[derive(Clone, Copy)]
struct ShownEnd {
    /// Whether it is disabled.
    disabled: bool,
    /// The state of its port.
    state: PortState,
    /// The middle of the port's number.
    number: Point,
    /// The point at which the link meets the box.
    landing: Point,
}

/// Appends a curve from the left coordinate `x` to a point. Both control points are `bend` from the top.
fn put_curve(out: &mut String, x: u32, bend: u32, to: Point) -> Result<(), Memory>
    ensures { OnOk result (string_bytes out.new ≡ string_bytes out.old ++ curve_text x bend to) }
{
    let (far, y) = (to.x, to.y);
    write!(out, "C{x} {bend} {far} {bend} {far} {y}")?;
    Ok(())
}

/// Appends the path of a link with this route, as the value of the attribute `d` of an SVG path. It begins at end `a`.
///
/// # Errors
///
/// `Memory` if an allocation failed. A part of the path may have been appended then.
pub fn put_route(out: &mut String, route: &Route) -> Result<(), Memory>
    ensures { OnOk result (string_bytes out.new ≡ string_bytes out.old ++ route_text route.now) }
{
    let (x, y) = (route.a.x, route.a.y);
    write!(out, "M{x} {y}")?;
    match route.lane {
        None => put_curve(out, x, route.bend, route.b),
        Some(lane) => {
            let turn = Point {
                x: lane.x,
                y: lane.from_a,
            };
            put_curve(out, x, route.bend, turn)?;
            write!(out, "V{}", lane.to_b)?;
            put_curve(out, lane.x, lane.bend, route.b)
        }
    }
}

/// Appends the beginning of a group of a link: its identifier, by its kind, and its classes.
fn put_link_class(out: &mut String, kind: &str, name: &str, facts: LinkFacts) -> Result<(), Memory>
    ensures { OnOk result (string_bytes out.new ≡ string_bytes out.old ++ link_class kind.now name.now facts) }
{
    let state = link_word(facts.state);
    let tone = tone_word(facts.tone);
    write!(
        out,
        "<g id=\"{kind}-{name}\" class=\"{kind} {state} {tone}\" "
    )?;
    Ok(())
}

/// Appends the attribute that names a link.
fn put_link_attribute(out: &mut String, link: &LinkPlan) -> Result<(), Memory>
    ensures { OnOk result (string_bytes out.new ≡ string_bytes out.old ++ link_attribute link.now) }
{
    let name = link.name.as_str();
    write!(out, "data-link=\"{name}\" ")?;
    Ok(())
}

/// Appends the attribute with this key that names an end of a link.
fn put_end_attribute(out: &mut String, key: &str, plan: &Plan, end: &End) -> Result<(), Memory>
    ensures { OnOk result (string_bytes out.new ≡ string_bytes out.old ++ end_attribute key.now plan.now end.now) }
{
    let bridge = bridge_name(plan, end.bridge);
    let port = end.port;
    write!(out, "data-{key}=\"{bridge}:{port}\" ")?;
    Ok(())
}

/// Appends the attribute that has the state of a link, and the end of the tag.
fn put_state_attribute(out: &mut String, state: LinkState) -> Result<(), Memory>
    ensures { OnOk result (string_bytes out.new ≡ string_bytes out.old ++ state_attribute state) }
{
    let word = link_word(state);
    write!(out, "data-state=\"{word}\">")?;
    Ok(())
}

/// Appends the attributes that describe a link: its name, its ends and its state.
fn put_link_data(
    out: &mut String,
    plan: &Plan,
    link: &LinkPlan,
    state: LinkState,
) -> Result<(), Memory>
    ensures { OnOk result (string_bytes out.new ≡ string_bytes out.old ++ link_data plan.now link.now state) }
{
    put_link_attribute(out, link)?;
    put_end_attribute(out, "a", plan, &link.a)?;
    put_end_attribute(out, "b", plan, &link.b)?;
    put_state_attribute(out, state)
}

/// Appends the opening tag of a group of a link.
fn put_link_group(
    out: &mut String,
    kind: &str,
    plan: &Plan,
    link: &LinkPlan,
    facts: LinkFacts,
) -> Result<(), Memory>
    ensures { OnOk result (string_bytes out.new ≡ string_bytes out.old
        ++ link_group kind.now plan.now link.now facts) }
{
    put_link_class(out, kind, link.name.as_str(), facts)?;
    put_link_data(out, plan, link, facts.state)
}

/// Appends a link's line, with its title.
fn put_known_link(
    out: &mut String,
    plan: &Plan,
    link: &LinkPlan,
    mark: &LinkMark,
) -> Result<(), Memory>
    ensures { OnOk result (string_bytes out.new ≡ string_bytes out.old ++ known_link plan.now link.now mark.now) }
{
    put_link_group(out, "link", plan, link, mark.facts)?;
    out.push_str("<title>")?;
    put_link_words(out, plan, link, mark.facts)?;
    out.push_str("</title><path d=\"")?;
    put_route(out, &mark.route)?;
    out.push_str("\"/></g>\n")?;
    Ok(())
}

/// Appends the line of the link with the mark's number.
pub(crate) fn put_link(out: &mut String, plan: &Plan, mark: &LinkMark) -> Result<(), Memory>
    ensures { OnOk result (string_bytes out.new ≡ string_bytes out.old ++ link_element plan.now mark.now) }
{
    match numbered(plan.links.as_slice(), mark.facts.number as usize) {
        None => Ok(()),
        Some(link) => put_known_link(out, plan, link, mark),
    }
}

/// Returns the drawing of a state from its middle on: a square with a cross, a ring, or a small dot.
fn mark_of(state: PortState) -> &'static str
    ensures { result.now ≡ mark_of state }
{
    match state {
        PortState::Discarding => "m-5-5h10v10h-10zm2 2l6 6m0-6l-6 6",
        PortState::Learning => "m-5 0a5 5 0 1 0 10 0a5 5 0 1 0-10 0z",
        PortState::Forwarding => "m-2 0a2 2 0 1 0 4 0a2 2 0 1 0-4 0z",
    }
}

/// Returns the drawing of an end from its middle on: a large cross if it is disabled, else that of its state.
fn end_mark(disabled: bool, state: PortState) -> &'static str
    ensures { result.now ≡ end_mark disabled state }
{
    if disabled {
        "m-7-7l14 14m0-14l-14 14"
    } else {
        mark_of(state)
    }
}

/// Appends the number of a link's port.
fn put_number(out: &mut String, port: u8, middle: Point) -> Result<(), Memory>
    ensures { OnOk result (string_bytes out.new ≡ string_bytes out.old ++ number_text port middle) }
{
    let (x, y) = (middle.x, middle.y);
    write!(out, "<text x=\"{x}\" y=\"{y}\">{port}</text>")?;
    Ok(())
}

/// Appends the beginning of an end's mark: its class, and the attributes that describe it.
fn put_end_data(
    out: &mut String,
    plan: &Plan,
    end: &End,
    disabled: bool,
    state: PortState,
) -> Result<(), Memory>
    ensures { OnOk result (string_bytes out.new ≡ string_bytes out.old ++ end_data plan.now end.now disabled state) }
{
    let word = end_word(disabled, state);
    let bridge = bridge_name(plan, end.bridge);
    let port = end.port;
    write!(
        out,
        "<path class=\"{word}\" data-bridge=\"{bridge}\" data-port=\"{port}\" data-state=\"{word}\" "
    )?;
    Ok(())
}

/// Appends the drawing of an end's mark.
fn put_drawing(
    out: &mut String,
    disabled: bool,
    state: PortState,
    middle: Point,
) -> Result<(), Memory>
    ensures { OnOk result (string_bytes out.new ≡ string_bytes out.old ++ drawing_text disabled state middle) }
{
    let (x, y) = (middle.x, middle.y);
    let mark = end_mark(disabled, state);
    write!(out, "d=\"M{x} {y}{mark}\"/>")?;
    Ok(())
}

/// Appends the number of a link's port, and the mark of its state.
fn put_end(out: &mut String, plan: &Plan, end: &End, shown: ShownEnd) -> Result<(), Memory>
    ensures { OnOk result (string_bytes out.new ≡ string_bytes out.old ++ end_text plan.now end.now shown) }
{
    put_number(out, end.port, shown.number)?;
    put_end_data(out, plan, end, shown.disabled, shown.state)?;
    put_drawing(out, shown.disabled, shown.state, shown.landing)
}

/// Appends both ends of a link.
fn put_both_ends(
    out: &mut String,
    plan: &Plan,
    link: &LinkPlan,
    mark: &LinkMark,
) -> Result<(), Memory>
    ensures { OnOk result (string_bytes out.new ≡ string_bytes out.old ++ both_ends plan.now link.now mark.now) }
{
    let (facts, route) = (mark.facts, mark.route);
    let a = ShownEnd {
        disabled: facts.failed.a,
        state: facts.a,
        number: route.a_port,
        landing: route.a,
    };
    let b = ShownEnd {
        disabled: facts.failed.b,
        state: facts.b,
        number: route.b_port,
        landing: route.b,
    };
    put_end(out, plan, &link.a, a)?;
    put_end(out, plan, &link.b, b)
}

/// Appends a plate that hides the line under a link's name.
fn put_plate(out: &mut String, route: &Route) -> Result<(), Memory>
    ensures { OnOk result (string_bytes out.new ≡ string_bytes out.old ++ plate_text route.now) }
{
    let (x, y) = (route.label.x, route.label.y);
    let half = route.label_half;
    let width = half as u64 * 2;
    write!(
        out,
        "<g transform=\"translate({x} {y})\"><rect x=\"-{half}\" y=\"-7\" width=\"{width}\" height=\"14\"/>"
    )?;
    Ok(())
}

/// Appends the name of a link on its plate, and whether the link loses frames.
fn put_name(out: &mut String, link: &LinkPlan) -> Result<(), Memory>
    ensures { OnOk result (string_bytes out.new ≡ string_bytes out.old ++ name_text link.now) }
{
    let name = link.name.as_str();
    let losing = losing_word(link);
    write!(
        out,
        "<text class=\"name\" y=\"4\">{name}{losing}</text></g>"
    )?;
    Ok(())
}

/// Appends the name of a link, on its plate, with the lists of services under it or without.
fn put_label(
    out: &mut String,
    plan: &Plan,
    lists: bool,
    link: &LinkPlan,
    route: &Route,
) -> Result<(), Memory>
    ensures { OnOk result (string_bytes out.new ≡ string_bytes out.old
        ++ label_text plan.now lists link.now route.now) }
{
    put_plate(out, route)?;
    put_lists(out, plan, lists, link, route.lines_half)?;
    put_name(out, link)
}

/// Appends the ends of a link, and its name.
fn put_known_ends(
    out: &mut String,
    plan: &Plan,
    lists: bool,
    link: &LinkPlan,
    mark: &LinkMark,
) -> Result<(), Memory>
    ensures { OnOk result (string_bytes out.new ≡ string_bytes out.old
        ++ known_ends plan.now lists link.now mark.now) }
{
    put_link_group(out, "ends", plan, link, mark.facts)?;
    put_both_ends(out, plan, link, mark)?;
    put_label(out, plan, lists, link, &mark.route)?;
    out.push_str("</g>\n")?;
    Ok(())
}

/// Appends the ends and the name of the link with the mark's number.
pub(crate) fn put_ends(
    out: &mut String,
    plan: &Plan,
    lists: bool,
    mark: &LinkMark,
) -> Result<(), Memory>
    ensures { OnOk result (string_bytes out.new ≡ string_bytes out.old ++ ends_element plan.now lists mark.now) }
{
    match numbered(plan.links.as_slice(), mark.facts.number as usize) {
        None => Ok(()),
        Some(link) => put_known_ends(out, plan, lists, link, mark),
    }
}
