//! A scene as a graph for Graphviz.

ghost use Rattle.std.specs.Prelude.{◌≡◌, ◌++◌, flat_map, string_bytes, OnOk};
ghost use Rattle.pb_cmd_draw.specs.Dot.{tone_style, active_style, arrow_word, colour_code, node_style, node_head};
ghost use Rattle.pb_cmd_draw.specs.Dot.{known_node, bridge_node, edge_ends, arrows_text, edge_lists, edge_name};
ghost use Rattle.pb_cmd_draw.specs.Dot.{edge_label, edge_head};
ghost use Rattle.pb_cmd_draw.specs.Dot.{known_edge, link_edge, leaf_edge, leaf_head, leaf_node, known_leaf, port_node};
ghost use Rattle.pb_cmd_draw.specs.Dot.{parts_text, dot_text};
ghost use Rattle.pb_cmd_draw.specs.Words.{colour_of};

use crate::lists::{Around, put_list_lines};
use crate::titles::{put_bridge_words, put_link_words, put_port_words};
use crate::words::{colour_of, losing_word};
use pb_draw_layout::{
    BridgeFacts, BridgeMark, LinkFacts, LinkMark, LinkState, PortFacts, PortMark, Scene, Tone,
};
use pb_forest::numbered;
use pb_frame::Memory;
use pb_lan::{BridgePlan, CustomerPlan, LinkPlan, Plan, PortState};
use pb_names::service_name;
use std::alloc::Global;

/// Returns the end of an attribute list, with the style of a tone.
fn tone_style(tone: Tone) -> &'static str
    ensures { result.now ≡ tone_style tone }
{
    match tone {
        Tone::Plain => "\"];\n",
        Tone::Lit => "\", penwidth=3];\n",
        Tone::Faint => "\", color=gray80, fontcolor=gray60];\n",
    }
}

/// Appends the end of an attribute list, with the style of a tone.
fn put_tone(out: &mut String, tone: Tone) -> Result<(), Memory>
    ensures { OnOk result (string_bytes out.new ≡ string_bytes out.old ++ tone_style tone) }
{
    out.push_str(tone_style(tone))?;
    Ok(())
}

/// Returns the style of a link in this state.
fn active_style(state: LinkState) -> &'static str
    ensures { result.now ≡ active_style state }
{
    match state {
        LinkState::Active => "",
        LinkState::Standby => "style=dashed, color=gray50, ",
        LinkState::Failed => "color=red, fontcolor=red, ",
    }
}

/// Returns the arrow shape for the state of a link's end.
fn arrow_word(state: PortState) -> &'static str
    ensures { result.now ≡ arrow_word state }
{
    match state {
        PortState::Discarding => "box",
        PortState::Learning => "odot",
        PortState::Forwarding => "none",
    }
}

/// Returns the colour of a service.
fn colour_code(service: u8) -> &'static str
    ensures { result.now ≡ colour_code (colour_of service) }
{
    match colour_of(service) {
        0 => "#0072b2",
        1 => "#e69f00",
        2 => "#009e73",
        3 => "#cc79a7",
        4 => "#56b4e9",
        5 => "#d55e00",
        6 => "#aa4499",
        _ => "#999933",
    }
}

/// Returns the style of a bridge's box: red if the bridge has failed, with a double line if it is a root.
fn node_style(facts: BridgeFacts) -> &'static str
    ensures { result.now ≡ node_style facts }
{
    if facts.is_failed {
        "color=red, fontcolor=red, "
    } else if facts.is_root {
        "peripheries=2, "
    } else {
        ""
    }
}

/// Appends the beginning of a bridge's node.
fn put_node_head(out: &mut String, facts: BridgeFacts, name: &str) -> Result<(), Memory>
    ensures { OnOk result (string_bytes out.new ≡ string_bytes out.old ++ node_head facts name.now) }
{
    let number = facts.number;
    let style = node_style(facts);
    write!(
        out,
        "b{number} [shape=box, {style}label=\"{name}\", tooltip=\""
    )?;
    Ok(())
}

/// Appends the node of a bridge.
fn put_known_node(
    alloc: Global,
    out: &mut String,
    bridge: &BridgePlan,
    mark: &BridgeMark,
) -> Result<(), Memory>
    ensures { OnOk result (string_bytes out.new ≡ string_bytes out.old ++ known_node bridge.now mark.now) }
{
    put_node_head(out, mark.facts, bridge.name.as_str())?;
    put_bridge_words(alloc, out, bridge)?;
    put_tone(out, mark.facts.tone)
}

/// Appends the node of the bridge with the mark's number.
fn put_bridge(alloc: Global, out: &mut String, plan: &Plan, mark: &BridgeMark) -> Result<(), Memory>
    ensures { OnOk result (string_bytes out.new ≡ string_bytes out.old ++ bridge_node plan.now mark.now) }
{
    match numbered(plan.bridges.as_slice(), mark.facts.number as usize) {
        None => Ok(()),
        Some(bridge) => put_known_node(alloc, out, bridge, mark),
    }
}

/// Appends the nodes and ports at the ends of a link's edge.
fn put_edge_ends(out: &mut String, link: &LinkPlan) -> Result<(), Memory>
    ensures { OnOk result (string_bytes out.new ≡ string_bytes out.old ++ edge_ends link.now) }
{
    let (a, b) = (link.a.bridge, link.b.bridge);
    let (a_port, b_port) = (link.a.port, link.b.port);
    write!(
        out,
        "b{a} -- b{b} [taillabel=\"{a_port}\", headlabel=\"{b_port}\", dir=both, "
    )?;
    Ok(())
}

/// Appends the arrows of a link's edge, and its style.
fn put_arrows(out: &mut String, facts: LinkFacts) -> Result<(), Memory>
    ensures { OnOk result (string_bytes out.new ≡ string_bytes out.old ++ arrows_text facts) }
{
    let tail = arrow_word(facts.a);
    let head = arrow_word(facts.b);
    let style = active_style(facts.state);
    write!(out, "arrowtail={tail}, arrowhead={head}, {style}")?;
    Ok(())
}

/// Appends the lists of services of a link, each in a line of its own, if the graph shows them.
fn put_edge_lists(out: &mut String, plan: &Plan, lists: bool, link: &LinkPlan) -> Result<(), Memory>
    ensures { OnOk result (string_bytes out.new ≡ string_bytes out.old ++ edge_lists plan.now lists link.now) }
{
    if !lists {
        return Ok(());
    }
    let around = Around {
        before: "\\n",
        after: "",
    };
    put_list_lines(out, plan, around, link)
}

/// Appends the name of a link and its mark, as the beginning of a label.
fn put_edge_name(out: &mut String, link: &LinkPlan) -> Result<(), Memory>
    ensures { OnOk result (string_bytes out.new ≡ string_bytes out.old ++ edge_name link.now) }
{
    let name = link.name.as_str();
    let losing = losing_word(link);
    write!(out, "label=\"{name}{losing}")?;
    Ok(())
}

/// Appends the label of a link's edge.
fn put_edge_label(out: &mut String, plan: &Plan, lists: bool, link: &LinkPlan) -> Result<(), Memory>
    ensures { OnOk result (string_bytes out.new ≡ string_bytes out.old ++ edge_label plan.now lists link.now) }
{
    put_edge_name(out, link)?;
    put_edge_lists(out, plan, lists, link)?;
    out.push_str("\", tooltip=\"")?;
    Ok(())
}

/// Appends the beginning of a link's edge, up to its tooltip.
fn put_edge_head(
    out: &mut String,
    plan: &Plan,
    lists: bool,
    link: &LinkPlan,
    facts: LinkFacts,
) -> Result<(), Memory>
    ensures { OnOk result (string_bytes out.new ≡ string_bytes out.old ++ edge_head plan.now lists link.now facts) }
{
    put_edge_ends(out, link)?;
    put_arrows(out, facts)?;
    put_edge_label(out, plan, lists, link)
}

/// Appends the edge of a link.
fn put_known_edge(
    out: &mut String,
    plan: &Plan,
    lists: bool,
    link: &LinkPlan,
    facts: LinkFacts,
) -> Result<(), Memory>
    ensures { OnOk result (string_bytes out.new ≡ string_bytes out.old ++ known_edge plan.now lists link.now facts) }
{
    put_edge_head(out, plan, lists, link, facts)?;
    put_link_words(out, plan, link, facts)?;
    put_tone(out, facts.tone)
}

/// Appends the edge of the link with the mark's number.
fn put_link(out: &mut String, plan: &Plan, lists: bool, mark: &LinkMark) -> Result<(), Memory>
    ensures { OnOk result (string_bytes out.new ≡ string_bytes out.old ++ link_edge plan.now lists mark.now) }
{
    match numbered(plan.links.as_slice(), mark.facts.number as usize) {
        None => Ok(()),
        Some(link) => put_known_edge(out, plan, lists, link, mark.facts),
    }
}

/// Appends the beginning of the edge from a bridge to a customer port.
fn put_leaf_edge(out: &mut String, bridge: u8, facts: PortFacts) -> Result<(), Memory>
    ensures { OnOk result (string_bytes out.new ≡ string_bytes out.old ++ leaf_edge bridge facts) }
{
    let number = facts.number;
    let colour = colour_code(facts.service);
    write!(out, "b{bridge} -- p{number} [color=\"{colour}")?;
    Ok(())
}

/// Appends the beginning of a customer port's node.
fn put_leaf_head(
    out: &mut String,
    name: &str,
    service: &str,
    facts: PortFacts,
) -> Result<(), Memory>
    ensures { OnOk result (string_bytes out.new ≡ string_bytes out.old ++ leaf_head name.now service.now facts) }
{
    let number = facts.number;
    let colour = colour_code(facts.service);
    write!(
        out,
        "p{number} [color=\"{colour}\", label=\"{name} {service}\", tooltip=\""
    )?;
    Ok(())
}

/// Appends the node of a customer port of a service.
fn put_leaf_node(
    out: &mut String,
    plan: &Plan,
    port: &CustomerPlan,
    service: &str,
    facts: PortFacts,
) -> Result<(), Memory>
    ensures { OnOk result (string_bytes out.new ≡ string_bytes out.old
        ++ leaf_node plan.now port.now service.now facts) }
{
    put_leaf_head(out, port.name.as_str(), service, facts)?;
    put_port_words(out, plan, port, service)?;
    put_tone(out, facts.tone)
}

/// Appends the node of a customer port, and its edge to the bridge.
fn put_known_leaf(
    out: &mut String,
    plan: &Plan,
    port: &CustomerPlan,
    facts: PortFacts,
) -> Result<(), Memory>
    ensures { OnOk result (string_bytes out.new ≡ string_bytes out.old ++ known_leaf plan.now port.now facts) }
{
    put_leaf_node(out, plan, port, service_name(plan, facts.service), facts)?;
    put_leaf_edge(out, port.bridge, facts)?;
    put_tone(out, facts.tone)
}

/// Appends the node and the edge of the customer port with the mark's number.
fn put_port(out: &mut String, plan: &Plan, mark: &PortMark) -> Result<(), Memory>
    ensures { OnOk result (string_bytes out.new ≡ string_bytes out.old ++ port_node plan.now mark.now) }
{
    match numbered(plan.customers.as_slice(), mark.facts.number as usize) {
        None => Ok(()),
        Some(port) => put_known_leaf(out, plan, port, mark.facts),
    }
}

/// Appends the nodes of the bridges.
fn put_bridges(
    alloc: Global,
    out: &mut String,
    plan: &Plan,
    marks: &[BridgeMark],
) -> Result<(), Memory>
    ensures { OnOk result (string_bytes out.new ≡ string_bytes out.old ++ flat_map (bridge_node plan.now) marks.now) }
{
    for mark in marks {
        put_bridge(alloc, out, plan, mark)?;
    }
    Ok(())
}

/// Appends the edges of the links.
fn put_links(out: &mut String, plan: &Plan, lists: bool, marks: &[LinkMark]) -> Result<(), Memory>
    ensures { OnOk result (string_bytes out.new ≡ string_bytes out.old
        ++ flat_map (link_edge plan.now lists) marks.now) }
{
    for mark in marks {
        put_link(out, plan, lists, mark)?;
    }
    Ok(())
}

/// Appends the nodes and edges of the customer ports.
fn put_ports(out: &mut String, plan: &Plan, marks: &[PortMark]) -> Result<(), Memory>
    ensures { OnOk result (string_bytes out.new ≡ string_bytes out.old ++ flat_map (port_node plan.now) marks.now) }
{
    for mark in marks {
        put_port(out, plan, mark)?;
    }
    Ok(())
}

/// Appends the nodes and edges of all parts.
fn put_parts(
    alloc: Global,
    out: &mut String,
    plan: &Plan,
    lists: bool,
    scene: &Scene,
) -> Result<(), Memory>
    ensures { OnOk result (string_bytes out.new ≡ string_bytes out.old ++ parts_text plan.now lists scene.now) }
{
    put_bridges(alloc, out, plan, scene.bridges.as_slice())?;
    put_links(out, plan, lists, scene.links.as_slice())?;
    put_ports(out, plan, scene.ports.as_slice())
}

/// Appends a scene of a plan as a graph in the language DOT of Graphviz.
///
/// Bridges are boxes, customer ports ellipses in the colour of their service, links edges between bridges. The edge
/// ends in a square at a Discarding port, in a circle at a Learning port. A link on standby is dashed and grey. A link
/// or a bridge that has failed is red. The box of a root has a double line. If `lists` is true, the label of a link has
/// its lists of services, as [`put_svg`](crate::put_svg) describes. Graphviz computes the positions itself.
///
/// # Errors
///
/// `Memory` if an allocation failed. A part of the graph may have been appended then.
pub fn put_dot(
    alloc: Global,
    out: &mut String,
    plan: &Plan,
    lists: bool,
    scene: &Scene,
) -> Result<(), Memory>
    ensures { OnOk result (string_bytes out.new ≡ string_bytes out.old ++ dot_text plan.now lists scene.now) }
{
    out.push_str("graph network {\n")?;
    put_parts(alloc, out, plan, lists, scene)?;
    out.push_str("}\n")?;
    Ok(())
}
