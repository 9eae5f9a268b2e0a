//! The command `draw`: a plan's network as SVG or as a graph for Graphviz, after the bridges have converged.
//! It builds on pb_draw_layout (what is drawn, and at which coordinates), pb_converge and pb_names.
//! Begin reading at `draw.rt`, [`run_draw`], then [`put_svg`] or [`put_dot`].
#![tactic(auto)]

mod asked;
mod dot;
mod draw;
mod end;
mod failures;
mod lists;
mod style;
mod svg;
mod svg_boxes;
mod svg_keys;
mod svg_links;
mod svg_lists;
mod titles;
mod words;

pub use asked::Asked;
pub use dot::put_dot;
pub use draw::run_draw;
pub use end::{DrawEnd, Format};
pub use failures::failures_of;
pub use pb_converge::{Convergence, DownFault};
pub use pb_draw_layout::{
    BridgeFacts, BridgeMark, DownEnds, Failures, Key, KeyMark, Lane, LinkFacts, LinkMark,
    LinkState, Point, PortFacts, PortMark, Room, Rooms, Route, Scene, ServiceFacts, ServiceMark,
    Tone, scene_of,
};
pub use svg::{put_svg, put_svg_with};
pub use svg_links::put_route;
