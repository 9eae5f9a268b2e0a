//! What a picture shows of a plan's network, and where: each bridge, link, customer port and service once, with its
//! state, in a layout by levels of the spanning tree. It builds on pb_forest (active links), pb_joins (which bridges
//! links join) and pb_names.
//! Begin reading at `scene.rt`, then `marks.rt`, [`scene_of`], and `layout.rt`.
#![tactic(auto)]

mod apart;
mod facts;
mod findings;
mod keys;
mod layout;
mod marks;
mod roots;
mod scene;
mod table;

pub use facts::{
    BridgeFacts, DownEnds, Failures, LinkFacts, LinkState, PortFacts, ServiceFacts, Tone,
    is_active_link,
};
pub use marks::scene_of;
pub use scene::{
    BridgeMark, Key, KeyMark, Lane, LinkMark, Point, PortMark, Room, Rooms, Route, Scene,
    ServiceMark,
};
