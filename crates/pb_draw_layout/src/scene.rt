//! The parts of a picture, with their positions.

use crate::facts::{BridgeFacts, LinkFacts, PortFacts, ServiceFacts};
use pb_frame::Seq;

/// A point of a picture, in pixels.
#[derive(Clone, Copy, PartialEq, Eq, Debug)]
pub struct Point {
    /// The distance from the left edge.
    pub x: u32,
    /// The distance from the upper edge.
    pub y: u32,
}

/// The vertical part of a link that passes levels, right of all bridges.
#[derive(Clone, Copy, PartialEq, Eq, Debug)]
pub struct Lane {
    /// Its distance from the left edge.
    pub x: u32,
    /// The vertical position of the bend on the way to end `b`.
    pub bend: u32,
    /// The vertical position of its end toward `a`.
    pub from_a: u32,
    /// The vertical position of its end toward `b`.
    pub to_b: u32,
}

/// The room that the lines of text under the name of a link need. A line is 13 pixels high.
#[derive(Clone, Copy, PartialEq, Eq, Debug)]
pub struct Room {
    /// The width of the widest line, in pixels.
    pub width: u32,
    /// The number of lines.
    pub lines: u32,
}

/// The room that a picture needs besides its own texts.
#[derive(Clone, Copy, Debug)]
pub struct Rooms<'a> {
    /// The room under the name of each link, in the plan's order. Links beyond the last entry need none.
    pub links: &'a [Room],
    /// The width after the names in the line of each customer port, in pixels.
    pub ports: u32,
}

/// The route of a link.
#[derive(Clone, Copy, PartialEq, Eq, Debug)]
pub struct Route {
    /// The point at which it meets the box of its bridge `a`.
    pub a: Point,
    /// The point at which it meets the box of its bridge `b`.
    pub b: Point,
    /// The vertical position of its bend; with a lane, of the bend on the way from `a`.
    pub bend: u32,
    /// Its lane, if it passes levels.
    pub lane: Option<Lane>,
    /// The middle of its name.
    pub label: Point,
    /// Half the width of its name.
    pub label_half: u32,
    /// Half the width of the lines under its name, or 0 if there are none.
    pub lines_half: u32,
    /// The middle of the number of its port at `a`.
    pub a_port: Point,
    /// The middle of the number of its port at `b`.
    pub b_port: Point,
}

/// A bridge in a picture.
#[derive(Clone, Copy, PartialEq, Eq, Debug)]
pub struct BridgeMark {
    /// What it shows.
    pub facts: BridgeFacts,
    /// The upper left corner of its box.
    pub corner: Point,
    /// The width and the height of its box.
    pub size: Point,
}

/// A link in a picture.
#[derive(Clone, Copy, PartialEq, Eq, Debug)]
pub struct LinkMark {
    /// What it shows.
    pub facts: LinkFacts,
    /// Its route.
    pub route: Route,
}

/// A customer port in a picture.
#[derive(Clone, Copy, PartialEq, Eq, Debug)]
pub struct PortMark {
    /// What it shows.
    pub facts: PortFacts,
    /// The start of its line.
    pub corner: Point,
}

/// A kind of sign that a legend explains.
#[derive(Clone, Copy, PartialEq, Eq, Debug)]
pub enum Key {
    /// The root of a tree.
    Root,
    /// A bridge that has failed.
    FailedBridge,
    /// An active link.
    ActiveLink,
    /// A link on standby.
    StandbyLink,
    /// A link that has failed.
    FailedLink,
    /// An end of a link that is Discarding.
    DiscardingPort,
    /// An end of a link that is Learning.
    LearningPort,
    /// A customer port that is cut off from others of its service.
    CutOff,
}

/// A sign in a picture's legend.
#[derive(Clone, Copy, PartialEq, Eq, Debug)]
pub struct KeyMark {
    /// Its kind.
    pub key: Key,
    /// The start of its line.
    pub corner: Point,
}

/// A service in a picture's legend.
#[derive(Clone, Copy, PartialEq, Eq, Debug)]
pub struct ServiceMark {
    /// What it shows.
    pub facts: ServiceFacts,
    /// The start of its line.
    pub corner: Point,
}

/// The parts of a picture, with their positions.
#[derive(PartialEq, Debug, Drop)]
pub struct Scene {
    /// The bridges, in the plan's order.
    pub bridges: Seq<BridgeMark>,
    /// The links, in the plan's order.
    pub links: Seq<LinkMark>,
    /// The customer ports, in the plan's order.
    pub ports: Seq<PortMark>,
    /// The signs that the picture uses.
    pub keys: Seq<KeyMark>,
    /// The services, in the plan's order.
    pub services: Seq<ServiceMark>,
    /// The number of the highlighted service, if there is one.
    pub chosen: Option<u8>,
    /// The width and the height of the picture.
    pub size: Point,
}
