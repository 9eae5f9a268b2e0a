//! Plans in short.

use pb_lan::{Mac, Spanning};

/// A bridge.
#[derive(Clone, Copy)]
pub(super) struct Bridge {
    pub(super) name: &'static str,
    pub(super) address: Mac,
    pub(super) priority: u16,
    pub(super) queue: u16,
}

/// An end of a link, which is Forwarding if the plan gives the states.
#[derive(Clone, Copy)]
pub(super) struct Side {
    pub(super) bridge: u8,
    pub(super) port: u8,
    pub(super) cost: u32,
    pub(super) priority: u8,
    /// The services that it lists, or None if it takes all.
    pub(super) services: Option<&'static [u8]>,
}

/// A link.
#[derive(Clone, Copy)]
pub(super) struct Joint {
    pub(super) name: &'static str,
    pub(super) a: Side,
    pub(super) b: Side,
    /// The numbers of the items that are lost from a to b.
    pub(super) lost_ab: &'static [u64],
    /// The numbers of the items that are lost from b to a.
    pub(super) lost_ba: &'static [u64],
}

/// A service.
#[derive(Clone, Copy)]
pub(super) struct Service {
    pub(super) name: &'static str,
    pub(super) vid: u16,
}

/// A customer port.
#[derive(Clone, Copy)]
pub(super) struct Site {
    pub(super) name: &'static str,
    pub(super) bridge: u8,
    pub(super) port: u8,
    pub(super) service: u8,
    pub(super) pcp: u8,
    pub(super) queue: u16,
}

/// An item that a plan has after the others of its kind.
#[derive(Clone, Copy)]
pub(super) enum More {
    Nothing,
    Bridge(Bridge),
    Link(Joint),
    Service(Service),
    Customer(Site),
}

/// A plan.
#[derive(Clone, Copy)]
pub(super) struct Draft {
    pub(super) bridges: &'static [Bridge],
    pub(super) links: &'static [Joint],
    pub(super) services: &'static [Service],
    pub(super) customers: &'static [Site],
    pub(super) more: More,
    pub(super) spanning: Spanning,
    pub(super) ageing: u32,
    pub(super) ring: u16,
    pub(super) steps: u64,
}

pub(super) const B1: Bridge = Bridge {
    name: "B1",
    address: Mac([2, 0, 0, 0, 0, 1]),
    priority: 32768,
    queue: 64,
};

pub(super) const B2: Bridge = Bridge {
    name: "B2",
    address: Mac([2, 0, 0, 0, 0, 2]),
    ..B1
};

/// An end of a link, for all services: B1 port 1.
pub(super) const SIDE: Side = Side {
    bridge: 1,
    port: 1,
    cost: 20000,
    priority: 128,
    services: None,
};

/// A link that loses nothing, from B1 port 1 to B2 port 1.
pub(super) const L1: Joint = Joint {
    name: "L1",
    a: SIDE,
    b: Side { bridge: 2, ..SIDE },
    lost_ab: &[],
    lost_ba: &[],
};

pub(super) const RED: Service = Service {
    name: "red",
    vid: 100,
};

pub(super) const BLUE: Service = Service {
    name: "blue",
    vid: 200,
};

/// A customer port of red, at B1 port 2.
pub(super) const C1: Site = Site {
    name: "C1",
    bridge: 1,
    port: 2,
    service: 1,
    pcp: 0,
    queue: 64,
};

/// A customer port of red, at B2 port 2.
pub(super) const C2: Site = Site {
    name: "C2",
    bridge: 2,
    ..C1
};

/// A customer port of blue, at B2 port 3.
pub(super) const C3: Site = Site {
    name: "C3",
    port: 3,
    service: 2,
    ..C2
};

/// Bridges B1 and B2, joined by L1 from port 1 to port 1; services red (100) and blue (200);
/// customer ports C1 (B1 port 2, red), C2 (B2 port 2, red) and C3 (B2 port 3, blue).
pub(super) const TWO_BRIDGES: Draft = Draft {
    bridges: &[B1, B2],
    links: &[L1],
    services: &[RED, BLUE],
    customers: &[C1, C2, C3],
    more: More::Nothing,
    spanning: Spanning::Fixed,
    ageing: 300,
    ring: 64,
    steps: 1_000_000,
};
