//! Networks with redundant paths, each cut at one port (IEEE 802.1D-2004 clause 17).

use super::draft::{Draft, Joint, Site};
use super::networks::BROADCAST;
use super::rows::Row;
use super::walk::ends_as_forest;
use pb_lan::{PortState, Spanning};
use pb_rstp::Role;
use std::test::Fail;

/// Two links between B1 and B2, from port 1 to port 1 and from port 2 to port 2.
const PARALLEL: Draft = Draft {
    bridges: 2,
    links: &[Joint::Plain((1, 1), (2, 1)), Joint::Plain((1, 2), (2, 2))],
    customers: &[
        Site {
            at: (1, 3),
            service: 1,
            pcp: 0,
        },
        Site {
            at: (2, 3),
            service: 1,
            pcp: 0,
        },
    ],
    spanning: Spanning::Rstp,
    queue: 64,
    ring: 64,
    steps: 1_000_000,
};

#[test]
fn of_parallel_links_the_lower_port_serves(rt: HostRuntime) -> Result<(), Fail> {
    const ROWS: &[Row] = &[
        Row::Rounds(10),
        Row::Settled(Some(true)),
        Row::Roles(1, Some(&[(1, Role::Designated), (2, Role::Designated)])),
        Row::Roles(2, Some(&[(1, Role::Root), (2, Role::Alternate)])),
        Row::Enters(1, BROADCAST),
        Row::Empties,
        Row::Left(&[0, 1]),
    ];
    const STATES: &[(u8, u8, PortState)] = &[
        (1, 1, PortState::Forwarding),
        (1, 2, PortState::Forwarding),
        (2, 1, PortState::Forwarding),
        (2, 2, PortState::Discarding),
    ];
    ends_as_forest(&rt, rt.alloc(), &PARALLEL, ROWS, STATES)
}

/// Two links between B1 and B2, from port 1 to port 2 and from port 2 to port 1.
const CROSSED: Draft = Draft {
    bridges: 2,
    links: &[Joint::Plain((1, 1), (2, 2)), Joint::Plain((1, 2), (2, 1))],
    customers: &[
        Site {
            at: (1, 3),
            service: 1,
            pcp: 0,
        },
        Site {
            at: (2, 3),
            service: 1,
            pcp: 0,
        },
    ],
    spanning: Spanning::Rstp,
    queue: 64,
    ring: 64,
    steps: 1_000_000,
};

#[test]
fn the_lower_port_of_the_designated_bridge_counts_first(rt: HostRuntime) -> Result<(), Fail> {
    const ROWS: &[Row] = &[
        Row::Rounds(10),
        Row::Settled(Some(true)),
        Row::Roles(1, Some(&[(1, Role::Designated), (2, Role::Designated)])),
        Row::Roles(2, Some(&[(1, Role::Alternate), (2, Role::Root)])),
        Row::Enters(1, BROADCAST),
        Row::Empties,
        Row::Left(&[0, 1]),
    ];
    const STATES: &[(u8, u8, PortState)] = &[
        (1, 1, PortState::Forwarding),
        (1, 2, PortState::Forwarding),
        (2, 1, PortState::Discarding),
        (2, 2, PortState::Forwarding),
    ];
    ends_as_forest(&rt, rt.alloc(), &CROSSED, ROWS, STATES)
}

/// B1 to B2 and to B3, and both of these to B4, at one cost.
const SQUARE: Draft = Draft {
    bridges: 4,
    links: &[
        Joint::Plain((1, 1), (2, 1)),
        Joint::Plain((1, 2), (3, 1)),
        Joint::Plain((2, 2), (4, 1)),
        Joint::Plain((3, 2), (4, 2)),
    ],
    customers: &[
        Site {
            at: (1, 3),
            service: 1,
            pcp: 0,
        },
        Site {
            at: (2, 3),
            service: 1,
            pcp: 0,
        },
        Site {
            at: (3, 3),
            service: 1,
            pcp: 0,
        },
        Site {
            at: (4, 3),
            service: 1,
            pcp: 0,
        },
    ],
    spanning: Spanning::Rstp,
    queue: 64,
    ring: 64,
    steps: 1_000_000,
};

#[test]
fn of_equal_paths_the_lower_bridge_serves(rt: HostRuntime) -> Result<(), Fail> {
    const ROWS: &[Row] = &[
        Row::Rounds(10),
        Row::Settled(Some(true)),
        Row::Roles(1, Some(&[(1, Role::Designated), (2, Role::Designated)])),
        Row::Roles(2, Some(&[(1, Role::Root), (2, Role::Designated)])),
        Row::Roles(3, Some(&[(1, Role::Root), (2, Role::Designated)])),
        Row::Roles(4, Some(&[(1, Role::Root), (2, Role::Alternate)])),
        Row::Enters(1, BROADCAST),
        Row::Empties,
        Row::Left(&[0, 1, 1, 1]),
    ];
    const STATES: &[(u8, u8, PortState)] = &[
        (3, 2, PortState::Forwarding),
        (4, 1, PortState::Forwarding),
        (4, 2, PortState::Discarding),
    ];
    ends_as_forest(&rt, rt.alloc(), &SQUARE, ROWS, STATES)
}

/// B1 port 1 to B2 port 1, B2 port 2 to B3 port 2, and a slow link from B3 port 1 to B1 port 2.
const SLOW: Draft = Draft {
    bridges: 3,
    links: &[
        Joint::Plain((1, 1), (2, 1)),
        Joint::Plain((2, 2), (3, 2)),
        Joint::Costly((3, 1), (1, 2), 200_000),
    ],
    customers: &[
        Site {
            at: (1, 3),
            service: 1,
            pcp: 0,
        },
        Site {
            at: (2, 3),
            service: 1,
            pcp: 0,
        },
        Site {
            at: (3, 3),
            service: 1,
            pcp: 0,
        },
    ],
    spanning: Spanning::Rstp,
    queue: 64,
    ring: 64,
    steps: 1_000_000,
};

#[test]
fn two_fast_links_come_before_a_slow_one(rt: HostRuntime) -> Result<(), Fail> {
    const ROWS: &[Row] = &[
        Row::Rounds(10),
        Row::Settled(Some(true)),
        Row::Roles(1, Some(&[(1, Role::Designated), (2, Role::Designated)])),
        Row::Roles(2, Some(&[(1, Role::Root), (2, Role::Designated)])),
        Row::Roles(3, Some(&[(1, Role::Alternate), (2, Role::Root)])),
        Row::Enters(1, BROADCAST),
        Row::Empties,
        Row::Left(&[0, 1, 1]),
    ];
    const STATES: &[(u8, u8, PortState)] = &[
        (1, 2, PortState::Forwarding),
        (2, 2, PortState::Forwarding),
        (3, 1, PortState::Discarding),
        (3, 2, PortState::Forwarding),
    ];
    ends_as_forest(&rt, rt.alloc(), &SLOW, ROWS, STATES)
}

/// B1 to B2, and port 2 of B2 to its own port 3.
const LOOPED: Draft = Draft {
    bridges: 2,
    links: &[Joint::Plain((1, 1), (2, 1)), Joint::Plain((2, 2), (2, 3))],
    customers: &[
        Site {
            at: (1, 3),
            service: 1,
            pcp: 0,
        },
        Site {
            at: (2, 4),
            service: 1,
            pcp: 0,
        },
    ],
    spanning: Spanning::Rstp,
    queue: 64,
    ring: 64,
    steps: 1_000_000,
};

#[test]
fn a_port_that_hears_its_own_bridge_backs_it_up(rt: HostRuntime) -> Result<(), Fail> {
    const ROWS: &[Row] = &[
        Row::Rounds(10),
        Row::Settled(Some(true)),
        Row::Roles(1, Some(&[(1, Role::Designated)])),
        Row::Roles(
            2,
            Some(&[(1, Role::Root), (2, Role::Designated), (3, Role::Backup)]),
        ),
        Row::Enters(1, BROADCAST),
        Row::Empties,
        Row::Left(&[0, 1]),
    ];
    const STATES: &[(u8, u8, PortState)] = &[
        (2, 1, PortState::Forwarding),
        (2, 2, PortState::Forwarding),
        (2, 3, PortState::Discarding),
    ];
    ends_as_forest(&rt, rt.alloc(), &LOOPED, ROWS, STATES)
}
