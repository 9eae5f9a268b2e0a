//! Drafts that several tests use.

use super::draft::{Draft, Joint, Site};
use pb_lan::Spanning;

/// B1 to B4 in a line, each with a customer port of red at its port 1: C1 to C4.
pub(super) const LINE: Draft = Draft {
    bridges: 4,
    links: &[
        Joint {
            a: (1, 2),
            b: (2, 3),
            lost: &[],
        },
        Joint {
            a: (2, 2),
            b: (3, 3),
            lost: &[],
        },
        Joint {
            a: (3, 2),
            b: (4, 3),
            lost: &[],
        },
    ],
    customers: &[
        Site {
            at: (1, 1),
            service: 1,
        },
        Site {
            at: (2, 1),
            service: 1,
        },
        Site {
            at: (3, 1),
            service: 1,
        },
        Site {
            at: (4, 1),
            service: 1,
        },
    ],
    spanning: Spanning::Fixed,
    queue: 128,
    ring: 64,
    steps: 1_000,
};

/// B1 and B2, joined from port 1 to port 1; the customer ports C1 (B1 port 2, red), C2 (B2 port 2, red) and C3
/// (B2 port 3, blue).
pub(super) const PAIR: Draft = Draft {
    bridges: 2,
    links: &[Joint {
        a: (1, 1),
        b: (2, 1),
        lost: &[],
    }],
    customers: &[
        Site {
            at: (1, 2),
            service: 1,
        },
        Site {
            at: (2, 2),
            service: 1,
        },
        Site {
            at: (2, 3),
            service: 2,
        },
    ],
    spanning: Spanning::Fixed,
    queue: 64,
    ring: 64,
    steps: 1_000_000,
};

/// One bridge with the customer ports C1, C2 and C3 of red, at its ports 1, 2 and 3.
pub(super) const STAR: Draft = Draft {
    bridges: 1,
    links: &[],
    customers: &[
        Site {
            at: (1, 1),
            service: 1,
        },
        Site {
            at: (1, 2),
            service: 1,
        },
        Site {
            at: (1, 3),
            service: 1,
        },
    ],
    spanning: Spanning::Fixed,
    queue: 64,
    ring: 64,
    steps: 1_000,
};

/// B1, B2 and B3 in a ring, each with a customer port of red at its port 3: C1 to C3. They run the spanning tree.
pub(super) const RING: Draft = Draft {
    bridges: 3,
    links: &[
        Joint {
            a: (1, 1),
            b: (2, 1),
            lost: &[],
        },
        Joint {
            a: (2, 2),
            b: (3, 2),
            lost: &[],
        },
        Joint {
            a: (3, 1),
            b: (1, 2),
            lost: &[],
        },
    ],
    customers: &[
        Site {
            at: (1, 3),
            service: 1,
        },
        Site {
            at: (2, 3),
            service: 1,
        },
        Site {
            at: (3, 3),
            service: 1,
        },
    ],
    spanning: Spanning::Rstp,
    queue: 64,
    ring: 64,
    steps: 1_000_000,
};
