//! Drafts that several tests take.

use super::draft::{Draft, Joint, Site};
use pb_lan::Spanning;

/// A broadcast from 02-00-00-00-01-01, of the least length.
pub(super) const SHORT: &[u8] = b"\xff\xff\xff\xff\xff\xff\x02\0\0\0\x01\x01\x08\0";

/// A broadcast from 02-00-00-00-01-01 with two octets after its type.
pub(super) const BROADCAST: &[u8] = b"\xff\xff\xff\xff\xff\xff\x02\0\0\0\x01\x01\x08\0AB";

/// A customer's notice of a topology change (IEEE 802.1D-2004 clause 9.3.2) from 02-00-00-00-01-01: 21 octets.
pub(super) const NOTICE: &[u8] = b"\x01\x80\xc2\0\0\0\x02\0\0\0\x01\x01\0\x07BB\x03\0\0\0\x80";

/// One bridge with the customer ports 1 and 2 of red, at its ports 1 and 2.
pub(super) const TWO_CUSTOMERS: Draft = Draft {
    bridges: 1,
    links: &[],
    customers: &[
        Site {
            at: (1, 1),
            service: 1,
            pcp: 0,
        },
        Site {
            at: (1, 2),
            service: 1,
            pcp: 0,
        },
    ],
    spanning: Spanning::Fixed,
    queue: 64,
    ring: 64,
    steps: 1000,
};

/// One bridge with the customer ports 1, 2 and 3 of red, at its ports 1, 2 and 3.
pub(super) const THREE_CUSTOMERS: Draft = Draft {
    bridges: 1,
    links: &[],
    customers: &[
        Site {
            at: (1, 1),
            service: 1,
            pcp: 0,
        },
        Site {
            at: (1, 2),
            service: 1,
            pcp: 0,
        },
        Site {
            at: (1, 3),
            service: 1,
            pcp: 0,
        },
    ],
    spanning: Spanning::Fixed,
    queue: 64,
    ring: 64,
    steps: 1000,
};

/// B1 and B2, joined from port 1 to port 1; the customer ports 1 (B1 port 2, red), 2 (B2 port 2, red) and 3
/// (B2 port 3, blue).
pub(super) const JOINED: Draft = Draft {
    bridges: 2,
    links: &[Joint::Plain((1, 1), (2, 1))],
    customers: &[
        Site {
            at: (1, 2),
            service: 1,
            pcp: 0,
        },
        Site {
            at: (2, 2),
            service: 1,
            pcp: 0,
        },
        Site {
            at: (2, 3),
            service: 2,
            pcp: 0,
        },
    ],
    spanning: Spanning::Fixed,
    queue: 64,
    ring: 64,
    steps: 1_000_000,
};
