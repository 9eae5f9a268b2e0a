//! The networks of the tests of forests.

use super::draft::{Draft, Joint};
use pb_lan::Spanning;

/// Two bridges without links.
const APART: Draft = Draft {
    bridges: 2,
    links: &[],
    customers: &[],
    spanning: Spanning::Fixed,
    queue: 64,
    ring: 64,
    steps: 1_000_000,
};

const LINE: Draft = Draft {
    bridges: 4,
    links: &[
        Joint::Plain((1, 1), (2, 1)),
        Joint::Plain((2, 2), (3, 1)),
        Joint::Plain((3, 2), (4, 1)),
    ],
    ..APART
};

const DOUBLED: Draft = Draft {
    links: &[Joint::Plain((1, 1), (2, 1)), Joint::Plain((1, 3), (2, 4))],
    ..APART
};

/// The first link is for red alone, and the second for blue alone.
const PARTED: Draft = Draft {
    links: &[
        Joint::Listed((1, 1), Some(&[1]), (2, 1), Some(&[1])),
        Joint::Listed((1, 3), Some(&[2]), (2, 4), Some(&[2])),
    ],
    ..APART
};

const RING: Draft = Draft {
    bridges: 3,
    links: &[
        Joint::Plain((1, 1), (2, 1)),
        Joint::Plain((2, 2), (3, 1)),
        Joint::Plain((3, 2), (1, 2)),
    ],
    ..APART
};

/// B4 is joined to a ring of the others.
const RING_WITH_TAIL: Draft = Draft {
    bridges: 4,
    links: &[
        Joint::Plain((4, 1), (1, 3)),
        Joint::Plain((1, 1), (2, 1)),
        Joint::Plain((2, 2), (3, 1)),
        Joint::Plain((3, 2), (1, 2)),
    ],
    ..APART
};

/// The second link goes from B1 to itself.
const LOOPED: Draft = Draft {
    links: &[Joint::Plain((1, 1), (2, 1)), Joint::Plain((1, 2), (1, 3))],
    ..APART
};

/// The link goes to a bridge that is not in the plan.
const ASTRAY: Draft = Draft {
    links: &[Joint::Plain((1, 1), (4, 1))],
    ..APART
};

/// Each of these networks by its name.
#[derive(Clone, Copy)]
pub(super) enum Network {
    Apart,
    Line,
    Doubled,
    Parted,
    Ring,
    RingWithTail,
    Looped,
    Astray,
}

pub(super) fn draft_of(network: Network) -> Draft {
    match network {
        Network::Apart => APART,
        Network::Line => LINE,
        Network::Doubled => DOUBLED,
        Network::Parted => PARTED,
        Network::Ring => RING,
        Network::RingWithTail => RING_WITH_TAIL,
        Network::Looped => LOOPED,
        Network::Astray => ASTRAY,
    }
}
