//! The networks.

use super::draft::{Draft, Stub, Wire};

/// The key with which the bridges run the rapid spanning tree.
const RSTP: &str = "spanning = \"rstp\"";

/// Six bridges in a ring, with a customer port of `red` at each.
pub(super) const RING: Draft = Draft {
    network: RSTP,
    bridges: 6,
    wires: &[
        Wire((1, 1), (2, 2), ""),
        Wire((2, 1), (3, 2), ""),
        Wire((3, 1), (4, 2), ""),
        Wire((4, 1), (5, 2), ""),
        Wire((5, 1), (6, 2), ""),
        Wire((6, 1), (1, 2), ""),
    ],
    stubs: &[
        Stub((1, 3), "red"),
        Stub((2, 3), "red"),
        Stub((3, 3), "red"),
        Stub((4, 3), "red"),
        Stub((5, 3), "red"),
        Stub((6, 3), "red"),
    ],
};

/// Four bridges in a line.
pub(super) const LINE: Draft = Draft {
    network: RSTP,
    bridges: 4,
    wires: &[
        Wire((1, 1), (2, 2), ""),
        Wire((2, 1), (3, 2), ""),
        Wire((3, 1), (4, 2), ""),
    ],
    stubs: &[
        Stub((1, 3), "red"),
        Stub((2, 3), "red"),
        Stub((3, 3), "red"),
        Stub((4, 3), "red"),
    ],
};

/// Two bridges with two links between them.
pub(super) const PARALLEL: Draft = Draft {
    network: RSTP,
    bridges: 2,
    wires: &[Wire((1, 1), (2, 1), ""), Wire((1, 2), (2, 2), "")],
    stubs: &[Stub((1, 3), "red"), Stub((2, 3), "red")],
};

/// Two bridges with two links between them, and both customer ports at the first.
pub(super) const HUB: Draft = Draft {
    network: RSTP,
    bridges: 2,
    wires: &[Wire((1, 1), (2, 1), ""), Wire((1, 2), (2, 2), "")],
    stubs: &[Stub((1, 3), "red"), Stub((1, 4), "red")],
};

/// Four bridges of which each has a link to each other.
pub(super) const MESH: Draft = Draft {
    network: RSTP,
    bridges: 4,
    wires: &[
        Wire((1, 1), (2, 1), ""),
        Wire((1, 2), (3, 1), ""),
        Wire((1, 3), (4, 1), ""),
        Wire((2, 2), (3, 2), ""),
        Wire((2, 3), (4, 2), ""),
        Wire((3, 3), (4, 3), ""),
    ],
    stubs: &[
        Stub((1, 4), "red"),
        Stub((2, 4), "red"),
        Stub((3, 4), "red"),
        Stub((4, 4), "red"),
    ],
};

/// A bridge with links to three others. The plan gives the states.
pub(super) const STAR: Draft = Draft {
    network: "",
    bridges: 4,
    wires: &[
        Wire((1, 1), (2, 1), ""),
        Wire((1, 2), (3, 1), ""),
        Wire((1, 3), (4, 1), ""),
    ],
    stubs: &[
        Stub((2, 3), "red"),
        Stub((3, 3), "red"),
        Stub((4, 3), "red"),
    ],
};

/// A ring of three, of which one link is for `red` alone.
pub(super) const LISTED: Draft = Draft {
    network: RSTP,
    bridges: 3,
    wires: &[
        Wire((1, 1), (2, 1), ""),
        Wire((2, 2), (3, 1), ""),
        Wire(
            (3, 2),
            (1, 2),
            "a_services = [\"red\"]\nb_services = [\"red\"]",
        ),
    ],
    stubs: &[
        Stub((1, 3), "red"),
        Stub((2, 3), "red"),
        Stub((1, 4), "blue"),
        Stub((2, 4), "blue"),
    ],
};

/// A ring of three with a forwarding loop for `red`: the plan gives all states.
pub(super) const LOOPING: Draft = Draft {
    network: "spanning = \"fixed\"",
    bridges: 3,
    wires: &[
        Wire((1, 1), (2, 1), ""),
        Wire((2, 2), (3, 1), ""),
        Wire((3, 2), (1, 2), ""),
    ],
    stubs: &[Stub((1, 3), "red"), Stub((2, 3), "red")],
};

/// Two bridges with three links between them: the plan gives all states, and two links form a forwarding loop.
pub(super) const THREEFOLD: Draft = Draft {
    network: "spanning = \"fixed\"",
    bridges: 2,
    wires: &[
        Wire((1, 1), (2, 1), ""),
        Wire((1, 2), (2, 2), ""),
        Wire((1, 3), (2, 3), ""),
    ],
    stubs: &[Stub((1, 4), "red"), Stub((2, 4), "red")],
};

/// Two bridges without a link.
pub(super) const APART: Draft = Draft {
    network: RSTP,
    bridges: 2,
    wires: &[],
    stubs: &[Stub((1, 3), "red"), Stub((2, 3), "red")],
};

/// Two bridges with two links between them, and one customer port.
pub(super) const LONELY: Draft = Draft {
    network: RSTP,
    bridges: 2,
    wires: &[Wire((1, 1), (2, 1), ""), Wire((1, 2), (2, 2), "")],
    stubs: &[Stub((1, 3), "red")],
};

/// Figure 17-4 of IEEE 802.1D-2004, with a customer port of `red` at each bridge.
pub(super) const FIGURE: Draft = Draft {
    network: RSTP,
    bridges: 8,
    wires: &[
        Wire((1, 1), (2, 1), ""),
        Wire((1, 2), (2, 2), ""),
        Wire((1, 3), (4, 1), ""),
        Wire((1, 4), (3, 1), ""),
        Wire((2, 3), (3, 2), ""),
        Wire((2, 4), (4, 2), ""),
        Wire((3, 3), (8, 1), ""),
        Wire((3, 4), (7, 1), ""),
        Wire((3, 5), (6, 1), ""),
        Wire((3, 6), (5, 1), ""),
        Wire((4, 3), (8, 2), ""),
        Wire((4, 4), (7, 2), ""),
        Wire((4, 5), (6, 2), ""),
        Wire((4, 6), (5, 2), ""),
    ],
    stubs: &[
        Stub((1, 9), "red"),
        Stub((2, 9), "red"),
        Stub((3, 9), "red"),
        Stub((4, 9), "red"),
        Stub((5, 9), "red"),
        Stub((6, 9), "red"),
        Stub((7, 9), "red"),
        Stub((8, 9), "red"),
    ],
};

/// Three bridges in a line, with two customer ports of `red` at the middle one.
pub(super) const SHARED: Draft = Draft {
    network: RSTP,
    bridges: 3,
    wires: &[Wire((1, 1), (2, 1), ""), Wire((2, 2), (3, 1), "")],
    stubs: &[
        Stub((2, 3), "red"),
        Stub((1, 3), "red"),
        Stub((2, 4), "red"),
        Stub((3, 3), "red"),
    ],
};

/// A ring of three whose places may take enough steps to converge once, but not twice.
pub(super) const BRIEF: Draft = Draft {
    network: "spanning = \"rstp\"\nsteps = 163",
    bridges: 3,
    wires: &[
        Wire((1, 1), (2, 1), ""),
        Wire((2, 2), (3, 1), ""),
        Wire((3, 2), (1, 2), ""),
    ],
    stubs: &[],
};
