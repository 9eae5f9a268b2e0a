//! Bridges that run the spanning tree.

use super::bpdus::{
    ANSWER, COSTLY_ANSWER, COSTLY_PROPOSAL, CUSTOMER_PROPOSAL, OPENED, PROPOSAL,
    PROPOSAL_BEHIND_TAG, TAGGED_CUSTOMER_PROPOSAL, TAGGED_PROPOSAL,
};
use super::harness::run;
use super::networks::Network;
use super::rows::{Fate, Piece, Row};
use super::{BROADCAST, TAGGED_BROADCAST};
use pb_lan::{PortState, Reason, Spanning};
use std::test::Fail;

/// Two bridges that run the spanning tree.
const TWO_BRIDGES_BY_PROTOCOL: Network = Network::TwoBridges {
    spanning: Spanning::Rstp,
    queue: 64,
};

/// Two bridges whose states the plan gives.
const TWO_BRIDGES: Network = Network::TwoBridges {
    spanning: Spanning::Fixed,
    queue: 64,
};

/// B2 between two others, running the spanning tree.
const LINE_BY_PROTOCOL: Network = Network::Line {
    spanning: Spanning::Rstp,
    start: PortState::Forwarding,
};

/// B2 between two others. The plan gives the states.
const LINE: Network = Network::Line {
    spanning: Spanning::Fixed,
    start: PortState::Forwarding,
};

/// A BPDU on its way.
const FROM_FIRST: Piece = Piece {
    number: None,
    hops: 0,
    digits: PROPOSAL,
};

/// The reply of B2 on its way.
const FROM_SECOND: Piece = Piece {
    number: None,
    hops: 0,
    digits: ANSWER,
};

/// The next BPDU of B1 on its way.
const FIRST_OPENED: Piece = Piece {
    number: None,
    hops: 0,
    digits: OPENED,
};

/// The first BPDU of B1 is heard at B2's port 1.
const HEARS_PROPOSAL: Row = Row::Receives {
    port: 1,
    item: FROM_FIRST,
    fate: Fate::Heard,
};

/// B2 replies.
const ANSWERS: Row = Row::Sends {
    port: 1,
    item: FROM_SECOND,
};

/// The clock ticks, and one BPDU is queued.
const TICKS: Row = Row::Ticks {
    queued: 1,
    dropped: &[],
};

/// B1 sends its first BPDU.
const PROPOSES: Row = Row::Sends {
    port: 1,
    item: FROM_FIRST,
};

/// The reply of B2 is heard at B1's port 1.
const HEARS_ANSWER: Row = Row::Receives {
    port: 1,
    item: FROM_SECOND,
    fate: Fate::Heard,
};

/// B1 reports that its port is Forwarding.
const TELLS: Row = Row::Sends {
    port: 1,
    item: FIRST_OPENED,
};

/// Port 1 goes to B2, and port 2 is a customer's.
const START: &[Row] = &[
    Row::States(&[PortState::Discarding, PortState::Forwarding]),
    Row::HasTree(true),
];

#[test]
fn ports_to_bridges_start_discarding(rt: HostRuntime) -> Result<(), Fail> {
    run(&rt, rt.alloc(), TWO_BRIDGES_BY_PROTOCOL, 1, START)
}

/// There is no spanning tree.
const NO_TREE: &[Row] = &[Row::HasTree(false)];

#[test]
fn the_plan_needs_no_machine(rt: HostRuntime) -> Result<(), Fail> {
    run(&rt, rt.alloc(), TWO_BRIDGES, 1, NO_TREE)
}

/// B1 proposes at once.
const FIRST_TICK: &[Row] = &[TICKS, PROPOSES];

#[test]
fn the_first_tick_sends_a_proposal(rt: HostRuntime) -> Result<(), Fail> {
    run(&rt, rt.alloc(), TWO_BRIDGES_BY_PROTOCOL, 1, FIRST_TICK)
}

/// B2's port becomes Forwarding, and B2 reports it.
const AGREES: &[Row] = &[
    HEARS_PROPOSAL,
    Row::States(&[
        PortState::Forwarding,
        PortState::Forwarding,
        PortState::Forwarding,
    ]),
    ANSWERS,
];

#[test]
fn a_proposal_is_agreed_to(rt: HostRuntime) -> Result<(), Fail> {
    run(&rt, rt.alloc(), TWO_BRIDGES_BY_PROTOCOL, 2, AGREES)
}

/// The greatest cost can't be raised.
const COSTLY: &[Row] = &[
    Row::Receives {
        port: 1,
        item: Piece {
            number: None,
            hops: 0,
            digits: COSTLY_PROPOSAL,
        },
        fate: Fate::Heard,
    },
    Row::Sends {
        port: 1,
        item: Piece {
            number: None,
            hops: 0,
            digits: COSTLY_ANSWER,
        },
    },
];

#[test]
fn the_greatest_cost_stays_the_greatest(rt: HostRuntime) -> Result<(), Fail> {
    run(&rt, rt.alloc(), TWO_BRIDGES_BY_PROTOCOL, 2, COSTLY)
}

/// B1's port becomes Forwarding, and B1 reports the topology change.
const OPENS: &[Row] = &[
    TICKS,
    PROPOSES,
    HEARS_ANSWER,
    Row::States(&[PortState::Forwarding, PortState::Forwarding]),
    TELLS,
];

#[test]
fn an_agreement_opens_the_port(rt: HostRuntime) -> Result<(), Fail> {
    run(&rt, rt.alloc(), TWO_BRIDGES_BY_PROTOCOL, 1, OPENS)
}

/// A BPDU that is queued after frames of three other classes leaves before them, and the highest of these next.
const OWN_FIRST: &[Row] = &[
    TICKS,
    PROPOSES,
    HEARS_ANSWER,
    TELLS,
    Row::Receives {
        port: 2,
        item: Piece {
            number: Some(0),
            hops: 0,
            digits: BROADCAST,
        },
        fate: Fate::Relayed(&[1]),
    },
    Row::Receives {
        port: 2,
        item: Piece {
            number: Some(1),
            hops: 0,
            digits: "ffffffffffff02000000010188a8a00008004142",
        },
        fate: Fate::Relayed(&[1]),
    },
    Row::Receives {
        port: 2,
        item: Piece {
            number: Some(2),
            hops: 0,
            digits: "ffffffffffff02000000010188a8c00008004142",
        },
        fate: Fate::Relayed(&[1]),
    },
    Row::Waits { port: 1, items: 3 },
    TICKS,
    Row::Passes(1),
    Row::Waits { port: 1, items: 4 },
    TELLS,
    Row::Sends {
        port: 1,
        item: Piece {
            number: Some(2),
            hops: 1,
            digits: "ffffffffffff02000000010188a8c06408004142",
        },
    },
    Row::Sends {
        port: 1,
        item: Piece {
            number: Some(1),
            hops: 1,
            digits: "ffffffffffff02000000010188a8a06408004142",
        },
    },
    Row::Sends {
        port: 1,
        item: Piece {
            number: Some(0),
            hops: 1,
            digits: TAGGED_BROADCAST,
        },
    },
];

#[test]
fn its_own_bpdus_leave_first(rt: HostRuntime) -> Result<(), Fail> {
    run(&rt, rt.alloc(), TWO_BRIDGES_BY_PROTOCOL, 1, OWN_FIRST)
}

/// The BPDU is heard, and nothing follows.
const OVERHEARS: &[Row] = &[
    HEARS_PROPOSAL,
    Row::States(&[
        PortState::Forwarding,
        PortState::Forwarding,
        PortState::Forwarding,
    ]),
    Row::Waits { port: 1, items: 0 },
];

#[test]
fn the_plan_may_give_the_states(rt: HostRuntime) -> Result<(), Fail> {
    run(&rt, rt.alloc(), TWO_BRIDGES, 2, OVERHEARS)
}

/// The customer's BPDU is dropped, and nothing follows.
const FROM_CUSTOMER: &[Row] = &[
    Row::Receives {
        port: 2,
        item: FROM_FIRST,
        fate: Fate::Filtered(Reason::Reserved(8)),
    },
    Row::States(&[
        PortState::Discarding,
        PortState::Forwarding,
        PortState::Forwarding,
    ]),
];

#[test]
fn customers_send_no_bpdus(rt: HostRuntime) -> Result<(), Fail> {
    run(&rt, rt.alloc(), TWO_BRIDGES_BY_PROTOCOL, 2, FROM_CUSTOMER)
}

/// Under a service tag it is dropped, and nothing follows.
const TAGGED: &[Row] = &[
    Row::Receives {
        port: 1,
        item: Piece {
            number: None,
            hops: 0,
            digits: TAGGED_PROPOSAL,
        },
        fate: Fate::Filtered(Reason::Reserved(8)),
    },
    Row::Receives {
        port: 1,
        item: Piece {
            number: None,
            hops: 0,
            digits: PROPOSAL_BEHIND_TAG,
        },
        fate: Fate::Filtered(Reason::Reserved(8)),
    },
    Row::States(&[
        PortState::Discarding,
        PortState::Forwarding,
        PortState::Forwarding,
    ]),
];

#[test]
fn a_tagged_bpdu_is_not_heard(rt: HostRuntime) -> Result<(), Fail> {
    run(&rt, rt.alloc(), TWO_BRIDGES_BY_PROTOCOL, 2, TAGGED)
}

/// The port is disabled, and sends nothing.
const DOWN: &[Row] = &[
    HEARS_PROPOSAL,
    ANSWERS,
    Row::Sets { port: 1, up: false },
    Row::Passes(2),
    Row::States(&[
        PortState::Discarding,
        PortState::Forwarding,
        PortState::Forwarding,
    ]),
    Row::Waits { port: 1, items: 0 },
];

#[test]
fn a_port_that_is_down_sends_nothing(rt: HostRuntime) -> Result<(), Fail> {
    run(&rt, rt.alloc(), TWO_BRIDGES_BY_PROTOCOL, 2, DOWN)
}

/// It goes to the other customer of red, because no port to a bridge is Forwarding yet.
const CUSTOMERS_TREE: &[Row] = &[
    Row::Receives {
        port: 2,
        item: Piece {
            number: None,
            hops: 0,
            digits: CUSTOMER_PROPOSAL,
        },
        fate: Fate::Relayed(&[3]),
    },
    Row::States(&[
        PortState::Discarding,
        PortState::Forwarding,
        PortState::Forwarding,
        PortState::Discarding,
        PortState::Forwarding,
    ]),
    Row::Sends {
        port: 3,
        item: Piece {
            number: None,
            hops: 1,
            digits: CUSTOMER_PROPOSAL,
        },
    },
];

/// It goes to bridges too.
const CUSTOMERS_TREE_TO_BRIDGES: &[Row] = &[
    Row::Receives {
        port: 2,
        item: Piece {
            number: None,
            hops: 0,
            digits: CUSTOMER_PROPOSAL,
        },
        fate: Fate::Relayed(&[1, 3, 4]),
    },
    Row::Sends {
        port: 3,
        item: Piece {
            number: None,
            hops: 1,
            digits: CUSTOMER_PROPOSAL,
        },
    },
    Row::Sends {
        port: 1,
        item: Piece {
            number: None,
            hops: 1,
            digits: TAGGED_CUSTOMER_PROPOSAL,
        },
    },
];

#[test]
fn customers_bpdus_are_carried(rt: HostRuntime) -> Result<(), Fail> {
    run(&rt, rt.alloc(), LINE_BY_PROTOCOL, 2, CUSTOMERS_TREE)
}

#[test]
fn customers_bpdus_are_carried_to_bridges(rt: HostRuntime) -> Result<(), Fail> {
    run(&rt, rt.alloc(), LINE, 2, CUSTOMERS_TREE_TO_BRIDGES)
}
