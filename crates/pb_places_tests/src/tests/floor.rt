//! The plan of the places of an office: two bridges with a link between them, and a customer port at each.

use pb_frame::Memory;
use pb_lan::{
    BridgePlan, CustomerPlan, End, LinkPlan, Mac, Plan, PortState, Queues, Seq, Spanning, Text,
};
use std::alloc::Global;

/// Returns an empty list.
fn none<T>(alloc: Global) -> Seq<T> {
    Seq::from_vec(Vec::new(alloc))
}

fn bridge(alloc: Global, number: u8) -> Result<BridgePlan, Memory> {
    Ok(BridgePlan {
        name: Text::from_string(format!(in alloc; "B{number}")?),
        address: Mac([2, 0, 0, 0, 0, number]),
        priority: 32768,
        queue: 64,
    })
}

/// Returns the end of the link at a bridge.
fn end(bridge: u8) -> End {
    End {
        bridge,
        port: 1,
        cost: 20_000,
        priority: 128,
        start: PortState::Forwarding,
        services: None,
    }
}

fn link(alloc: Global) -> Result<LinkPlan, Memory> {
    Ok(LinkPlan {
        name: Text::from_string(String::from_str(alloc, "L1")?),
        a: end(1),
        b: end(2),
        lost_ab: none(alloc),
        lost_ba: none(alloc),
    })
}

/// Returns the customer port at a bridge.
fn customer(alloc: Global, bridge: u8) -> Result<CustomerPlan, Memory> {
    Ok(CustomerPlan {
        name: Text::from_string(format!(in alloc; "C{bridge}")?),
        bridge,
        port: 2,
        service: 1,
        pcp: 0,
        queue: 64,
    })
}

/// Returns the plan.
pub(super) fn plan(alloc: Global) -> Result<Plan, Memory> {
    Ok(Plan {
        bridges: Seq::from_vec(vec![in alloc; bridge(alloc, 1)?, bridge(alloc, 2)?]?),
        links: Seq::from_vec(vec![in alloc; link(alloc)?]?),
        services: none(alloc),
        customers: Seq::from_vec(vec![in alloc; customer(alloc, 1)?, customer(alloc, 2)?]?),
        spanning: Spanning::Fixed,
        prompt: false,
        queues: Queues::PerPort,
        ageing: 300,
        ring: 64,
        steps: 1_000_000,
    })
}
