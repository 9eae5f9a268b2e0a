//! Plans of bridges with priority 32768 and the addresses 02-00-00-00-00-01 and on.

use pb_frame::Memory;
use pb_lan::{BridgePlan, End, LinkPlan, Mac, Plan, PortState, Queues, Seq, Spanning, Text};
use std::alloc::Global;

/// A link between two ports, each given by the number of its bridge and its own.
pub(super) type Joint = ((u8, u8), (u8, u8));

/// Returns a name with a number.
fn name(alloc: Global, word: &str, number: usize) -> Result<Text, Memory> {
    Ok(Text::from_string(format!(in alloc; "{word}{number}")?))
}

/// Returns the bridge with a number.
fn bridge(alloc: Global, number: u8) -> Result<BridgePlan, Memory> {
    let name = name(alloc, "B", usize::from(number))?;
    Ok(BridgePlan {
        name,
        address: Mac([2, 0, 0, 0, 0, number]),
        priority: 32768,
        queue: 64,
    })
}

/// Returns an end of a link with this path cost.
fn end(at: (u8, u8), cost: u32) -> End {
    End {
        bridge: at.0,
        port: at.1,
        cost,
        priority: 128,
        start: PortState::Discarding,
        services: None,
    }
}

/// Returns the link at this index, with this path cost at both ends.
fn link(alloc: Global, index: usize, joint: Joint, cost: u32) -> Result<LinkPlan, Memory> {
    let name = name(alloc, "L", index)?;
    let (a, b) = joint;
    Ok(LinkPlan {
        name,
        a: end(a, cost),
        b: end(b, cost),
        lost_ab: Seq::from_vec(Vec::new(alloc)),
        lost_ba: Seq::from_vec(Vec::new(alloc)),
    })
}

fn bridges(alloc: Global, count: u8) -> Result<Seq<BridgePlan>, Memory> {
    let mut bridges = Vec::new(alloc);
    for number in 1..=count {
        bridges.push(bridge(alloc, number)?)?;
    }
    Ok(Seq::from_vec(bridges))
}

fn links(alloc: Global, joints: &[Joint], cost: u32) -> Result<Seq<LinkPlan>, Memory> {
    let mut links = Vec::new(alloc);
    for (index, joint) in joints.iter().enumerate() {
        links.push(link(alloc, index, *joint, cost)?)?;
    }
    Ok(Seq::from_vec(links))
}

/// Returns the plan of so many bridges with these links, each with this path cost at both ends.
pub(super) fn plan(alloc: Global, count: u8, joints: &[Joint], cost: u32) -> Result<Plan, Memory> {
    let bridges = bridges(alloc, count)?;
    let links = links(alloc, joints, cost)?;
    Ok(Plan {
        bridges,
        links,
        services: Seq::from_vec(Vec::new(alloc)),
        customers: Seq::from_vec(Vec::new(alloc)),
        spanning: Spanning::Rstp,
        prompt: false,
        queues: Queues::PerPort,
        ageing: 300,
        ring: 64,
        steps: 1_000_000,
    })
}
