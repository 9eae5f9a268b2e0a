//! Plans of drafts.

use super::draft::{At, Draft, Joint, Site};
use pb_frame::Memory;
use pb_lan::{
    BridgePlan, CustomerPlan, End, LinkPlan, Mac, Plan, PortState, Queues, Seq, ServicePlan, Text,
};
use std::alloc::Global;

/// Returns a name with a number.
fn name(alloc: Global, word: &str, number: usize) -> Result<Text, Memory> {
    Ok(Text::from_string(format!(in alloc; "{word}{number}")?))
}

/// Returns the bridge of a number.
fn bridge(alloc: Global, number: u8, queue: u16) -> Result<BridgePlan, Memory> {
    Ok(BridgePlan {
        name: name(alloc, "B", usize::from(number))?,
        address: Mac([2, 0, 0, 0, 0, number]),
        priority: 32768,
        queue,
    })
}

/// Returns an end, which is Forwarding if the plan gives the states.
fn end(at: At) -> End {
    End {
        bridge: at.0,
        port: at.1,
        cost: 20_000,
        priority: 128,
        start: PortState::Forwarding,
        services: None,
    }
}

/// Returns the link at this index.
fn link(alloc: Global, place: usize, joint: Joint) -> Result<LinkPlan, Memory> {
    Ok(LinkPlan {
        name: name(alloc, "L", place)?,
        a: end(joint.a),
        b: end(joint.b),
        lost_ab: Seq::from_vec(Vec::from_slice(alloc, joint.lost)?),
        lost_ba: Seq::from_vec(Vec::new(alloc)),
    })
}

/// Returns the customer port at this index.
fn customer(alloc: Global, place: usize, site: Site) -> Result<CustomerPlan, Memory> {
    Ok(CustomerPlan {
        name: name(alloc, "C", place)?,
        bridge: site.at.0,
        port: site.at.1,
        service: site.service,
        pcp: 0,
        queue: 64,
    })
}

/// Returns the service at this index.
fn service(alloc: Global, place: usize, vid: u16) -> Result<ServicePlan, Memory> {
    Ok(ServicePlan {
        name: name(alloc, "S", place)?,
        vid,
    })
}

fn bridges(alloc: Global, draft: &Draft) -> Result<Seq<BridgePlan>, Memory> {
    let mut bridges = Vec::new(alloc);
    for number in 1..=draft.bridges {
        bridges.push(bridge(alloc, number, draft.queue)?)?;
    }
    Ok(Seq::from_vec(bridges))
}

fn links(alloc: Global, draft: &Draft) -> Result<Seq<LinkPlan>, Memory> {
    let mut links = Vec::new(alloc);
    for (place, joint) in draft.links.iter().enumerate() {
        links.push(link(alloc, place, *joint)?)?;
    }
    Ok(Seq::from_vec(links))
}

fn customers(alloc: Global, draft: &Draft) -> Result<Seq<CustomerPlan>, Memory> {
    let mut customers = Vec::new(alloc);
    for (place, site) in draft.customers.iter().enumerate() {
        customers.push(customer(alloc, place, *site)?)?;
    }
    Ok(Seq::from_vec(customers))
}

/// Returns red and blue.
fn services(alloc: Global) -> Result<Seq<ServicePlan>, Memory> {
    let mut services = Vec::new(alloc);
    for (place, vid) in [(1, 100), (2, 200)] {
        services.push(service(alloc, place, vid)?)?;
    }
    Ok(Seq::from_vec(services))
}

/// Returns the plan of a draft.
pub(super) fn plan_of(alloc: Global, draft: &Draft) -> Result<Plan, Memory> {
    Ok(Plan {
        bridges: bridges(alloc, draft)?,
        links: links(alloc, draft)?,
        services: services(alloc)?,
        customers: customers(alloc, draft)?,
        spanning: draft.spanning,
        prompt: false,
        queues: Queues::PerPort,
        ageing: 300,
        ring: draft.ring,
        steps: draft.steps,
    })
}
