//! Plans of drafts.

use super::draft::{Bridge, Draft, Joint, More, Service, Side, Site};
use pb_lan::{
    BridgePlan, CustomerPlan, End, LinkPlan, Plan, PortState, Queues, Seq, ServicePlan, Text,
};
use std::alloc::{AllocError, Global};

/// Returns a name.
fn text(alloc: Global, name: &str) -> Result<Text, AllocError> {
    Ok(Text::from_string(String::from_str(alloc, name)?))
}

/// Returns a copy of a list.
pub(super) fn seq<T: Copy>(alloc: Global, items: &[T]) -> Result<Seq<T>, AllocError> {
    Ok(Seq::from_vec(Vec::from_slice(alloc, items)?))
}

fn bridge(alloc: Global, bridge: Bridge) -> Result<BridgePlan, AllocError> {
    Ok(BridgePlan {
        name: text(alloc, bridge.name)?,
        address: bridge.address,
        priority: bridge.priority,
        queue: bridge.queue,
    })
}

/// Returns the services that an end lists.
fn listed(alloc: Global, side: Side) -> Result<Option<Seq<u8>>, AllocError> {
    match side.services {
        Some(services) => Ok(Some(seq(alloc, services)?)),
        None => Ok(None),
    }
}

fn end(alloc: Global, side: Side) -> Result<End, AllocError> {
    Ok(End {
        bridge: side.bridge,
        port: side.port,
        cost: side.cost,
        priority: side.priority,
        start: PortState::Forwarding,
        services: listed(alloc, side)?,
    })
}

fn link(alloc: Global, joint: Joint) -> Result<LinkPlan, AllocError> {
    Ok(LinkPlan {
        name: text(alloc, joint.name)?,
        a: end(alloc, joint.a)?,
        b: end(alloc, joint.b)?,
        lost_ab: seq(alloc, joint.lost_ab)?,
        lost_ba: seq(alloc, joint.lost_ba)?,
    })
}

fn service(alloc: Global, service: Service) -> Result<ServicePlan, AllocError> {
    Ok(ServicePlan {
        name: text(alloc, service.name)?,
        vid: service.vid,
    })
}

fn customer(alloc: Global, site: Site) -> Result<CustomerPlan, AllocError> {
    Ok(CustomerPlan {
        name: text(alloc, site.name)?,
        bridge: site.bridge,
        port: site.port,
        service: site.service,
        pcp: site.pcp,
        queue: site.queue,
    })
}

fn bridges(alloc: Global, draft: &Draft) -> Result<Seq<BridgePlan>, AllocError> {
    let mut bridges = Vec::new(alloc);
    for it in draft.bridges {
        bridges.push(bridge(alloc, *it)?)?;
    }
    if let More::Bridge(it) = draft.more {
        bridges.push(bridge(alloc, it)?)?;
    }
    Ok(Seq::from_vec(bridges))
}

fn links(alloc: Global, draft: &Draft) -> Result<Seq<LinkPlan>, AllocError> {
    let mut links = Vec::new(alloc);
    for it in draft.links {
        links.push(link(alloc, *it)?)?;
    }
    if let More::Link(it) = draft.more {
        links.push(link(alloc, it)?)?;
    }
    Ok(Seq::from_vec(links))
}

fn services(alloc: Global, draft: &Draft) -> Result<Seq<ServicePlan>, AllocError> {
    let mut services = Vec::new(alloc);
    for it in draft.services {
        services.push(service(alloc, *it)?)?;
    }
    if let More::Service(it) = draft.more {
        services.push(service(alloc, it)?)?;
    }
    Ok(Seq::from_vec(services))
}

fn customers(alloc: Global, draft: &Draft) -> Result<Seq<CustomerPlan>, AllocError> {
    let mut customers = Vec::new(alloc);
    for it in draft.customers {
        customers.push(customer(alloc, *it)?)?;
    }
    if let More::Customer(it) = draft.more {
        customers.push(customer(alloc, it)?)?;
    }
    Ok(Seq::from_vec(customers))
}

/// Returns the plan of a draft.
pub(super) fn plan_of(alloc: Global, draft: &Draft) -> Result<Plan, AllocError> {
    Ok(Plan {
        bridges: bridges(alloc, draft)?,
        links: links(alloc, draft)?,
        services: services(alloc, draft)?,
        customers: customers(alloc, draft)?,
        spanning: draft.spanning,
        prompt: false,
        queues: Queues::PerPort,
        ageing: draft.ageing,
        ring: draft.ring,
        steps: draft.steps,
    })
}
