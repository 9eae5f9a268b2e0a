//! Plans of drafts.

use super::draft::{Draft, Joint, Port, Site};
use pb_frame::Memory;
use pb_lan::{
    BridgePlan, CustomerPlan, End, LinkPlan, Mac, Plan, PortState, Queues, Seq, ServicePlan, Text,
};
use std::alloc::Global;

/// Returns a name with a number.
fn name(alloc: Global, word: &str, number: usize) -> Result<Text, Memory> {
    Ok(Text::from_string(format!(in alloc; "{word}{number}")?))
}

/// Returns the bridge of a number.
fn bridge(alloc: Global, number: u8, queue: u16) -> Result<BridgePlan, Memory> {
    let name = name(alloc, "B", usize::from(number))?;
    Ok(BridgePlan {
        name,
        address: Mac([2, 0, 0, 0, 0, number]),
        priority: 32768,
        queue,
    })
}

/// Returns an end for all services, which is Forwarding if the plan gives the states.
fn end(at: Port, cost: u32) -> End {
    End {
        bridge: at.0,
        port: at.1,
        cost,
        priority: 128,
        start: PortState::Forwarding,
        services: None,
    }
}

/// Returns the services that an end lists, if it does.
fn listed(alloc: Global, services: Option<&[u8]>) -> Result<Option<Seq<u8>>, Memory> {
    match services {
        Some(services) => Ok(Some(Seq::from_vec(Vec::from_slice(alloc, services)?))),
        None => Ok(None),
    }
}

/// Returns a link as yet without lists.
fn bare_link(alloc: Global, name: Text, joint: Joint) -> LinkPlan {
    let (a, b) = joint.ends();
    LinkPlan {
        name,
        a: end(a, joint.cost()),
        b: end(b, joint.cost()),
        lost_ab: Seq::from_vec(Vec::new(alloc)),
        lost_ba: Seq::from_vec(Vec::new(alloc)),
    }
}

/// Gives a link its lists.
fn fill_link(alloc: Global, joint: Joint, link: &mut LinkPlan) -> Result<(), Memory> {
    let (a, b) = joint.listed();
    link.a.services = listed(alloc, a)?;
    link.b.services = listed(alloc, b)?;
    link.lost_ab = Seq::from_vec(Vec::from_slice(alloc, joint.losses())?);
    Ok(())
}

/// Returns the link at this index.
fn link(alloc: Global, place: usize, joint: Joint) -> Result<LinkPlan, Memory> {
    let name = name(alloc, "L", place)?;
    let mut link = bare_link(alloc, name, joint);
    fill_link(alloc, joint, &mut link)?;
    Ok(link)
}

/// Returns the customer port at this index.
fn customer(alloc: Global, place: usize, site: Site) -> Result<CustomerPlan, Memory> {
    let name = name(alloc, "C", place)?;
    Ok(CustomerPlan {
        name,
        bridge: site.at.0,
        port: site.at.1,
        service: site.service,
        pcp: site.pcp,
        queue: 64,
    })
}

/// Returns the service at this index.
fn service(alloc: Global, place: usize, vid: u16) -> Result<ServicePlan, Memory> {
    let name = name(alloc, "S", place)?;
    Ok(ServicePlan { name, vid })
}

fn bridges(alloc: Global, draft: &Draft) -> Result<Seq<BridgePlan>, Memory> {
    let mut bridges = Vec::new(alloc);
    for number in 1..=draft.bridges {
        bridges.push(bridge(alloc, number, draft.queue)?)?;
    }
    Ok(Seq::from_vec(bridges))
}

fn links(alloc: Global, draft: &Draft) -> Result<Seq<LinkPlan>, Memory> {
    let mut links = Vec::new(alloc);
    for (place, joint) in draft.links.iter().enumerate() {
        links.push(link(alloc, place, *joint)?)?;
    }
    Ok(Seq::from_vec(links))
}

fn customers(alloc: Global, draft: &Draft) -> Result<Seq<CustomerPlan>, Memory> {
    let mut customers = Vec::new(alloc);
    for (place, site) in draft.customers.iter().enumerate() {
        customers.push(customer(alloc, place, *site)?)?;
    }
    Ok(Seq::from_vec(customers))
}

/// The VIDs of red and blue.
const VIDS: &[u16] = &[100, 200];

/// Returns red and blue.
fn services(alloc: Global) -> Result<Seq<ServicePlan>, Memory> {
    let mut services = Vec::new(alloc);
    for (place, vid) in VIDS.iter().enumerate() {
        services.push(service(alloc, place, *vid)?)?;
    }
    Ok(Seq::from_vec(services))
}

/// Returns the plan of a draft, as yet without lists.
fn bare(alloc: Global, draft: &Draft) -> Plan {
    Plan {
        bridges: Seq::from_vec(Vec::new(alloc)),
        links: Seq::from_vec(Vec::new(alloc)),
        services: Seq::from_vec(Vec::new(alloc)),
        customers: Seq::from_vec(Vec::new(alloc)),
        spanning: draft.spanning,
        prompt: false,
        queues: Queues::PerPort,
        ageing: 300,
        ring: draft.ring,
        steps: draft.steps,
    }
}

/// Gives a plan the lists of a draft.
fn fill(alloc: Global, draft: &Draft, plan: &mut Plan) -> Result<(), Memory> {
    plan.bridges = bridges(alloc, draft)?;
    plan.links = links(alloc, draft)?;
    plan.services = services(alloc)?;
    plan.customers = customers(alloc, draft)?;
    Ok(())
}

/// Returns the plan of a draft.
pub(super) fn plan_of(alloc: Global, draft: &Draft) -> Result<Plan, Memory> {
    let mut plan = bare(alloc, draft);
    fill(alloc, draft, &mut plan)?;
    Ok(plan)
}
