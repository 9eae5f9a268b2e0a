//! Generated networks: trees of bridges, some with a further link that is Discarding at an end.

use bytes::Bytes;
use pb_frame::{Mac, Memory, Seq, Text};
use pb_lan::{
    BridgePlan, CustomerPlan, End, LinkPlan, Plan, PortState, Queues, ServicePlan, Spanning,
};
use std::alloc::Global;
use std::collections::VecDeque;

/// Numbers that a seed determines: the linear congruential generator of MMIX.
#[derive(Drop)]
pub(super) struct Dice {
    state: u64,
}

impl Dice {
    /// Returns the numbers of a seed.
    pub(super) fn new(seed: u64) -> Dice {
        Dice { state: seed }
    }

    /// Returns the next number. It is below 240.
    fn number(&mut self) -> u8 {
        self.state = self
            .state
            .wrapping_mul(6_364_136_223_846_793_005)
            .wrapping_add(1_442_695_040_888_963_407);
        ((self.state >> 33) % 240) as u8
    }
}

/// Returns a name with a number.
fn name(alloc: Global, word: &str, number: u8) -> Result<Text, Memory> {
    Ok(Text::from_string(format!(in alloc; "{word}{number}")?))
}

/// Returns this many bridges.
fn bridges(alloc: Global, count: u8, queue: u16) -> Result<Seq<BridgePlan>, Memory> {
    let mut bridges = Vec::new(alloc);
    for number in 1..=count {
        bridges.push(BridgePlan {
            name: name(alloc, "B", number)?,
            address: Mac([2, 0, 0, 0, 0, number]),
            priority: 32_768,
            queue,
        })?;
    }
    Ok(Seq::from_vec(bridges))
}

/// Returns the end of a link.
fn end(bridge: u8, port: u8, start: PortState) -> End {
    End {
        bridge,
        port,
        cost: 20_000,
        priority: 128,
        start,
        services: None,
    }
}

/// Returns a link between two ends.
fn link(alloc: Global, number: u8, a: End, b: End) -> Result<LinkPlan, Memory> {
    Ok(LinkPlan {
        name: name(alloc, "L", number)?,
        a,
        b,
        lost_ab: Seq::from_vec(Vec::new(alloc)),
        lost_ba: Seq::from_vec(Vec::new(alloc)),
    })
}

/// Returns a link from each bridge but the first to one before it, and in half of the networks one from the first to
/// the last that is Discarding at its first end.
fn links(alloc: Global, dice: &mut Dice, count: u8) -> Result<Seq<LinkPlan>, Memory> {
    let mut links = Vec::new(alloc);
    for place in 1..count {
        let before = place.saturating_sub(1);
        let parent = (dice.number() % 4).min(before).saturating_add(1);
        let a = end(parent, place, PortState::Forwarding);
        let b = end(place.saturating_add(1), 5, PortState::Forwarding);
        links.push(link(alloc, place, a, b)?)?;
    }
    if dice.number() % 2 == 1 {
        let a = end(1, 6, PortState::Discarding);
        let b = end(count, 7, PortState::Forwarding);
        links.push(link(alloc, count, a, b)?)?;
    }
    Ok(Seq::from_vec(links))
}

/// Returns a customer port.
fn customer(
    alloc: Global,
    number: u8,
    (bridge, port): (u8, u8),
    service: u8,
) -> Result<CustomerPlan, Memory> {
    Ok(CustomerPlan {
        name: name(alloc, "C", number)?,
        bridge,
        port,
        service,
        pcp: 0,
        queue: 64,
    })
}

/// Returns one or two customer ports of each bridge.
fn customers(alloc: Global, dice: &mut Dice, count: u8) -> Result<Seq<CustomerPlan>, Memory> {
    let mut customers = Vec::new(alloc);
    let mut number = 0u8;
    for bridge in 1..=count {
        for port in 8..10 - dice.number() % 2 {
            number = number.saturating_add(1);
            let service = dice.number() % 2 + 1;
            customers.push(customer(alloc, number, (bridge, port), service)?)?;
        }
    }
    Ok(Seq::from_vec(customers))
}

/// Returns the services red and blue.
fn services(alloc: Global) -> Result<Seq<ServicePlan>, Memory> {
    let mut services = Vec::new(alloc);
    for (number, vid) in [(1u8, 100u16), (2, 200)] {
        services.push(ServicePlan {
            name: name(alloc, "S", number)?,
            vid,
        })?;
    }
    Ok(Seq::from_vec(services))
}

/// Returns a network of two to five bridges. A lossless run of it has queues of two frames.
pub(super) fn plan_of(alloc: Global, seed: u64, is_lossless: bool) -> Result<Plan, Memory> {
    let mut dice = Dice::new(seed);
    let count = dice.number() % 4 + 2;
    let room = if is_lossless { 2u16 } else { 64 };
    Ok(Plan {
        bridges: bridges(alloc, count, room)?,
        links: links(alloc, &mut dice, count)?,
        services: services(alloc)?,
        customers: customers(alloc, &mut dice, count)?,
        spanning: Spanning::Fixed,
        prompt: false,
        queues: Queues::PerPort,
        ageing: 300,
        ring: room,
        steps: 1_000_000,
    })
}

/// Returns a frame to all stations, to a group or to a reserved address, with its own octets.
fn frame(alloc: Global, dice: &mut Dice, customer: u8, number: u8) -> Result<Bytes, Memory> {
    let mut octets = Vec::new(alloc);
    let target = match dice.number() % 4 {
        0 => [1, 0, 94, 0, 0, 1],
        1 => [1, 128, 194, 0, 0, 3],
        _ => [255, 255, 255, 255, 255, 255],
    };
    octets.extend_from_slice(&target)?;
    octets.extend_from_slice(&[2, 0, 0, 0, customer, 1, 8, 0, customer, number])?;
    Ok(Bytes::copy_from_slice(alloc, octets.as_slice())?)
}

/// Returns up to four frames of a customer port.
pub(super) fn script_of(
    alloc: Global,
    dice: &mut Dice,
    customer: u8,
) -> Result<VecDeque<Bytes>, Memory> {
    let mut script = VecDeque::new(alloc);
    for number in 0..dice.number() % 5 {
        script.push_back(frame(alloc, dice, customer, number)?)?;
    }
    Ok(script)
}
