//! The contents of accepted files.

ghost use Rattle.std.specs.Prelude.{◌≡◌, IfOk};
ghost use Rattle.pb_service.specs.PlanFiles.{Tells, network_row};
ghost use Rattle.pb_service.specs.Tables.{limits_told};

use super::NETWORK;
use bytes::Bytes;
use pb_frame::Text;
use pb_lan::{
    BridgePlan, CustomerPlan, End, LinkPlan, Mac, Plan, PortState, Queues, Seq, ServicePlan,
    Spanning,
};
use pb_service::{Limits, PlanFault, PortEvent, PortSpec, read_limits, read_plan, read_plan_file};
use std::alloc::Global;
use std::fmt::Write;

/// Calls `read_limits`. Its contract says that the limits are those of the network's keys, with the defaults.
fn limits_of(alloc: Global, file: &[u8]) -> Result<Limits, PlanFault>
    ensures { IfOk result (λ limits. Tells file.now (λ document. limits ≡ limits_told (network_row document))) }
{
    read_limits(alloc, file)
}

/// Returns whether these are the bridges of the network, with the defaults for missing keys.
fn are_bridges(bridges: &[BridgePlan]) -> bool {
    let [first, second] = bridges else {
        return false;
    };
    first.name.as_str() == "B1"
        && second.address == Mac([2, 0, 0, 0, 0, 2])
        && first.priority == 32_768
        && first.queue == 64
}

/// Returns whether these are the services of the network.
fn are_services(services: &[ServicePlan]) -> bool {
    let [_, second] = services else {
        return false;
    };
    second.name.as_str() == "blue" && second.vid == 200
}

/// Returns whether the plan has the defaults of the network.
fn has_defaults(plan: &Plan) -> bool {
    plan.spanning == Spanning::Fixed
        && plan.queues == Queues::PerPort
        && plan.ageing == 300
        && plan.ring == 64
        && plan.steps == u64::MAX
}

#[test]
fn the_network_has_its_bridges_and_services(rt: HostRuntime) -> Result<(), PlanFault> {
    let (plan, ports) = read_plan(rt.alloc(), NETWORK.as_bytes())?;
    assert!(rt; are_bridges(plan.bridges.as_slice()));
    assert!(rt; are_services(plan.services.as_slice()));
    assert!(rt; has_defaults(&plan) && ports.len() == 3);
    Ok(())
}

/// Returns whether an end is at this port, and else has the defaults.
fn is_end_at(end: &End, bridge: u8, port: u8) -> bool {
    end.bridge == bridge
        && end.port == port
        && end.cost == 20_000
        && end.priority == 128
        && end.start == PortState::Forwarding
        && end.services.is_none()
}

/// Returns whether this is the only link of the network.
fn are_links(links: &[LinkPlan]) -> bool {
    let [link] = links else {
        return false;
    };
    link.name.as_str() == "L1"
        && is_end_at(&link.a, 1, 1)
        && is_end_at(&link.b, 2, 1)
        && link.lost_ab.len() == 0
}

/// Returns whether these are the customer ports of the network, the last one with its keys.
fn are_customers(customers: &[CustomerPlan]) -> bool {
    let [_, _, last] = customers else {
        return false;
    };
    last.name.as_str() == "C3"
        && last.bridge == 2
        && last.port == 3
        && last.service == 2
        && last.pcp == 0
        && last.queue == 64
}

/// Returns whether there are three ports, of which the last is this one.
pub(super) fn are_ports(ports: &[PortSpec], want: &PortSpec) -> bool {
    match ports {
        [_, _, last] => last == want,
        _ => false,
    }
}

#[test]
fn the_network_has_its_link_and_ports(rt: HostRuntime) -> Result<(), PlanFault> {
    let want = PortSpec::Memory(Seq::from_vec(Vec::new(rt.alloc())));
    let (plan, ports) = read_plan(rt.alloc(), NETWORK.as_bytes())?;
    assert!(rt; are_links(plan.links.as_slice()));
    assert!(rt; are_customers(plan.customers.as_slice()));
    assert!(rt; are_ports(&ports, &want));
    Ok(())
}

/// A file, and its limits.
type Asked = (&'static str, Limits);

/// The limits of a file that gives none.
const UNSAID: Limits = Limits {
    turns: u64::MAX,
    tick_every: 0,
    tick_ms: 0,
    hold: 0,
};

/// Files with their limits.
const LIMITS: &[Asked] = &[
    (NETWORK, UNSAID),
    ("", UNSAID),
    (
        "[network]\nturns = 7\ntick_every = 5\n",
        Limits {
            turns: 7,
            tick_every: 5,
            ..UNSAID
        },
    ),
    (
        "[network]\nhold = 11\ntick_ms = 3\n",
        Limits {
            tick_ms: 3,
            hold: 11,
            ..UNSAID
        },
    ),
    (
        "[network]\nhold = 2\ntick_every = 9\ntick_ms = 0\n",
        Limits {
            tick_every: 9,
            hold: 2,
            ..UNSAID
        },
    ),
];

#[test]
fn limits_are_read_or_have_defaults(rt: HostRuntime) -> Result<(), PlanFault> {
    for (file, limits) in LIMITS {
        let told = limits_of(rt.alloc(), file.as_bytes())?;
        assert!(rt; told == *limits, "{file}");
    }
    Ok(())
}

/// Events that follow the network's file, and their values in the order of the file.
const EVENTS: (&str, &[PortEvent]) = (
    "[[event]]\nat = 4294967295\nbridge = \"B2\"\nport = 1\nup = true\n[[event]]\nat = 0\nbridge = \"B1\"\nport = 1\n\
    up = false\n",
    &[
        PortEvent {
            at: 4_294_967_295,
            bridge: 2,
            port: 1,
            up: true,
        },
        PortEvent {
            at: 0,
            bridge: 1,
            port: 1,
            up: false,
        },
    ],
);

/// Returns the number of bridges and ports of the network's file with these events, and whether the turns have no limit
/// and the events are these.
fn told_with(
    alloc: Global,
    (tables, events): (&str, &[PortEvent]),
) -> Result<(usize, usize, bool), PlanFault> {
    let text = format!(in alloc; "{NETWORK}{tables}")?;
    let file = read_plan_file(alloc, text.as_bytes())?;
    let are_told = file.limits == UNSAID && file.events.as_slice() == events;
    Ok((file.plan.bridges.len(), file.ports.len(), are_told))
}

#[test]
fn events_are_read_in_order(rt: HostRuntime) -> Result<(), PlanFault> {
    assert_eq!(rt; told_with(rt.alloc(), EVENTS)?, (2, 3, true));
    assert_eq!(rt; told_with(rt.alloc(), ("", &[]))?, (2, 3, true));
    Ok(())
}

/// Files whose limits are refused.
const WRONG: &[&str] = &[
    "[network]\nturns = 0\n",
    "bridge = 1",
    "[network]\ntick_every = 1\ntick_ms = 1\n",
    "[network]\nhold = 1\n",
];

#[test]
fn limits_of_a_wrong_file_are_refused(rt: HostRuntime) {
    for file in WRONG {
        assert!(rt; read_limits(rt.alloc(), file.as_bytes()).is_err(), "{file}");
    }
}

/// A link with every key, between two ports of one bridge.
const LINK: &str = "\
[network]
spanning = \"rstp\"
[[bridge]]
name = \"B\"
address = \"02-00-00-00-00-01\"
[[link]]
name = \"L\"
a = \"B\"
a_port = 1
b = \"B\"
b_port = 2
a_cost = 3
b_cost = 4
a_priority = 16
b_priority = 32
a_state = \"discarding\"
b_state = \"learning\"
a_services = [\"blue\", \"red\"]
b_services = []
lost_ab = [0, 5]
lost_ba = [1, 2, 9223372036854775807]
[[service]]
name = \"red\"
vid = 1
[[service]]
name = \"green\"
vid = 2
[[service]]
name = \"blue\"
vid = 3
";

/// Returns whether an end has these values.
fn has_keys(end: &End, cost: u32, priority: u8, start: PortState) -> bool {
    end.cost == cost && end.priority == priority && end.start == start
}

/// Returns whether the ends of the only link have the values of their keys.
fn have_keys(links: &[LinkPlan]) -> bool {
    let [link] = links else {
        return false;
    };
    has_keys(&link.a, 3, 16, PortState::Discarding) && has_keys(&link.b, 4, 32, PortState::Learning)
}

#[test]
fn ends_have_their_keys(rt: HostRuntime) -> Result<(), PlanFault> {
    let (plan, _) = read_plan(rt.alloc(), LINK.as_bytes())?;
    assert!(rt; plan.spanning == Spanning::Rstp && have_keys(plan.links.as_slice()));
    Ok(())
}

/// The values of the key `queues`, with either value of `spanning`.
const QUEUES: &[(&str, Queues)] = &[
    ("queues = \"port\"", Queues::PerPort),
    ("queues = \"class\"", Queues::PerClass),
    ("spanning = \"rstp\"\nqueues = \"port\"", Queues::PerPort),
    ("spanning = \"rstp\"\nqueues = \"class\"", Queues::PerClass),
];

#[test]
fn a_queue_counts_what_its_key_names(rt: HostRuntime) -> Result<(), PlanFault> {
    for (keys, queues) in QUEUES {
        let file = format!(in rt.alloc(); "[network]\n{keys}\n")?;
        let (plan, _) = read_plan(rt.alloc(), file.as_bytes())?;
        assert!(rt; plan.queues == *queues, "{keys}");
    }
    Ok(())
}

/// Returns whether an end carries these services.
fn is_for(end: &End, services: &[u8]) -> bool {
    match &end.services {
        Some(listed) => listed.as_slice() == services,
        None => false,
    }
}

/// The items that the link loses from A to B.
const LOST_AB: &[u64] = &[0, 5];

/// The items that the link loses from B to A.
const LOST_BA: &[u64] = &[1, 2, 9_223_372_036_854_775_807];

/// Returns whether the only link has its lists.
fn have_lists(links: &[LinkPlan]) -> bool {
    let [link] = links else {
        return false;
    };
    is_for(&link.a, &[1, 3])
        && is_for(&link.b, &[])
        && link.lost_ab.as_slice() == LOST_AB
        && link.lost_ba.as_slice() == LOST_BA
}

#[test]
fn links_have_their_lists(rt: HostRuntime) -> Result<(), PlanFault> {
    let (plan, _) = read_plan(rt.alloc(), LINK.as_bytes())?;
    assert!(rt; have_lists(plan.links.as_slice()));
    Ok(())
}

/// Appends a table of the largest plan.
fn put_table(text: &mut String, head: &str, number: u8, rest: &str) -> Result<(), PlanFault> {
    write!(text, "[[{head}]]\nname = \"{head}-{number}\"\n{rest}\n")?;
    Ok(())
}

/// Appends the bridges and services of the largest plan.
fn put_bridges(alloc: Global, text: &mut String) -> Result<(), PlanFault> {
    for i in 0..32u8 {
        put_table(
            text,
            "bridge",
            i,
            format!(in alloc; "address = \"02-00-00-00-00-{i:02x}\"")?.as_str(),
        )?;
    }
    for i in 0..64u8 {
        put_table(
            text,
            "service",
            i,
            format!(in alloc; "vid = 10{i}")?.as_str(),
        )?;
    }
    Ok(())
}

/// Appends the links and customer ports of the largest plan.
fn put_ports(alloc: Global, text: &mut String) -> Result<(), PlanFault> {
    for i in 0..64u8 {
        let (a, b, port) = (i % 32, (i % 32 + 1) % 32, 1 + i / 32 * 2);
        let rest = format!(in alloc;
            "a = \"bridge-{a}\"\na_port = {port}\nb = \"bridge-{b}\"\nb_port = 1{port}\nb_services = [\"service-{i}\"]"
        )?;
        put_table(text, "link", i, rest.as_str())?;
    }
    for i in 0..128u8 {
        let (bridge, service, port) = (i % 32, i % 64, 5 + i / 32);
        let rest = format!(in alloc;
            "bridge = \"bridge-{bridge}\"\nservice = \"service-{service}\"\nport = {port}"
        )?;
        put_table(text, "port", i, rest.as_str())?;
    }
    Ok(())
}

/// Returns the number of bridges, links, services and customer ports.
fn sizes(plan: &Plan) -> (usize, usize, usize, usize) {
    let (bridges, links) = (plan.bridges.len(), plan.links.len());
    (bridges, links, plan.services.len(), plan.customers.len())
}

#[test]
fn the_largest_plan_is_read(rt: HostRuntime) -> Result<(), PlanFault> {
    let alloc = rt.alloc();
    let mut text = String::new(alloc);
    put_bridges(alloc, &mut text)?;
    put_ports(alloc, &mut text)?;
    let (plan, ports) = read_plan(alloc, text.as_bytes())?;
    assert_eq!(rt; sizes(&plan), (32, 64, 64, 128));
    assert_eq!(rt; ports.len(), 128);
    Ok(())
}
