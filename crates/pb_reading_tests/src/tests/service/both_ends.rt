//! The keys `cost` and `services` of a link, which are for both ends.

use super::NETWORK;
use super::faults::{Change, all_change};
use pb_lan::{End, Plan};
use pb_service::{PlanFault, read_plan};
use std::alloc::Global;

#[test]
fn keys_for_both_ends_are_checked(rt: HostRuntime) -> Result<(), PlanFault> {
    const CHANGES: &[Change] = &[
        ("b_port = 1", "b_port = 1\ncost = 1", "0 ok"),
        ("b_port = 1", "b_port = 1\nservices = []", "0 ok"),
        (
            "b_port = 1",
            "b_port = 1\ncost = \"1\"",
            "4 kind link[0].cost",
        ),
        (
            "b_port = 1",
            "b_port = 1\nservices = \"red\"",
            "4 kind link[0].services",
        ),
        (
            "b_port = 1",
            "b_port = 1\nservices = [\"red\", 1]",
            "4 kind link[0].services",
        ),
        (
            "b_port = 1",
            "b_port = 1\nservices = [\"red\", \"red\"]",
            "5 range link[0].services",
        ),
        (
            "b_port = 1",
            "b_port = 1\nservices = [\"r d\"]",
            "5 range link[0].services",
        ),
        (
            "b_port = 1",
            "b_port = 1\nservices = [\"blue\", \"green\"]",
            "8 no-such green",
        ),
        (
            "b_port = 1",
            "b_port = 1\npriority = 16",
            "6 unknown link[0].priority",
        ),
    ];
    all_change(&rt, rt.alloc(), CHANGES)
}

#[test]
fn an_end_has_no_key_of_its_own_beside_that_for_both(rt: HostRuntime) -> Result<(), PlanFault> {
    const CHANGES: &[Change] = &[
        (
            "b_port = 1",
            "b_port = 1\ncost = 1\na_cost = 1",
            "5 range link[0].a_cost",
        ),
        (
            "b_port = 1",
            "b_port = 1\nb_cost = 1\ncost = 1",
            "5 range link[0].b_cost",
        ),
        (
            "b_port = 1",
            "b_port = 1\nservices = []\na_services = []",
            "5 range link[0].a_services",
        ),
        (
            "b_port = 1",
            "b_port = 1\nservices = [\"red\"]\nb_services = [\"red\"]",
            "5 range link[0].b_services",
        ),
        (
            "b_port = 1",
            "b_port = 1\nservices = []\na_services = []\nb_cost = 1\ncost = 1",
            "5 range link[0].b_cost",
        ),
        (
            "b_port = 1",
            "b_port = 1\na_cost = 1\nb_services = [\"red\"]",
            "0 ok",
        ),
        (
            "b_port = 1",
            "b_port = 1\ncost = 1\na_services = [\"red\"]",
            "0 ok",
        ),
    ];
    all_change(&rt, rt.alloc(), CHANGES)
}

/// Several faults of a link, and the one that comes first.
#[test]
fn a_key_beside_that_for_both_ends_is_refused_in_order(rt: HostRuntime) -> Result<(), PlanFault> {
    const CHANGES: &[Change] = &[
        // after the keys by themselves, and after unknown ones
        (
            "b_port = 1",
            "b_port = 1\na_cost = 1\ncost = 0",
            "5 range link[0].cost",
        ),
        (
            "b_port = 1",
            "b_port = 1\na_cost = 1\ncost = 1\nlost_ba = [1, 1]",
            "5 range link[0].lost_ba",
        ),
        (
            "b_port = 1",
            "b_port = 1\na_cost = 1\ncost = 1\nzz = 1",
            "6 unknown link[0].zz",
        ),
        // after a name that occurs twice, and before unknown names
        (
            "b_port = 1",
            "b_port = 1\n[[link]]\nname = \"L1\"\na = \"B1\"\na_port = 5\nb = \"B2\"\nb_port = 5\na_cost = 1\ncost = 1",
            "7 twice L1",
        ),
        (
            "b = \"B2\"\nb_port = 1",
            "b = \"B3\"\nb_port = 1\na_cost = 1\ncost = 1",
            "5 range link[0].a_cost",
        ),
        (
            "b_port = 1",
            "b_port = 1\na_services = []\nservices = [\"green\"]",
            "5 range link[0].a_services",
        ),
        // before a local port that is used twice
        (
            "b = \"B2\"\nb_port = 1",
            "b = \"B1\"\nb_port = 1\na_cost = 1\ncost = 1",
            "5 range link[0].a_cost",
        ),
        (
            "b = \"B2\"\nb_port = 1",
            "b = \"B1\"\nb_port = 1\nservices = [\"green\"]",
            "8 no-such green",
        ),
    ];
    all_change(&rt, rt.alloc(), CHANGES)
}

/// Keys for both ends, and the same by the keys of each.
const PAIRS: &[(&str, &str)] = &[
    ("cost = 7", "a_cost = 7\nb_cost = 7"),
    ("cost = 20000", ""),
    (
        "services = [\"blue\"]",
        "a_services = [\"blue\"]\nb_services = [\"blue\"]",
    ),
    ("services = []", "b_services = []\na_services = []"),
    (
        "services = [\"blue\", \"red\"]\ncost = 200000000",
        "a_cost = 200000000\nb_services = [\"red\", \"blue\"]\nb_cost = 200000000\na_services = [\"red\", \"blue\"]",
    ),
    (
        "cost = 1\na_services = [\"red\"]",
        "a_cost = 1\nb_cost = 1\na_services = [\"red\"]",
    ),
];

/// Returns the plan of the network's file with these keys of its link.
fn plan_with(alloc: Global, keys: &str) -> Result<Plan, PlanFault> {
    let (front, back) = NETWORK.split_once("b_port = 1\n").unwrap_or((NETWORK, ""));
    let text = format!(in alloc; "{front}b_port = 1\n{keys}\n{back}")?;
    let (plan, _) = read_plan(alloc, text.as_bytes())?;
    Ok(plan)
}

#[test]
fn both_ways_give_the_same_plan(rt: HostRuntime) -> Result<(), PlanFault> {
    for (both, own) in PAIRS {
        let plan = plan_with(rt.alloc(), both)?;
        let same = plan_with(rt.alloc(), own)?;
        assert!(rt; plan == same, "{both}");
    }
    Ok(())
}

/// Returns whether an end has this cost and these services.
fn has(end: &End, cost: u32, services: &[u8]) -> bool {
    match &end.services {
        Some(listed) => end.cost == cost && listed.as_slice() == services,
        None => false,
    }
}

#[test]
fn a_key_for_both_ends_is_that_of_each(rt: HostRuntime) -> Result<(), PlanFault> {
    let plan = plan_with(rt.alloc(), "cost = 7\nservices = [\"blue\"]")?;
    let [link] = plan.links.as_slice() else {
        return Err(PlanFault::LinkEnd);
    };
    assert!(rt; has(&link.a, 7, &[2]) && has(&link.b, 7, &[2]));
    Ok(())
}
