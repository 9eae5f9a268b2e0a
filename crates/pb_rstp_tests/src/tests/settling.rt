//! Tests of whether bridges are settled, and whether they have converged.

use super::two::agreed;
use super::{PROPOSAL, first_with, heard, with_one_port};
use pb_lan::{BridgePlan, End, LinkPlan, Mac, Plan, PortState, Queues, Seq, Spanning, Text};
use pb_rstp::{Rstp, is_converged, is_settled};
use std::alloc::{AllocError, Global};
use std::test::Fail;

fn text(alloc: Global, name: &str) -> Result<Text, AllocError> {
    Ok(Text::from_string(String::from_str(alloc, name)?))
}

/// Returns the bridge with the address that ends in this octet.
fn planned(alloc: Global, name: &str, last: u8) -> Result<BridgePlan, AllocError> {
    Ok(BridgePlan {
        name: text(alloc, name)?,
        address: Mac([2, 0, 0, 0, 0, last]),
        priority: 32768,
        queue: 64,
    })
}

fn end(bridge: u8, port: u8) -> End {
    End {
        bridge,
        port,
        cost: 20_000,
        priority: 128,
        start: PortState::Discarding,
        services: None,
    }
}

/// A link between two ports, each of a bridge.
pub(crate) type Joint = (&'static str, (u8, u8), (u8, u8));

/// Returns a link that loses nothing.
fn link(alloc: Global, (name, a, b): Joint) -> Result<LinkPlan, AllocError> {
    Ok(LinkPlan {
        name: text(alloc, name)?,
        a: end(a.0, a.1),
        b: end(b.0, b.1),
        lost_ab: Seq::from_vec(Vec::new(alloc)),
        lost_ba: Seq::from_vec(Vec::new(alloc)),
    })
}

fn links(alloc: Global, joints: &[Joint]) -> Result<Seq<LinkPlan>, AllocError> {
    let mut links = Vec::new(alloc);
    for joint in joints {
        links.push(link(alloc, *joint)?)?;
    }
    Ok(Seq::from_vec(links))
}

/// Returns three bridges.
fn bridges(alloc: Global) -> Result<Seq<BridgePlan>, AllocError> {
    let mut bridges = Vec::new(alloc);
    bridges.push(planned(alloc, "B1", 1)?)?;
    bridges.push(planned(alloc, "B2", 2)?)?;
    bridges.push(planned(alloc, "B3", 3)?)?;
    Ok(Seq::from_vec(bridges))
}

/// Returns the plan of three bridges, of which the first ones are joined by these links.
pub(crate) fn plan(alloc: Global, joints: &[Joint]) -> Result<Plan, AllocError> {
    Ok(Plan {
        bridges: bridges(alloc)?,
        links: links(alloc, joints)?,
        services: Seq::from_vec(Vec::new(alloc)),
        customers: Seq::from_vec(Vec::new(alloc)),
        spanning: Spanning::Rstp,
        prompt: false,
        queues: Queues::PerPort,
        ageing: 300,
        ring: 64,
        steps: 1_000_000,
    })
}

/// Port 1 of the first bridge to port 1 of the second.
const PAIR: &[Joint] = &[("L1", (1, 1), (2, 1))];

/// Checks whether the two bridges are settled.
fn are_settled(alloc: Global, first: &Rstp, second: &Rstp) -> Result<bool, AllocError> {
    let plan = plan(alloc, PAIR)?;
    Ok(is_settled(&[first, second], &plan))
}

/// Checks whether the two bridges have converged.
fn have_converged(alloc: Global, first: &Rstp, second: &Rstp) -> Result<bool, AllocError> {
    let plan = plan(alloc, PAIR)?;
    Ok(is_converged(&[first, second], &plan))
}

#[test]
fn two_bridges_settle_by_a_proposal(rt: HostRuntime) -> Result<(), Fail> {
    let mut first = with_one_port(rt.alloc(), 1)?;
    let second = with_one_port(rt.alloc(), 2)?;
    assert!(rt; !are_settled(rt.alloc(), &first, &second)?);
    let _ = first.tick()?;
    assert!(rt; !are_settled(rt.alloc(), &first, &second)?);
    let (second, _) = agreed(rt.alloc())?;
    assert!(rt; are_settled(rt.alloc(), &first, &second)?);
    Ok(())
}

/// The roles agree before the first bridge hears the agreement, and its Designated port is Discarding until then.
#[test]
fn settled_bridges_converge_by_an_agreement(rt: HostRuntime) -> Result<(), Fail> {
    let mut first = with_one_port(rt.alloc(), 1)?;
    let _ = first.tick()?;
    let (second, _) = agreed(rt.alloc())?;
    assert!(rt; are_settled(rt.alloc(), &first, &second)?);
    assert!(rt; !have_converged(rt.alloc(), &first, &second)?);
    let first = first_at_the_end(rt.alloc())?;
    assert!(rt; have_converged(rt.alloc(), &first, &second)?);
    Ok(())
}

/// Returns the second bridge after the exchange.
fn second_at_the_end(alloc: Global) -> Result<Rstp, Fail> {
    let (mut second, _) = agreed(alloc)?;
    let _ = second.hear(1, &heard(&first_with(0x3d))?)?;
    Ok(second)
}

/// Returns the first bridge after the exchange.
fn first_at_the_end(alloc: Global) -> Result<Rstp, Fail> {
    let mut first = with_one_port(alloc, 1)?;
    let _ = first.tick()?;
    let (_, answer) = agreed(alloc)?;
    if let [(_, m)] = answer.send.as_slice() {
        let _ = first.hear(1, m)?;
    }
    Ok(first)
}

#[test]
fn six_silent_ticks_unsettle_them(rt: HostRuntime) -> Result<(), Fail> {
    let first = first_at_the_end(rt.alloc())?;
    let mut second = second_at_the_end(rt.alloc())?;
    assert!(rt; are_settled(rt.alloc(), &first, &second)?);
    for _ in 0..6u8 {
        let _ = second.tick()?;
    }
    assert!(rt; !are_settled(rt.alloc(), &first, &second)?);
    Ok(())
}

#[test]
fn a_link_with_an_end_down_is_settled(rt: HostRuntime) -> Result<(), Fail> {
    let mut first = with_one_port(rt.alloc(), 1)?;
    let second = with_one_port(rt.alloc(), 2)?;
    let _ = first.admin(1, false)?;
    assert!(rt; are_settled(rt.alloc(), &first, &second)?);
    Ok(())
}

#[test]
fn an_end_that_is_enabled_alone_converges_once_what_it_heard_has_aged_out(
    rt: HostRuntime,
) -> Result<(), Fail> {
    let mut first = first_at_the_end(rt.alloc())?;
    let mut second = second_at_the_end(rt.alloc())?;
    let _ = first.admin(1, false)?;
    for _ in 0..5u8 {
        assert!(rt; !have_converged(rt.alloc(), &first, &second)?);
        let _ = second.tick()?;
    }
    assert!(rt; !have_converged(rt.alloc(), &first, &second)?);
    let _ = second.tick()?;
    assert!(rt; have_converged(rt.alloc(), &first, &second)?);
    assert!(rt; have_converged(rt.alloc(), &second, &first)?);
    Ok(())
}

#[test]
fn roles_alone_do_not_settle(rt: HostRuntime) -> Result<(), Fail> {
    let first = with_one_port(rt.alloc(), 1)?;
    let mut second = with_one_port(rt.alloc(), 2)?;
    let mut m = heard(&PROPOSAL)?;
    m.cost = 1;
    let _ = second.hear(1, &m)?;
    assert!(rt; second.roles() == [(1, pb_rstp::Role::Root)].as_slice());
    assert!(rt; !are_settled(rt.alloc(), &first, &second)?);
    Ok(())
}
