//! Networks that only count their steps, beside networks that keep them: the same results, the same counts.

use super::draft::Draft;
use super::expected::event_of;
use super::networks::{BROADCAST, JOINED};
use super::plans::plan_of;
use super::rows::Act;
use pb_frame::Memory;
use pb_history::{Tallies, Tally};
use pb_lan::plan_is_sound;
use pb_net::{Did, Net, NetFault};
use std::alloc::Global;
use std::process::Abort;
use std::test::Fail;

/// A broadcast crosses the link and leaves, between a tick, a port that is disabled, and events that are idle or
/// refused.
const ACTS: &[Act] = &[
    Act::Poll(1, BROADCAST),
    Act::Poll(1, BROADCAST),
    Act::Feed(1),
    Act::Feed(3),
    Act::Receive(1, 2),
    Act::Transmit(1, 1),
    Act::Take(1),
    Act::Take(1),
    Act::Put(1),
    Act::Put(5),
    Act::Tick(2),
    Act::Receive(2, 1),
    Act::Transmit(2, 2),
    Act::Deliver(2),
    Act::Deliver(2),
    Act::Admin(1, 1, false),
    Act::Admin(1, 2, false),
    Act::Poll(1, BROADCAST),
    Act::Feed(1),
    Act::Receive(1, 2),
];

/// Each place of the two bridges takes three steps.
const FEW_STEPS: Draft = Draft { steps: 3, ..JOINED };

/// Returns what a tally counts.
fn counts(tally: &Tally) -> (u64, u64, u64, u64, u64) {
    let (entered, left) = (tally.entered(), tally.left());
    let (taken, lost) = (tally.taken(), tally.lost());
    (tally.len(), entered, left, taken, lost)
}

/// Checks whether tallies count the same.
fn are_same(some: &[Tally], others: &[Tally]) -> bool {
    for (place, tally) in some.iter().enumerate() {
        match others.get(place) {
            Some(other) if counts(tally) == counts(other) => {}
            _ => return false,
        }
    }
    some.len() == others.len()
}

/// Checks whether the tallies of all places count the same.
fn agree(some: &Tallies, others: &Tallies) -> bool {
    are_same(some.bridges(), others.bridges())
        && are_same(some.lanes(), others.lanes())
        && are_same(some.customers(), others.customers())
}

/// Returns the results of the acts in a network, in order.
fn results(alloc: Global, net: &mut Net) -> Result<Vec<Result<Did, NetFault>>, Memory> {
    let mut results = Vec::new(alloc);
    for act in ACTS {
        results.push(net.step(event_of(*act)))?;
    }
    Ok(results)
}

/// Checks that a network that counts has the results and the counts of one that keeps its steps.
fn count_alike(rt: &impl Abort, alloc: Global, draft: &Draft) -> Result<(), Fail> {
    let plan = plan_of(alloc, draft)?;
    assert!(rt; plan_is_sound(&plan));
    let mut kept = Net::new(alloc, plan.clone()?)?;
    let mut counting = Net::counting(alloc, plan)?;
    assert!(rt; kept.keeps_steps());
    assert!(rt; !counting.keeps_steps());
    let wanted = results(alloc, &mut kept)?;
    assert_eq!(rt; results(alloc, &mut counting)?, wanted);
    let copy = counting.clone()?;
    assert!(rt; !copy.keeps_steps());
    let tallies = kept.tallies()?;
    assert!(rt; agree(&counting.tallies()?, &tallies));
    assert!(rt; agree(&copy.tallies()?, &tallies));
    Ok(())
}

#[test]
fn a_counting_network_does_what_one_with_steps_does(rt: HostRuntime) -> Result<(), Fail> {
    count_alike(&rt, rt.alloc(), &JOINED)?;
    count_alike(&rt, rt.alloc(), &FEW_STEPS)
}

#[test]
fn the_counts_are_those_of_the_record(rt: HostRuntime) -> Result<(), Fail> {
    let plan = plan_of(rt.alloc(), &JOINED)?;
    assert!(rt; plan_is_sound(&plan));
    let mut net = Net::new(rt.alloc(), plan)?;
    let _results = results(rt.alloc(), &mut net)?;
    let copy = net.clone()?;
    assert!(rt; net.keeps_steps());
    let record = net.finish();
    assert!(rt; agree(&copy.tallies()?, &Tallies::of(rt.alloc(), &record)?));
    Ok(())
}
