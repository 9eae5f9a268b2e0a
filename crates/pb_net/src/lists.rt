//! The lists of a network's record, allocated before its first step.

ghost use Rattle.std.specs.List.{AllByRecursion};
ghost use Rattle.std.specs.Prelude.{◌≡◌, ◌≤◌, [], true, map, length, vec_capacity, IfOk};
ghost use Rattle.pb_net.specs.Lists.{AreEmpty};

use pb_frame::Seq;
use pb_lan::Step;
use pb_link::{CustomerPlace, Lane};
use pb_relay::Bridge;
use std::alloc::{AllocError, Global};

/// Empty lists with capacity for each place. They let `Net::finish` gather the record without an allocation.
#[derive(Drop)]
pub(crate) struct Lists {
    /// The list for each bridge.
    pub bridges: Vec<Seq<Step>>,
    /// The list for each lane.
    pub lanes: Vec<Seq<Step>>,
    /// The list for each customer port.
    pub customers: Vec<Seq<Step>>,
}

impl Lists {
    /// Allocates empty lists for these numbers of bridges, lanes and customer ports.
    pub(crate) fn empty(
        alloc: Global,
        bridges: usize,
        lanes: usize,
        customers: usize,
    ) -> Result<Lists, AllocError>
        ensures { IfOk result (AreEmpty bridges lanes customers) }
    {
        Ok(Lists {
            bridges: Vec::with_capacity(alloc, bridges)?,
            lanes: Vec::with_capacity(alloc, lanes)?,
            customers: Vec::with_capacity(alloc, customers)?,
        })
    }
}

/// Moves the steps of each bridge into `lists`, and returns these.
pub(crate) fn bridge_steps(bridges: Vec<Bridge>, mut lists: Vec<Seq<Step>>) -> Seq<Seq<Step>>
    requires empty { lists.items ≡ [] }
    requires room { length bridges.items ≤ vec_capacity lists }
    requires kept { AllByRecursion (λ b. b.is_kept ≡ true) bridges.items }
    ensures { result ≡ map (λ b. b.steps) bridges.items }
{
    for bridge in bridges {
        let _ = lists.push(Seq::from_vec(bridge.into_steps().into_vec()));
    }
    Seq::from_vec(lists)
}

/// Moves the steps of each lane into `lists`, and returns these.
pub(crate) fn lane_steps(lanes: Vec<Lane>, mut lists: Vec<Seq<Step>>) -> Seq<Seq<Step>>
    requires empty { lists.items ≡ [] }
    requires room { length lanes.items ≤ vec_capacity lists }
    requires kept { AllByRecursion (λ l. l.is_kept ≡ true) lanes.items }
    ensures { result ≡ map (λ l. l.steps) lanes.items }
{
    for lane in lanes {
        let _ = lists.push(Seq::from_vec(lane.into_steps().into_vec()));
    }
    Seq::from_vec(lists)
}

/// Moves the steps of each customer port into `lists`, and returns these.
pub(crate) fn customer_steps(
    customers: Vec<CustomerPlace>,
    mut lists: Vec<Seq<Step>>,
) -> Seq<Seq<Step>>
    requires empty { lists.items ≡ [] }
    requires room { length customers.items ≤ vec_capacity lists }
    requires kept { AllByRecursion (λ p. p.is_kept ≡ true) customers.items }
    ensures { result ≡ map (λ p. p.steps) customers.items }
{
    for customer in customers {
        let _ = lists.push(Seq::from_vec(customer.into_steps().into_vec()));
    }
    Seq::from_vec(lists)
}
