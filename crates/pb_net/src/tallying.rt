//! The counts of a network's steps.

ghost use Rattle.std.specs.Prelude.{◌≡◌, map, IfOk};
ghost use Rattle.pb_lan.specs.Headline.{IsFaithful};
ghost use Rattle.pb_lan.specs.Records.{IsLawfulRecord};
ghost use Rattle.pb_relay.specs.Protocol.{spanning_tree};

use crate::net::Net;
use pb_frame::Memory;
use pb_history::{Tallies, Tally};
use pb_link::{CustomerPlace, Lane};
use pb_relay::Bridge;
use std::alloc::Global;

/// Returns the counts of the steps of each bridge.
///
/// # Errors
///
/// `Memory` if an allocation failed.
fn bridge_tallies(alloc: Global, bridges: Vec<Bridge>) -> Result<Vec<Tally>, Memory>
    ensures { IfOk result (λ tallies. tallies.items ≡ map (λ b. b.steps) bridges.items) }
{
    let mut tallies = Vec::with_capacity(alloc, bridges.len())?;
    for bridge in bridges {
        tallies.push(bridge.into_steps().into_parts().0)?;
    }
    Ok(tallies)
}

/// Returns the counts of the steps of each lane.
///
/// # Errors
///
/// `Memory` if an allocation failed.
fn lane_tallies(alloc: Global, lanes: Vec<Lane>) -> Result<Vec<Tally>, Memory>
    ensures { IfOk result (λ tallies. tallies.items ≡ map (λ l. l.steps) lanes.items) }
{
    let mut tallies = Vec::with_capacity(alloc, lanes.len())?;
    for lane in lanes {
        tallies.push(lane.into_steps().into_parts().0)?;
    }
    Ok(tallies)
}

/// Returns the counts of the steps of each customer port.
///
/// # Errors
///
/// `Memory` if an allocation failed.
fn customer_tallies(alloc: Global, customers: Vec<CustomerPlace>) -> Result<Vec<Tally>, Memory>
    ensures { IfOk result (λ tallies. tallies.items ≡ map (λ p. p.steps) customers.items) }
{
    let mut tallies = Vec::with_capacity(alloc, customers.len())?;
    for customer in customers {
        tallies.push(customer.into_steps().into_parts().0)?;
    }
    Ok(tallies)
}

impl Net {
    /// Ends the network, and returns the counts of its steps, whether it keeps the steps or only counts them. Contracts
    /// see their record, which is lawful, and for which the guarantee of [`Net::finish`] holds.
    ///
    /// # Errors
    ///
    /// `Memory` if an allocation failed.
    pub fn tallies(self) -> Result<Tallies, Memory>
        ensures record { IfOk result (λ tallies. tallies ≡ self.rec) }
        ensures lawful { IfOk result (λ tallies. IsLawfulRecord spanning_tree self.plan tallies) }
        ensures headline { IfOk result (λ tallies. IsFaithful self.plan tallies) }
    {
        let Net {
            plan: _,
            limit: _,
            ring: _,
            is_kept: _,
            bridges,
            lanes,
            customers,
            inboxes,
            outboxes: _,
            slots: _,
            lists: _,
        } = self;
        let alloc = *inboxes.allocator();
        let bridges = bridge_tallies(alloc, bridges)?;
        let lanes = lane_tallies(alloc, lanes)?;
        let customers = customer_tallies(alloc, customers)?;
        Ok(Tallies::new(bridges, lanes, customers))
    }
}
