//! The tallies of all places of a network.

ghost use Rattle.std.specs.Prelude.{◌≡◌, IfOk};
ghost use Rattle.std.specs.List.{list_any};
ghost use Rattle.pb_history.specs.Late.{changes_late};
ghost use Rattle.pb_history.specs.Memory.{lacks_memory};
ghost use Rattle.pb_history.specs.Tallied.{record_of};

use crate::tally::Tally;
use pb_frame::{Memory, Seq};
use pb_lan::{Record, Step};
use std::alloc::Global;
use std::marker::Model;

/// The tallies of all places of a network, from which reports are computed. Contracts see the record.
#[derive(Drop)]
pub struct Tallies {
    bridges: Vec<Tally>,
    lanes: Vec<Tally>,
    customers: Vec<Tally>,
}

impl Model for Tallies {
    ghost use Rattle.pb_lan.specs.declared.record.Record.{Record};
    ghost use Rattle.pb_history.specs.Tallied.{record_of};

    ghost Value = { Record };

    ghost view = { λ t. record_of t.bridges.items t.lanes.items t.customers.items };
}

/// Returns a tally for each of these lists of steps.
///
/// # Errors
///
/// `Memory` if an allocation failed.
fn tallies_of(alloc: Global, places: &[Seq<Step>]) -> Result<Vec<Tally>, Memory>
    ensures { IfOk result (λ tallies. tallies.items ≡ places.now) }
{
    let mut tallies = Vec::with_capacity(alloc, places.len())?;
    for steps in places {
        tallies.push(Tally::of(steps.as_slice()))?;
    }
    Ok(tallies)
}

impl Tallies {
    /// Combines these tallies of bridges, lanes and customer ports, each in the order of a record. Allocates nothing.
    pub fn new(bridges: Vec<Tally>, lanes: Vec<Tally>, customers: Vec<Tally>) -> Tallies
        ensures { result ≡ record_of bridges.items lanes.items customers.items }
    {
        Tallies {
            bridges,
            lanes,
            customers,
        }
    }

    /// Returns the tallies of a record. The time is linear in the record, which no contract states.
    ///
    /// # Errors
    ///
    /// `Memory` if an allocation failed.
    pub fn of(alloc: Global, rec: &Record) -> Result<Tallies, Memory>
        ensures { IfOk result (λ tallies. tallies ≡ rec.now) }
    {
        let bridges = tallies_of(alloc, rec.bridges.as_slice())?;
        let lanes = tallies_of(alloc, rec.lanes.as_slice())?;
        let customers = tallies_of(alloc, rec.customers.as_slice())?;
        Ok(Tallies::new(bridges, lanes, customers))
    }

    /// Returns the tallies of the bridges.
    pub fn bridges(&self) -> &[Tally]
        ensures { result.now ≡ self.now.bridges }
    {
        self.bridges.as_slice()
    }

    /// Returns whether a port changed its state after its bridge had received a customer's frame. If none did, each
    /// customer's frame was handled in the states that ports have after the record.
    pub fn changed_late(&self) -> bool
        ensures { result ≡ list_any changes_late self.now.bridges }
    {
        self.bridges.iter().any(|tally| tally.changed_late())
    }

    /// Returns whether an allocation failed in the course of a bridge's step: a frame was dropped, a copy or a BPDU was
    /// not queued, or a source was not learnt for that.
    pub fn lacked_memory(&self) -> bool
        ensures { result ≡ list_any (λ steps. list_any lacks_memory steps) self.now.bridges }
    {
        self.bridges.iter().any(|tally| tally.lacked_memory())
    }

    /// Returns the tallies of the lanes. Link j has lane 2j-1 from a to b and lane 2j from b to a.
    pub fn lanes(&self) -> &[Tally]
        ensures { result.now ≡ self.now.lanes }
    {
        self.lanes.as_slice()
    }

    /// Returns the tallies of the customer ports.
    pub fn customers(&self) -> &[Tally]
        ensures { result.now ≡ self.now.customers }
    {
        self.customers.as_slice()
    }
}
