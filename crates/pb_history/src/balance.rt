//! The customers' frames that steps add to a network and remove from it.

ghost use Rattle.std.specs.Prelude.{◌≡◌, ◌≤◌, ◌<◌, ◌*◌, ◌==◌, ◌&&◌, ◌^◌, not, [], ◌∷◌, ◌++◌, length};
ghost use Rattle.std.specs.List.{count_by, sum_by, list_any};
ghost use Rattle.pb_lan.specs.Ports.{local_ports};
ghost use Rattle.pb_lan.specs.Queues.{is_refused};
ghost use Rattle.pb_history.specs.Draining.{is_marked, gets_copy, gain, loss};

use pb_lan::{Item, NoRoom, Outcome, Past, PortSet, Refusals, Step};
use std::marker::Model;

/// The numbers of a bridge's local ports.
const LOCAL_PORTS: [u8; 16] = [1, 2, 3, 4, 5, 6, 7, 8, 9, 10, 11, 12, 13, 14, 15, 16];

/// The numbers of customers' frames that steps added and removed. Contracts see the list of recorded steps.
#[derive(Drop)]
pub(crate) struct Balance {
    past: Past<Step>,
    gained: u128,
    parted: u128,
}

impl Model for Balance {
    ghost use Rattle.std.specs.Prelude.{List};
    ghost use Rattle.pb_lan.specs.declared.step.Step.{Step};
    ghost use Rattle.pb_history.specs.Draining.{AreBalanced};

    ghost Value = { List Step };

    ghost view = { λ b. b.past.items };

    ghost invariant = { λ b. AreBalanced b.past.items b.gained b.parted };
}

/// Checks whether the item is a customer's frame.
#[inline(always)]
fn is_marked(item: &Item) -> bool
    ensures { result ≡ is_marked item.now }
{
    item.mark.is_some()
}

/// Checks whether the port is among those that got no copy.
fn is_refused(refused: &[(u8, NoRoom)], port: u8) -> bool
    ensures { result ≡ is_refused refused.now port }
{
    refused.iter().any(|r| r.0 == port)
}

/// Checks whether the port is in the list.
fn is_chosen(chosen: &[u8], port: u8) -> bool
    ensures { result ≡ list_any (λ p. p == port) chosen.now }
{
    chosen.iter().any(|p| *p == port)
}

/// Returns how many of the chosen ports got a copy, if some got none.
fn copies_but(chosen: &[u8], refused: &[(u8, NoRoom)]) -> u128
    ensures exact { result ≡ count_by (λ port. list_any (λ p. p == port) chosen.now
        && not (is_refused refused.now port)) local_ports }
    ensures few { result ≤ 16 }
{
    LOCAL_PORTS
        .iter()
        .filter(|port| is_chosen(chosen, **port) && !is_refused(refused, **port))
        .count() as u128
}

/// Returns how many of the chosen ports got a copy, at most 16.
#[inline(always)]
fn copies(chosen: &PortSet, refused: &Refusals) -> u128
    ensures exact { result ≡ count_by (λ port. list_any (λ p. p == port) chosen.now
        && not (is_refused refused.now port)) local_ports }
    ensures few { result ≤ 16 }
{
    if refused.is_empty() {
        return u128::from(chosen.len());
    }
    copies_but(chosen.list().as_slice(), refused.list().as_slice())
}

/// Returns how many copies of a received frame were queued, at most 16.
#[inline(always)]
fn copies_of(outcome: &Outcome) -> u128
    ensures exact { result ≡ count_by (gets_copy outcome.now) local_ports }
    ensures few { result ≤ 16 }
{
    match outcome {
        Outcome::Relayed { chosen, refused } => copies(chosen, refused),
        Outcome::Filtered(_) | Outcome::Heard => 0,
    }
}

/// Returns how many customers' frames a step adds, at most 16.
#[inline(always)]
fn gain(step: &Step) -> u128
    ensures exact { result ≡ gain step.now }
    ensures few { result ≤ 16 }
{
    match step {
        Step::Poll { item } if is_marked(item) => 1,
        Step::Receive { item, outcome, .. } if is_marked(item) => copies_of(outcome),
        _ => 0,
    }
}

/// Returns how many customers' frames a step removes, at most one.
#[inline(always)]
fn loss(step: &Step) -> u128
    ensures exact { result ≡ loss step.now }
    ensures few { result ≤ 1 }
{
    let is_less = match step {
        Step::Receive { item, .. } | Step::Deliver { item, .. } => is_marked(item),
        Step::Take { item, lost, .. } => is_marked(item) && *lost,
        _ => false,
    };
    u128::from(is_less)
}

impl Balance {
    /// Returns the balance of no steps.
    pub(crate) fn new() -> Balance
        ensures { result ≡ [] }
    {
        Balance {
            past: Past::new(),
            gained: 0,
            parted: 0,
        }
    }

    /// Returns an equal copy. Allocates nothing.
    pub(crate) fn copied(&self) -> Balance
        ensures { result ≡ self.now }
    {
        Balance {
            past: self.past.copied(),
            gained: self.gained,
            parted: self.parted,
        }
    }

    /// Records one more step.
    #[inline(always)]
    pub(crate) fn note(&mut self, step: &Step)
        requires { length self.old < u64.MAX }
        ensures { self.new ≡ self.old ++ step.now ∷ [] }
    {
        self.gained += gain(step);
        self.parted += loss(step);
        self.past.note(step);
    }

    /// Returns how many customers' frames the steps add.
    pub(crate) fn gained(&self) -> u128
        ensures exact { result ≡ sum_by gain self.now }
        ensures few { result ≤ 16 * 2 ^ 64 }
    {
        self.gained
    }

    /// Returns how many customers' frames the steps remove.
    pub(crate) fn parted(&self) -> u128
        ensures exact { result ≡ sum_by loss self.now }
        ensures few { result ≤ 2 ^ 64 }
    {
        self.parted
    }
}
