//! Whether the states of ports change while customers' frames are in the network.

ghost use Rattle.std.specs.Prelude.{◌≡◌, ◌≤◌, ◌||◌, ◌&&◌, [], ◌∷◌, ◌++◌};
ghost use Rattle.std.specs.List.{list_any};
ghost use Rattle.pb_history.specs.Late.{is_receipt, changes_state, changes_late};

use crate::newest::moved_by;
use pb_lan::{Past, Step};
use std::marker::Model;

/// Whether a bridge received a customer's frame, and whether a port changed its state after that. Contracts see the
/// list of recorded steps.
#[derive(Drop)]
pub(crate) struct Late {
    past: Past<Step>,
    seen: bool,
    late: bool,
}

impl Model for Late {
    ghost use Rattle.std.specs.Prelude.{List};
    ghost use Rattle.pb_lan.specs.declared.step.Step.{Step};
    ghost use Rattle.pb_history.specs.Late.{AreFollowed};

    ghost Value = { List Step };

    ghost view = { λ l. l.past.items };

    ghost invariant = { λ l. AreFollowed l.past.items l.seen l.late };
}

/// Checks whether a step received a customer's frame.
#[inline(always)]
fn is_receipt(step: &Step) -> bool
    ensures { result ≡ is_receipt step.now }
{
    match step {
        Step::Receive { item, .. } => item.mark.is_some(),
        _ => false,
    }
}

/// Checks whether a step changed the state of a port.
#[inline(always)]
fn changes_state(step: &Step) -> bool
    ensures { result ≡ changes_state step.now }
{
    match moved_by(step) {
        Some(moved) => moved.states.as_slice().len() != 0,
        None => false,
    }
}

/// Returns whether one of two facts holds.
#[inline(always)]
fn either(first: bool, second: bool) -> bool
    ensures { result ≡ (first || second) }
{
    first || second
}

/// Returns whether both of two facts hold.
#[inline(always)]
fn both(first: bool, second: bool) -> bool
    ensures { result ≡ (first && second) }
{
    first && second
}

impl Late {
    /// Returns what is known of no steps.
    pub(crate) fn new() -> Late
        ensures { result ≡ [] }
    {
        Late {
            past: Past::new(),
            seen: false,
            late: false,
        }
    }

    /// Returns an equal copy. Allocates nothing.
    pub(crate) fn copied(&self) -> Late
        ensures { result ≡ self.now }
    {
        Late {
            past: self.past.copied(),
            seen: self.seen,
            late: self.late,
        }
    }

    /// Records one more step.
    #[inline(always)]
    pub(crate) fn note(&mut self, step: &Step)
        ensures { self.new ≡ self.old ++ step.now ∷ [] }
    {
        self.seen = either(self.seen, is_receipt(step));
        self.late = either(self.late, both(self.seen, changes_state(step)));
        self.past.note(step);
    }

    /// Returns whether a port changed its state after the bridge had received a customer's frame.
    pub(crate) fn is_late(&self) -> bool
        ensures { result ≡ changes_late self.now }
    {
        self.late
    }
}
