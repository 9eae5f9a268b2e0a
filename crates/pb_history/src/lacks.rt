//! Whether an allocation failed in the course of a step.

ghost use Rattle.std.specs.Prelude.{◌≡◌, ◌≤◌, [], ◌∷◌, ◌++◌};
ghost use Rattle.std.specs.List.{list_any};
ghost use Rattle.pb_history.specs.Memory.{drops_for_memory, any_memory, lacks_memory};
ghost use Rattle.pb_history.specs.Losses.{refused_by, unlearnt_by, is_cause};
ghost use Rattle.pb_lan.specs.declared.step.NoRoom.TheVariants.{Memory};

use crate::loss_counts::dropped_by;
use pb_frame::Learnt;
use pb_lan::{NoRoom, Outcome, Past, Reason, Step};
use std::marker::Model;

/// Whether an allocation failed in the course of a step. Contracts see the list of recorded steps.
#[derive(Drop)]
pub(crate) struct Lacks {
    past: Past<Step>,
    lacked: bool,
}

impl Model for Lacks {
    ghost use Rattle.std.specs.Prelude.{◌≡◌, List};
    ghost use Rattle.std.specs.List.{list_any};
    ghost use Rattle.pb_lan.specs.declared.step.Step.{Step};
    ghost use Rattle.pb_history.specs.Memory.{lacks_memory};

    ghost Value = { List Step };

    ghost view = { λ l. l.past.items };

    ghost invariant = { λ l. l.lacked ≡ list_any lacks_memory l.past.items };
}

/// Checks whether a step dropped a frame because an allocation failed.
#[inline(always)]
fn drops_for_memory(step: &Step) -> bool
    ensures { result ≡ drops_for_memory step.now }
{
    match step {
        Step::Receive {
            outcome: Outcome::Filtered(Reason::Memory),
            ..
        } => true,
        _ => false,
    }
}

/// Checks whether a copy or a BPDU was not queued because an allocation failed.
fn any_memory(losses: &[(u8, NoRoom)]) -> bool
    ensures { result ≡ any_memory losses.now }
{
    losses.iter().any(|loss| match loss.1 {
        NoRoom::Memory => true,
        NoRoom::Full => false,
    })
}

/// Checks whether a copy of a relayed frame was not queued because an allocation failed.
#[inline(always)]
fn refuses_for_memory(step: &Step) -> bool
    ensures { result ≡ any_memory (refused_by step.now) }
{
    match step {
        Step::Receive {
            outcome: Outcome::Relayed { refused, .. },
            ..
        } if !refused.is_empty() => any_memory(refused.list().as_slice()),
        _ => false,
    }
}

/// Checks whether a source was not learnt because an allocation failed.
#[inline(always)]
fn forgets_for_memory(step: &Step) -> bool
    ensures { result ≡ list_any (is_cause Memory) (unlearnt_by step.now) }
{
    match step {
        Step::Receive {
            learnt: Some(Learnt::Memory),
            ..
        } => true,
        _ => false,
    }
}

/// Checks whether an allocation failed in the course of a step.
#[inline(always)]
fn lacks_memory(step: &Step) -> bool
    ensures { result ≡ lacks_memory step.now }
{
    drops_for_memory(step)
        || refuses_for_memory(step)
        || any_memory(dropped_by(step))
        || forgets_for_memory(step)
}

impl Lacks {
    /// Returns what is known of no steps.
    pub(crate) fn new() -> Lacks
        ensures { result ≡ [] }
    {
        Lacks {
            past: Past::new(),
            lacked: false,
        }
    }

    /// Returns an equal copy. Allocates nothing.
    pub(crate) fn copied(&self) -> Lacks
        ensures { result ≡ self.now }
    {
        Lacks {
            past: self.past.copied(),
            lacked: self.lacked,
        }
    }

    /// Records one more step.
    #[inline(always)]
    pub(crate) fn note(&mut self, step: &Step)
        ensures { self.new ≡ self.old ++ step.now ∷ [] }
    {
        self.lacked = self.lacked || lacks_memory(step);
        self.past.note(step);
    }

    /// Returns whether an allocation failed in the course of a step.
    pub(crate) fn lacked(&self) -> bool
        ensures { result ≡ list_any lacks_memory self.now }
    {
        self.lacked
    }
}
