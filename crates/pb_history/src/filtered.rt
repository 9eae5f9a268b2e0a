//! Counts of filtered frames by the port that received them.

ghost use Rattle.std.specs.Prelude.{◌≡◌, ◌≤◌, ◌<◌, ◌+◌, [], ◌∷◌, ◌++◌, length, slice_index_or, slice_set};
ghost use Rattle.std.specs.Prelude.{option_to_list};
ghost use Rattle.std.specs.List.{count_by};
ghost use Rattle.pb_history.specs.Passages.{is_filtered, filtered_by};

use pb_lan::{Outcome, Past, Step};
use std::marker::Model;

/// The number of counts: one for each local port by its number, 1 to 16. No port has number 0.
const PLACES: usize = 17;

/// The number of filtered frames by local port. Contracts see the list of recorded steps.
#[derive(Drop)]
pub(crate) struct Filtered {
    past: Past<Step>,
    counts: [u64; PLACES],
}

impl Model for Filtered {
    ghost use Rattle.std.specs.Prelude.{List};
    ghost use Rattle.pb_lan.specs.declared.step.Step.{Step};
    ghost use Rattle.pb_history.specs.Passages.{AreFiltered};

    ghost Value = { List Step };

    ghost view = { λ f. f.past.items };

    ghost invariant = { λ f. AreFiltered f.past.items f.counts };
}

/// Returns the port at which a step filtered a frame.
#[inline(always)]
fn filtered_by(step: &Step) -> Option<u8>
    ensures { result ≡ filtered_by step.now }
{
    match step {
        Step::Receive {
            port,
            outcome: Outcome::Filtered(_),
            ..
        } => Some(*port),
        _ => None,
    }
}

/// Counts one more frame at a port. Nothing changes if there is no such port.
fn count_one(counts: &mut [u64; PLACES], port: u8)
    requires { port < PLACES → slice_index_or counts.old port 0 < u64.MAX }
    ensures one { counts.new ≡ slice_set counts.old port (slice_index_or counts.old port 0 + 1) }
    ensures places { length counts.old ≡ PLACES }
{
    let place = usize::from(port);
    if place < PLACES {
        counts[place] += 1;
    }
}

impl Filtered {
    /// Returns the counts of no steps.
    pub(crate) fn new() -> Filtered
        ensures { result ≡ [] }
    {
        Filtered {
            past: Past::new(),
            counts: [0; PLACES],
        }
    }

    /// Returns an equal copy. Allocates nothing.
    pub(crate) fn copied(&self) -> Filtered
        ensures { result ≡ self.now }
    {
        Filtered {
            past: self.past.copied(),
            counts: self.counts,
        }
    }

    /// Records one more step.
    #[inline(always)]
    pub(crate) fn note(&mut self, step: &Step)
        requires { length self.old < u64.MAX }
        ensures { self.new ≡ self.old ++ step.now ∷ [] }
    {
        if let Some(port) = filtered_by(step) {
            count_one(&mut self.counts, port);
        }
        self.past.note(step);
    }

    /// Returns how many frames that a port received were filtered.
    pub(crate) fn at(&self, port: u8) -> u64
        requires { port ≤ 16 }
        ensures { result ≡ count_by (is_filtered port) self.now }
    {
        self.counts[usize::from(port)]
    }
}
