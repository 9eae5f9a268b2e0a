//! Counts of dropped frames by the port that received them and the reason.

ghost use Rattle.std.specs.Prelude.{◌≡◌, ◌≤◌, ◌<◌, ◌+◌, ◌*◌, [], ◌∷◌, ◌++◌, length, slice_index_or, slice_set};
ghost use Rattle.std.specs.List.{count_by};
ghost use Rattle.pb_history.specs.Drops.{number_of, is_dropped, goes_nowhere, place_of, is_just};

use pb_lan::{Outcome, Past, Reason, Step};
use std::marker::Model;

/// The number of counts of a port: one for each reason, and one for frames that are relayed to no port.
const KINDS: usize = 10;

/// The number of the count of frames that were relayed to no port.
pub const NO_PORT: u8 = 9;

/// The number of counts: those of local ports 1 to 16. No port has number 0.
const PLACES: usize = 170;

/// The number of dropped frames by local port and reason. Contracts see the list of recorded steps.
#[derive(Drop)]
pub(crate) struct Drops {
    past: Past<Step>,
    counts: [u64; PLACES],
}

impl Model for Drops {
    ghost use Rattle.std.specs.Prelude.{List};
    ghost use Rattle.pb_lan.specs.declared.step.Step.{Step};
    ghost use Rattle.pb_history.specs.Drops.{AreDrops};

    ghost Value = { List Step };

    ghost view = { λ d. d.past.items };

    ghost invariant = { λ d. AreDrops d.past.items d.counts };
}

/// Returns the number under which the frames that are dropped for a reason are counted, 0 to 8. All reserved addresses
/// have one number.
pub fn drop_number(reason: Reason) -> u8
    ensures exact { result ≡ number_of reason }
    ensures few { result ≤ 8 }
{
    match reason {
        Reason::NotForwarding => 0,
        Reason::NotMember => 1,
        Reason::Untagged => 2,
        Reason::Reserved(_) => 3,
        Reason::Malformed => 4,
        Reason::Worn => 5,
        Reason::Memory => 6,
        Reason::STagged => 7,
        Reason::Long => 8,
    }
}

/// Returns the place of the count of a step, if it dropped a frame.
#[inline(always)]
fn place_of(step: &Step) -> Option<usize>
    ensures { result ≡ place_of step.now }
{
    match step {
        Step::Receive {
            port,
            outcome: Outcome::Filtered(reason),
            ..
        } => Some(KINDS * usize::from(*port) + usize::from(drop_number(*reason))),
        Step::Receive {
            port,
            outcome: Outcome::Relayed { chosen, .. },
            ..
        } if chosen.len() == 0 => Some(KINDS * usize::from(*port) + usize::from(NO_PORT)),
        _ => None,
    }
}

/// Counts one more frame at a place. Nothing changes if there is no such place.
fn count_one(counts: &mut [u64; PLACES], place: usize)
    requires { place < PLACES → slice_index_or counts.old place 0 < u64.MAX }
    ensures one { counts.new ≡ slice_set counts.old place (slice_index_or counts.old place 0 + 1) }
    ensures places { length counts.old ≡ PLACES }
{
    if place < PLACES {
        counts[place] += 1;
    }
}

impl Drops {
    /// Returns the counts of no steps.
    pub(crate) fn new() -> Drops
        ensures { result ≡ [] }
    {
        Drops {
            past: Past::new(),
            counts: [0; PLACES],
        }
    }

    /// Returns an equal copy. Allocates nothing.
    pub(crate) fn copied(&self) -> Drops
        ensures { result ≡ self.now }
    {
        Drops {
            past: self.past.copied(),
            counts: self.counts,
        }
    }

    /// Records one more step.
    #[inline(always)]
    pub(crate) fn note(&mut self, step: &Step)
        requires { length self.old < u64.MAX }
        ensures { self.new ≡ self.old ++ step.now ∷ [] }
    {
        if let Some(place) = place_of(step) {
            count_one(&mut self.counts, place);
        }
        self.past.note(step);
    }

    /// Returns how many frames that a port received were dropped for a reason.
    pub(crate) fn at(&self, port: u8, reason: Reason) -> u64
        requires { port ≤ 16 }
        ensures { result ≡ count_by (is_dropped port reason) self.now }
    {
        self.counts[KINDS * usize::from(port) + usize::from(drop_number(reason))]
    }

    /// Returns how many frames that a port received were relayed to no port.
    pub(crate) fn nowhere(&self, port: u8) -> u64
        requires { port ≤ 16 }
        ensures { result ≡ count_by (goes_nowhere port) self.now }
    {
        self.counts[KINDS * usize::from(port) + usize::from(NO_PORT)]
    }
}
