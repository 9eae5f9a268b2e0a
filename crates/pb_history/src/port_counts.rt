//! Counts of losses by port and cause.

ghost use Rattle.std.specs.Prelude.{◌≡◌, ◌≤◌, ◌<◌, ◌+◌, [], ◌∷◌, ◌++◌, length, slice_index_or};
ghost use Rattle.pb_history.specs.Losses.{counts_at};
ghost use Rattle.pb_history.specs.CountLists.{no_counts, one_more_at, count_of};

use crate::cause_counts::CauseCounts;
use pb_lan::{NoRoom, Past};
use std::marker::Model;

/// The number of counts: one for each local port by its number, 1 to 16. No port has number 0.
const PLACES: usize = 17;

/// The number of losses at each local port, by cause. Contracts see the list of recorded ports and causes.
#[derive(Drop)]
pub(crate) struct PortCounts {
    noted: Past<(u8, NoRoom)>,
    counts: [CauseCounts; PLACES],
}

impl Model for PortCounts {
    ghost use Rattle.std.specs.Prelude.{ℕ, List};
    ghost use Rattle.pb_lan.specs.declared.step.NoRoom.{NoRoom};
    ghost use Rattle.pb_history.specs.CountLists.{AreCounts};

    ghost Value = { List (ℕ × NoRoom) };

    ghost view = { λ c. c.noted.items };

    ghost invariant = { λ c. AreCounts c.noted.items c.counts };
}

/// Counts one more loss at a port. Nothing changes if there is no such port.
fn count_one(counts: &mut [CauseCounts; PLACES], port: u8, cause: NoRoom)
    requires { port < PLACES → count_of (slice_index_or counts.old port no_counts) cause < u128.MAX }
    ensures one { counts.new ≡ one_more_at counts.old port cause }
    ensures places { length counts.old ≡ PLACES }
{
    let place = usize::from(port);
    if place < PLACES {
        counts[place] = counts[place].one_more(cause);
    }
}

impl PortCounts {
    /// Returns counts of zero.
    pub(crate) fn new() -> PortCounts
        ensures { result ≡ [] }
    {
        PortCounts {
            noted: Past::new(),
            counts: [CauseCounts::none(); PLACES],
        }
    }

    /// Returns an equal copy. Allocates nothing.
    pub(crate) fn copied(&self) -> PortCounts
        ensures { result ≡ self.now }
    {
        PortCounts {
            noted: self.noted.copied(),
            counts: self.counts,
        }
    }

    /// Records a loss at a port.
    fn note(&mut self, port: u8, cause: NoRoom)
        requires { length self.old < u128.MAX }
        ensures { self.new ≡ self.old ++ (port, cause) ∷ [] }
    {
        count_one(&mut self.counts, port, cause);
        self.noted.note(&(port, cause));
    }

    /// Records a loss at each of these ports.
    pub(crate) fn note_all(&mut self, losses: &[(u8, NoRoom)])
        requires { length self.old + length losses.now ≤ u128.MAX }
        ensures { self.new ≡ self.old ++ losses.now }
    {
        for loss in losses {
            let (port, cause) = *loss;
            self.note(port, cause);
        }
    }

    /// Returns how many losses a port had, by cause.
    pub(crate) fn at(&self, port: u8) -> CauseCounts
        requires { port ≤ 16 }
        ensures { result ≡ counts_at port self.now }
    {
        self.counts[usize::from(port)]
    }
}
