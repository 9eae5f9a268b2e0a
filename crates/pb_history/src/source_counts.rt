//! Counts of sources that a learning table did not learn.

ghost use Rattle.std.specs.Prelude.{◌≡◌, ◌<◌, [], ◌∷◌, ◌++◌, length};
ghost use Rattle.pb_history.specs.Losses.{counts_of};

use crate::cause_counts::CauseCounts;
use pb_lan::{NoRoom, Past};
use std::marker::Model;

/// The number of sources that were not learnt, by cause. Contracts see the list of recorded causes.
#[derive(Drop)]
pub(crate) struct SourceCounts {
    noted: Past<NoRoom>,
    counts: CauseCounts,
}

impl Model for SourceCounts {
    ghost use Rattle.std.specs.Prelude.{◌≡◌, List};
    ghost use Rattle.pb_lan.specs.declared.step.NoRoom.{NoRoom};
    ghost use Rattle.pb_history.specs.Losses.{counts_of};

    ghost Value = { List NoRoom };

    ghost view = { λ c. c.noted.items };

    ghost invariant = { λ c. c.counts ≡ counts_of c.noted.items };
}

impl SourceCounts {
    /// Returns counts of zero.
    pub(crate) fn new() -> SourceCounts
        ensures { result ≡ [] }
    {
        SourceCounts {
            noted: Past::new(),
            counts: CauseCounts::none(),
        }
    }

    /// Returns an equal copy. Allocates nothing.
    pub(crate) fn copied(&self) -> SourceCounts
        ensures { result ≡ self.now }
    {
        SourceCounts {
            noted: self.noted.copied(),
            counts: self.counts,
        }
    }

    /// Records a source that was not learnt.
    pub(crate) fn note(&mut self, cause: NoRoom)
        requires { length self.old < u128.MAX }
        ensures { self.new ≡ self.old ++ cause ∷ [] }
    {
        self.counts = self.counts.one_more(cause);
        self.noted.note(&cause);
    }

    /// Returns how many sources were not learnt, by cause.
    pub(crate) fn counts(&self) -> CauseCounts
        ensures { result ≡ counts_of self.now }
    {
        self.counts
    }
}
