//! Counts of losses by cause.

ghost use Rattle.std.specs.Prelude.{◌≡◌, ◌<◌};
ghost use Rattle.pb_history.specs.CountLists.{no_counts, one_more, count_of};

use pb_lan::NoRoom;

/// The number of losses for each cause.
#[derive(Clone, Copy, PartialEq, Eq, Debug)]
pub struct CauseCounts {
    /// The losses because a queue or a table was full.
    pub full: u128,
    /// The losses because an allocation failed.
    pub memory: u128,
}

impl CauseCounts {
    /// Returns counts of zero.
    pub(crate) fn none() -> CauseCounts
        ensures { result ≡ no_counts }
    {
        CauseCounts { full: 0, memory: 0 }
    }

    /// Returns the counts with one more loss of this cause.
    pub(crate) fn one_more(self, cause: NoRoom) -> CauseCounts
        requires { count_of self cause < u128.MAX }
        ensures { result ≡ one_more self cause }
    {
        let CauseCounts { full, memory } = self;
        match cause {
            NoRoom::Full => CauseCounts {
                full: full + 1,
                memory,
            },
            NoRoom::Memory => CauseCounts {
                full,
                memory: memory + 1,
            },
        }
    }
}
