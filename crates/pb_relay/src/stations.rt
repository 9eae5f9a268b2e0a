//! The stations that a bridge has learnt.

ghost use Rattle.std.specs.List.{filter};
ghost use Rattle.std.specs.Prelude.{◌≡◌};
ghost use Rattle.pb_frame.specs.Stations.{is_fresh, standing};
ghost use Rattle.pb_lan.specs.Choice.{now_after, news_of};

use crate::bridge::Bridge;
use pb_fdb::Entries;

/// The learning table of a bridge at a moment. Moments are in ticks of the bridge's clock.
#[derive(Drop)]
pub struct KnownStations<'a> {
    /// The entries in the order in which their stations were last seen, oldest first. Those that have aged out may be
    /// among them.
    pub entries: Entries<'a>,
    /// The moment.
    pub now: u64,
    /// The ageing time: an entry has aged out this many ticks after it was learnt (IEEE 802.1Q clause 8.8).
    pub ageing: u32,
}

impl Bridge {
    /// Returns the learning table of the bridge. Allocates nothing.
    ///
    /// Those of its entries that have not aged out are the stations that the bridge's steps noted and neither flushed
    /// nor noted again.
    pub fn stations(&self) -> KnownStations<'_>
        ensures ageing { result.ageing ≡ self.now.plan.ageing }
        ensures clock { result.now ≡ now_after self.now.steps }
        ensures live { filter (is_fresh result.ageing result.now) result.entries
            ≡ standing result.ageing result.now (news_of self.now.plan self.now.number self.now.steps) }
    {
        KnownStations {
            entries: self.forwarding.table.entries(),
            now: self.clock,
            ageing: self.plan.ageing,
        }
    }
}
