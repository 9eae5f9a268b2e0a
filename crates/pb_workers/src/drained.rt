//! Checks whether a run has drained.

ghost use Rattle.std.specs.Prelude.{◌≡◌, ◌↔◌, All, IsTrue};
ghost use Rattle.pb_workers.specs.Drained.{TellsAllDrained};

use crate::access::Last;
use pb_forest::is_drained;
use pb_history::Tallies;

/// Checks whether every port came to its end.
fn are_all_ended(lasts: &[Last]) -> bool
    ensures { IsTrue result ↔ All (λ last. last ≡ Last.End) lasts.now }
{
    lasts.iter().all(|last| *last == Last::End)
}

/// Checks whether a run has drained: the newest poll of every customer port reported the end, and by the counts no
/// frame is on its way. Allocates nothing.
pub fn has_drained(lasts: &[Last], counts: &Tallies) -> bool
    ensures { TellsAllDrained counts.now lasts.now result }
{
    if are_all_ended(lasts) {
        return is_drained(counts);
    }
    false
}
