//! The turn in which a bridge receives a frame.

use pb_lan::Outcome;
use pb_threads::{Dropped, Turn, TurnStatus};

/// The copies of a frame: how many were queued, how many were lost because a queue was full, and what became of a frame
/// for which no port was chosen.
struct Copies {
    queued: u64,
    refused: u64,
    dropped: Option<Dropped>,
}

/// Returns the copies of a received frame with this outcome.
fn copies_of(outcome: &Outcome) -> Copies {
    match outcome {
        Outcome::Relayed { chosen, refused } => {
            let (chosen, refused) = (chosen.list(), refused.list());
            let (chosen, refused) = (chosen.as_slice().len(), refused.as_slice().len());
            Copies {
                queued: chosen.saturating_sub(refused) as u64,
                refused: refused as u64,
                dropped: if chosen == 0 {
                    Some(Dropped::Nowhere)
                } else {
                    None
                },
            }
        }
        Outcome::Filtered(reason) => Copies {
            queued: 0,
            refused: 0,
            dropped: Some(Dropped::By(*reason)),
        },
        Outcome::Heard => Copies {
            queued: 0,
            refused: 0,
            dropped: None,
        },
    }
}

/// Returns the turn in which a frame with this outcome was received. A marked frame is finished at this bridge, and its
/// queued copies are new.
pub(crate) fn received(is_marked: bool, outcome: &Outcome) -> Turn {
    let Copies {
        queued,
        refused,
        dropped,
    } = copies_of(outcome);
    Turn {
        status: TurnStatus::Done,
        more: if is_marked { queued } else { 0 },
        fewer: u64::from(is_marked),
        refused,
        dropped,
        port: 0,
        has_stirred: matches!(outcome, Outcome::Heard),
    }
}
