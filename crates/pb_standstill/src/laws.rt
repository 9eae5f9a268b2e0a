//! Laws of lossless runs.

ghost use Rattle.pb_standstill.specs.Laws.{NoStandstill, NothingWaitsOrMoves};

/// Shows that in a lossless run either nothing waits or some place can take a step.
///
/// This holds at the end of every lawful record of a sound plan, if the links whose ends are both Forwarding form no
/// loop. What waits is in a queue, on a ring between two places or in a hand. A customer's device takes what it is
/// offered. A bridge receives an item only if the queue of each port to which it relays the item has a place, and no
/// ring holds more items than the plan's number. The law says nothing of fairness or of time.
pub fn nothing_waits_or_moves()
    ensures { NothingWaitsOrMoves }
{}

/// Shows that nothing waits if no place can take a step.
///
/// This holds under the same conditions as [`nothing_waits_or_moves`]. So a lossless run never stands still with a
/// frame under way.
pub fn no_standstill()
    ensures { NoStandstill }
{}
