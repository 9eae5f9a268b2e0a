//! The reason why a worker can't take a step that is due.

ghost use Rattle.std.specs.Prelude.{◌≡◌, ◌↔◌, true, Ok};

use pb_frame::Memory;
use pb_threads::{Turn, TurnStatus};

/// The reason why a worker can't take a step that is due.
#[derive(Clone, Copy, PartialEq, Eq, Debug)]
pub(crate) enum Refusal {
    /// An allocation failed.
    Memory,
    /// The place has taken as many steps as it may.
    Limit,
}

impl From<Memory> for Refusal {
    fn from(_memory: Memory) -> Refusal {
        Refusal::Memory
    }
}

/// Whether a step was taken, or the reason why it could not be.
pub(crate) type Taken = Result<bool, Refusal>;

/// Returns the status of a turn that took a step or could not.
fn status_of(taken: Taken) -> TurnStatus
    ensures { (result ≡ TurnStatus.Done) ↔ (taken ≡ Ok true) }
{
    match taken {
        Ok(true) => TurnStatus::Done,
        Ok(false) => TurnStatus::Idle,
        Err(Refusal::Memory) => TurnStatus::Memory,
        Err(Refusal::Limit) => TurnStatus::Limit,
    }
}

/// Returns the turn of a step. If the step was taken, `more` is added to what is left to do, and `fewer` subtracted.
pub(crate) fn turn(taken: Taken, more: u64, fewer: u64) -> Turn
    ensures { (result.status ≡ TurnStatus.Done) ↔ (taken ≡ Ok true) }
{
    let status = status_of(taken);
    if status == TurnStatus::Done {
        return Turn {
            status,
            more,
            fewer,
            ..Turn::IDLE
        };
    }
    Turn {
        status,
        ..Turn::IDLE
    }
}
