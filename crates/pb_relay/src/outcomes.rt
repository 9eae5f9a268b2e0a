//! Outcomes of received items, as steps report them.

ghost use Rattle.std.specs.Prelude.{◌≡◌, true, is_some, Some};
ghost use Rattle.pb_relay.specs.Receptions.{outcome_in, newest_outcome};

use pb_lan::{Outcome, Step};

/// Returns a copy of an outcome. Allocates nothing.
fn copied(outcome: &Outcome) -> Outcome
    ensures { result ≡ outcome.now }
{
    match outcome {
        Outcome::Relayed { chosen, refused } => Outcome::Relayed {
            chosen: chosen.copied(),
            refused: refused.copied(),
        },
        Outcome::Filtered(reason) => Outcome::Filtered(*reason),
        Outcome::Heard => Outcome::Heard,
    }
}

/// Returns the outcome of a Receive step.
fn outcome_of(step: &Step) -> Outcome
    requires { is_some (outcome_in step.now) ≡ true }
    ensures { outcome_in step.now ≡ Some result }
{
    match step {
        Step::Receive { outcome, .. } => copied(outcome),
        _ => unreachable!(),
    }
}

/// Returns the outcome of the newest step, a Receive step: the one that was given back, or the last of the kept ones if
/// none was.
pub(crate) fn newest_outcome(given: &Option<Step>, kept: &[Step]) -> Outcome
    requires { is_some (newest_outcome given.now kept.now) ≡ true }
    ensures { newest_outcome given.now kept.now ≡ Some result }
{
    if let Some(step) = given {
        return outcome_of(step);
    }
    match kept.last() {
        Some(step) => outcome_of(step),
        None => unreachable!(),
    }
}
