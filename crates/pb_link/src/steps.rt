//! The list of steps of a place.

ghost use Rattle.std.specs.Prelude.{◌≡◌, true};
ghost use Rattle.pb_history.specs.StepLists.{with_step};

use pb_history::Steps;
use pb_lan::Step;

/// Appends a step. If steps are only counted, the step is dropped.
#[inline(always)]
pub(crate) fn append(steps: &mut Steps, step: Step)
    requires { steps.old.is_reserved ≡ true }
    ensures { steps.new ≡ with_step steps.old step }
{
    let _ = steps.append(step);
}
