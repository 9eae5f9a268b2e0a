//! What the contracts of the errors of plan files say, as a caller may use it.

ghost use Rattle.std.specs.Prelude.{◌≤◌, IfOk, MatchOption, length};
ghost use Rattle.pb_plan_errors.specs.Errors.{AreErrors, IsFaultError, IsFirstError};
ghost use Rattle.pb_service.specs.PlanFiles.{IsPlanFile};

use pb_diagnostics::Diagnostic;
use pb_frame::Memory;
use pb_plan_errors::{fault_error, plan_error, plan_errors};
use pb_service::PlanFault;
use std::alloc::Global;

/// Calls `fault_error`.
pub(super) fn explained(alloc: Global, file: &[u8], fault: &PlanFault) -> Result<Diagnostic, Memory>
    ensures { IfOk result (IsFaultError file.now fault.now) }
{
    fault_error(alloc, file, fault)
}

/// Calls `plan_error`.
pub(super) fn first_error(alloc: Global, file: &[u8]) -> Result<Option<Diagnostic>, Memory>
    ensures { IfOk result (λ o. MatchOption o (IsPlanFile file.now) (IsFirstError file.now)) }
{
    plan_error(alloc, file)
}

/// Calls `plan_errors`.
pub(super) fn all_errors(alloc: Global, file: &[u8]) -> Result<Vec<Diagnostic>, Memory>
    ensures few { IfOk result (λ errors. length errors.items ≤ 50) }
    ensures errors { IfOk result (λ errors. AreErrors file.now errors.items) }
{
    plan_errors(alloc, file)
}
