//! The octets of a key or table in a file.

ghost use Rattle.std.specs.Prelude.{IfOk, IfSome, MatchOption};
ghost use Rattle.pb_diagnostics.specs.Statements.{LacksSite};
ghost use Rattle.pb_plan_errors.specs.Marks.{IsMarkOf, IsLineOf};

use pb_diagnostics::{Mark, Part, Site, excerpt_of, mark_of, statement_of};
use pb_frame::Memory;
use std::alloc::Global;

/// Returns the octets of a part of the statement that gives the file a key or table, if there is one.
///
/// # Errors
///
/// `Memory` if an allocation failed.
pub(crate) fn mark_at(
    alloc: Global,
    file: &[u8],
    site: Site<'_>,
    part: Part,
) -> Result<Option<Mark>, Memory>
    ensures { IfOk result (λ o. MatchOption o (LacksSite file.now site.entry) (IsMarkOf file.now site.entry part)) }
{
    match statement_of(alloc, file, site)? {
        None => Ok(None),
        Some(statement) => Ok(Some(mark_of(alloc, file, &statement, part)?)),
    }
}

/// Returns the number of the line of a key or table, if it has one.
///
/// # Errors
///
/// `Memory` if an allocation failed.
pub(crate) fn line_of(alloc: Global, file: &[u8], site: Site<'_>) -> Result<Option<usize>, Memory>
    ensures { IfOk result (λ line. IfSome line (IsLineOf file.now site.entry)) }
{
    match mark_at(alloc, file, site, Part::Whole)? {
        None => Ok(None),
        Some(mark) => Ok(Some(excerpt_of(alloc, file, &mark)?.line)),
    }
}
