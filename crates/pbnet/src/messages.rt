//! Messages on standard error, with their control characters escaped.

ghost use Rattle.std.specs.Prelude.{◌≡◌, string_bytes, IfOk};
ghost use Rattle.pb_printable.specs.Printable.{printable};

use pb_frame::Memory;
use pb_printable::put_printable;
use std::alloc::{AllocError, Global};

/// Returns a text with its control characters escaped.
///
/// # Errors
///
/// `Memory` if an allocation failed.
pub(crate) fn printable(alloc: Global, text: &str) -> Result<String, Memory>
    ensures { IfOk result (λ printed. string_bytes printed ≡ printable text.now) }
{
    let mut printed = String::new(alloc);
    put_printable(&mut printed, text)?;
    Ok(printed)
}

/// Prints a message on one line of standard error, with its control characters escaped. Prints nothing if an
/// allocation failed, or if the message itself could not be made.
pub(crate) fn complain(rt: &(impl Eprint + AllocGlobal), message: Result<String, AllocError>) {
    let Ok(message) = message else {
        return;
    };
    if let Ok(line) = printable(rt.alloc(), message.as_str()) {
        let _ = eprintln!(rt; "{line}");
    }
}
